//! A module whose named types are judged once.
ghost use Rattle.std.specs.Prelude.{◌≡◌, true};
ghost use Rattle.std.specs.List.{AllByRecursion};
ghost use Rattle.ir_types.specs.declared.ty.Ty.{Struct};
ghost use Rattle.ir_typing.specs.ModuleLimits.Small as small;

use contents::Seq;
use ir_core::{Module, NamedTy, NamedTypes, Shared, SizeFault, Ty, fits_block};
use std::marker::Model;

/// Whether so many of the type take no more than a block may. A type without size passes.
fn makes_block(module: &Module, ty: &Ty, count: u64) -> bool
    ensures { result ≡ small.is_small «module».now.types (ty.now, count) }
{
    match fits_block(module, ty, count) {
        Ok(_) => true,
        Err(SizeFault::Unsized) => true,
        Err(SizeFault::TooLarge) => false,
    }
}

/// Whether the type makes a block or has no size, and so does each that it holds, but for those that stand behind names.
#[cycle(clear)]
fn is_clear(module: &Module, ty: &Ty) -> bool
    ensures { result ≡ true → small.IsClear «module».now.types ty.now }
{
    if !makes_block(module, ty, 1) {
        return false;
    }
    match ty {
        Ty::Array(_, element) => is_clear(module, element.get()),
        Ty::Struct(fields) => are_clear(module, fields.get().as_slice()),
        Ty::Int(_) | Ty::Ptr(_) | Ty::Named(_) | Ty::Void => true,
    }
}

#[cycle(clear)]
fn are_clear(module: &Module, types: &[Ty]) -> bool
    ensures { result ≡ true → AllByRecursion (small.IsClear «module».now.types) types.now }
{
    for ty in types {
        if !is_clear(module, ty) {
            return false;
        }
    }
    true
}

/// Whether the struct of these fields makes a block or has no size. Takes no memory.
fn is_struct_small(module: &Module, fields: &Shared<Seq<Ty>>) -> bool
    ensures { result ≡ true → small.is_small «module».now.types (Struct fields.now, 1) ≡ true }
{
    match fields.share() {
        Ok(fields) => makes_block(module, &Ty::Struct(fields), 1),
        Err(_) => false,
    }
}

fn are_fields_clear(module: &Module, named: &NamedTy) -> bool
    ensures { result ≡ true → small.IsNamedClear «module».now.types named.now.fields }
{
    match &named.fields {
        Some(fields) => {
            are_clear(module, fields.get().as_slice()) && is_struct_small(module, fields)
        }
        None => true,
    }
}

/// Whether the fields of each of these named types are so.
fn are_named_clear(module: &Module, types: &[NamedTy]) -> bool
    ensures { result ≡ true → small.AreClear «module».now.types types.now }
{
    for named in types {
        if !are_fields_clear(module, named) {
            return false;
        }
    }
    true
}

/// A module. Beside it stands whether what indices enter in its named types makes blocks. Contracts see it as the module.
pub struct Judged<'a> {
    whole: &'a Module,
    clear: bool,
}

impl<'a> Model for Judged<'a> {
    ghost use Rattle.std.specs.Prelude.{◌≡◌, true};
    ghost use Rattle.ir_core.specs.declared.modules.Module.{Module};
    ghost use Rattle.std.specs.Coded.{codes};
    ghost use Rattle.ir_types.specs.contracts.ty.Ty as ty;
    ghost use Rattle.ir_core.specs.contracts.operands.Const as constant;
    ghost use Rattle.ir_core.specs.contracts.modules.Init as init;
    ghost use Rattle.ir_typing.specs.ModuleLimits.Small.{AreClear};

    ghost Value = { Module };

    ghost coded = { Prim.hlevel (codes, ty.the_row.coded, constant.the_row.coded, init.the_row.coded) };

    ghost view = { λ it. it.whole.now };

    ghost invariant = { λ it. it.clear ≡ true → AreClear it.whole.now.types it.whole.now.types };
}

impl<'a> Drop for Judged<'a> {
    fn drop(self) {
        let Judged { whole: _, clear: _ } = self;
    }
}

impl<'a> Judged<'a> {
    ghost use Rattle.std.specs.Prelude.{List};
    ghost use Rattle.ir_core.specs.Typing.{Index};

    pub fn of(module: &'a Module) -> Judged<'a>
        ensures { result ≡ «module».now }
    {
        let clear = are_named_clear(module, module.types.as_slice());
        Judged {
            whole: module,
            clear,
        }
    }

    /// The types that the module names.
    pub fn types(&self) -> &'a NamedTypes
        ensures { result.now ≡ self.now.types }
    {
        &self.whole.types
    }

    /// Whether so many of the type take no more than a block may. A type without size passes.
    pub fn is_small_block(&self, ty: &Ty, count: u64) -> bool
        ensures { result ≡ small.is_small self.now.types (ty.now, count) }
    {
        makes_block(self.whole, ty, count)
    }

    /// Whether it is seen at once that the type makes a block or has no size, and so does whatever indices enter in it.
    pub fn is_stepped_clear(&self, ty: &Ty) -> bool
        ensures { result ≡ true → (indices : List Index) → small.stepped_small self.now.types ty.now indices ≡ true }
    {
        if !self.clear {
            return false;
        }
        match ty {
            // Its struct is one of those that are judged.
            Ty::Named(_) => true,
            _ => is_clear(self.whole, ty),
        }
    }
}
