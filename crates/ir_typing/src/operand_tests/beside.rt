//! A module, and what is asked of it beside a line.
ghost use Rattle.std.specs.Prelude.{◌≡◌, [], map, Some, IfOk};
ghost use Rattle.ir_types.specs.declared.named.NamedTy.{NamedTy};
ghost use Rattle.ir_core.specs.declared.modules.GlobalVar.{GlobalVar};
ghost use Rattle.ir_typing.specs.ShapeKinds.Kept.{type_in};
ghost use Rattle.ir_typing.specs.ShapeKinds.Names.{with_names};
ghost use Rattle.ir_typing.specs.ShapeKinds.Typed.{none_typed, with_types};

use crate::operand_tests::callees::{Callee, Callees};
use crate::operand_tests::sized::{are_sized, has_size};
use crate::shape_kinds::{LentNames, LentTypes};
use ir_core::{GlobalVar, Module, Name, NamedTy, NamedTypes, Ty};
use std::alloc::{AllocError, Global};
use std::marker::Model;

/// A module whose named types, globals and functions are found without a walk through them. Contracts see it as the module.
pub struct Beside<'a> {
    whole: &'a Module,
    types: LentNames<'a>,
    globals: LentTypes<'a>,
    callees: Callees<'a>,
    sized: bool,
}

impl<'a> Model for Beside<'a> {
    ghost use Rattle.ir_core.specs.declared.modules.Module.{Module};
    ghost use Rattle.std.specs.Coded.{codes};
    ghost use Rattle.ir_types.specs.contracts.ty.Ty as ty;
    ghost use Rattle.ir_core.specs.contracts.operands.Const as constant;
    ghost use Rattle.ir_core.specs.contracts.modules.Init as init;
    ghost use Rattle.ir_typing.specs.OperandTests.Kept.{IsKept};

    ghost Value = { Module };

    ghost coded = { Prim.hlevel (codes, ty.the_row.coded, constant.the_row.coded, init.the_row.coded) };

    ghost view = { λ it. it.whole.now };

    ghost invariant = { λ it. IsKept it.whole.now it.types it.globals it.callees it.sized };
}

impl<'a> Drop for Beside<'a> {
    fn drop(self) {
        let Beside {
            whole: _,
            types: _,
            globals: _,
            callees: _,
            sized: _,
        } = self;
    }
}

/// The names of these types.
fn names_of<'a>(alloc: Global, types: &'a [NamedTy]) -> Result<LentNames<'a>, AllocError>
    ensures { IfOk result (λ names. names ≡ with_names [] (map (λ (t : NamedTy). t.name) types.now)) }
{
    let mut names = LentNames::with_room(alloc, types.len())?;
    for named in types {
        names.take(&named.name)?;
    }
    Ok(names)
}

/// The types of what these globals hold, by their names.
fn contents_of<'a>(alloc: Global, globals: &'a [GlobalVar]) -> Result<LentTypes<'a>, AllocError>
    ensures { IfOk result (λ types. type_in types
        ≡ with_types none_typed (map (λ (g : GlobalVar). (g.name, Some g.ty)) globals.now)) }
{
    let mut types = LentTypes::with_room(alloc, globals.len())?;
    for global in globals {
        types.put(&global.name, Some(&global.ty))?;
    }
    Ok(types)
}

impl<'a> Beside<'a> {
    ghost use Rattle.std.specs.Option.{option_copied, option_map};
    ghost use Rattle.ir_types.specs.Named as named;
    ghost use Rattle.ir_core.specs.NameIndexes.Among.{is_among};
    ghost use Rattle.ir_core.specs.TypeNames.{type_names};
    ghost use Rattle.ir_core.specs.Typing as typing;
    ghost use Rattle.ir_typing.specs.OperandTests.Calls.{signature_in};
    ghost use Rattle.ir_typing.specs.OperandTests.Kept.{signature_of};
    ghost use Rattle.std.specs.Prelude.{true, is_some};
    ghost use Rattle.ir_types.specs.declared.names.Name.{Name};
    ghost use Rattle.ir_types.specs.declared.ty.Ty.{Named};
    ghost use Rattle.ir_types.specs.Named.{fields_of};

    pub fn new(alloc: Global, module: &'a Module) -> Result<Beside<'a>, AllocError>
        ensures { IfOk result (λ it. it ≡ «module».now) }
    {
        let types = names_of(alloc, module.types.as_slice())?;
        let globals = contents_of(alloc, module.globals.as_slice())?;
        let functions = module.functions.as_slice();
        let callees = Callees::of(alloc, functions, module.declarations.as_slice())?;
        Ok(Beside {
            whole: module,
            types,
            globals,
            callees,
            sized: are_sized(module, module.types.as_slice()),
        })
    }

    /// The types that the module names.
    pub fn types(&self) -> &'a NamedTypes
        ensures { result.now ≡ self.now.types }
    {
        &self.whole.types
    }

    /// Whether it is seen at once that each type has a size that the module names, and that has fields.
    pub(crate) fn names_sized(&self) -> bool
        ensures { result ≡ true → (x : Name) → is_some (fields_of self.now.types x) ≡ true → named.is_sized self.now.types (Named x) ≡ true }
    {
        let _ = &self.whole;
        self.sized
    }

    /// Whether the module names a type so.
    pub fn has_type(&self, name: &Name) -> bool
        ensures { result ≡ is_among name.now (type_names self.now) }
    {
        let _ = &self.whole;
        self.types.has(name)
    }

    /// The type of what the global variable of that name holds.
    pub fn contents(&self, name: &Name) -> Option<&'a Ty>
        ensures { option_copied result ≡ typing.contents_of self.now.globals name.now }
    {
        let _ = &self.whole;
        match self.globals.get(name) {
            Some(ty) => ty,
            None => None,
        }
    }

    /// The first function of that name.
    #[tactic(auto, unfolding(crate::specs::OperandTests::Kept::signature_by))]
    pub fn callee(&self, name: &Name) -> Option<Callee<'a>>
        ensures { option_map signature_of result ≡ signature_in (typing.signatures_of self.now) name.now }
    {
        let _ = &self.whole;
        self.callees.get(name)
    }

    /// Whether the type has a size.
    pub fn is_sized(&self, ty: &Ty) -> bool
        ensures { result ≡ named.is_sized self.now.types ty.now }
    {
        has_size(self.whole, ty)
    }
}
