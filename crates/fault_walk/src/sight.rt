//! What a module says without its bodies, and what is asked of it.
ghost use Rattle.std.specs.Prelude.{◌≡◌, IfOk};

use ir_core::{Module, Name, NamedTypes, Ty};
use ir_typing::{Beside, Callee, Judged};
use std::alloc::{AllocError, Global};
use std::marker::Model;

/// A module whose named types, globals and functions are found without a walk through them, and whose types are judged once. Contracts see
/// it as the module's heads.
pub struct Sight<'a> {
    beside: Beside<'a>,
    judged: Judged<'a>,
}

impl<'a> Model for Sight<'a> {
    ghost use Rattle.std.specs.Prelude.{◌≡◌};
    ghost use Rattle.std.specs.Coded.{codes};
    ghost use Rattle.ir_types.specs.contracts.ty.Ty as ty;
    ghost use Rattle.ir_core.specs.contracts.operands.Const as constant;
    ghost use Rattle.ir_core.specs.contracts.modules.Init as init;
    ghost use Rattle.named_modules.specs.Faults.{Heads, heads_of};

    ghost Value = { Heads };

    ghost coded = { Prim.hlevel (codes, ty.the_row.coded, constant.the_row.coded, init.the_row.coded) };

    ghost view = { λ it. heads_of it.beside };

    ghost invariant = { λ it. it.judged ≡ it.beside };
}

impl<'a> Drop for Sight<'a> {
    fn drop(self) {
        let Sight {
            beside: _,
            judged: _,
        } = self;
    }
}

impl<'a> Sight<'a> {
    ghost use Rattle.std.specs.Prelude.{List, true, false};
    ghost use Rattle.std.specs.Option.{option_copied, option_map};
    ghost use Rattle.fault_walk.specs.Told.{is_large_block, is_stepped_large};
    ghost use Rattle.ir_core.specs.NameIndexes.Among.{is_among};
    ghost use Rattle.ir_core.specs.Typing as typing;
    ghost use Rattle.ir_core.specs.Typing.{Index};
    ghost use Rattle.ir_typing.specs.OperandTests.Kept.{signature_of};
    ghost use Rattle.named_modules.specs.Faults.{heads_of, signature_in, type_names};

    /// Of the module its blocks play no part.
    pub fn new(alloc: Global, module: &'a Module) -> Result<Sight<'a>, AllocError>
        ensures { IfOk result (λ it. it ≡ heads_of «module».now) }
    {
        let beside = Beside::new(alloc, module)?;
        Ok(Sight {
            beside,
            judged: Judged::of(module),
        })
    }

    /// The types that the module names.
    pub(crate) fn types(&self) -> &'a NamedTypes
        ensures { result.now ≡ self.now.types }
    {
        self.beside.types()
    }

    /// Whether the module names a type so.
    pub(crate) fn has_type(&self, name: &Name) -> bool
        ensures { result ≡ is_among name.now (type_names self.now.types) }
    {
        self.beside.has_type(name)
    }

    /// The type of what the global variable of that name holds.
    pub(crate) fn contents(&self, name: &Name) -> Option<&'a Ty>
        ensures { option_copied result ≡ typing.contents_of self.now.globals name.now }
    {
        self.beside.contents(name)
    }

    /// The first function of that name.
    pub(crate) fn callee(&self, name: &Name) -> Option<Callee<'a>>
        ensures { option_map signature_of result ≡ signature_in self.now.signatures name.now }
    {
        self.beside.callee(name)
    }

    /// Whether so many of the type take more than a block may. A type without size doesn't.
    pub(crate) fn is_large(&self, ty: &Ty, count: u64) -> bool
        ensures { result ≡ is_large_block self.now.types ty.now count }
    {
        !self.judged.is_small_block(ty, count)
    }

    /// Whether it is seen at once that the type makes a block or has no size, and so does whatever indices enter in it.
    pub(crate) fn is_stepped_clear(&self, ty: &Ty) -> bool
        ensures { result ≡ true → (indices : List Index) → is_stepped_large self.now.types ty.now indices ≡ false }
    {
        self.judged.is_stepped_clear(ty)
    }
}
