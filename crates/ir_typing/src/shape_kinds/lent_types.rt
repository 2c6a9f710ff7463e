//! The types of names, each found without a walk through the others.
ghost use Rattle.std.specs.Prelude.{◌≡◌};
ghost use Rattle.ir_typing.specs.ShapeKinds.Kept.{found_in, type_in};

use crate::shape_kinds::held_types::HeldTypes;
use crate::shape_kinds::room::names_at_most;
use ir_core::{Function, Name, Ty};
use std::alloc::{AllocError, Global};

/// The type of each name, or that it has none, as it is first told.
pub struct LentTypes<'a> {
    held: HeldTypes<'a>,
}

impl<'a> Drop for LentTypes<'a> {
    fn drop(self) {
        let LentTypes { held: _ } = self;
    }
}

impl<'a> LentTypes<'a> {
    ghost use Rattle.std.specs.Prelude.{not, IfOk, OnOk};
    ghost use Rattle.std.specs.Option.{is_some, option_copied, option_map};
    ghost use Rattle.ir_typing.specs.ShapeKinds.Typed.{none_typed, with_type};

    #[tactic(auto, using(crate::proofs::ShapeKinds::Types::none_kept))]
    pub fn new(alloc: Global) -> LentTypes<'a>
        ensures { type_in result ≡ none_typed }
    {
        LentTypes {
            held: HeldTypes::new(alloc),
        }
    }

    /// There is room for so many. Where few are told and more come, each is found by a walk.
    #[tactic(auto, using(crate::proofs::ShapeKinds::Types::none_kept))]
    pub fn with_room(alloc: Global, names: usize) -> Result<LentTypes<'a>, AllocError>
        ensures { IfOk result (λ types. type_in types ≡ none_typed) }
    {
        Ok(LentTypes {
            held: HeldTypes::with_room(alloc, names)?,
        })
    }

    /// There is room for the names of the function.
    pub fn for_function(alloc: Global, function: &Function) -> Result<LentTypes<'a>, AllocError>
        ensures { IfOk result (λ types. type_in types ≡ none_typed) }
    {
        LentTypes::with_room(alloc, names_at_most(function))
    }

    fn found(&self, name: &Name) -> Option<Option<&'a Ty>>
        ensures { result ≡ found_in self.now name.now }
    {
        self.held.get(name)
    }

    /// What is told of the name, if it is there: its type, or that it has none.
    #[tactic(auto, unfolding(crate::specs::ShapeKinds::Kept::type_in))]
    pub fn get(&self, name: &Name) -> Option<Option<&'a Ty>>
        ensures { option_map option_copied result ≡ type_in self.now name.now }
    {
        self.found(name)
    }

    /// Tells the type of a name where it is new, and says whether it is.
    pub fn put_first(&mut self, name: &'a Name, ty: Option<&'a Ty>) -> Result<bool, AllocError>
        ensures new { IfOk result (λ new. new ≡ not (is_some (type_in self.old name.now))) }
        ensures types { OnOk result (type_in self.new ≡ with_type (type_in self.old) name.now (option_copied ty.entry)) }
    {
        self.held.put(name, ty)
    }

    pub fn put(&mut self, name: &'a Name, ty: Option<&'a Ty>) -> Result<(), AllocError>
        ensures { OnOk result (type_in self.new ≡ with_type (type_in self.old) name.now (option_copied ty.entry)) }
    {
        self.put_first(name, ty)?;
        Ok(())
    }
}
