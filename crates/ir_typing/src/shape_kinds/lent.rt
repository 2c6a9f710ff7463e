//! Names in an order that are lent, each found without a walk through the others.
ghost use Rattle.std.specs.Prelude.{◌≡◌};

use crate::shape_kinds::held::Held;
use crate::shape_kinds::room::names_at_most;
use ir_core::{Function, Name};
use std::alloc::{AllocError, Global};
use std::marker::Model;

/// Names in the order in which they are put. Contracts see them as their list.
pub struct LentNames<'a> {
    held: Held<'a>,
}

impl<'a> Drop for LentNames<'a> {
    fn drop(self) {
        let LentNames { held: _ } = self;
    }
}

impl<'a> Model for LentNames<'a> {
    ghost use Rattle.std.specs.Prelude.{List};
    ghost use Rattle.ir_types.specs.declared.names.Name.{Name};
    ghost use Rattle.ir_typing.specs.ShapeKinds.Held.{names_held};

    ghost Value = { List Name };

    ghost view = { λ it. names_held it.held };
}

impl<'a> LentNames<'a> {
    ghost use Rattle.std.specs.Prelude.{[], IfOk, OnOk};
    ghost use Rattle.ir_core.specs.NameIndexes.Among.{is_among, place_among};
    ghost use Rattle.ir_typing.specs.ShapeKinds.Names.{with_name};

    /// There is room for so many. Where few are told and more come, each is found by a walk.
    pub fn with_room(alloc: Global, names: usize) -> Result<LentNames<'a>, AllocError>
        ensures { IfOk result (λ names. names ≡ []) }
    {
        Ok(LentNames {
            held: Held::with_room(alloc, names)?,
        })
    }

    /// There is room for the names of the function.
    pub fn for_function(alloc: Global, function: &Function) -> Result<LentNames<'a>, AllocError>
        ensures { IfOk result (λ names. names ≡ []) }
    {
        LentNames::with_room(alloc, names_at_most(function))
    }

    pub fn new(alloc: Global) -> LentNames<'a>
        ensures { result ≡ [] }
    {
        LentNames {
            held: Held::new(alloc),
        }
    }

    pub fn has(&self, name: &Name) -> bool
        ensures { result ≡ is_among name.now self.now }
    {
        self.held.has(name)
    }

    /// The place of the name among them, if it is one.
    pub fn position(&self, name: &Name) -> Option<usize>
        ensures { result ≡ place_among name.now self.now }
    {
        self.held.position(name)
    }

    /// Puts the name behind the others where it is new, and says whether it was taken.
    pub fn take(&mut self, name: &'a Name) -> Result<bool, AllocError>
        ensures taken { IfOk result (λ taken. taken ≡ is_among name.now self.old) }
        ensures names { OnOk result (self.new ≡ with_name self.old name.now) }
    {
        self.held.take(name)
    }
}
