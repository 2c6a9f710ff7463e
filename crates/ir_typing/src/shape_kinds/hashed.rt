//! Names that are lent in an order, each found by its hash.
ghost use Rattle.std.specs.Prelude.{◌≡◌};

use ir_core::Name;
use std::alloc::{AllocError, Global};
use std::collections::HashMap;
use std::marker::Model;

/// Names in the order in which they are taken. Contracts see them as their list.
pub(crate) struct Hashed<'a> {
    names: Vec<&'a Name>,
    places: HashMap<&'a Name, usize>,
}

impl<'a> Drop for Hashed<'a> {
    fn drop(self) {
        let Hashed {
            names: _,
            places: _,
        } = self;
    }
}

impl<'a> Model for Hashed<'a> {
    ghost use Rattle.std.specs.Prelude.{List};
    ghost use Rattle.ir_types.specs.declared.names.Name.{Name};
    ghost use Rattle.ir_typing.specs.ShapeKinds.Hashed.{ArePlaces};
    ghost use Rattle.ir_typing.specs.ShapeKinds.Names.{named};

    ghost Value = { List Name };

    ghost view = { λ it. named it.names.items };

    ghost invariant = { λ it. ArePlaces (named it.names.items) it.places.entries };
}

impl<'a> Hashed<'a> {
    ghost use Rattle.std.specs.Prelude.{[], IfOk, OnOk};
    ghost use Rattle.ir_core.specs.NameIndexes.Among.{is_among, place_among};
    ghost use Rattle.ir_typing.specs.ShapeKinds.Names.{with_name};

    /// There is room for so many.
    pub(crate) fn with_room(alloc: Global, names: usize) -> Result<Hashed<'a>, AllocError>
        ensures { IfOk result (λ hashed. hashed ≡ []) }
    {
        Ok(Hashed {
            names: Vec::with_capacity(alloc, names)?,
            places: HashMap::with_capacity(alloc, names)?,
        })
    }

    /// Takes no memory.
    pub(crate) fn new(alloc: Global) -> Hashed<'a>
        ensures { result ≡ [] }
    {
        Hashed {
            names: Vec::new(alloc),
            places: HashMap::new(alloc),
        }
    }

    /// The place of the name among them, if it is one.
    pub(crate) fn position(&self, name: &Name) -> Option<usize>
        ensures { result ≡ place_among name.now self.now }
    {
        self.places.get(&name).copied()
    }

    pub(crate) fn has(&self, name: &Name) -> bool
        ensures { result ≡ is_among name.now self.now }
    {
        self.position(name).is_some()
    }

    /// Puts the name behind the others where it is new, and says whether it was taken.
    pub(crate) fn take(&mut self, name: &'a Name) -> Result<bool, AllocError>
        ensures taken { IfOk result (λ taken. taken ≡ is_among name.now self.old) }
        ensures names { OnOk result (self.new ≡ with_name self.old name.now) }
    {
        if self.has(name) {
            return Ok(true);
        }
        let place = self.names.len();
        self.names.push(name)?;
        match self.places.insert(name, place) {
            Ok(_) => Ok(false),
            Err(_) => {
                self.names.pop();
                Err(AllocError)
            }
        }
    }
}
