//! Names in place of others, each found without a walk.
ghost use Rattle.std.specs.Prelude.{◌≡◌, IfOk};
ghost use Rattle.ir_core.specs.NameIndexes.Places.{ArePlaces};
ghost use Rattle.ir_rename.specs.Lent.{lent, renamed};

use contents::{Exact, Seq};
use ir_core::{Name, PlaceIndex};
use std::alloc::{AllocError, Global};

/// Where each of the names stands first.
pub(crate) fn index_of<'a>(alloc: Global, names: &[&'a Name]) -> Result<PlaceIndex<'a>, AllocError>
    ensures { IfOk result (λ index. ArePlaces index (lent names.now)) }
{
    let mut index = PlaceIndex::with_room(alloc, names.len())?;
    let mut at = names.len();
    while at > 0 {
        at -= 1;
        index.put(names[at], at)?;
    }
    Ok(index)
}

/// The names of a function, by their places, and the name that is given at each place.
pub(crate) struct Renaming<'a> {
    pub(crate) places: PlaceIndex<'a>,
    pub(crate) given: Seq<Name>,
}

impl<'a> Drop for Renaming<'a> {
    fn drop(self) {
        let Renaming {
            places: _,
            given: _,
        } = self;
    }
}

impl<'a> Renaming<'a> {
    /// The name that is given in place of this one; itself, where none is.
    pub(crate) fn get(&self, alloc: Global, name: &Name) -> Result<Name, AllocError>
        ensures { IfOk result (λ it. it ≡ renamed self.now name.now) }
    {
        match self.places.position(name) {
            Some(place) if place < self.given.len() => self.given.as_slice()[place].copy(alloc),
            _ => name.copy(alloc),
        }
    }
}
