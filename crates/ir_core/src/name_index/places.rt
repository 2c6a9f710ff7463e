use crate::Name;
use indexmap::IndexMap;
use std::alloc::{AllocError, Global};

/// A place of each of some names, found without a walk through them. It borrows the names.
pub struct PlaceIndex<'a> {
    places: IndexMap<&'a Name, usize>,
}

impl<'a> Drop for PlaceIndex<'a> {
    fn drop(self) {
        let PlaceIndex { places: _ } = self;
    }
}

impl<'a> PlaceIndex<'a> {
    ghost use Rattle.std.specs.Prelude.{◌≡◌, [], IfOk, OnOk};
    ghost use Rattle.ir_types.specs.declared.names.Name.{Name};
    ghost use Rattle.ir_core.specs.NameIndexes.Places.{ArePlaces, place_in, placed};

    /// No name has a place, and there is room for so many.
    pub fn with_room(alloc: Global, names: usize) -> Result<PlaceIndex<'a>, AllocError>
        ensures { IfOk result (λ index. ArePlaces index []) }
    {
        Ok(PlaceIndex {
            places: IndexMap::with_capacity(alloc, names)?,
        })
    }

    /// The place of the name, if it has one.
    pub fn position(&self, name: &Name) -> Option<usize>
        ensures { result ≡ place_in self.now name.now }
    {
        self.places.get(&name).copied()
    }

    /// The name has this place, and no other one.
    pub fn put(&mut self, name: &'a Name, place: usize) -> Result<(), AllocError>
        ensures { OnOk result ((other : Name) → place_in self.new other ≡ placed name.now place (place_in self.old) other) }
    {
        self.places.insert(name, place)?;
        Ok(())
    }
}
