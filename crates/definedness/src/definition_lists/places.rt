//! Where names stand first among others.
ghost use Rattle.std.specs.Prelude.{◌≡◌, ◌++◌, [], ◌∷◌, IfOk, OnOk};
ghost use Rattle.ir_core.specs.NameIndexes.Places.{ArePlaces};
ghost use Rattle.definedness.specs.Flow.{places_by};
ghost use Rattle.definedness.specs.DefinitionLists.Shown.{named};

use ir_core::{Name, PlaceIndex};
use std::alloc::{AllocError, Global};

/// Where each of the names stands first.
pub(crate) fn index_of<'a>(alloc: Global, names: &[&'a Name]) -> Result<PlaceIndex<'a>, AllocError>
    ensures { IfOk result (λ index. ArePlaces index (named names.now)) }
{
    let mut index = PlaceIndex::with_room(alloc, names.len())?;
    let mut at = names.len();
    while at > 0 {
        at -= 1;
        index.put(names[at], at)?;
    }
    Ok(index)
}

/// Puts the place of a name behind the others.
fn add_place(index: &PlaceIndex, name: &Name, places: &mut Vec<usize>) -> Result<(), AllocError>
    ensures { OnOk result (places.new.items ≡ places.old.items ++ places_by index.now (name.now ∷ [])) }
{
    if let Some(place) = index.position(name) {
        places.push(place)?;
    }
    Ok(())
}

/// The places of names, of those that have one.
pub(crate) fn places_of(
    alloc: Global,
    index: &PlaceIndex,
    names: &[&Name],
) -> Result<Vec<usize>, AllocError>
    ensures { IfOk result (λ places. places.items ≡ places_by index.now (named names.now)) }
{
    let mut places = Vec::with_capacity(alloc, names.len())?;
    for name in names {
        add_place(index, name, &mut places)?;
    }
    Ok(places)
}
