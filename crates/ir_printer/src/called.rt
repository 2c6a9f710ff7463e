//! The functions that take further arguments, found by the names by which they are called.
ghost use Rattle.std.specs.Prelude.{◌≡◌, [], ◌∷◌, slice_get, IfOk, OnOk};
ghost use Rattle.std.specs.Option.{option_copied, option_or};
ghost use Rattle.ir_types.specs.declared.names.Name.{Name};
ghost use Rattle.ir_core.specs.NameIndexes.Places.{place_in};
ghost use Rattle.ir_printer.specs.Called.{TellsPlaces, place_from};

use ir_core::{Declaration, Name, PlaceIndex};
use std::alloc::{AllocError, Global};
use std::marker::Model;

/// What a module declares, of which those that take further arguments are found without a walk through them. Contracts see it as the
/// declarations.
pub(crate) struct Declared<'a> {
    declarations: &'a [Declaration],
    places: PlaceIndex<'a>,
}

impl<'a> Model for Declared<'a> {
    ghost use Rattle.std.specs.Prelude.{List};
    ghost use Rattle.std.specs.Coded.{codes};
    ghost use Rattle.ir_types.specs.contracts.ty.Ty as ty;
    ghost use Rattle.ir_core.specs.declared.modules.Declaration.{Declaration};
    ghost use Rattle.ir_printer.specs.Called.{TellsPlaces};

    ghost Value = { List Declaration };

    ghost coded = { Prim.hlevel (codes, ty.the_row.coded) };

    ghost view = { λ it. it.declarations.now };

    ghost invariant = { λ it. TellsPlaces it.places it.declarations.now };
}

impl<'a> Drop for Declared<'a> {
    fn drop(self) {
        let Declared {
            declarations: _,
            places: _,
        } = self;
    }
}

/// The place of each function that takes further arguments, where it stands first.
#[tactic(auto, using(crate::proofs::Further::joined))]
fn places_of<'a>(
    alloc: Global,
    declarations: &'a [Declaration],
) -> Result<PlaceIndex<'a>, AllocError>
    ensures { IfOk result (λ places. TellsPlaces places declarations.now) }
{
    let mut places = PlaceIndex::with_room(alloc, 0)?;
    for i in 0..declarations.len() {
        put(&mut places, &declarations[i], i)?;
    }
    Ok(places)
}

/// One more, unless one of its name is there.
fn put<'a>(
    places: &mut PlaceIndex<'a>,
    declaration: &'a Declaration,
    place: usize,
) -> Result<(), AllocError>
    ensures { OnOk result ((x : Name) → place_in places.new x
        ≡ option_or (place_in places.old x) (place_from place (declaration.now ∷ []) x)) }
{
    if !declaration.variadic {
        return Ok(());
    }
    match places.position(&declaration.name) {
        Some(_) => Ok(()),
        None => places.put(&declaration.name, place),
    }
}

/// The one at that place.
fn at(declarations: &[Declaration], place: usize) -> Option<&Declaration>
    ensures { option_copied result ≡ slice_get declarations.now place }
{
    declarations.get(place)
}

impl<'a> Declared<'a> {
    ghost use Rattle.ir_printer.specs.Printed.{called_in};

    pub(crate) fn new(
        alloc: Global,
        declarations: &'a [Declaration],
    ) -> Result<Declared<'a>, AllocError>
        ensures { IfOk result (λ it. it ≡ declarations.now) }
    {
        let places = places_of(alloc, declarations)?;
        Ok(Declared {
            declarations,
            places,
        })
    }

    /// The first one of that name that takes further arguments.
    pub(crate) fn get(&self, name: &Name) -> Option<&'a Declaration>
        ensures { option_copied result ≡ called_in self.now name.now }
    {
        match self.places.position(name) {
            Some(place) => at(self.declarations, place),
            None => None,
        }
    }
}
