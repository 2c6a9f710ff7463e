ghost use Rattle.std.specs.Prelude.{◌≡◌, map, IfOk};
ghost use Rattle.ir_core.specs.NameIndexes.Among.{is_among};
ghost use Rattle.ir_core.specs.NameIndexes.Places.{ArePlaces};
ghost use Rattle.ir_rename.specs.Lent.{lent};
ghost use Rattle.ir_rename.specs.Named as meaning;
ghost use Rattle.ir_types.specs.declared.names.Name.TheVariants as name;

use crate::names::names_of;
use crate::rename::rename_function;
use crate::renaming::{Renaming, index_of};
use contents::{Exact, Seq, Text};
use ir_core::{Function, Module, Name, PlaceIndex};
use std::alloc::{AllocError, Global};

/// `v.7` for 7.
fn text_of(alloc: Global, number: u32) -> Result<Vec<u8>, AllocError>
    ensures { IfOk result (λ it. it.items ≡ meaning.text_of number) }
{
    let digits = number.to_string(alloc)?;
    let mut text = Vec::new(alloc);
    text.extend_from_slice(b"v.")?;
    text.extend_from_slice(digits.as_bytes())?;
    Ok(text)
}

/// Whether it is one of the names, which the index finds.
#[tactic(auto, using(crate::proofs::Tries::has_place))]
fn is_taken(taken: &[&Name], places: &PlaceIndex, name: &Name) -> bool
    requires { ArePlaces places.now (lent taken.now) }
    ensures { result ≡ is_among name.now (lent taken.now) }
{
    places.position(name).is_some()
}

/// The text, with as few dots behind it as make it none of the names.
fn fresh(
    alloc: Global,
    taken: &[&Name],
    places: &PlaceIndex,
    text: Vec<u8>,
) -> Result<Name, AllocError>
    requires { ArePlaces places.now (lent taken.now) }
    ensures { IfOk result (λ it. it ≡ name.Text (meaning.fresh (lent taken.now) text.items)) }
{
    let mut text = text;
    for _tried in 0..taken.len() {
        let name = Name::Text(Text::from_slice(alloc, text.as_slice())?);
        if !is_taken(taken, places, &name) {
            return Ok(name);
        }
        text.push(b'.')?;
    }
    Ok(Name::Text(Text::from_slice(alloc, text.as_slice())?))
}

fn named(
    alloc: Global,
    taken: &[&Name],
    places: &PlaceIndex,
    name: &Name,
) -> Result<Name, AllocError>
    requires { ArePlaces places.now (lent taken.now) }
    ensures { IfOk result (λ it. it ≡ meaning.named (lent taken.now) name.now) }
{
    match name {
        Name::Text(bytes) => Ok(Name::Text(bytes.copy(alloc)?)),
        Name::Number(number) => fresh(alloc, taken, places, text_of(alloc, *number)?),
    }
}

/// A text for each of these names, which is none of those that are taken.
fn all_named(
    alloc: Global,
    taken: &[&Name],
    places: &PlaceIndex,
    names: &[&Name],
) -> Result<Seq<Name>, AllocError>
    requires { ArePlaces places.now (lent taken.now) }
    ensures { IfOk result (λ it. it ≡ map (meaning.named (lent taken.now)) (lent names.now)) }
{
    let mut given = Vec::with_capacity(alloc, names.len())?;
    for name in names {
        given.push(named(alloc, taken, places, name)?)?;
    }
    Ok(Seq::from_vec(given))
}

fn named_function(alloc: Global, function: &Function) -> Result<Function, AllocError>
    ensures { IfOk result (λ it. it ≡ meaning.named_function «function».now) }
{
    let names = names_of(alloc, function)?;
    let places = index_of(alloc, names.as_slice())?;
    let given = all_named(alloc, names.as_slice(), &places, names.as_slice())?;
    let renaming = Renaming { places, given };
    rename_function(alloc, &renaming, function)
}

fn named_functions(alloc: Global, functions: &[Function]) -> Result<Seq<Function>, AllocError>
    ensures { IfOk result (λ it. it ≡ map meaning.named_function functions.now) }
{
    let mut named = Vec::with_capacity(alloc, functions.len())?;
    for function in functions {
        named.push(named_function(alloc, function)?)?;
    }
    Ok(Seq::from_vec(named))
}

/// The module in which each parameter, block and register that has the number N is named `v.N`, with as many dots behind it as tell it from
/// the other names of its function. Other names stay. Takes time by what the module holds.
pub fn name_all(alloc: Global, module: &Module) -> Result<Module, AllocError>
    ensures { IfOk result (λ it. it ≡ meaning.named_all «module».now) }
{
    Ok(Module {
        types: module.types.copy(alloc)?,
        globals: module.globals.copy(alloc)?,
        functions: named_functions(alloc, module.functions.as_slice())?,
        declarations: module.declarations.copy(alloc)?,
    })
}
