ghost use Rattle.std.specs.Prelude.{◌≡◌, IfOk, IsTrue};
ghost use Rattle.name_claims.specs.Indexes.{AreAllNew, first_at};
ghost use Rattle.name_claims.specs.Places.{Tells};

use crate::claims::Definition;
use crate::index::{Index, index_of};
use ir_core::Name;
use std::alloc::{AllocError, Global};

/// The most definitions that are walked through for each name. Of more there is an index.
const FEW: usize = 8;

/// How the first definition of a name is found.
#[derive(Drop)]
pub enum Places<'a> {
    /// By a walk through the definitions.
    Walk,
    Index(Index<'a>),
}

/// The index of the name's first definition, found by a walk.
#[tactic(auto, using(crate::proofs::Found::not_here, crate::proofs::Found::here))]
fn first_at(definitions: &[Definition], name: &Name) -> Option<usize>
    ensures { result ≡ first_at name.now definitions.now }
{
    for (at, definition) in definitions.iter().enumerate() {
        if *name == definition.name {
            return Some(at);
        }
    }
    None
}

/// The index of the name's first definition, if it has one.
pub fn position(definitions: &[Definition], places: &Places, name: &Name) -> Option<usize>
    requires { Tells places.now definitions.now }
    ensures { result ≡ first_at name.now definitions.now }
{
    match places {
        Places::Walk => first_at(definitions, name),
        Places::Index(index) => index.position(name),
    }
}

/// Whether it is known that no name is defined again.
pub fn are_all_new(definitions: &[Definition], places: &Places) -> bool
    requires { Tells places.now definitions.now }
    ensures { IsTrue result → AreAllNew definitions.now }
{
    let _definitions = definitions;
    match places {
        Places::Walk => false,
        Places::Index(index) => index.is_all_new(),
    }
}

/// How the definitions are found, of which most items have few.
pub fn places_of<'a>(alloc: Global, definitions: &'a [Definition]) -> Result<Places<'a>, AllocError>
    ensures { IfOk result (λ places. Tells places definitions.now) }
{
    if definitions.len() <= FEW {
        Ok(Places::Walk)
    } else {
        Ok(Places::Index(index_of(alloc, definitions)?))
    }
}
