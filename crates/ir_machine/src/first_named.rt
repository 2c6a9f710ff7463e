//! The first global, and the first external, of each name, found without a walk.
ghost use Rattle.std.specs.Prelude.{◌≡◌, find, IfOk};
ghost use Rattle.std.specs.Option.{option_copied};
ghost use Rattle.ir_machine.specs.Starting as starting;
ghost use Rattle.ir_machine.specs.Walks as walks;

use crate::External;
use contents::Exact;
use indexmap::IndexMap;
use ir_core::{GlobalVar, Name};
use std::alloc::{AllocError, Global};

/// Where the first global of each name stands.
pub(crate) fn first_globals(
    alloc: Global,
    globals: &[GlobalVar],
) -> Result<IndexMap<Name, usize>, AllocError>
    ensures { IfOk result (λ firsts. walks.AreFirst walks.global_name globals.now firsts.entries) }
{
    let mut firsts = IndexMap::with_capacity(alloc, globals.len())?;
    for place in (0..globals.len()).rev() {
        firsts.insert(globals[place].name.copy(alloc)?, place)?;
    }
    Ok(firsts)
}

/// Where the first external of each name stands.
pub(crate) fn first_externals(
    alloc: Global,
    externals: &[External],
) -> Result<IndexMap<Name, usize>, AllocError>
    ensures { IfOk result (λ firsts. walks.AreFirst walks.external_name externals.now firsts.entries) }
{
    let mut firsts = IndexMap::with_capacity(alloc, externals.len())?;
    for place in (0..externals.len()).rev() {
        firsts.insert(externals[place].name.copy(alloc)?, place)?;
    }
    Ok(firsts)
}

pub(crate) fn global_named<'a>(
    globals: &'a [GlobalVar],
    firsts: &IndexMap<Name, usize>,
    name: &Name,
) -> Option<&'a GlobalVar>
    requires { walks.AreFirst walks.global_name globals.now firsts.now.entries }
    ensures { option_copied result ≡ find (walks.is_named walks.global_name name.now) globals.now }
{
    match firsts.get(name) {
        Some(place) => globals.get(*place),
        None => None,
    }
}

pub(crate) fn external_named<'a>(
    externals: &'a [External],
    firsts: &IndexMap<Name, usize>,
    name: &Name,
) -> Option<&'a External>
    requires { walks.AreFirst walks.external_name externals.now firsts.now.entries }
    ensures { option_copied result ≡ starting.external_named name.now externals.now }
{
    match firsts.get(name) {
        Some(place) => externals.get(*place),
        None => None,
    }
}
