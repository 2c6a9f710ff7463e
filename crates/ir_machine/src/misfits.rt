//! Where an input doesn't fit.
ghost use Rattle.std.specs.Prelude.{◌≡◌, ℕ, IfOk};
ghost use Rattle.std.specs.Option.{option_copied, option_map};
ghost use Rattle.ir_machine.specs.declared.inputs.InputPath.{InputPath};
ghost use Rattle.ir_machine.specs.State.{scope_of};
ghost use Rattle.ir_machine.specs.Starting as starting;
ghost use Rattle.ir_machine.specs.Walks as walks;

use crate::first_named::{first_globals, global_named};
use crate::scalars::size_told;
use crate::{External, Input, InputBlock, InputPath};
use block_memory::{Names, Shown, ShownByte};
use indexmap::IndexMap;
use ir_core::{GlobalVar, Kind, Module, Name, NamedTypes, Param, fits, kind_of};
use std::alloc::{AllocError, Global};

fn unless(fitting: bool, place: InputPath) -> Option<InputPath>
    ensures { result ≡ starting.unless fitting place }
{
    if fitting { None } else { Some(place) }
}

fn argument_misfit(
    names: &Names,
    kind: Option<Kind>,
    argument: Shown,
    at: usize,
) -> Option<InputPath>
    ensures { result ≡ starting.argument_misfit names.now kind argument at }
{
    match (kind, argument) {
        (Some(Kind::Int(width)), Shown::Num(n)) => unless(fits(n, width), InputPath::Argument(at)),
        (Some(Kind::Ptr), Shown::Name(name, _)) => {
            unless(name < names.count(), InputPath::ArgumentName(at))
        }
        (Some(Kind::Ptr), Shown::Bare(_)) => None,
        _ => Some(InputPath::Argument(at)),
    }
}

#[tactic(auto, using(crate::proofs::Unfitting::argument_later, crate::proofs::Unfitting::argument_here, crate::proofs::Unfitting::arguments_end))]
fn arguments_misfit(names: &Names, params: &[Param], args: &[Shown]) -> Option<InputPath>
    ensures { result ≡ starting.arguments_misfit names.now 0 params.now args.now }
{
    for at in 0..params.len() {
        if args.len() <= at {
            return None;
        }
        let misfit = argument_misfit(names, kind_of(&params[at].ty), args[at], at);
        if misfit.is_some() {
            return misfit;
        }
    }
    None
}

fn is_named_byte(names: &Names, byte: ShownByte) -> bool
    ensures { result ≡ starting.is_named_byte names.now byte }
{
    match byte {
        ShownByte::Num(_) => true,
        ShownByte::Frag(name, _, _) => name < names.count(),
    }
}

/// Where the first byte stands that gives a name that isn't there.
#[tactic(auto, using(crate::proofs::Unfitting::first_later, crate::proofs::Unfitting::first_here))]
fn unnamed_byte(names: &Names, bytes: &[ShownByte]) -> Option<usize>
    ensures { (place : ℕ → InputPath) → starting.bytes_misfit names.now place bytes.now ≡ option_map place result }
{
    for at in 0..bytes.len() {
        if !is_named_byte(names, bytes[at]) {
            return Some(at);
        }
    }
    None
}

fn block_misfit(names: &Names, at: usize, block: &InputBlock) -> Option<InputPath>
    ensures { result ≡ starting.block_misfit names.now at block.now }
{
    match unnamed_byte(names, block.bytes.as_slice()) {
        Some(byte) => Some(InputPath::BlockByte(at, byte)),
        None => None,
    }
}

#[tactic(auto, using(crate::proofs::Unfitting::first_later, crate::proofs::Unfitting::first_here))]
fn blocks_misfit(names: &Names, blocks: &[InputBlock]) -> Option<InputPath>
    ensures { result ≡ starting.first_of (starting.block_misfit names.now) 0 blocks.now }
{
    for at in 0..blocks.len() {
        let misfit = block_misfit(names, at, &blocks[at]);
        if misfit.is_some() {
            return misfit;
        }
    }
    None
}

fn is_external(
    types: &NamedTypes,
    size: u64,
    global: Option<&GlobalVar>,
) -> Result<bool, AllocError>
    ensures { IfOk result (λ is. is ≡ starting.is_external types.now size (option_copied global.entry)) }
{
    match global {
        Some(global) => {
            if global.init.is_some() {
                return Ok(false);
            }
            Ok(size_told(types, &global.ty)? == size)
        }
        None => Ok(false),
    }
}

fn external_misfit(
    module: &Module,
    firsts: &IndexMap<Name, usize>,
    names: &Names,
    at: usize,
    external: &External,
) -> Result<Option<InputPath>, AllocError>
    requires firsts { walks.AreFirst walks.global_name «module».now.globals firsts.now.entries }
    ensures { IfOk result (λ misfit. misfit ≡ starting.external_misfit (scope_of «module».now) names.now at external.now) }
{
    let global = global_named(module.globals.as_slice(), firsts, &external.name);
    if !is_external(&module.types, external.bytes.len() as u64, global)? {
        return Ok(Some(InputPath::External(at)));
    }
    match unnamed_byte(names, external.bytes.as_slice()) {
        Some(byte) => Ok(Some(InputPath::ExternalByte(at, byte))),
        None => Ok(None),
    }
}

#[tactic(auto, using(crate::proofs::Unfitting::first_later, crate::proofs::Unfitting::first_here))]
fn externals_misfit(
    alloc: Global,
    module: &Module,
    names: &Names,
    externals: &[External],
) -> Result<Option<InputPath>, AllocError>
    ensures { IfOk result
        (λ misfit. misfit ≡ starting.first_of (starting.external_misfit (scope_of «module».now) names.now) 0 externals.now) }
{
    let firsts = first_globals(alloc, module.globals.as_slice())?;
    for at in 0..externals.len() {
        let misfit = external_misfit(module, &firsts, names, at, &externals[at])?;
        if misfit.is_some() {
            return Ok(misfit);
        }
    }
    Ok(None)
}

/// What doesn't fit first, if there is anything. A global of more than 2^31 bytes counts as memory that is refused.
pub(crate) fn misfit(
    alloc: Global,
    module: &Module,
    names: &Names,
    params: &[Param],
    input: &Input,
) -> Result<Option<InputPath>, AllocError>
    requires names { names.now ≡ starting.names_at_start (scope_of «module».now) input.now }
    ensures { IfOk result (λ misfit. misfit ≡ starting.misfit (scope_of «module».now) params.now input.now) }
{
    if params.len() != input.args.len() {
        return Ok(Some(InputPath::Arguments));
    }
    let misfit = arguments_misfit(names, params, input.args.as_slice());
    if misfit.is_some() {
        return Ok(misfit);
    }
    let misfit = blocks_misfit(names, input.blocks.as_slice());
    if misfit.is_some() {
        return Ok(misfit);
    }
    externals_misfit(alloc, module, names, input.externals.as_slice())
}
