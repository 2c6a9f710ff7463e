ghost use Rattle.std.specs.Prelude.{◌≡◌, ◌≢◌, ◌↔◌, ◌<◌, ◌++◌, [], Some, None, map, replicate, slice_get, length, IfErr, IfOk, IfSome, IsErr, IsErrOf, MatchOption, OnOk};
ghost use Rattle.std.specs.List.{range_with_len};
ghost use Rattle.ir_core.specs.declared.values.Byte.TheVariants.{Num};
ghost use Rattle.ir_values.specs.Values.{IsInKindOf};
ghost use Rattle.ir_machine.specs.declared.inputs.InputPath.{InputPath};
ghost use Rattle.ir_machine.specs.declared.machine.StartEnd.TheVariants as start_end;
ghost use Rattle.ir_machine.specs.Registers as registers;
ghost use Rattle.ir_machine.specs.State.{Over, no_world, scope_of};
ghost use Rattle.ir_machine.specs.Machine as machine;
ghost use Rattle.ir_machine.specs.Starting as starting;
ghost use Rattle.ir_machine.specs.Walks as walks;
ghost use Rattle.ir_machine.specs.Places.{registers_in, state_of, world_in};

use crate::first_named::{external_named, first_externals};
use crate::given::{bytes_given, resolve};
use crate::lines::align_or;
use crate::misfits::misfit;
use crate::registers::RegisterFile;
use crate::scalars::{initial_bytes, size_told};
use crate::{Input, InputBlock, KeptFrame, KeptWorld, Place, RunState, StartEnd};
use block_memory::{Blocks, Names, Shown};
use indexmap::IndexMap;
use ir_core::{Byte, Function, GlobalVar, Kind, Module, Name, Param, Value, kind_of, same_name};
use std::alloc::{AllocError, Global};

/// Where the first definition of that name stands.
#[tactic(auto, using(crate::proofs::Starts::named_here, crate::proofs::Starts::named_later))]
pub(crate) fn place_of(functions: &[Function], name: &Name) -> Option<usize>
    ensures { MatchOption result (machine.function_named name.now functions.now ≡ None)
        (λ at. (at < length functions.now)
        × (machine.function_named name.now functions.now ≡ slice_get functions.now at)) }
{
    for i in 0..functions.len() {
        if same_name(&functions[i].name, name) {
            return Some(i);
        }
    }
    None
}

// ---- names

/// So many names more, each bound to the block of its number.
#[tactic(auto, using(crate::proofs::Starts::bound_more))]
fn bind_more(names: &mut Names, count: usize) -> Result<(), AllocError>
    ensures { OnOk result (names.new ≡ names.old ++ map Some (range_with_len (length names.old) count)) }
{
    for _ in 0..count {
        let next = names.count();
        names.bind(Some(next))?;
    }
    Ok(())
}

#[tactic(auto, using(crate::proofs::Starts::bound_twice))]
fn names_at_start(alloc: Global, module: &Module, input: &Input) -> Result<Names, AllocError>
    ensures { IfOk result (λ names. names ≡ starting.names_at_start (scope_of «module».now) input.now) }
{
    let mut names = Names::new(alloc);
    bind_more(&mut names, module.globals.len())?;
    bind_more(&mut names, input.blocks.len())?;
    Ok(names)
}

// ---- blocks

#[tactic(auto, using(crate::proofs::Starts::replicate_more))]
fn zero_bytes(alloc: Global, size: u64) -> Result<Vec<Byte>, AllocError>
    ensures { IfOk result (λ zeros. zeros.items ≡ replicate size (Num 0)) }
{
    let mut zeros = Vec::new(alloc);
    for _ in 0..size {
        zeros.push(Byte::Num(0))?;
    }
    Ok(zeros)
}

fn global_bytes(
    alloc: Global,
    module: &Module,
    names: &Names,
    firsts: &IndexMap<Name, usize>,
    input: &Input,
    global: &GlobalVar,
) -> Result<Vec<Byte>, AllocError>
    requires names { names.now ≡ starting.names_at_start (scope_of «module».now) input.now }
    requires firsts { walks.AreFirst walks.external_name input.now.externals firsts.now.entries }
    ensures { IfOk result
        (λ bytes. bytes.items ≡ starting.global_bytes (scope_of «module».now) input.now global.now global.now.init) }
{
    if let Some(init) = &global.init {
        return initial_bytes(alloc, module, &global.ty, init);
    }
    match external_named(input.externals.as_slice(), firsts, &global.name) {
        Some(external) => bytes_given(alloc, names, external.bytes.as_slice()),
        None => zero_bytes(alloc, size_told(&module.types, &global.ty)?),
    }
}

#[tactic(auto, using(crate::proofs::Starts::global_next))]
fn put_globals(
    alloc: Global,
    module: &Module,
    names: &Names,
    input: &Input,
    blocks: &mut Blocks,
) -> Result<(), AllocError>
    requires names { names.now ≡ starting.names_at_start (scope_of «module».now) input.now }
    ensures { OnOk result (blocks.new
        ≡ blocks.old ++ map (starting.global_cell (scope_of «module».now) input.now) «module».now.globals) }
{
    let firsts = first_externals(alloc, input.externals.as_slice())?;
    for global in module.globals.as_slice() {
        let bytes = global_bytes(alloc, module, names, &firsts, input, global)?;
        let align = align_or(&module.types, &global.ty, global.align);
        blocks.new_block(bytes.len() as u64, align, &bytes)?;
    }
    Ok(())
}

#[tactic(auto, using(crate::proofs::Starts::block_next))]
fn put_blocks(
    alloc: Global,
    names: &Names,
    given: &[InputBlock],
    blocks: &mut Blocks,
) -> Result<(), AllocError>
    ensures { OnOk result (blocks.new
        ≡ blocks.old ++ map (walks.cell_given (machine.given_byte (record no_world { names = names.now }))) given.now) }
{
    for block in given {
        let bytes = bytes_given(alloc, names, block.bytes.as_slice())?;
        blocks.new_block(bytes.len() as u64, block.align, &bytes)?;
    }
    Ok(())
}

fn world_at_start(
    alloc: Global,
    module: &Module,
    names: Names,
    input: &Input,
) -> Result<KeptWorld, AllocError>
    requires names { names ≡ starting.names_at_start (scope_of «module».now) input.now }
    ensures { IfOk result (λ world. world_in world ≡ starting.world_at_start (scope_of «module».now) input.now) }
{
    let mut blocks = Blocks::new(alloc);
    put_globals(alloc, module, &names, input, &mut blocks)?;
    put_blocks(alloc, &names, input.blocks.as_slice(), &mut blocks)?;
    Ok(KeptWorld { blocks, names })
}

// ---- registers

/// The value that an argument of a parameter's kind is.
#[tactic(auto, using(crate::proofs::Passing::argument_in_kind))]
fn argument_value(world: &KeptWorld, kind: Option<Kind>, at: usize, argument: Shown) -> Value
    requires fit { starting.argument_misfit world.now.names kind argument at ≡ None }
    ensures value { result ≡ machine.resolve (world_in world.now) argument }
    ensures kind { IsInKindOf kind result }
{
    resolve(&world.names, argument)
}

/// The registers on entry.
#[tactic(auto, using(crate::proofs::Starts::passed_next, crate::proofs::Starts::argument_fits, crate::proofs::Starts::arguments_fit, crate::proofs::Starts::passed_all, crate::proofs::Starts::passed_none))]
fn enter(
    alloc: Global,
    world: &KeptWorld,
    params: &[Param],
    args: &[Shown],
) -> Result<RegisterFile, AllocError>
    requires fit { starting.arguments_misfit world.now.names 0 params.now args.now ≡ None }
    ensures { IfOk result (λ file. registers_in file
        ≡ machine.passed params.now (starting.handed (world_in world.now) params.now args.now) registers.no_registers) }
{
    let mut file = RegisterFile::empty(alloc);
    for at in 0..params.len() {
        if args.len() <= at {
            return Ok(file);
        }
        let kind = kind_of(&params[at].ty);
        let value = argument_value(world, kind, at, args[at]);
        file.set(alloc, &params[at].name, kind, value)?;
    }
    Ok(file)
}

/// The state in which a run of that function on that input starts.
pub fn start(
    alloc: Global,
    module: &Module,
    entry: &Name,
    input: &Input,
) -> Result<RunState, StartEnd>
    requires { IfSome (machine.function_named entry.now «module».now.functions) (λ f. f.blocks ≢ []) }
    ensures started { IfOk result
        (λ run. starting.start «module».now entry.now input.now ≡ Some (state_of «module».now run)) }
    ensures running { IfOk result (λ run. state_of «module».now run ≢ Over) }
    ensures no_function { IsErrOf result StartEnd.NoFunction
        ↔ (machine.function_named entry.now «module».now.functions ≡ None) }
    ensures unfit { IfErr result (λ e. (place : InputPath) → e ≡ start_end.InputUnfit place
        → IfSome (machine.function_named entry.now «module».now.functions)
        (λ f. starting.misfit (scope_of «module».now) f.params input.now ≡ Some place)) }
    ensures told { IfSome (machine.function_named entry.now «module».now.functions)
        (λ f. (place : InputPath) → starting.misfit (scope_of «module».now) f.params input.now ≡ Some place
        → IsErr result) }
{
    let Some(at) = place_of(module.functions.as_slice(), entry) else {
        return Err(StartEnd::NoFunction);
    };
    let function = &module.functions.as_slice()[at];
    let names = names_at_start(alloc, module, input)?;
    if let Some(place) = misfit(alloc, module, &names, function.params.as_slice(), input)? {
        return Err(StartEnd::InputUnfit(place));
    }
    let world = world_at_start(alloc, module, names, input)?;
    let registers = enter(
        alloc,
        &world,
        function.params.as_slice(),
        input.args.as_slice(),
    )?;
    let place = Place {
        function: at,
        block: 0,
        line: 0,
    };
    Ok(RunState {
        top: Some(KeptFrame {
            place,
            registers,
            own: Vec::new(alloc),
        }),
        below: Vec::new(alloc),
        waits: false,
        world,
    })
}
