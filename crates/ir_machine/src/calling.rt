//! Calls, and how a frame that waits gets the result.
ghost use Rattle.std.specs.Prelude.{◌≡◌, ◌<◌, ◌++◌, List, [], ◌∷◌, length, Some, None, IfOk, IfNone, IfSome, OnOk, OnErr, slice_get};
ghost use Rattle.ir_core.specs.declared.functions.Function.{Function};
ghost use Rattle.ir_core.specs.Types.{kind_of};
ghost use Rattle.ir_machine.specs.declared.items.Item.TheVariants as item;
ghost use Rattle.ir_values.specs.Values.{IsInKindOf};
ghost use Rattle.ir_machine.specs.Machine as machine;
ghost use Rattle.ir_machine.specs.Places as places;
ghost use Rattle.ir_machine.specs.Places.{registers_in, world_in};
ghost use Rattle.ir_machine.specs.Registers as meaning;
ghost use Rattle.ir_machine.specs.State.{Pending, scope_of};
ghost use Rattle.ir_machine.specs.Stepping.{Answers, IsAtCall, JustDoes, behind_line, state_under};

use crate::lines::{go_wrong, next_line, one_item};
use crate::machine::Here;
use crate::operands::operand_value;
use crate::reading::same_kind;
use crate::registers::RegisterFile;
use crate::showing::show_all;
use crate::starting::place_of;
use crate::{Chooser, Item, KeptFrame, Place, Progress, RunState, StepEnd, Stepped};
use block_memory::ShowEnd;
use contents::{Exact, Seq};
use ir_core::{
    Argument, Call, Declaration, Instr, Kind, Module, Name, Param, Value, kind_of, same_name,
};
use std::alloc::{AllocError, Global};
use std::mem::replace;

/// The value as it is read at another kind: poison where the two differ.
fn at_kind(own: Option<Kind>, kind: Option<Kind>, value: Value) -> Value
    requires { IsInKindOf kind value }
    ensures value { result ≡ machine.at_kind own kind value }
    ensures in_kind { IsInKindOf own result }
{
    match (own, kind) {
        (Some(mine), Some(theirs)) => {
            if same_kind(&theirs, &mine) {
                value
            } else {
                Value::Poison
            }
        }
        _ => Value::Poison,
    }
}

/// The registers of a function that is called: each parameter holds the argument at its place.
#[tactic(auto, using(crate::proofs::Handing::passed_next, crate::proofs::Handing::none_left))]
fn passed(
    alloc: Global,
    module: &Module,
    params: &[Param],
    arguments: &[Argument],
    registers: &RegisterFile,
) -> Result<RegisterFile, AllocError>
    ensures { IfOk result (λ file. registers_in file
        ≡ machine.passed params.now (machine.arguments_of (scope_of «module».now) (registers_in registers.now) arguments.now) meaning.no_registers) }
{
    let mut file = RegisterFile::empty(alloc);
    for i in 0..params.len() {
        if i >= arguments.len() {
            return Ok(file);
        }
        let operand = &arguments[i].operand;
        let value = operand_value(module, registers, operand);
        let own = kind_of(&params[i].ty);
        file.set(
            alloc,
            &params[i].name,
            own,
            at_kind(own, kind_of(&operand.ty), value),
        )?;
    }
    Ok(file)
}

/// Whether the module declares a function of that name.
fn is_declared(declarations: &[Declaration], name: &Name) -> bool
    ensures { result ≡ machine.is_declared name.now declarations.now }
{
    declarations
        .iter()
        .any(|declaration| same_name(&declaration.name, name))
}

/// The call before the place.
pub(crate) fn call_before(module: &Module, place: Place) -> Option<&Call>
    ensures some { IfSome result (λ call. places.call_before «module».now place ≡ Some call.now) }
    ensures none { IfNone result (places.call_before «module».now place ≡ None) }
{
    if place.line == 0 {
        return None;
    }
    let block = module
        .functions
        .get(place.function)?
        .blocks
        .get(place.block)?;
    match block.body.get(place.line - 1)? {
        Instr::Call(call) => Some(call.get()),
        _ => None,
    }
}

/// The frame, which waits for that call, gets its result.
pub(crate) fn give_result(
    alloc: Global,
    call: &Call,
    kind: Option<Kind>,
    value: Value,
    frame: &mut KeptFrame,
) -> Result<(), AllocError>
    requires { IsInKindOf kind value }
    ensures ok { OnOk result (registers_in frame.new.registers
        ≡ machine.set_into (registers_in frame.old.registers) call.now.name (kind_of call.now.result) kind value) }
    ensures err { OnErr result (registers_in frame.new.registers ≡ registers_in frame.old.registers) }
    ensures place { frame.new.place ≡ frame.old.place }
    ensures own { frame.new.own.items ≡ frame.old.own.items }
{
    match &call.name {
        Some(name) => {
            let own = kind_of(&call.result);
            frame
                .registers
                .set(alloc, name, own, at_kind(own, kind, value))
        }
        None => Ok(()),
    }
}

/// A function is entered at its first block, and its caller waits behind the call.
fn begin(
    alloc: Global,
    at: usize,
    registers: RegisterFile,
    frame: &mut KeptFrame,
    state: &mut RunState,
) -> Result<Seq<Item>, AllocError>
    requires room { frame.old.place.line < usize.MAX }
    ensures items { IfOk result (λ items. items ≡ item.Turn ∷ []) }
    ensures place { OnOk result (frame.new.place ≡ places.start_of at) }
    ensures registers { OnOk result (frame.new.registers ≡ registers) }
    ensures own { OnOk result (frame.new.own.items ≡ []) }
    ensures below { OnOk result (state.new.below.items ≡ state.old.below.items ++ record frame.old { place = places.next_line frame.old.place } ∷ []) }
    ensures same { OnErr result (frame.new ≡ frame.old) }
    ensures same_below { OnErr result (state.new.below.items ≡ state.old.below.items) }
    ensures waits { state.new.waits ≡ state.old.waits }
    ensures world { state.new.world ≡ state.old.world }
{
    let items = one_item(alloc, Item::Turn)?;
    state.below.reserve(1)?;
    frame.place = next_line(frame.place);
    let begun = KeptFrame {
        place: Place {
            function: at,
            block: 0,
            line: 0,
        },
        registers,
        own: Vec::new(alloc),
    };
    let Ok(()) = state.below.push(replace(frame, begun)) else {
        unreachable!()
    };
    Ok(items)
}

/// A function that the module defines is called. One without a block can't be.
fn enter(
    alloc: Global,
    here: &Here,
    at: usize,
    call: &Call,
    frame: &mut KeptFrame,
    state: &mut RunState,
) -> Result<Stepped, AllocError>
    requires at { at < length here.now.whole.now.functions }
    requires room { frame.old.place.line < usize.MAX }
    ensures does { (g : Function) (rest : List Pending) → slice_get here.now.whole.now.functions at ≡ Some g
        → IsAtCall here.now.whole.now here.now.function.now here.now.block.now call.now frame.old state.old rest
        → JustDoes (machine.begun g g.blocks (machine.arguments_of (scope_of here.now.whole.now) (registers_in frame.old.registers) call.now.arguments)
        (machine.waiting_for call.now (behind_line here.now.function.now here.now.block.now frame.old) ∷ rest) (world_in state.old.world))
        (state_under here.now.whole.now frame.new state.new) result }
    ensures same { OnErr result (state_under here.now.whole.now frame.new state.new ≡ state_under here.now.whole.now frame.old state.old) }
{
    let callee = &here.whole.functions.as_slice()[at];
    if callee.blocks.len() == 0 {
        return go_wrong(alloc);
    }
    let registers = passed(
        alloc,
        here.whole,
        callee.params.as_slice(),
        call.arguments.as_slice(),
        &frame.registers,
    )?;
    let items = begin(alloc, at, registers, frame, state)?;
    Ok(Stepped {
        items,
        progress: Progress::Goes,
    })
}

/// The outside is called, and the frame waits behind the call.
fn call_outside<C: Chooser>(
    alloc: Global,
    here: &Here,
    call: &Call,
    frame: &mut KeptFrame,
    state: &mut RunState,
    chooser: &mut C,
) -> Result<Stepped, StepEnd>
    requires room { frame.old.place.line < usize.MAX }
    ensures answers { (rest : List Pending)
        → IsAtCall here.now.whole.now here.now.function.now here.now.block.now call.now frame.old state.old rest
        → Answers (machine.called_outside call.now.callee (machine.arguments_of (scope_of here.now.whole.now) (registers_in frame.old.registers) call.now.arguments)
        (machine.waiting_for call.now (behind_line here.now.function.now here.now.block.now frame.old)) rest (world_in state.old.world))
        (C.script chooser.old) (C.script chooser.new) (state_under here.now.whole.now frame.new state.new) result }
    ensures same { OnErr result (state_under here.now.whole.now frame.new state.new ≡ state_under here.now.whole.now frame.old state.old) }
{
    let mut items = one_item(alloc, Item::Wrong)?.into_vec();
    let callee = call.callee.copy(alloc)?;
    match show_all(
        alloc,
        here.whole,
        &frame.registers,
        call.arguments.as_slice(),
        &mut state.world,
        chooser,
    ) {
        Ok(shown) => {
            items[0] = Item::Called(callee, shown);
            frame.place = next_line(frame.place);
            state.waits = true;
            Ok(Stepped {
                items: Seq::from_vec(items),
                progress: Progress::Goes,
            })
        }
        Err(ShowEnd::Wrong) => Ok(Stepped {
            items: Seq::from_vec(items),
            progress: Progress::IsWrong,
        }),
        Err(ShowEnd::NoChoice) => Err(StepEnd::NoChoice),
        Err(ShowEnd::Memory) => Err(StepEnd::Memory),
    }
}

/// A call of the function that the module defines first by that name; else of the outside, where the module declares it.
pub(crate) fn do_call<C: Chooser>(
    alloc: Global,
    here: &Here,
    call: &Call,
    frame: &mut KeptFrame,
    state: &mut RunState,
    chooser: &mut C,
) -> Result<Stepped, StepEnd>
    requires room { frame.old.place.line < usize.MAX }
    ensures answers { (rest : List Pending)
        → IsAtCall here.now.whole.now here.now.function.now here.now.block.now call.now frame.old state.old rest
        → Answers (machine.call_step here.now.whole.now call.now (behind_line here.now.function.now here.now.block.now frame.old) rest (world_in state.old.world))
        (C.script chooser.old) (C.script chooser.new) (state_under here.now.whole.now frame.new state.new) result }
    ensures same { OnErr result (state_under here.now.whole.now frame.new state.new ≡ state_under here.now.whole.now frame.old state.old) }
{
    match place_of(here.whole.functions.as_slice(), &call.callee) {
        Some(at) => Ok(enter(alloc, here, at, call, frame, state)?),
        None => {
            if is_declared(here.whole.declarations.as_slice(), &call.callee) {
                call_outside(alloc, here, call, frame, state, chooser)
            } else {
                Ok(go_wrong(alloc)?)
            }
        }
    }
}
