//! The step of a run: the frame on top does a line or a terminator, or the outside does something while it waits.
ghost use Rattle.std.specs.Prelude.{◌≡◌, ◌≢◌, ◌<◌, List, [], ◌∷◌, true, false, None, Some, IfOk, OnOk, OnErr, IsErr, IsErrOf, slice_get};
ghost use Rattle.ir_core.specs.Types.{kind_of};
ghost use Rattle.ir_core.specs.Functions.{successors_of};
ghost use Rattle.ir_core.specs.declared.values.Value.TheVariants.{Num};
ghost use Rattle.ir_values.specs.Values.{IsInKindOf};
ghost use Rattle.block_memory.specs.declared.items.Choice.{Choice};
ghost use Rattle.block_memory.specs.Memory.{ended, updated};
ghost use Rattle.ir_machine.specs.declared.items.Item.TheVariants as item;
ghost use Rattle.ir_machine.specs.declared.machine.Progress.TheVariants as progress;
ghost use Rattle.ir_machine.specs.Choices.{Did, Lacks, answer, TakesAsked};
ghost use Rattle.ir_machine.specs.Machine as machine;
ghost use Rattle.ir_machine.specs.Machine.{Ask};
ghost use Rattle.ir_machine.specs.Places.{frame_in, frame_of, pending_of, progress_of, registers_in, running_state, state_of, waiting_on, world_in};
ghost use Rattle.ir_machine.specs.Registers as registers;
ghost use Rattle.ir_machine.specs.State.{Over, Pending, World, scope_of};
ghost use Rattle.ir_machine.specs.Stepping as stepping;
ghost use Rattle.ir_machine.specs.Stepping.{Answers, IsAsBefore, IsOnTop, JustDoes, at_end_of, behind_line, state_under};

use crate::acting::{Acted, take_act};
use crate::calling::{call_before, do_call, give_result};
use crate::choosing::show;
use crate::jumping::{case_of, jump, side_of, told_label};
use crate::lines::{do_alloca, do_calm, do_store, go_wrong, one_item};
use crate::machine::Here;
use crate::operands::operand_value;
use crate::{Chooser, Item, KeptFrame, KeptWorld, Place, Progress, RunState, StepEnd, Stepped};
use block_memory::{Blocks, ShowEnd};
use contents::Seq;
use ir_core::{BlockId, Instr, Kind, Module, Name, Operand, Term, Value, kind_of};
use std::alloc::{AllocError, Global};

fn two_items(alloc: Global, first: Item, second: Item) -> Result<Seq<Item>, AllocError>
    ensures { IfOk result (λ items. items ≡ first ∷ second ∷ []) }
{
    let mut items = one_item(alloc, first)?;
    items.push(second)?;
    Ok(items)
}

/// The block of that number ends, where there is one.
#[tactic(auto, using(crate::proofs::Leaving::updated_past))]
fn end_one(block: BlockId, blocks: &mut Blocks)
    ensures { blocks.new ≡ updated ended blocks.old block }
{
    if block < blocks.count() {
        blocks.end_block(block);
    }
}

/// The blocks that a frame made end.
#[tactic(auto, using(crate::proofs::Leaving::ended_next))]
fn end_own(own: &[BlockId], blocks: &mut Blocks)
    ensures { blocks.new ≡ machine.all_ended own.now blocks.old }
{
    for i in 0..own.len() {
        end_one(own[i], blocks);
    }
}

/// The last return of a run: the result is shown, and the blocks that its frame made end.
fn last_return<C: Chooser>(
    alloc: Global,
    kind: Option<Kind>,
    value: Value,
    own: &[BlockId],
    world: &mut KeptWorld,
    chooser: &mut C,
) -> Result<Stepped, StepEnd>
    ensures made { IfOk result (λ stepped. answer (machine.return_step kind value [] (world_in world.old)) (C.script chooser.old)
        ≡ Did stepped.items Over (C.script chooser.new)) }
    ensures progress { IfOk result (λ stepped. stepped.progress ≡ progress_of stepped.items Over) }
    ensures no_choice { IsErrOf result StepEnd.NoChoice
        → answer (machine.return_step kind value [] (world_in world.old)) (C.script chooser.old) ≡ Lacks (C.script chooser.new) }
    ensures told { TakesAsked (machine.return_step kind value [] (world_in world.old)) (C.script chooser.old) (C.script chooser.new) }
    ensures ended { OnOk result (world.new.blocks ≡ machine.all_ended own.now world.old.blocks) }
    ensures same { OnErr result (world.new ≡ world.old) }
{
    let mut items = two_items(alloc, Item::Turn, Item::Wrong)?.into_vec();
    match show(kind, value, world, chooser) {
        Ok(shown) => {
            items[1] = Item::Returned(Some(shown));
            end_own(own, &mut world.blocks);
            Ok(Stepped {
                items: Seq::from_vec(items),
                progress: Progress::Ended,
            })
        }
        Err(ShowEnd::Wrong) => {
            end_own(own, &mut world.blocks);
            Ok(Stepped {
                items: Seq::from_vec(items),
                progress: Progress::IsWrong,
            })
        }
        Err(ShowEnd::NoChoice) => Err(StepEnd::NoChoice),
        Err(ShowEnd::Memory) => Err(StepEnd::Memory),
    }
}

/// The frame goes to the block of that label, or is wrong where there is none.
fn go_to(
    alloc: Global,
    here: &Here,
    label: &Name,
    frame: &mut KeptFrame,
) -> Result<Stepped, AllocError>
    ensures does { (rest : List Pending) (world : World)
        → JustDoes (machine.jump (scope_of here.now.whole.now) (at_end_of here.now.function.now here.now.block.now frame.old) rest world label.now)
        (running_state (frame_in here.now.function.now frame.new) rest world) result }
    ensures function { frame.new.place.function ≡ frame.old.place.function }
    ensures same { OnErr result (frame.new ≡ frame.old) }
{
    let Some(landing) = jump(
        alloc,
        here.whole,
        here.function,
        here.block,
        label,
        &frame.registers,
    )?
    else {
        return go_wrong(alloc);
    };
    let items = one_item(alloc, Item::Turn)?;
    frame.place = Place {
        function: frame.place.function,
        block: landing.block,
        line: 0,
    };
    frame.registers = landing.registers;
    Ok(Stepped {
        items,
        progress: Progress::Goes,
    })
}

/// A branch on undef: the frame goes to the label that is told.
fn do_told<C: Chooser>(
    alloc: Global,
    here: &Here,
    frame: &mut KeptFrame,
    chooser: &mut C,
) -> Result<Stepped, StepEnd>
    ensures answers { (rest : List Pending) (world : World) → Answers (Ask (machine.is_label (successors_of here.now.block.now.term))
        (λ c. machine.gone c (machine.jump (scope_of here.now.whole.now) (at_end_of here.now.function.now here.now.block.now frame.old) rest world)))
        (C.script chooser.old) (C.script chooser.new) (running_state (frame_in here.now.function.now frame.new) rest world) result }
    ensures function { frame.new.place.function ≡ frame.old.place.function }
    ensures same { OnErr result (frame.new ≡ frame.old) }
{
    match told_label(&here.block.term, chooser) {
        Some(label) => Ok(go_to(alloc, here, &label, frame)?),
        None => Err(StepEnd::NoChoice),
    }
}

/// A branch on a value: a number goes to its label, undef to the one that is told; an address counts as undef.
fn do_branch<C: Chooser>(
    alloc: Global,
    here: &Here,
    value: Value,
    numbered: &Name,
    frame: &mut KeptFrame,
    chooser: &mut C,
) -> Result<Stepped, StepEnd>
    ensures answers { (label : _ → _) → ((n : _) → value ≡ Num n → numbered.now ≡ label n) → (rest : List Pending) (world : World)
        → Answers (machine.branch value label (successors_of here.now.block.now.term)
        (machine.jump (scope_of here.now.whole.now) (at_end_of here.now.function.now here.now.block.now frame.old) rest world))
        (C.script chooser.old) (C.script chooser.new) (running_state (frame_in here.now.function.now frame.new) rest world) result }
    ensures function { frame.new.place.function ≡ frame.old.place.function }
    ensures same { OnErr result (frame.new ≡ frame.old) }
{
    match value {
        Value::Num(_) => Ok(go_to(alloc, here, numbered, frame)?),
        Value::Undef | Value::Ptr(_, _) | Value::Bare(_) => do_told(alloc, here, frame, chooser),
        Value::Poison => Ok(go_wrong(alloc)?),
    }
}

/// The frame, which waits for the call before its place, gets that as its result; a turn is shown.
fn resume(
    alloc: Global,
    module: &Module,
    kind: Option<Kind>,
    value: Value,
    caller: &mut KeptFrame,
) -> Result<Seq<Item>, AllocError>
    requires { IsInKindOf kind value }
    ensures items { IfOk result (λ items. items ≡ item.Turn ∷ []) }
    ensures goes { OnOk result ((p : Pending) → pending_of «module».now caller.old ≡ Some p
        → frame_of «module».now caller.new ≡ Some (machine.resumed p kind value)) }
    ensures same { OnErr result (IsAsBefore caller.old caller.new) }
{
    let items = one_item(alloc, Item::Turn)?;
    if let Some(call) = call_before(module, caller.place) {
        give_result(alloc, call, kind, value, caller)?;
    }
    Ok(items)
}

/// A return to the frame that waits below. The blocks that the frame made end.
fn go_back(
    alloc: Global,
    module: &Module,
    kind: Option<Kind>,
    value: Value,
    frame: &mut KeptFrame,
    state: &mut RunState,
) -> Result<Stepped, AllocError>
    requires kind { IsInKindOf kind value }
    requires waits { state.old.below.items ≢ [] }
    ensures does { (p : Pending) (rest : List Pending) → state.old.waits ≡ false → waiting_on «module».now state.old.below.items [] ≡ Some (p ∷ rest)
        → JustDoes (machine.return_step kind value (p ∷ rest) (machine.without_own frame.old.own.items (world_in state.old.world)))
        (state_under «module».now frame.new state.new) result }
    ensures same { OnErr result (state_under «module».now frame.new state.new ≡ state_under «module».now frame.old state.old) }
{
    let Some(mut caller) = state.below.pop() else {
        unreachable!()
    };
    match resume(alloc, module, kind, value, &mut caller) {
        Ok(items) => {
            end_own(&frame.own, &mut state.world.blocks);
            *frame = caller;
            Ok(Stepped {
                items,
                progress: Progress::Goes,
            })
        }
        Err(error) => {
            let Ok(()) = state.below.push(caller) else {
                unreachable!()
            };
            Err(error)
        }
    }
}

/// A return of that operand.
fn do_return<C: Chooser>(
    alloc: Global,
    here: &Here,
    operand: &Operand<Name>,
    frame: &mut KeptFrame,
    state: &mut RunState,
    chooser: &mut C,
) -> Result<Stepped, StepEnd>
    ensures answers { (rest : List Pending) → state.old.waits ≡ false → waiting_on here.now.whole.now state.old.below.items [] ≡ Some rest
        → Answers (machine.return_step (kind_of operand.now.ty)
        (registers.operand_value (scope_of here.now.whole.now) (registers.read (registers_in frame.old.registers)) operand.now)
        rest (machine.without_own frame.old.own.items (world_in state.old.world)))
        (C.script chooser.old) (C.script chooser.new) (state_under here.now.whole.now frame.new state.new) result }
    ensures same { OnErr result (state_under here.now.whole.now frame.new state.new ≡ state_under here.now.whole.now frame.old state.old) }
{
    let value = operand_value(here.whole, &frame.registers, operand);
    let kind = kind_of(&operand.ty);
    if state.below.len() == 0 {
        return last_return(alloc, kind, value, &frame.own, &mut state.world, chooser);
    }
    Ok(go_back(alloc, here.whole, kind, value, frame, state)?)
}

/// A return of nothing.
fn do_void_return(
    alloc: Global,
    here: &Here,
    frame: &mut KeptFrame,
    state: &mut RunState,
) -> Result<Stepped, AllocError>
    ensures does { (rest : List Pending) → state.old.waits ≡ false → waiting_on here.now.whole.now state.old.below.items [] ≡ Some rest
        → JustDoes (machine.return_void rest (machine.without_own frame.old.own.items (world_in state.old.world)))
        (state_under here.now.whole.now frame.new state.new) result }
    ensures same { OnErr result (state_under here.now.whole.now frame.new state.new ≡ state_under here.now.whole.now frame.old state.old) }
{
    if state.below.len() == 0 {
        let items = two_items(alloc, Item::Turn, Item::Returned(None))?;
        end_own(&frame.own, &mut state.world.blocks);
        return Ok(Stepped {
            items,
            progress: Progress::Ended,
        });
    }
    go_back(alloc, here.whole, None, Value::Poison, frame, state)
}

/// The frame on top executes the terminator of its block.
fn do_terminator<C: Chooser>(
    alloc: Global,
    here: &Here,
    frame: &mut KeptFrame,
    state: &mut RunState,
    chooser: &mut C,
) -> Result<Stepped, StepEnd>
    ensures answers { (rest : List Pending) → IsOnTop here.now.whole.now here.now.function.now here.now.block.now frame.old state.old rest
        → Answers (machine.term_step (scope_of here.now.whole.now) here.now.block.now.term
        (at_end_of here.now.function.now here.now.block.now frame.old) rest (world_in state.old.world))
        (C.script chooser.old) (C.script chooser.new) (state_under here.now.whole.now frame.new state.new) result }
    ensures same { OnErr result (state_under here.now.whole.now frame.new state.new ≡ state_under here.now.whole.now frame.old state.old) }
{
    match &here.block.term {
        Term::Ret(operand) => do_return(alloc, here, operand, frame, state, chooser),
        Term::RetVoid => Ok(do_void_return(alloc, here, frame, state)?),
        Term::Br(label) => Ok(go_to(alloc, here, label, frame)?),
        Term::CondBr(branch) => {
            let value = operand_value(here.whole, &frame.registers, &branch.condition);
            do_branch(alloc, here, value, side_of(branch, &value), frame, chooser)
        }
        Term::Switch(switch) => {
            let value = operand_value(here.whole, &frame.registers, &switch.value);
            do_branch(alloc, here, value, case_of(switch, &value), frame, chooser)
        }
        Term::Unreachable => Ok(go_wrong(alloc)?),
    }
}

/// The frame on top does a line.
fn do_line<C: Chooser>(
    alloc: Global,
    here: &Here,
    line: &Instr,
    frame: &mut KeptFrame,
    state: &mut RunState,
    chooser: &mut C,
) -> Result<Stepped, StepEnd>
    requires room { frame.old.place.line < usize.MAX }
    ensures answers { (rest : List Pending) → IsOnTop here.now.whole.now here.now.function.now here.now.block.now frame.old state.old rest
        → slice_get here.now.block.now.body frame.old.place.line ≡ Some line.now
        → Answers (machine.line_step here.now.whole.now line.now (behind_line here.now.function.now here.now.block.now frame.old) rest (world_in state.old.world))
        (C.script chooser.old) (C.script chooser.new) (state_under here.now.whole.now frame.new state.new) result }
    ensures same { OnErr result (state_under here.now.whole.now frame.new state.new ≡ state_under here.now.whole.now frame.old state.old) }
{
    match line {
        Instr::Calm(calm) => Ok(do_calm(alloc, here.whole, calm, frame, &state.world)?),
        Instr::Alloca(alloca) => Ok(do_alloca(alloc, here.whole, alloca, frame, &mut state.world)?),
        Instr::Store(store) => Ok(do_store(alloc, here.whole, store, frame, &mut state.world)?),
        Instr::Call(call) => do_call(alloc, here, call.get(), frame, state, chooser),
    }
}

/// The frame on top does its next line, or else the terminator of its block.
fn do_next<C: Chooser>(
    alloc: Global,
    module: &Module,
    frame: &mut KeptFrame,
    state: &mut RunState,
    chooser: &mut C,
) -> Result<Stepped, StepEnd>
    requires runs { state.old.waits ≡ false }
    requires running { state_under «module».now frame.old state.old ≢ Over }
    ensures answers { Answers (machine.asks «module».now (state_under «module».now frame.old state.old))
        (C.script chooser.old) (C.script chooser.new) (state_under «module».now frame.new state.new) result }
    ensures same { OnErr result (state_under «module».now frame.new state.new ≡ state_under «module».now frame.old state.old) }
{
    let Some(function) = module.functions.get(frame.place.function) else {
        unreachable!()
    };
    let Some(block) = function.blocks.get(frame.place.block) else {
        unreachable!()
    };
    let here = Here {
        whole: module,
        function,
        block,
    };
    let lines = block.body.as_slice();
    if frame.place.line < lines.len() {
        return do_line(
            alloc,
            &here,
            &lines[frame.place.line],
            frame,
            state,
            chooser,
        );
    }
    do_terminator(alloc, &here, frame, state, chooser)
}

/// The outside does something, while the frame on top waits.
fn do_act<C: Chooser>(
    alloc: Global,
    module: &Module,
    frame: &mut KeptFrame,
    state: &mut RunState,
    chooser: &mut C,
) -> Result<Stepped, StepEnd>
    requires waits { state.old.waits ≡ true }
    requires running { state_under «module».now frame.old state.old ≢ Over }
    ensures answers { Answers (machine.asks «module».now (state_under «module».now frame.old state.old))
        (C.script chooser.old) (C.script chooser.new) (state_under «module».now frame.new state.new) result }
    ensures same { OnErr result (state_under «module».now frame.new state.new ≡ state_under «module».now frame.old state.old) }
{
    let Some(call) = call_before(module, frame.place) else {
        unreachable!()
    };
    let mut items = one_item(alloc, Item::Wrong)?.into_vec();
    match take_act(alloc, kind_of(&call.result), &mut state.world, chooser) {
        Ok(Acted::Stays(item)) => {
            items[0] = item;
            Ok(Stepped {
                items: Seq::from_vec(items),
                progress: Progress::Goes,
            })
        }
        Ok(Acted::Replied(item, kind, value)) => {
            give_result(alloc, call, kind, value, frame)?;
            state.waits = false;
            items[0] = item;
            Ok(Stepped {
                items: Seq::from_vec(items),
                progress: Progress::Goes,
            })
        }
        Ok(Acted::Wrong) => Ok(Stepped {
            items: Seq::from_vec(items),
            progress: Progress::IsWrong,
        }),
        Err(end) => Err(end),
    }
}

/// The frame on top goes on, or the outside does something while it waits.
fn do_step<C: Chooser>(
    alloc: Global,
    module: &Module,
    frame: &mut KeptFrame,
    state: &mut RunState,
    chooser: &mut C,
) -> Result<Stepped, StepEnd>
    requires running { state_under «module».now frame.old state.old ≢ Over }
    ensures answers { Answers (machine.asks «module».now (state_under «module».now frame.old state.old))
        (C.script chooser.old) (C.script chooser.new) (state_under «module».now frame.new state.new) result }
    ensures same { OnErr result (state_under «module».now frame.new state.new ≡ state_under «module».now frame.old state.old) }
{
    if state.waits {
        do_act(alloc, module, frame, state, chooser)
    } else {
        do_next(alloc, module, frame, state, chooser)
    }
}

/// The frame on top after a step: none, once the run is over.
fn kept_after(made: &Result<Stepped, StepEnd>, frame: KeptFrame) -> Option<KeptFrame>
    ensures { result ≡ stepping.kept_after made.now frame }
{
    match made {
        Ok(stepped) => match stepped.progress {
            Progress::Goes => Some(frame),
            Progress::Ended => None,
            Progress::IsWrong => None,
        },
        Err(_) => Some(frame),
    }
}

/// One step of a run on the module that it was started on, which isn't over.
pub fn step<C: Chooser>(
    alloc: Global,
    module: &Module,
    state: &mut RunState,
    chooser: &mut C,
) -> Result<Stepped, StepEnd>
    requires running { state_of «module».now state.old ≢ Over }
    ensures made { IfOk result (λ stepped.
        answer (machine.asks «module».now (state_of «module».now state.old)) (C.script chooser.old)
        ≡ Did stepped.items (state_of «module».now state.new) (C.script chooser.new)) }
    ensures progress { IfOk result
        (λ stepped. stepped.progress ≡ progress_of stepped.items (state_of «module».now state.new)) }
    ensures goes_on { IfOk result
        (λ stepped. stepped.progress ≡ progress.Goes → state_of «module».now state.new ≢ Over) }
    ensures no_choice { IsErrOf result StepEnd.NoChoice
        → answer (machine.asks «module».now (state_of «module».now state.old)) (C.script chooser.old)
        ≡ Lacks (C.script chooser.new) }
    ensures lacking { (left : List Choice)
        → answer (machine.asks «module».now (state_of «module».now state.old)) (C.script chooser.old)
        ≡ Lacks left → IsErr result }
    ensures told { TakesAsked (machine.asks «module».now (state_of «module».now state.old))
        (C.script chooser.old) (C.script chooser.new) }
    ensures as_before { OnErr result (state_of «module».now state.new ≡ state_of «module».now state.old) }
{
    let Some(mut frame) = state.top.take() else {
        unreachable!()
    };
    let result = do_step(alloc, module, &mut frame, state, chooser);
    state.top = kept_after(&result, frame);
    result
}
