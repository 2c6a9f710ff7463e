//! Where a terminator leads within its function: the block of a label, entered with its phis set at once.
ghost use Rattle.std.specs.Prelude.{◌≡◌, ◌<◌, ℕ, List, length, [], map, None, slice_get, MatchOption, IfOk, IfSome};
ghost use Rattle.ir_core.specs.Functions.{successors_of};
ghost use Rattle.ir_types.specs.Same as same;
ghost use Rattle.ir_core.specs.declared.functions.Case.{Case};
ghost use Rattle.std.specs.List.{list_any};
ghost use Rattle.ir_core.specs.Types as types;
ghost use Rattle.ir_core.specs.declared.values.Value.TheVariants.{Num};
ghost use Rattle.ir_values.specs.Values.{IsInKindOf};
ghost use Rattle.ir_machine.specs.Machine as machine;
ghost use Rattle.ir_machine.specs.Machine.{Asks, Ask};
ghost use Rattle.ir_machine.specs.State.{Pending, World, scope_of};
ghost use Rattle.ir_machine.specs.Places.{at_end, registers_in};
ghost use Rattle.ir_machine.specs.Stepping.{TellsLabel, lands};

use crate::Chooser;
use crate::operands::atom_value;
use crate::registers::RegisterFile;
use block_memory::Choice;
use ir_core::{
    Block, Case, CondBr, Function, Module, Name, Phi, Switch, Term, Ty, Value, kind_of, same_name,
};
use std::alloc::{AllocError, Global};

/// Where a jump lands: at the start of the block of that place, with these registers.
#[derive(Drop)]
pub(crate) struct Landing {
    pub(crate) block: usize,
    pub(crate) registers: RegisterFile,
}

/// Where the first block of that name stands. It is looked for in a walk over the blocks.
#[tactic(auto, using(crate::proofs::Landing::block_here, crate::proofs::Landing::block_later))]
fn block_at(blocks: &[Block], name: &Name) -> Option<usize>
    ensures { MatchOption result (machine.block_named name.now blocks.now ≡ None)
        (λ at. (at < length blocks.now)
        × (machine.block_named name.now blocks.now ≡ slice_get blocks.now at)) }
{
    for i in 0..blocks.len() {
        if same_name(&blocks[i].name, name) {
            return Some(i);
        }
    }
    None
}

/// What a phi gives on the edge from that block: poison, where it has no entry for it.
#[tactic(auto, using(crate::proofs::Landing::entry_here, crate::proofs::Landing::entry_later, crate::proofs::Landing::phi_here, crate::proofs::Landing::phi_nowhere, crate::proofs::Landing::poison_in_kind_of))]
fn phi_value(module: &Module, old: &RegisterFile, from: &Name, phi: &Phi) -> Value
    ensures value { result ≡ machine.phi_value (scope_of «module».now) (registers_in old.now) from.now phi.now }
    ensures in_kind { IsInKindOf (types.kind_of phi.now.ty) result }
{
    let entries = phi.entries.as_slice();
    for i in 0..entries.len() {
        if same_name(&entries[i].from, from) {
            return atom_value(module, old, &phi.ty, &entries[i].value);
        }
    }
    Value::Poison
}

/// The registers behind the phis, which are set in a copy, so that each reads the registers before the edge.
#[tactic(auto, using(crate::proofs::Landing::next_phi))]
fn with_phis(
    alloc: Global,
    module: &Module,
    old: &RegisterFile,
    from: &Name,
    phis: &[Phi],
) -> Result<RegisterFile, AllocError>
    ensures { IfOk result (λ after. registers_in after
        ≡ machine.with_phis (scope_of «module».now) (registers_in old.now) from.now phis.now (registers_in old.now)) }
{
    let mut after = old.copied(alloc)?;
    for i in 0..phis.len() {
        let value = phi_value(module, old, from, &phis[i]);
        after.set(alloc, &phis[i].name, kind_of(&phis[i].ty), value)?;
    }
    Ok(after)
}

/// Where a jump from the block to that label lands, if there is such a block.
pub(crate) fn jump(
    alloc: Global,
    module: &Module,
    function: &Function,
    block: &Block,
    to: &Name,
    registers: &RegisterFile,
) -> Result<Option<Landing>, AllocError>
    ensures lands { (own : List ℕ) (rest : List Pending) (world : World) → IfOk result (λ landing.
        machine.jump (scope_of «module».now) (at_end function.now block.now (registers_in registers.now) own) rest world to.now
        ≡ lands function.now own rest world landing) }
    ensures within { IfOk result (λ landing. IfSome landing (λ l. l.block < length function.now.blocks)) }
{
    let blocks = function.blocks.as_slice();
    let Some(at) = block_at(blocks, to) else {
        return Ok(None);
    };
    let after = with_phis(
        alloc,
        module,
        registers,
        &block.name,
        blocks[at].phis.as_slice(),
    )?;
    Ok(Some(Landing {
        block: at,
        registers: after,
    }))
}

/// The label of a condition that is a number.
pub(crate) fn side_of<'a>(branch: &'a CondBr, value: &Value) -> &'a Name
    ensures { (n : _) → value.now ≡ Num n → result.now ≡ machine.side_of branch.now.on_true branch.now.on_false n }
{
    match value {
        Value::Num(1) => &branch.on_true,
        _ => &branch.on_false,
    }
}

/// The number at the type, modulo 2 to its width.
#[tactic(auto, using(crate::proofs::Landing::one_shifted, crate::proofs::Landing::stays))]
pub(crate) fn number_at(ty: &Ty, number: u64) -> u64
    ensures { result ≡ types.number_at ty.now number }
{
    match ty {
        Ty::Int(width) => {
            if *width < 64 {
                number % (1 << *width)
            } else {
                number
            }
        }
        _ => number,
    }
}

/// The label of a switch over a number.
#[tactic(auto, using(crate::proofs::Landing::case_here, crate::proofs::Landing::case_later))]
pub(crate) fn case_of<'a>(switch: &'a Switch, value: &Value) -> &'a Name
    ensures { (n : _) → value.now ≡ Num n
        → result.now ≡ machine.case_of switch.now.value.ty switch.now.default switch.now.cases n }
{
    let Value::Num(number) = value else {
        return &switch.default;
    };
    let cases = switch.cases.as_slice();
    for i in 0..cases.len() {
        if number_at(&switch.value.ty, cases[i].number.get()) == *number {
            return &cases[i].label;
        }
    }
    &switch.default
}

#[tactic(auto, using(crate::proofs::Landing::label_here, crate::proofs::Landing::label_later))]
fn is_case_label(cases: &[Case], name: &Name) -> bool
    ensures { result ≡ list_any (same.same_name name.now) (map (λ (c : Case). c.label) cases.now) }
{
    for i in 0..cases.len() {
        if same_name(name, &cases[i].label) {
            return true;
        }
    }
    false
}

/// Whether the terminator leads to that label.
fn is_label(term: &Term, name: &Name) -> bool
    ensures { result ≡ list_any (same.same_name name.now) (successors_of term.now) }
{
    match term {
        Term::Ret(_) => false,
        Term::RetVoid => false,
        Term::Br(label) => same_name(name, label),
        Term::CondBr(branch) => {
            same_name(name, &branch.on_true) || same_name(name, &branch.on_false)
        }
        Term::Switch(switch) => {
            same_name(name, &switch.default) || is_case_label(switch.cases.as_slice(), name)
        }
        Term::Unreachable => false,
    }
}

/// The next choice, where it is one of the terminator's labels.
pub(crate) fn told_label<C: Chooser>(term: &Term, chooser: &mut C) -> Option<Name>
    ensures { (next : _ → Asks) → TellsLabel result
        (Ask (machine.is_label (successors_of term.now)) (λ c. machine.gone c next))
        (C.script chooser.old) next (C.script chooser.new) }
{
    match chooser.take() {
        Some(Choice::Go(label)) => {
            if is_label(term, &label) {
                Some(label)
            } else {
                None
            }
        }
        _ => None,
    }
}
