//! The verdict on two functions.
ghost use Rattle.std.specs.Prelude.{◌≡◌, IfOk, IfErr, None, Some, [], cond, map, true};
ghost use Rattle.ir_core.specs.declared.limits.Limit.{Limit};
ghost use Rattle.ir_core.specs.declared.limits.Limit.TheVariants.{Facts};
ghost use Rattle.ir_values.specs.Constants.{Scope};
ghost use Rattle.ir_machine.specs.State.{scope_of};
ghost use Rattle.flow_solver.specs.Near.{reached_nodes};
ghost use Rattle.definedness.specs.Graph.{flow_of};
ghost use Rattle.erhl_assert.specs.Alignment.{no_facts};
ghost use Rattle.erhl_assert.specs.Course.{Good, judged_answer};
ghost use Rattle.erhl_assert.specs.Acceptance as judged;
ghost use Rattle.erhl_assert.specs.Acceptance.{function_answer};
ghost use Rattle.erhl_assert.specs.Steps.{Rules, beside};
ghost use Rattle.rule_base.specs.Book.{meanings_of, rules_of};
ghost use Rattle.line_align.specs.Lent.{lent_block};
ghost use Rattle.erhl_checker.specs.CheckedPair.Asked.{asked};
ghost use Rattle.erhl_checker.specs.CheckedPair.Progress.{Answers};
ghost use Rattle.erhl_checker.specs.Reached.{from_entry_answer};

use crate::alike::functions_alike;
use crate::block_checker::{CheckEnd, FunctionIndex, FunctionParts, Pair, block_answer};
use crate::hint_lists::{HintLists, ListedBlock, listed_blocks};
use contents::Exact;
use definedness::reached;
use erhl_assert::{
    Assertion, HeldBlock, Hint, HintEdge, HintStep, PlacedStep, Reason, Spot, Verdict,
};
use fact_sets::{IndexedSet, Sides};
use flow_solver::reached_nodes_are_reached;
use ir_core::{Function, Module};
use line_align::{AlignEnd, AlignedBlock, ByName, align};
use rule_base::{InferRule, RuleBook};
use std::alloc::{AllocError, Global};

/// Of each block whether a path from the first one ends there.
fn marks_of(alloc: Global, function: &Function) -> Result<Vec<bool>, AllocError>
    ensures { IfOk result (λ marks. marks.items ≡ reached_nodes (flow_of «function».now)) }
{
    reached_nodes_are_reached();
    let marks = reached(alloc, function)?;
    Ok(marks)
}

/// The answer on two blocks, if they are reached.
fn answer_if_reached(
    alloc: Global,
    pair: &Pair<'_, '_, '_, '_, '_>,
    is_reached: bool,
    block: &AlignedBlock<'_>,
) -> Result<Verdict, CheckEnd>
    ensures { Answers result
        (judged_answer (cond is_reached (judged.block_judged (asked called takes pair.now) (lent_block block.now)) (Good []))) }
{
    if is_reached {
        block_answer(alloc, pair, block)
    } else {
        Ok(Verdict::Valid)
    }
}

/// The blocks that are reached, of which the first that is refused decides.
#[tactic(auto, using(crate::proofs::Reaching::blocks_more, crate::proofs::Reaching::blocks_refused, crate::proofs::Reaching::blocks_stopped))]
fn blocks_answer(
    alloc: Global,
    pair: &Pair<'_, '_, '_, '_, '_>,
    marks: &[bool],
    blocks: &[AlignedBlock<'_>],
) -> Result<Verdict, CheckEnd>
    ensures { Answers result (judged_answer (judged.blocks_judged (asked called takes pair.now) marks.now (map lent_block blocks.now))) }
{
    let mut rest = marks;
    for block in blocks {
        let Some((mark, after)) = rest.split_first() else {
            return Ok(Verdict::Valid);
        };
        match answer_if_reached(alloc, pair, *mark, block)? {
            Verdict::Valid => {}
            Verdict::Refused {
                block,
                spot,
                reason,
            } => {
                return Ok(Verdict::Refused {
                    block,
                    spot,
                    reason,
                });
            }
        }
        rest = after;
    }
    Ok(Verdict::Valid)
}

/// The first fact that the entry claims, as a reason.
#[tactic(auto, using(crate::proofs::Reaching::source_claims, crate::proofs::Reaching::target_claims, crate::proofs::Reaching::nothing_claimed))]
fn entry_fault(alloc: Global, entry: &Assertion) -> Result<Option<Reason>, AllocError>
    ensures { IfOk result (λ fault. fault ≡ judged.entry_fault entry.now) }
{
    match entry.src.as_slice().first() {
        Some(fact) => Ok(Some(Reason::MissingFact(fact.copy(alloc)?))),
        None => match entry.tgt.as_slice().first() {
            Some(fact) => Ok(Some(Reason::MissingFact(fact.copy(alloc)?))),
            None => Ok(None),
        },
    }
}

/// What the hint claims at the entry, and then the blocks that are reached from there.
fn from_entry(
    alloc: Global,
    pair: &Pair<'_, '_, '_, '_, '_>,
    entry: &AlignedBlock<'_>,
    blocks: &[AlignedBlock<'_>],
) -> Result<Verdict, CheckEnd>
    ensures { Answers result (from_entry_answer (asked called takes pair.now) (lent_block entry.now) (map lent_block blocks.now)) }
{
    let name = &entry.source.name;
    match entry_fault(alloc, &pair.hint_of(name).entry)? {
        Some(reason) => Ok(Verdict::Refused {
            block: name.copy(alloc)?,
            spot: Spot::Start,
            reason,
        }),
        None => {
            let marks = marks_of(alloc, pair.source_function())?;
            blocks_answer(alloc, pair, marks.as_slice(), blocks)
        }
    }
}

fn reached_answer(
    alloc: Global,
    pair: &Pair<'_, '_, '_, '_, '_>,
    blocks: &[AlignedBlock<'_>],
) -> Result<Verdict, CheckEnd>
    ensures { Answers result (judged_answer (judged.reached_judged (asked called takes pair.now) (map lent_block blocks.now))) }
{
    match blocks.first() {
        Some(entry) => from_entry(alloc, pair, entry, blocks),
        None => Ok(Verdict::Valid),
    }
}

fn is_same(step: &HintStep) -> bool {
    matches!(step, HintStep::Same(_))
}

fn has_same_placed(steps: &[PlacedStep]) -> bool {
    for placed in steps {
        if is_same(&placed.step) {
            return true;
        }
    }
    false
}

fn has_same_step(steps: &[HintStep]) -> bool {
    for step in steps {
        if is_same(step) {
            return true;
        }
    }
    false
}

fn has_same_edge(edges: &[HintEdge]) -> bool {
    for edge in edges {
        if has_same_step(edge.steps.as_slice()) {
            return true;
        }
    }
    false
}

/// Whether the hint has a step that takes a register out of those that may differ. Where it has none, definitions of registers aren't
/// asked for.
fn has_same(blocks: &[HeldBlock]) -> bool {
    for block in blocks {
        if let Some(hint) = block.whole() {
            if has_same_placed(hint.steps.as_slice()) || has_same_edge(hint.edges.as_slice()) {
                return true;
            }
        }
    }
    false
}

/// The answer on two functions whose blocks align, with what is looked up of them.
fn parts_answer<'h, 'l, 'a>(
    alloc: Global,
    module: &'a Module,
    book: &'a RuleBook,
    hints: ByName<'h, ListedBlock<'l, 'a>>,
    source: &FunctionParts<'a>,
    target: &FunctionParts<'a>,
    blocks: &[AlignedBlock<'_>],
) -> Result<Verdict, CheckEnd>
    ensures { Answers result
        (judged_answer
        (judged.reached_judged
        (beside (rules_of called takes book.now) (scope_of «module».now) source.now target.now (record { blocks = hints.entry }))
        (map lent_block blocks.now))) }
{
    let source = FunctionIndex::new(alloc, source)?;
    let target = FunctionIndex::new(alloc, target)?;
    let pair = Pair::new(alloc, module, book, source, target, hints)?;
    reached_answer(alloc, &pair, blocks)
}

/// The answer on two functions whose blocks align.
fn aligned_answer<'a>(
    alloc: Global,
    module: &'a Module,
    book: &'a RuleBook,
    hint: &'a [HeldBlock],
    asked: bool,
    source: &'a Function,
    target: &'a Function,
    blocks: &[AlignedBlock<'_>],
) -> Result<Verdict, CheckEnd>
    ensures { Answers result
        (judged_answer
        (judged.reached_judged
        (beside (rules_of called takes book.now) (scope_of «module».now) source.now target.now (record { blocks = hint.now }))
        (map lent_block blocks.now))) }
{
    let lists = HintLists::of(alloc, hint)?;
    let listed = listed_blocks(alloc, &lists)?;
    let hints = ByName::new(alloc, listed.as_slice())?;
    let source = FunctionParts::new(alloc, source, asked)?;
    let target = FunctionParts::new(alloc, target, asked)?;
    parts_answer(alloc, module, book, hints, &source, &target, blocks)
}

/// The answer on two functions, of whose blocks much is looked up by their names.
#[inline(never)]
fn looked_up_answer(
    alloc: Global,
    module: &Module,
    book: &RuleBook,
    hint: &Hint,
    source: &Function,
    target: &Function,
) -> Result<Verdict, CheckEnd>
    ensures { Answers result
        (function_answer (beside (rules_of called takes book.now) (scope_of «module».now) source.now target.now hint.now)) }
{
    let given = hint.blocks.as_slice();
    let hints = ByName::new(alloc, given)?;
    match align(alloc, source, target, &hints) {
        Ok(blocks) => {
            let asked = has_same(given);
            let aligned = blocks.as_slice();
            aligned_answer(alloc, module, book, given, asked, source, target, aligned)
        }
        Err(end) => match end {
            AlignEnd::Differs(block) => Ok(Verdict::Refused {
                block,
                spot: Spot::Start,
                reason: Reason::AlignmentDiffers,
            }),
            AlignEnd::Memory => Err(CheckEnd::Memory),
        },
    }
}

/// Whether the functions are valid at once: the hint says nothing, and nothing of them need be looked up.
#[tactic(auto, using(crate::proofs::AtOnce::valid_at_once))]
fn is_valid_at_once(
    alloc: Global,
    hint: &Hint,
    nothing: &Sides<IndexedSet>,
    source: &Function,
    target: &Function,
) -> Result<bool, AllocError>
    requires { nothing.now ≡ no_facts }
    ensures { IfOk result
        (λ valid. valid ≡ true → (rules : Rules) (scope : Scope)
        → function_answer (beside rules scope source.now target.now hint.now) ≡ Some Verdict.Valid) }
{
    if hint.blocks.is_empty() {
        functions_alike(alloc, nothing, source, target)
    } else {
        Ok(false)
    }
}

/// The answer on two functions, with the knowledge of nothing.
pub(crate) fn function_answer(
    alloc: Global,
    module: &Module,
    book: &RuleBook,
    hint: &Hint,
    nothing: &Sides<IndexedSet>,
    source: &Function,
    target: &Function,
) -> Result<Verdict, CheckEnd>
    requires { nothing.now ≡ no_facts }
    ensures { Answers result
        (function_answer (beside (rules_of called takes book.now) (scope_of «module».now) source.now target.now hint.now)) }
{
    if is_valid_at_once(alloc, hint, nothing, source, target)? {
        return Ok(Verdict::Valid);
    }
    looked_up_answer(alloc, module, book, hint, source, target)
}

/// Checks one function against another, beside a module: `Valid` exactly where the pair is accepted under the hint, and else
/// refused with the first place and the first reason. More facts than the limit allows are no verdict, where they are known before
/// the first test that fails, or before the end where none does.
///
/// It is meant for functions over integers, as long as the machine has no memory: a pointer has no value yet, so a rule that keeps its law can
/// make `icmp eq i8* null, null` beside `ret i1 false` valid.
pub fn check_function(
    alloc: Global,
    module: &Module,
    src: &Function,
    tgt: &Function,
    hint: &Hint,
    book: &RuleBook,
) -> Result<Verdict, CheckEnd>
    ensures verdict { IfOk result
        (λ v. function_answer
        (beside
        (meanings_of
        (λ b. (⟦<dyn InferRule as InferRule>⟧ b.vtable).called b.value)
        (λ b. (⟦<dyn InferRule as InferRule>⟧ b.vtable).takes b.value)
        book.now.rules.items)
        (scope_of «module».now) src.now tgt.now hint.now)
        ≡ Some v) }
    ensures limit { IfErr result
        (λ fault. (l : Limit) → fault ≡ CheckEnd.Limit l
        → (l ≡ Facts)
        × (function_answer
        (beside
        (meanings_of
        (λ b. (⟦<dyn InferRule as InferRule>⟧ b.vtable).called b.value)
        (λ b. (⟦<dyn InferRule as InferRule>⟧ b.vtable).takes b.value)
        book.now.rules.items)
        (scope_of «module».now) src.now tgt.now hint.now)
        ≡ None)) }
{
    let nothing = Sides::empty(alloc)?;
    function_answer(alloc, module, book, hint, &nothing, src, tgt)
}
