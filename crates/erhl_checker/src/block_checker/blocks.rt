//! Along two blocks, from what the hint claims at their start.
ghost use Rattle.std.specs.Prelude.{◌≡◌, ◌<◌, map, length, get_or, true, Some, IfOk};
ghost use Rattle.ir_core.specs.Functions.{successors_of};
ghost use Rattle.erhl_assert.specs.Alignment.{block_hint};
ghost use Rattle.erhl_assert.specs.Steps.{after_steps};
ghost use Rattle.erhl_assert.specs.Course.{within, answer_at, judged_answer};
ghost use Rattle.erhl_assert.specs.Growth.{over_line};
ghost use Rattle.erhl_assert.specs.Acceptance as judged;
ghost use Rattle.line_align.specs.Cursor.{aligned_line};
ghost use Rattle.line_align.specs.Lent.{lent_block};
ghost use Rattle.erhl_checker.specs.CheckedPair.Empty.{AreParts, IsEmpty};
ghost use Rattle.erhl_checker.specs.CheckedPair.Asked.{asked};
ghost use Rattle.erhl_checker.specs.CheckedPair.Progress.{CameOf, Answers, past_line, lines_answer, end_answer, names_lent};

use crate::block_checker::edges::{edges_answer, refused};
use crate::block_checker::labels::labels_once;
use crate::checked_pair::{CheckEnd, Pair, block_agrees, term_fault};
use crate::hint_steps::after_steps;
use erhl_assert::{HintBlock, HintStep, Letter, Reason, Spot, Verdict};
use fact_sets::{IndexedSet, Sides, sides_of};
use ir_core::{Instr, Limit, Name};
use line_align::{AlignedBlock, StepsByLine, left, on_source, on_target, taken};
use postcondition::{Line, LineEnd, after_line};
use std::alloc::{AllocError, Global};

/// The terminators, and then the edges.
#[tactic(auto, using(crate::proofs::CheckedPair::Progressing::end_refused))]
fn at_terms(
    alloc: Global,
    pair: &Pair<'_, '_, '_, '_, '_>,
    hint: &HintBlock,
    k: u64,
    block: &AlignedBlock<'_>,
    labels: &[&Name],
    known: &Sides<IndexedSet>,
) -> Result<Verdict, CheckEnd>
    requires edges { hint.now.edges ≡ (block_hint (asked called takes pair.now).hint block.now.source.now.name).edges }
    requires labels { names_lent labels.now ≡ judged.labels_once (successors_of block.now.source.now.term) }
    ensures { Answers result (end_answer (asked called takes pair.now) (lent_block block.now) k known.now) }
{
    let name = &block.source.name;
    match term_fault(alloc, &block.source.term, &block.target.term, known)? {
        Some(reason) => {
            let verdict = refused(alloc, name, Spot::Line(k), reason)?;
            Ok(verdict)
        }
        None => edges_answer(alloc, pair, hint, name, labels, known),
    }
}

/// The steps before the terminators, then the terminators and the edges.
fn at_end(
    alloc: Global,
    pair: &Pair<'_, '_, '_, '_, '_>,
    hint: &HintBlock,
    steps: &[&HintStep],
    k: u64,
    block: &AlignedBlock<'_>,
    labels: &[&Name],
    known: &mut Sides<IndexedSet>,
) -> Result<Verdict, CheckEnd>
    requires edges { hint.now.edges ≡ (block_hint (asked called takes pair.now).hint block.now.source.now.name).edges }
    requires labels { names_lent labels.now ≡ judged.labels_once (successors_of block.now.source.now.term) }
    ensures { Answers result
        (answer_at block.now.source.now.name (Spot.Line k) (within (after_steps (asked called takes pair.now) (map (λ s. s.now) steps.now) known.old))
        (end_answer (asked called takes pair.now) (lent_block block.now) k)) }
{
    match after_steps(alloc, pair, steps, known)? {
        None => at_terms(alloc, pair, hint, k, block, labels, known),
        Some(reason) => {
            let verdict = refused(alloc, &block.source.name, Spot::Line(k), reason)?;
            Ok(verdict)
        }
    }
}

#[tactic(auto, using(crate::proofs::CheckedPair::Progressing::line_within, crate::proofs::CheckedPair::Progressing::line_refuses_so, crate::proofs::CheckedPair::Progressing::line_over))]
fn over_line(
    alloc: Global,
    pair: &Pair<'_, '_, '_, '_, '_>,
    letter: Letter,
    xs: &[Instr],
    ys: &[Instr],
    known: &mut Sides<IndexedSet>,
) -> Result<Option<Reason>, CheckEnd>
    ensures { CameOf result known.new (within (over_line (asked called takes pair.now).scope.types (aligned_line letter xs.now ys.now) known.old)) }
{
    let line = Line {
        source: taken(on_source(letter), xs),
        target: taken(on_target(letter), ys),
    };
    match after_line(alloc, pair.enclosing_module(), known, &line) {
        Ok(()) => Ok(None),
        Err(LineEnd::Refused(reason)) => Ok(Some(reason)),
        Err(LineEnd::Limit(limit)) => Err(CheckEnd::Limit(limit)),
        Err(LineEnd::Memory) => Err(CheckEnd::Memory),
    }
}

/// The steps before an aligned line, and then the line.
#[tactic(auto, using(erhl_assert::proofs::Courses::within_more, erhl_assert::proofs::Courses::within_refused, erhl_assert::proofs::Courses::within_none))]
fn past_line(
    alloc: Global,
    pair: &Pair<'_, '_, '_, '_, '_>,
    steps: &[&HintStep],
    letter: Letter,
    xs: &[Instr],
    ys: &[Instr],
    known: &mut Sides<IndexedSet>,
) -> Result<Option<Reason>, CheckEnd>
    ensures { CameOf result known.new
        (past_line (asked called takes pair.now) (map (λ s. s.now) steps.now) (aligned_line letter xs.now ys.now) known.old) }
{
    match after_steps(alloc, pair, steps, known)? {
        None => over_line(alloc, pair, letter, xs, ys, known),
        Some(reason) => Ok(Some(reason)),
    }
}

/// The letter at a place.
fn letter_at(letters: &[Letter], i: usize) -> Letter
    requires { i < length letters.now }
    ensures { result ≡ get_or letters.now i result }
{
    letters[i]
}

/// Along the aligned lines of two blocks.
fn along(
    alloc: Global,
    pair: &Pair<'_, '_, '_, '_, '_>,
    hint: &HintBlock,
    block: &AlignedBlock<'_>,
    labels: &[&Name],
    entry: Sides<IndexedSet>,
) -> Result<Verdict, CheckEnd>
    requires parts { AreParts hint.now (block_hint (asked called takes pair.now).hint block.now.source.now.name) }
    requires labels { names_lent labels.now ≡ judged.labels_once (successors_of block.now.source.now.term) }
    ensures { Answers result (lines_answer (asked called takes pair.now) (lent_block block.now) 0 (lent_block block.now).lines entry.entry) }
{
    let letters = block.letters.as_slice();
    let placed = hint.steps.as_slice();
    let by_line = StepsByLine::new(alloc, placed, letters.len())?;
    let mut known = entry;
    let mut xs = block.source.body.as_slice();
    let mut ys = block.target.body.as_slice();
    for i in 0..letters.len() {
        let letter = letter_at(letters, i);
        let steps = by_line.before(i).as_slice();
        match past_line(alloc, pair, steps, letter, xs, ys, &mut known) {
            Ok(refusal) => {
                if let Some(reason) = refusal {
                    let verdict = refused(alloc, &block.source.name, Spot::Line(i as u64), reason)?;
                    return Ok(verdict);
                }
            }
            Err(end) => return Err(end),
        }
        xs = left(on_source(letter), xs);
        ys = left(on_target(letter), ys);
    }
    let last = by_line.before(letters.len()).as_slice();
    at_end(
        alloc,
        pair,
        hint,
        last,
        letters.len() as u64,
        block,
        labels,
        &mut known,
    )
}

/// From what the hint claims at the blocks' start.
#[inline(never)]
fn from_start(
    alloc: Global,
    pair: &Pair<'_, '_, '_, '_, '_>,
    hint: &HintBlock,
    block: &AlignedBlock<'_>,
    labels: &[&Name],
) -> Result<Verdict, CheckEnd>
    requires parts { AreParts hint.now (block_hint (asked called takes pair.now).hint block.now.source.now.name) }
    requires labels { names_lent labels.now ≡ judged.labels_once (successors_of block.now.source.now.term) }
    ensures { Answers result (judged_answer (judged.block_judged (asked called takes pair.now) (lent_block block.now))) }
{
    match sides_of(
        alloc,
        &hint.entry,
        pair.list_of(&block.source.name),
        block.source.body.len(),
        block.target.body.len(),
    )? {
        Some(entry) => along(alloc, pair, hint, block, labels, entry),
        None => Err(CheckEnd::Limit(Limit::Facts)),
    }
}

/// Whether the hint says nothing of a block's start, its steps and its edges.
fn is_empty(hint: &HintBlock) -> bool
    ensures { result ≡ true → IsEmpty hint.now }
{
    hint.entry.src.is_empty()
        && hint.entry.tgt.is_empty()
        && hint.entry.diff.is_empty()
        && hint.steps.is_empty()
        && hint.edges.is_empty()
}

/// Whether the blocks agree where nothing is known, and the hint says nothing of them: then they are valid.
fn is_valid_at_once(
    alloc: Global,
    pair: &Pair<'_, '_, '_, '_, '_>,
    hint: &HintBlock,
    block: &AlignedBlock<'_>,
    labels: &[&Name],
) -> Result<bool, AllocError>
    requires parts { AreParts hint.now (block_hint (asked called takes pair.now).hint block.now.source.now.name) }
    requires labels { names_lent labels.now ≡ judged.labels_once (successors_of block.now.source.now.term) }
    ensures { IfOk result
        (λ valid. valid ≡ true → judged_answer (judged.block_judged (asked called takes pair.now) (lent_block block.now)) ≡ Some Verdict.Valid) }
{
    if !is_empty(hint) {
        return Ok(false);
    }
    let agree = block_agrees(alloc, pair, block, labels)?;
    Ok(agree)
}

/// The answer on two blocks.
pub fn block_answer(
    alloc: Global,
    pair: &Pair<'_, '_, '_, '_, '_>,
    block: &AlignedBlock<'_>,
) -> Result<Verdict, CheckEnd>
    ensures { Answers result (judged_answer (judged.block_judged (asked called takes pair.now) (lent_block block.now))) }
{
    let hint = pair.hint_of(&block.source.name);
    let labels = labels_once(alloc, &block.source.term)?;
    let valid = is_valid_at_once(alloc, pair, hint, block, labels.as_slice())?;
    if valid {
        return Ok(Verdict::Valid);
    }
    from_start(alloc, pair, hint, block, labels.as_slice())
}
