//! Over the edges that leave a block.
ghost use Rattle.std.specs.Prelude.{◌≡◌, ◌++◌, [], ◌∷◌, map, true, IfErr, IfOk, IfSome, OnOk};
ghost use Rattle.erhl_assert.specs.Alignment.{block_hint};
ghost use Rattle.erhl_assert.specs.Course.{within, judged_answer};
ghost use Rattle.erhl_assert.specs.Edges.{without_old, edge_between, phis_at};
ghost use Rattle.erhl_assert.specs.Growth.{over_edge};
ghost use Rattle.erhl_assert.specs.Steps.{steps_on};
ghost use Rattle.erhl_assert.specs.Acceptance as judged;
ghost use Rattle.erhl_checker.specs.CheckedPair.Asked.{asked};
ghost use Rattle.erhl_checker.specs.CheckedPair.Progress.{Answers, Gave, Stopped, fault_at, after_edge_steps, names_lent};
ghost use Rattle.erhl_checker.specs.BlockChecker.Plain.{IsOverPlain, IsPlainEdge};

use crate::checked_pair::{CheckEnd, Pair};
use crate::hint_steps::after_steps;
use contents::{Exact, Seq};
use erhl_assert::{HintBlock, HintEdge, HintStep, Reason, Side, Spot, Verdict};
use fact_sets::{IndexedSet, LentRegisters, Sides};
use ir_core::Name;
use line_align::ByName;
use postcondition::{Edge, LineEnd, Phis, after_edge};
use std::alloc::{AllocError, Global};

/// A refusal at a place of a block.
pub(crate) fn refused(
    alloc: Global,
    block: &Name,
    spot: Spot,
    reason: Reason,
) -> Result<Verdict, AllocError>
    ensures { IfOk result (λ v. v ≡ Verdict.Refused block.now spot reason) }
{
    Ok(Verdict::Refused {
        block: block.copy(alloc)?,
        spot,
        reason,
    })
}

fn refused_on_edge(
    alloc: Global,
    from: &Name,
    to: &Name,
    reason: Reason,
) -> Result<Verdict, AllocError>
    ensures { IfOk result (λ v. v ≡ Verdict.Refused from.now (Spot.Edge to.now) reason) }
{
    let to = to.copy(alloc)?;
    refused(alloc, from, Spot::Edge(to), reason)
}

/// The steps that a hint has on the edge to the block.
fn steps_on<'a>(
    alloc: Global,
    edges: &ByName<'a, HintEdge>,
    to: &Name,
) -> Result<Seq<&'a HintStep>, AllocError>
    ensures { IfOk result (λ steps. map (λ s. s.now) steps ≡ steps_on to.now edges.now) }
{
    let entries = edges.all(to);
    let mut steps = Seq::new(alloc);
    for edge in entries {
        note_steps(edge.steps.as_slice(), &mut steps)?;
    }
    Ok(steps)
}

/// Puts the step behind the others.
fn note_step<'a>(step: &'a HintStep, steps: &mut Seq<&'a HintStep>) -> Result<(), AllocError>
    ensures { OnOk result (map (λ s. s.now) steps.new ≡ map (λ s. s.now) steps.old ++ step.now ∷ []) }
{
    steps.push(step)
}

/// Puts the steps behind the others.
#[tactic(auto, using(crate::proofs::BlockChecker::Noting::one_noted))]
fn note_steps<'a>(more: &'a [HintStep], steps: &mut Seq<&'a HintStep>) -> Result<(), AllocError>
    ensures { OnOk result (map (λ s. s.now) steps.new ≡ map (λ s. s.now) steps.old ++ more.now) }
{
    for step in more {
        note_step(step, steps)?;
    }
    Ok(())
}

/// Why the block that is entered may not be, if it may not: a fact that its hint claims isn't known, or another register may differ.
fn arrival_fault(
    alloc: Global,
    claims: &HintBlock,
    list: &LentRegisters<'_, '_>,
    known: &Sides<IndexedSet>,
) -> Result<Option<Reason>, AllocError>
    requires { list.now ≡ claims.now.entry.diff }
    ensures { IfOk result (λ fault. fault ≡ judged.arrival_fault claims.now.entry (without_old known.now)) }
{
    if let Some(fact) = known.first_missing(Side::Src, claims.entry.src.as_slice()) {
        return Ok(Some(Reason::MissingFact(fact.copy(alloc)?)));
    }
    if let Some(fact) = known.first_missing(Side::Tgt, claims.entry.tgt.as_slice()) {
        return Ok(Some(Reason::MissingFact(fact.copy(alloc)?)));
    }
    match known.first_left_over(alloc, list)? {
        Some(register) => Ok(Some(Reason::DiffLeft(register))),
        None => Ok(None),
    }
}

/// What is known over an edge with its phis.
#[tactic(auto, using(erhl_assert::proofs::Judging::edge_within, erhl_assert::proofs::Judging::edge_past))]
fn cross<'k, 'j>(
    alloc: Global,
    pair: &Pair<'_, '_, '_, '_, '_>,
    from: &Name,
    to: &Name,
    known: &Sides<'k, 'j, IndexedSet>,
) -> Result<Sides<'k, 'j, IndexedSet>, CheckEnd>
    ensures { Gave result (within (over_edge (edge_between (asked called takes pair.now).source (asked called takes pair.now).target from.now to.now) known.now)) }
{
    let edge = Edge {
        from,
        source: pair.source_phis(to),
        target: pair.target_phis(to),
    };
    match after_edge(alloc, known, &edge) {
        Ok(after) => Ok(after),
        Err(LineEnd::Limit(limit)) => Err(CheckEnd::Limit(limit)),
        Err(LineEnd::Refused(_)) => Err(CheckEnd::Memory),
        Err(LineEnd::Memory) => Err(CheckEnd::Memory),
    }
}

/// Behind the phis: the steps on the edge, and what the block claims that it enters.
#[tactic(auto, using(crate::proofs::CheckedPair::Progressing::arrived, crate::proofs::CheckedPair::Progressing::arrival_refused, crate::proofs::CheckedPair::Progressing::arrival_stopped))]
fn arrive(
    alloc: Global,
    pair: &Pair<'_, '_, '_, '_, '_>,
    steps: &[&HintStep],
    to: &Name,
    crossed: &mut Sides<IndexedSet>,
) -> Result<Option<Reason>, CheckEnd>
    ensures { Answers result
        (fault_at (within (after_edge_steps (asked called takes pair.now) (map (λ s. s.now) steps.now) to.now crossed.old))) }
{
    match after_steps(alloc, pair, steps, crossed)? {
        Some(reason) => Ok(Some(reason)),
        None => {
            let fault = arrival_fault(alloc, pair.hint_of(to), &pair.list_of(to), crossed)?;
            Ok(fault)
        }
    }
}

/// Whether there is none.
#[tactic(auto, using(crate::proofs::BlockChecker::Plain::none_there))]
fn are_none(phis: &Phis<'_>) -> bool
    ensures { result ≡ true → phis.now ≡ [] }
{
    phis.all().is_empty()
}

/// Whether neither side has a phi in the block.
fn has_no_phis(pair: &Pair<'_, '_, '_, '_, '_>, to: &Name) -> bool
    ensures { result ≡ true → (phis_at to.now (asked called takes pair.now).source ≡ []) × (phis_at to.now (asked called takes pair.now).target ≡ []) }
{
    are_none(pair.source_phis(to)) && are_none(pair.target_phis(to))
}

/// Finds what is known over an edge without steps, to a block without phis, unless it is found. It is the same on each such edge.
#[tactic(auto, using(crate::proofs::BlockChecker::Plain::plain_over, crate::proofs::CheckedPair::Progressing::edge_stopped))]
fn find_plain<'k, 'j>(
    alloc: Global,
    pair: &Pair<'_, '_, '_, '_, '_>,
    from: &Name,
    to: &Name,
    known: &Sides<'k, 'j, IndexedSet>,
    plain: &mut Option<Sides<'k, 'j, IndexedSet>>,
) -> Result<(), CheckEnd>
    requires edge { IsPlainEdge (asked called takes pair.now) from.now to.now }
    requires found { IfSome plain.old (IsOverPlain from.now known.now) }
    ensures found { IfSome plain.new (IsOverPlain from.now known.now) }
    ensures end { IfErr result (λ end. Stopped end (fault_at (within (judged.along_edge (asked called takes pair.now) from.now to.now known.now)))) }
{
    if plain.is_none() {
        *plain = Some(cross(alloc, pair, from, to, known)?);
    }
    Ok(())
}

/// Over an edge without steps, to a block without phis.
#[tactic(auto, using(crate::proofs::BlockChecker::Plain::plain_arrived))]
fn along_plain_edge<'k, 'j>(
    alloc: Global,
    pair: &Pair<'_, '_, '_, '_, '_>,
    from: &Name,
    to: &Name,
    known: &Sides<'k, 'j, IndexedSet>,
    plain: &mut Option<Sides<'k, 'j, IndexedSet>>,
) -> Result<Option<Reason>, CheckEnd>
    requires edge { IsPlainEdge (asked called takes pair.now) from.now to.now }
    requires found { IfSome plain.old (IsOverPlain from.now known.now) }
    ensures answer { Answers result (fault_at (within (judged.along_edge (asked called takes pair.now) from.now to.now known.now))) }
    ensures found { IfSome plain.new (IsOverPlain from.now known.now) }
{
    find_plain(alloc, pair, from, to, known, plain)?;
    match &*plain {
        Some(crossed) => {
            let fault = arrival_fault(alloc, pair.hint_of(to), &pair.list_of(to), crossed)?;
            Ok(fault)
        }
        None => Err(CheckEnd::Memory),
    }
}

/// Over the edge with its phis, the steps on it, and what the block claims that it enters.
#[tactic(auto, using(crate::proofs::CheckedPair::Progressing::edge_stopped))]
fn along_edge<'k, 'j>(
    alloc: Global,
    pair: &Pair<'_, '_, '_, '_, '_>,
    edges: &ByName<'_, HintEdge>,
    from: &Name,
    to: &Name,
    known: &Sides<'k, 'j, IndexedSet>,
    plain: &mut Option<Sides<'k, 'j, IndexedSet>>,
) -> Result<Option<Reason>, CheckEnd>
    requires edges { edges.now ≡ (block_hint (asked called takes pair.now).hint from.now).edges }
    requires found { IfSome plain.old (IsOverPlain from.now known.now) }
    ensures answer { Answers result (fault_at (within (judged.along_edge (asked called takes pair.now) from.now to.now known.now))) }
    ensures found { IfSome plain.new (IsOverPlain from.now known.now) }
{
    let steps = steps_on(alloc, edges, to)?;
    if steps.is_empty() && has_no_phis(pair, to) {
        return along_plain_edge(alloc, pair, from, to, known, plain);
    }
    let mut crossed = cross(alloc, pair, from, to, known)?;
    arrive(alloc, pair, steps.as_slice(), to, &mut crossed)
}

#[tactic(auto, using(crate::proofs::CheckedPair::Progressing::edge_valid, crate::proofs::CheckedPair::Progressing::edge_refused, crate::proofs::CheckedPair::Progressing::edge_unanswered))]
fn edge_answer<'k, 'j>(
    alloc: Global,
    pair: &Pair<'_, '_, '_, '_, '_>,
    edges: &ByName<'_, HintEdge>,
    from: &Name,
    to: &Name,
    known: &Sides<'k, 'j, IndexedSet>,
    plain: &mut Option<Sides<'k, 'j, IndexedSet>>,
) -> Result<Verdict, CheckEnd>
    requires edges { edges.now ≡ (block_hint (asked called takes pair.now).hint from.now).edges }
    requires found { IfSome plain.old (IsOverPlain from.now known.now) }
    ensures answer { Answers result (judged_answer (judged.edge_judged (asked called takes pair.now) from.now known.now to.now)) }
    ensures found { IfSome plain.new (IsOverPlain from.now known.now) }
{
    match along_edge(alloc, pair, edges, from, to, known, plain)? {
        None => Ok(Verdict::Valid),
        Some(reason) => {
            let verdict = refused_on_edge(alloc, from, to, reason)?;
            Ok(verdict)
        }
    }
}

/// The edges to these blocks, of which the first that is refused decides.
pub(crate) fn edges_answer(
    alloc: Global,
    pair: &Pair<'_, '_, '_, '_, '_>,
    hint: &HintBlock,
    from: &Name,
    labels: &[&Name],
    known: &Sides<IndexedSet>,
) -> Result<Verdict, CheckEnd>
    requires { hint.now.edges ≡ (block_hint (asked called takes pair.now).hint from.now).edges }
    ensures { Answers result (judged_answer (judged.edges_judged (asked called takes pair.now) from.now known.now (names_lent labels.now))) }
{
    let edges = ByName::new(alloc, hint.edges.as_slice())?;
    let mut plain = None;
    for to in labels {
        match edge_answer(alloc, pair, &edges, from, to, known, &mut plain) {
            Ok(verdict) => match verdict {
                Verdict::Valid => {}
                Verdict::Refused {
                    block,
                    spot,
                    reason,
                } => {
                    return Ok(Verdict::Refused {
                        block,
                        spot,
                        reason,
                    });
                }
            },
            Err(end) => return Err(end),
        }
    }
    Ok(Verdict::Valid)
}
