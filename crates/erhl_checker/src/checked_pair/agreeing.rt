//! Speed alone: no is no answer (`check-self`, `check-mixed` of `bench/count.py`: 15,000 to 16,000 instructions a line, nearly all for reading).
//!
//! Blocks whose lines agree one by one, as those of a function that a pass left as it was. Of them nothing need be known.
ghost use Rattle.std.specs.Prelude.{◌≡◌, ◌+◌, ◌*◌, not, nat_lt, IfOk};
ghost use Rattle.std.specs.Option.{option_copied};
ghost use Rattle.ir_core.specs.Limits.{fact_limit};
ghost use Rattle.erhl_assert.specs.Alignment.{no_facts};
ghost use Rattle.line_align.specs.Cursor.{aligned_line};
ghost use Rattle.line_align.specs.Lent.{lent_block, lines_under};
ghost use Rattle.erhl_checker.specs.CheckedPair.Agreeing.{is_load, instrs_agree, line_agrees, all_agree, terms_agree, are_few, block_agrees, phi_agrees, phis_agree, claims_nothing, edge_agrees, edges_agree};
ghost use Rattle.erhl_checker.specs.CheckedPair.Asked.{asked};
ghost use Rattle.erhl_checker.specs.CheckedPair.Progress.{names_lent};

use crate::checked_pair::Pair;
use crate::checked_pair::terms::term_fault;
use erhl_assert::{HintBlock, Letter};
use fact_sets::{IndexedSet, Sides};
use ir_core::{Expr, Instr, Limit, Name, Term, same_name};
use line_align::{AlignedBlock, Likeness, all_alike, left, on_source, on_target, taken};
use postcondition::{IndexedPhi, lines_agree, phis_match};
use std::alloc::{AllocError, Global};

fn is_load(right: &Expr<Name>) -> bool
    ensures { result ≡ is_load right.now }
{
    matches!(right, Expr::Load(_))
}

/// Whether two lines agree where nothing is known.
pub fn instrs_agree(
    nothing: &Sides<IndexedSet>,
    source: Option<&Instr>,
    target: Option<&Instr>,
) -> bool
    requires { nothing.now ≡ no_facts }
    ensures { result ≡ instrs_agree (option_copied source.entry) (option_copied target.entry) }
{
    match (source, target) {
        (Some(Instr::Calm(s)), Some(Instr::Calm(t))) => {
            !is_load(&s.right) && lines_agree(nothing, s, t)
        }
        _ => false,
    }
}

fn line_agrees(nothing: &Sides<IndexedSet>, letter: Letter, xs: &[Instr], ys: &[Instr]) -> bool
    requires { nothing.now ≡ no_facts }
    ensures { result ≡ line_agrees (aligned_line letter xs.now ys.now) }
{
    instrs_agree(
        nothing,
        taken(on_source(letter), xs),
        taken(on_target(letter), ys),
    )
}

fn all_agree(
    nothing: &Sides<IndexedSet>,
    letters: &[Letter],
    source: &[Instr],
    target: &[Instr],
) -> bool
    requires { nothing.now ≡ no_facts }
    ensures { result ≡ all_agree (lines_under letters.now source.now target.now) }
{
    let mut xs = source;
    let mut ys = target;
    for letter in letters {
        if !line_agrees(nothing, *letter, xs, ys) {
            return false;
        }
        xs = left(on_source(*letter), xs);
        ys = left(on_target(*letter), ys);
    }
    true
}

fn terms_agree(
    alloc: Global,
    nothing: &Sides<IndexedSet>,
    source: &Term,
    target: &Term,
) -> Result<bool, AllocError>
    requires { nothing.now ≡ no_facts }
    ensures { IfOk result (λ agree. agree ≡ terms_agree source.now target.now) }
{
    match term_fault(alloc, source, target, nothing)? {
        None => Ok(true),
        Some(_) => Ok(false),
    }
}

fn phi_agrees(
    nothing: &Sides<IndexedSet>,
    from: &Name,
    p: &IndexedPhi<'_>,
    q: &IndexedPhi<'_>,
) -> bool
    requires { nothing.now ≡ no_facts }
    ensures { result ≡ phi_agrees from.now p.now q.now }
{
    same_name(p.name(), q.name()) && phis_match(nothing, from, Some(p), Some(q))
}

/// Phis agree on the edge from a block, where nothing is known.
struct OnEdge<'b> {
    nothing: &'b Sides<'b, 'b, IndexedSet>,
    from: &'b Name,
    ghost none: { nothing.now ≡ no_facts },
}

impl<'b> Drop for OnEdge<'b> {
    fn drop(self) {
        let OnEdge {
            nothing: _,
            from: _,
        } = self;
    }
}

impl<'b, 'a> Likeness<IndexedPhi<'a>> for OnEdge<'b> {
    ghost use Rattle.erhl_checker.specs.CheckedPair.Agreeing.{phi_agrees};

    ghost like = { λ edge p q. phi_agrees edge.from.now p q };

    fn are_alike(&self, p: &IndexedPhi<'a>, q: &IndexedPhi<'a>) -> bool {
        phi_agrees(self.nothing, self.from, p, q)
    }
}

fn phis_agree<'a>(
    nothing: &Sides<IndexedSet>,
    from: &Name,
    source: &[IndexedPhi<'a>],
    target: &[IndexedPhi<'a>],
) -> bool
    requires { nothing.now ≡ no_facts }
    ensures { result ≡ phis_agree from.now source.now target.now }
{
    all_alike(&OnEdge { nothing, from }, source, target)
}

fn claims_nothing(hint: &HintBlock) -> bool
    ensures { result ≡ claims_nothing hint.now.entry }
{
    hint.entry.src.as_slice().is_empty() && hint.entry.tgt.as_slice().is_empty()
}

/// Whether so many lines and then so many phis leave no more facts known than the limit allows, whatever they are.
fn are_few_over(lines: usize, phis: usize) -> bool
    ensures { result ≡ not (nat_lt fact_limit (8 * lines + 4 * phis)) }
{
    let most = u128::from(Limit::Facts.number());
    8 * (lines as u128) + 4 * (phis as u128) <= most
}

fn edge_agrees(pair: &Pair<'_, '_, '_, '_, '_>, from: &Name, lines: usize, to: &Name) -> bool
    ensures { result ≡ edge_agrees (asked called takes pair.now) from.now lines to.now }
{
    let source = pair.source_phis(to).all();
    are_few_over(lines, source.len())
        && claims_nothing(pair.hint_of(to))
        && phis_agree(pair.nothing(), from, source, pair.target_phis(to).all())
}

fn edges_agree(pair: &Pair<'_, '_, '_, '_, '_>, from: &Name, lines: usize, labels: &[&Name]) -> bool
    ensures { result ≡ edges_agree (asked called takes pair.now) from.now lines (names_lent labels.now) }
{
    for to in labels {
        if !edge_agrees(pair, from, lines, to) {
            return false;
        }
    }
    true
}

/// Whether so many lines leave no more facts known than the limit allows, whatever they are.
fn are_few(lines: usize) -> bool
    ensures { result ≡ not (nat_lt fact_limit (4 * lines)) }
{
    lines <= Limit::Facts.number() as usize / 4
}

/// Whether the blocks' lines agree one by one, their terminators, and the phis on the edges to these blocks, where nothing is known.
#[tactic(auto, using(crate::proofs::CheckedPair::Agreements::lines_counted))]
pub fn block_agrees(
    alloc: Global,
    pair: &Pair<'_, '_, '_, '_, '_>,
    block: &AlignedBlock<'_>,
    labels: &[&Name],
) -> Result<bool, AllocError>
    ensures { IfOk result (λ agree. agree ≡ block_agrees (asked called takes pair.now) (lent_block block.now) (names_lent labels.now)) }
{
    let nothing = pair.nothing();
    let letters = block.letters.as_slice();
    let (source, target) = (block.source, block.target);
    if !are_few(letters.len())
        || !all_agree(
            nothing,
            letters,
            source.body.as_slice(),
            target.body.as_slice(),
        )
    {
        return Ok(false);
    }
    if !terms_agree(alloc, nothing, &source.term, &target.term)? {
        return Ok(false);
    }
    Ok(edges_agree(pair, &source.name, letters.len(), labels))
}
