//! Speed alone: no is no answer. A function against itself takes 16,000 instructions a line of both texts (`check-self` of `bench/count.py`),
//! nearly all of them for reading.
//!
//! Functions that are valid at once: their blocks have no phis, and agree one by one where nothing is known.
ghost use Rattle.std.specs.Prelude.{◌≡◌, IfOk, Some};
ghost use Rattle.ir_types.specs.Same.{same_list};
ghost use Rattle.erhl_assert.specs.Alignment.{no_facts, same_header};
ghost use Rattle.erhl_checker.specs.CheckedPair.Agreeing.{terms_agree};
ghost use Rattle.erhl_checker.specs.Alike.{are_few, blocks_alike, functions_alike, lines_alike, no_phi};

use crate::checked_pair::{instrs_agree, term_fault};
use fact_sets::{IndexedSet, Sides};
use ir_core::{Block, Function, Instr, Limit, Param, Phi, Term, same_name, same_ty};
use line_align::{Likeness, all_alike};
use std::alloc::{AllocError, Global};

/// Lines agree where nothing is known.
struct Agreeing<'b> {
    nothing: &'b Sides<'b, 'b, IndexedSet>,
    ghost none: { nothing.now ≡ no_facts },
}

impl<'b> Drop for Agreeing<'b> {
    fn drop(self) {
        let Agreeing { nothing: _ } = self;
    }
}

impl<'b> Likeness<Instr> for Agreeing<'b> {
    ghost use Rattle.std.specs.Prelude.{Some};
    ghost use Rattle.erhl_checker.specs.CheckedPair.Agreeing.{instrs_agree};

    ghost like = { λ _ x y. instrs_agree (Some x) (Some y) };

    fn are_alike(&self, x: &Instr, y: &Instr) -> bool {
        instrs_agree(self.nothing, Some(x), Some(y))
    }
}

fn lines_alike(nothing: &Sides<IndexedSet>, source: &[Instr], target: &[Instr]) -> bool
    requires { nothing.now ≡ no_facts }
    ensures { result ≡ lines_alike source.now target.now }
{
    all_alike(&Agreeing { nothing }, source, target)
}

fn no_phi(phis: &[Phi]) -> bool
    ensures { result ≡ no_phi phis.now }
{
    phis.is_empty()
}

/// Whether so many lines and then an edge leave no more facts known than the limit allows, whatever they are.
fn are_few(lines: &[Instr]) -> bool
    ensures { result ≡ are_few lines.now }
{
    lines.len() <= Limit::Facts.number() as usize / 8
}

fn terms_agree(
    alloc: Global,
    nothing: &Sides<IndexedSet>,
    source: &Term,
    target: &Term,
) -> Result<bool, AllocError>
    requires { nothing.now ≡ no_facts }
    ensures { IfOk result (λ agree. agree ≡ terms_agree source.now target.now) }
{
    match term_fault(alloc, source, target, nothing)? {
        None => Ok(true),
        Some(_) => Ok(false),
    }
}

fn blocks_alike(
    alloc: Global,
    nothing: &Sides<IndexedSet>,
    b: &Block,
    c: &Block,
) -> Result<bool, AllocError>
    requires { nothing.now ≡ no_facts }
    ensures { IfOk result (λ alike. alike ≡ blocks_alike b.now c.now) }
{
    let lines = b.body.as_slice();
    if same_name(&b.name, &c.name)
        && no_phi(b.phis.as_slice())
        && no_phi(c.phis.as_slice())
        && are_few(lines)
        && lines_alike(nothing, lines, c.body.as_slice())
    {
        terms_agree(alloc, nothing, &b.term, &c.term)
    } else {
        Ok(false)
    }
}

fn all_blocks_alike(
    alloc: Global,
    nothing: &Sides<IndexedSet>,
    source: &[Block],
    target: &[Block],
) -> Result<bool, AllocError>
    requires { nothing.now ≡ no_facts }
    ensures { IfOk result (λ alike. alike ≡ same_list blocks_alike source.now target.now) }
{
    let mut rest = target;
    for b in source {
        let Some((c, after)) = rest.split_first() else {
            return Ok(false);
        };
        if !blocks_alike(alloc, nothing, b, c)? {
            return Ok(false);
        }
        rest = after;
    }
    Ok(rest.is_empty())
}

/// One name and one type.
struct NameAndType;

impl Likeness<Param> for NameAndType {
    ghost use Rattle.erhl_assert.specs.Alignment.{same_param};

    ghost like = { λ _ p q. same_param p q };

    fn are_alike(&self, p: &Param, q: &Param) -> bool {
        same_name(&p.name, &q.name) && same_ty(&p.ty, &q.ty)
    }
}

fn same_header(source: &Function, target: &Function) -> bool
    ensures { result ≡ same_header source.now target.now }
{
    same_ty(&source.result, &target.result)
        && all_alike(
            &NameAndType,
            source.params.as_slice(),
            target.params.as_slice(),
        )
}

/// Whether the functions are valid at once, where their hint says nothing.
pub(crate) fn functions_alike(
    alloc: Global,
    nothing: &Sides<IndexedSet>,
    source: &Function,
    target: &Function,
) -> Result<bool, AllocError>
    requires { nothing.now ≡ no_facts }
    ensures { IfOk result (λ alike. alike ≡ functions_alike source.now target.now) }
{
    if same_header(source, target) {
        all_blocks_alike(
            alloc,
            nothing,
            source.blocks.as_slice(),
            target.blocks.as_slice(),
        )
    } else {
        Ok(false)
    }
}
