ghost use Rattle.std.specs.Prelude.{◌≡◌, ◌+◌, ◌&&◌, [], ◌∷◌, IfOk, OnOk, None, Some, find, true, cond, not, nat_lt};
ghost use Rattle.std.specs.Option.{option_copied, option_map};
ghost use Rattle.erhl_assert.specs.Sides.{has_reg};
ghost use Rattle.erhl_assert.specs.Alignment.{no_facts};
ghost use Rattle.erhl_assert.specs.Facts.{fact_has, has_fact, with_facts, without, on_side};
ghost use Rattle.erhl_assert.specs.Kills.{killed};
ghost use Rattle.erhl_assert.specs.Postcondition.{with_reg, without_reg};
ghost use Rattle.ir_core.specs.Limits.{fact_limit};
ghost use Rattle.erhl_assert.specs.Course.{Gives, within};
ghost use Rattle.erhl_assert.specs.Growth.{adds, adds_all, facts_of, put_in, size, with_conclusion};
ghost use Rattle.erhl_assert.specs.Edges.{is_old};
ghost use Rattle.erhl_assert.specs.Steps.{first_missing, registers_in, as_new};
ghost use Rattle.erhl_assert.specs.Acceptance.{first_printed, left_over};
ghost use Rattle.fact_sets.specs.ErhlSides.Beside.{adds_beside};
ghost use Rattle.fact_sets.specs.ErhlSides.Differing.{differing_among, differing_operands};
ghost use Rattle.fact_sets.specs.ErhlSides.Looking.{looked_at};

use crate::erhl_sides::joined::Joined;
use crate::erhl_sides::leaving::first_left_over;
use crate::erhl_sides::naming::names_old;
use crate::{IndexedSet, LentRegisters, RegisterSet};
use contents::Exact;
use erhl_assert::{Assertion, Fact, FactSet, Kill, Side};
use ir_core::{Atom, Element, Expr, Expr0, Limit, Operand, Reg};
use std::alloc::{AllocError, Global};
use std::marker::Model;

/// What is known at a place, in a form in which facts and registers are found without a walk over all of them. Contracts
/// see the assertion that it stands for.
pub struct Sides<'l, 'a, S: FactSet> {
    pub(crate) src: Joined<S>,
    pub(crate) tgt: Joined<S>,
    pub(crate) diff: RegisterSet<'l, 'a>,
}

impl<'l, 'a, S: FactSet> Model for Sides<'l, 'a, S> {
    ghost use Rattle.erhl_assert.specs.declared.facts.Assertion.{Assertion};
    ghost use Rattle.std.specs.Coded.{codes};
    ghost use Rattle.ir_core.specs.contracts.operands.Const as constant;
    ghost use Rattle.ir_types.specs.contracts.ty.Ty as ty;

    ghost Value = { Assertion };

    ghost coded = { Prim.hlevel (codes, ty.the_row.coded, constant.the_row.coded) };

    ghost view = { λ it. record { src = it.src; tgt = it.tgt; diff = it.diff } };
}

impl<'l, 'a, S: FactSet> Drop for Sides<'l, 'a, S> {
    fn drop(self) {
        let Sides {
            src: _,
            tgt: _,
            diff: _,
        } = self;
    }
}

/// No facts, and room for those of so many lines, of which each leaves two, as far as the limit on facts goes.
fn facts_for(alloc: Global, lines: usize) -> Result<IndexedSet, AllocError>
    ensures { IfOk result (λ set. set ≡ []) }
{
    let most = Limit::Facts.number() as usize;
    IndexedSet::with_room(alloc, lines.saturating_mul(2).min(most), lines.min(most))
}

/// Adds facts to the side's, one after the other, as far as the limit on facts allows: whether it allows all.
#[tactic(auto, using(crate::proofs::ErhlSides::Walks::one_in, crate::proofs::ErhlSides::Walks::one_too_many))]
fn put<S: FactSet>(
    alloc: Global,
    side: Side,
    facts: &[Fact],
    sides: &mut Sides<'_, '_, S>,
) -> Result<bool, AllocError>
    ensures { IfOk result
        (λ few. within (adds_all side facts.now sides.old) ≡ cond few (Some (Gives sides.new)) None) }
{
    for fact in facts {
        if !sides.add_within(side, fact.copy(alloc)?)? {
            return Ok(false);
        }
    }
    Ok(true)
}

/// The facts of the lists are put in one after the other, those of the source first, and the registers that may differ are lent.
/// None where more facts would be known than the limit allows. There is room for what so many lines of each side leave known.
#[tactic(auto, using(erhl_assert::proofs::Courses::within_more, erhl_assert::proofs::Courses::within_none))]
pub fn sides_of<'l, 'a>(
    alloc: Global,
    known: &Assertion,
    diff: LentRegisters<'l, 'a>,
    source: usize,
    target: usize,
) -> Result<Option<Sides<'l, 'a, IndexedSet>>, AllocError>
    requires { diff ≡ known.now.diff }
    ensures { IfOk result (λ sides. within (put_in known.now) ≡ option_map Gives sides) }
{
    let mut sides = Sides {
        src: Joined::of_none(alloc, facts_for(alloc, source)?),
        tgt: Joined::of_none(alloc, facts_for(alloc, target)?),
        diff: RegisterSet::lent(alloc, diff)?,
    };
    if !put(alloc, Side::Src, known.src.as_slice(), &mut sides)? {
        return Ok(None);
    }
    if !put(alloc, Side::Tgt, known.tgt.as_slice(), &mut sides)? {
        return Ok(None);
    }
    Ok(Some(sides))
}

/// Whether both together are no more than the most.
fn are_within(source: usize, target: usize, most: usize) -> bool
    ensures { result ≡ not (nat_lt most (source + target)) }
{
    source <= most && target <= most - source
}

/// Whether both and the others together are no more than the most.
fn are_within_beside(ours: usize, theirs: usize, others: u128, most: usize) -> bool
    ensures { result ≡ not (nat_lt most (ours + theirs + others)) }
{
    ours <= most && theirs <= most - ours && others <= (most - ours - theirs) as u128
}

/// Whether a fact is passed over as it names an old register.
fn is_passed(passes_old: bool, fact: &Fact) -> bool
    ensures { result ≡ (passes_old && fact_has is_old fact.now) }
{
    passes_old && names_old(fact)
}

/// Whether a fact isn't there: it is passed over, or isn't known.
fn is_absent(is_passed: bool, is_known: bool) -> bool
    ensures { result ≡ not (not is_passed && is_known) }
{
    is_passed || !is_known
}

impl<'l, 'a, S: FactSet> Sides<'l, 'a, S> {
    /// Nothing is known, and no register may differ.
    pub fn empty(alloc: Global) -> Result<Sides<'l, 'a, S>, AllocError>
        ensures { IfOk result (λ sides. sides ≡ no_facts) }
    {
        Ok(Sides {
            src: Joined::of_none(alloc, S::empty(alloc)),
            tgt: Joined::of_none(alloc, S::empty(alloc)),
            diff: RegisterSet::lent(alloc, LentRegisters::none())?,
        })
    }

    /// The facts of the side.
    pub fn facts(&self, side: Side) -> &S
        ensures { S.contents result.now ≡ facts_of side self.now }
    {
        match side {
            Side::Src => self.src.facts(),
            Side::Tgt => self.tgt.facts(),
        }
    }

    /// The facts of the side, with what they know of those between two operands.
    pub fn joined(&self, side: Side) -> &Joined<S>
        ensures { result.now ≡ facts_of side self.now }
    {
        match side {
            Side::Src => &self.src,
            Side::Tgt => &self.tgt,
        }
    }

    /// The registers that may differ, of which one is found by hash.
    pub fn diff(&self) -> &RegisterSet<'l, 'a>
        ensures { result.now ≡ self.now.diff }
    {
        &self.diff
    }

    /// Whether the fact is known on the side.
    pub fn has_fact(&self, side: Side, fact: &Fact) -> bool
        ensures { result ≡ has_fact fact.now (facts_of side self.now) }
    {
        self.facts(side).has(fact)
    }

    /// Whether each fact of the side stands once. It does, unless memory was refused to one that was to be added.
    pub fn is_whole(&self, side: Side) -> bool
        ensures { result ≡ true → with_facts (facts_of side self.now) [] ≡ facts_of side self.now }
    {
        self.joined(side).is_whole()
    }

    /// Whether the fact isn't among those of the side that are looked at.
    #[tactic(auto, using(crate::proofs::ErhlSides::Once::is_looked_at))]
    fn is_missing(&self, side: Side, passes_old: bool, fact: &Fact) -> bool
        ensures { result ≡ not (has_fact fact.now (looked_at passes_old (facts_of side self.now))) }
    {
        is_absent(is_passed(passes_old, fact), self.has_fact(side, fact))
    }

    /// The first of these facts that isn't among those of the side that are looked at.
    fn first_absent<'b>(&self, side: Side, passes_old: bool, wanted: &'b [Fact]) -> Option<&'b Fact>
        ensures { option_copied result ≡ first_missing (looked_at passes_old (facts_of side self.now)) wanted.now }
    {
        for fact in wanted {
            if self.is_missing(side, passes_old, fact) {
                return Some(fact);
            }
        }
        None
    }

    /// The first of these facts that isn't known on the side.
    pub fn first_unknown<'b>(&self, side: Side, wanted: &'b [Fact]) -> Option<&'b Fact>
        ensures { option_copied result ≡ first_missing (facts_of side self.now) wanted.now }
    {
        self.first_absent(side, false, wanted)
    }

    /// The first of these facts that isn't known on the side. Facts that name old registers are passed over.
    pub fn first_missing<'b>(&self, side: Side, wanted: &'b [Fact]) -> Option<&'b Fact>
        ensures { option_copied result ≡ first_missing (without is_old (facts_of side self.now)) wanted.now }
    {
        self.first_absent(side, true, wanted)
    }

    /// Of the registers that may differ, are not old and aren't wanted, the one whose printed form comes first by its bytes.
    #[tactic(auto, using(crate::proofs::ErhlSides::Telling::none_told))]
    pub fn first_left_over(
        &self,
        alloc: Global,
        wanted: &LentRegisters<'_, '_>,
    ) -> Result<Option<Reg>, AllocError>
        ensures { IfOk result (λ first. first ≡ first_printed (left_over wanted.now self.now.diff)) }
    {
        if !self.diff.may_be_over(wanted) {
            return Ok(None);
        }
        let all = self.diff.all(alloc)?;
        match first_left_over(alloc, wanted, all.as_slice())? {
            Some(register) => Ok(Some(register.copy(alloc)?)),
            None => Ok(None),
        }
    }

    /// The atom's register, if it may differ.
    #[tactic(auto, using(crate::proofs::ErhlSides::Telling::constant_doesnt_differ, crate::proofs::ErhlSides::Telling::differs, crate::proofs::ErhlSides::Telling::doesnt_differ))]
    fn differing_in<'b>(&self, atom: &'b Atom<Reg>) -> Option<&'b Reg>
        ensures { option_copied result ≡ differing_among self.now.diff (atom.now ∷ []) }
    {
        match atom {
            Atom::Constant(_) => None,
            Atom::Register(register) => {
                if self.diff.has(register) {
                    Some(register)
                } else {
                    None
                }
            }
        }
    }

    #[tactic(auto, using(crate::proofs::ErhlSides::Telling::first_differs, crate::proofs::ErhlSides::Telling::first_doesnt))]
    fn differing_in_two<'b>(&self, a: &'b Atom<Reg>, b: &'b Atom<Reg>) -> Option<&'b Reg>
        ensures { option_copied result ≡ differing_among self.now.diff (a.now ∷ b.now ∷ []) }
    {
        match self.differing_in(a) {
            Some(register) => Some(register),
            None => self.differing_in(b),
        }
    }

    #[tactic(auto, using(crate::proofs::ErhlSides::Telling::first_differs, crate::proofs::ErhlSides::Telling::first_doesnt))]
    fn differing_in_three<'b>(
        &self,
        a: &'b Atom<Reg>,
        b: &'b Atom<Reg>,
        c: &'b Atom<Reg>,
    ) -> Option<&'b Reg>
        ensures { option_copied result ≡ differing_among self.now.diff (a.now ∷ b.now ∷ c.now ∷ []) }
    {
        match self.differing_in(a) {
            Some(register) => Some(register),
            None => self.differing_in_two(b, c),
        }
    }

    /// The first register of the operands that may differ.
    #[tactic(auto, using(crate::proofs::ErhlSides::Telling::operand_differs, crate::proofs::ErhlSides::Telling::operand_doesnt))]
    fn differing_in_operands<'b>(&self, operands: &'b [Operand<Reg>]) -> Option<&'b Reg>
        ensures { option_copied result ≡ differing_operands self.now.diff operands.now }
    {
        for operand in operands {
            if let Some(register) = self.differing_in(&operand.atom) {
                return Some(register);
            }
        }
        None
    }

    #[tactic(auto, using(crate::proofs::ErhlSides::Telling::operand_differs, crate::proofs::ErhlSides::Telling::operand_doesnt))]
    fn differing_in_element<'b>(&self, element: &'b Element<Reg>) -> Option<&'b Reg>
        ensures { option_copied result ≡ differing_operands self.now.diff (element.now.base ∷ element.now.indices) }
    {
        match self.differing_in(&element.base.atom) {
            Some(register) => Some(register),
            None => self.differing_in_operands(element.indices.as_slice()),
        }
    }

    /// The first register of the expression that may differ.
    pub fn first_differing<'b>(&self, expr: &'b Expr0) -> Option<&'b Reg>
        ensures { option_copied result ≡ find (λ r. has_reg r self.now.diff) (registers_in expr.now) }
    {
        match expr {
            Expr::Plain(operand) => self.differing_in(&operand.atom),
            Expr::Binary(binary) => self.differing_in_two(&binary.left, &binary.right),
            Expr::Icmp(icmp) => self.differing_in_two(&icmp.left, &icmp.right),
            Expr::Cast(cast) => self.differing_in(&cast.operand.atom),
            Expr::Select(select) => {
                let select = select.get();
                self.differing_in_three(
                    &select.condition.atom,
                    &select.left.atom,
                    &select.right.atom,
                )
            }
            Expr::Element(element) => self.differing_in_element(element.get()),
            Expr::Load(load) => self.differing_in(&load.pointer.atom),
        }
    }

    /// Nothing is known of the register any more, and it doesn't differ.
    #[tactic(auto, using(crate::proofs::ErhlSides::Telling::is_new))]
    pub fn take_as_new(&mut self, register: Reg)
        ensures { self.new ≡ as_new register self.old }
    {
        self.remove_differing(&register);
        let kill = Kill::Naming(register);
        self.kill(Side::Src, &kill);
        self.kill(Side::Tgt, &kill);
    }

    /// Puts the fact at the end of the side's, where it isn't there yet.
    pub fn add_fact(&mut self, side: Side, fact: Fact) -> Result<(), AllocError>
        ensures { OnOk result (self.new ≡ with_conclusion side fact self.old) }
    {
        match side {
            Side::Src => self.src.add(fact),
            Side::Tgt => self.tgt.add(fact),
        }
    }

    /// Whether no more facts are known than the limit allows.
    fn is_within_limit(&self) -> bool
        ensures { result ≡ not (nat_lt fact_limit (size self.now)) }
    {
        let most = Limit::Facts.number() as usize;
        are_within(self.src.facts().len(), self.tgt.facts().len(), most)
    }

    /// Whether with so many others no more facts are known than the limit allows.
    fn is_within_limit_beside(&self, others: u128) -> bool
        ensures { result ≡ not (nat_lt fact_limit (size self.now + others)) }
    {
        let most = Limit::Facts.number() as usize;
        are_within_beside(self.src.facts().len(), self.tgt.facts().len(), others, most)
    }

    /// Puts the fact at the end of the side's, where it isn't there yet. Whether no more facts are known then than the limit allows: a fact that is there already passes no limit.
    #[tactic(auto, using(crate::proofs::ErhlSides::Adding::there_already, crate::proofs::ErhlSides::Adding::added_within))]
    pub fn add_within(&mut self, side: Side, fact: Fact) -> Result<bool, AllocError>
        ensures { IfOk result
            (λ few. within (adds side fact self.old) ≡ cond few (Some (Gives self.new)) None) }
    {
        let before = self.facts(side).len();
        self.add_fact(side, fact)?;
        if self.facts(side).len() == before {
            return Ok(true);
        }
        Ok(self.is_within_limit())
    }

    /// The same, where so many facts are known beside these.
    #[tactic(auto, using(crate::proofs::ErhlSides::Adding::there_already_beside, crate::proofs::ErhlSides::Adding::added_beside))]
    pub fn add_beside(&mut self, others: u128, side: Side, fact: Fact) -> Result<bool, AllocError>
        ensures { IfOk result
            (λ few. within (adds_beside others side fact self.old) ≡ cond few (Some (Gives self.new)) None) }
    {
        let before = self.facts(side).len();
        self.add_fact(side, fact)?;
        if self.facts(side).len() == before {
            return Ok(true);
        }
        Ok(self.is_within_limit_beside(others))
    }

    /// Takes facts out of the side.
    pub fn kill(&mut self, side: Side, kill: &Kill)
        ensures { self.new ≡ on_side side (killed kill.now) self.old }
    {
        match side {
            Side::Src => self.src.kill(kill),
            Side::Tgt => self.tgt.kill(kill),
        }
    }

    /// Puts the register among those that may differ.
    pub fn add_differing(&mut self, alloc: Global, register: Reg) -> Result<(), AllocError>
        ensures { OnOk result (self.new ≡ record self.old { diff = with_reg register self.old.diff }) }
    {
        self.diff.add(alloc, register)
    }

    /// Makes these the registers that may differ.
    pub fn set_differing(&mut self, registers: RegisterSet<'l, 'a>)
        ensures { self.new ≡ record self.old { diff = registers.entry } }
    {
        self.diff = registers;
    }

    /// Takes the register out of those that may differ.
    pub fn remove_differing(&mut self, register: &Reg)
        ensures { self.new ≡ record self.old { diff = without_reg register.now self.old.diff } }
    {
        self.diff.remove(register);
    }
}
