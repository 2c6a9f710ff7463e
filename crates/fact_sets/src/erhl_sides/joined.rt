//! Speed alone: operands of a line whose hint has a step are mostly compared without a look at the facts (`check-hinted` of `bench/count.py`:
//! 27,000 instructions a line).
//!
//! Sets of facts that know where none leads from one operand to another, and else which do. No fact of a line does, so operands are
//! mostly compared without a look at the facts.
ghost use Rattle.std.specs.Prelude.{◌≡◌, ◌||◌, [], true, false, OnOk, IfSome};
ghost use Rattle.std.specs.List.{list_any};
ghost use Rattle.ir_core.specs.declared.expressions.Reg.TheVariants.{Now};
ghost use Rattle.ir_core.specs.Expressions.{map_atom};
ghost use Rattle.erhl_assert.specs.Facts.{with_fact, with_facts};
ghost use Rattle.erhl_assert.specs.Kills.{killed};
ghost use Rattle.fact_sets.specs.Near.{found_under, HasAllNear, AreNear};
ghost use Rattle.fact_sets.specs.ErhlSides.Joining.{joins, says_unique};

use crate::NearFacts;
use erhl_assert::{Fact, FactSet, Kill};
use ir_core::{Atom, Expr, Name};
use std::alloc::{AllocError, Global};
use std::marker::Model;

pub struct Joined<S: FactSet> {
    facts: S,
    /// Those between two operands.
    near: NearFacts,
    /// Whether a fact between two operands may be among them.
    may_join: bool,
    /// Whether that a register is unique may be among them.
    may_be_unique: bool,
    /// Whether each fact stands once among them. It does, unless memory was refused to one that was to be added.
    is_whole: bool,
}

impl<S: FactSet> Model for Joined<S> {
    ghost use Rattle.std.specs.Prelude.{List};
    ghost use Rattle.erhl_assert.specs.declared.facts.Fact.{Fact};
    ghost use Rattle.std.specs.Prelude.{◌≡◌, true};
    ghost use Rattle.fact_sets.specs.ErhlSides.Joining.{AreTold, AreNearIf, MayBeUnique};
    ghost use Rattle.std.specs.Coded.{codes};
    ghost use Rattle.ir_core.specs.contracts.operands.Const as constant;
    ghost use Rattle.ir_types.specs.contracts.ty.Ty as ty;

    ghost Value = { List Fact };

    ghost coded = { Prim.hlevel (codes, ty.the_row.coded, constant.the_row.coded) };

    ghost view = { λ it. S.contents it.facts };

    ghost invariant = { λ it. AreTold it.may_join it.is_whole (S.contents it.facts)
        × (AreNearIf it.is_whole it.near (S.contents it.facts)
        × MayBeUnique it.may_be_unique (S.contents it.facts)) };
}

impl<S: FactSet> Drop for Joined<S> {
    fn drop(self) {
        let Joined {
            facts: _,
            near: _,
            may_join: _,
            may_be_unique: _,
            is_whole: _,
        } = self;
    }
}

/// Whether the fact is between two operands.
fn joins(fact: &Fact) -> bool
    ensures { result ≡ joins fact.now }
{
    matches!(fact, Fact::LessDef(Expr::Plain(_), Expr::Plain(_)))
}

/// Whether a fact between two operands may be among some and this one.
fn may_join_with(may_join: bool, fact: &Fact) -> bool
    ensures { result ≡ (may_join || joins fact.now) }
{
    may_join || joins(fact)
}

/// Whether that a register is unique may be among some and this one.
fn may_be_unique_with(may_be_unique: bool, fact: &Fact) -> bool
    ensures { result ≡ (may_be_unique || says_unique fact.now) }
{
    may_be_unique || matches!(fact, Fact::Unique(_))
}

/// Keeps the fact among those between two operands, if it is one of them and isn't there yet.
#[tactic(auto, using(crate::proofs::ErhlSides::Joining::there_near))]
fn keep_near<S: FactSet>(facts: &S, fact: &Fact, near: &mut NearFacts) -> Result<(), AllocError>
    ensures { OnOk result (AreNear near.old (S.contents facts.now) → AreNear near.new (with_fact fact.now (S.contents facts.now))) }
{
    if facts.has(fact) {
        return Ok(());
    }
    near.put(fact)
}

impl<S: FactSet> Joined<S> {
    #[tactic(auto, using(crate::proofs::ErhlSides::Joining::none_told, crate::proofs::ErhlSides::Joining::none_near_told, crate::proofs::ErhlSides::Joining::none_unique))]
    pub(crate) fn of_none(alloc: Global, facts: S) -> Joined<S>
        requires { S.contents facts ≡ [] }
        ensures { result ≡ [] }
    {
        Joined {
            facts,
            near: NearFacts::none(alloc),
            may_join: false,
            may_be_unique: false,
            is_whole: true,
        }
    }

    pub fn facts(&self) -> &S
        ensures { S.contents result.now ≡ self.now }
    {
        &self.facts
    }

    /// Whether a fact between two operands may be among them.
    #[tactic(auto, using(crate::proofs::ErhlSides::Joining::told))]
    pub fn may_join(&self) -> bool
        ensures { result ≡ false → list_any joins self.now ≡ false }
    {
        self.may_join
    }

    /// Whether that a register is unique may be among them.
    #[tactic(auto, using(crate::proofs::ErhlSides::Joining::told_unique))]
    pub fn may_be_unique(&self) -> bool
        ensures { result ≡ false → list_any says_unique self.now ≡ false }
    {
        self.may_be_unique
    }

    /// Whether each fact stands once among them.
    #[tactic(auto, using(crate::proofs::ErhlSides::Joining::whole))]
    pub fn is_whole(&self) -> bool
        ensures { result ≡ true → with_facts self.now [] ≡ self.now }
    {
        self.is_whole
    }

    /// Facts among which are all between two operands of which one is the function's. None where memory was refused to one.
    pub fn near(&self, atom: &Atom<Name>) -> Option<&[Fact]>
        ensures { IfSome result (λ near. HasAllNear (found_under (map_atom Now atom.now)) near.now self.now) }
    {
        if self.is_whole {
            Some(self.near.near(atom))
        } else {
            None
        }
    }

    /// Puts the fact at the end, where it isn't there yet.
    #[tactic(auto, using(crate::proofs::ErhlSides::Joining::all_told, crate::proofs::ErhlSides::Joining::nothing_near, crate::proofs::ErhlSides::Joining::more_unique))]
    pub(crate) fn add(&mut self, fact: Fact) -> Result<(), AllocError>
        ensures { OnOk result (self.new ≡ with_fact fact self.old) }
    {
        let may_join = may_join_with(self.may_join, &fact);
        let is_whole = self.is_whole;
        self.may_be_unique = may_be_unique_with(self.may_be_unique, &fact);
        // Where memory is refused, nothing is known of the facts.
        self.may_join = true;
        self.is_whole = false;
        keep_near(&self.facts, &fact, &mut self.near)?;
        self.facts.add(fact)?;
        self.may_join = may_join;
        self.is_whole = is_whole;
        Ok(())
    }

    /// Takes facts out.
    #[tactic(auto, using(crate::proofs::ErhlSides::Joining::left_told, crate::proofs::ErhlSides::Joining::left_near, crate::proofs::ErhlSides::Joining::left_unique))]
    pub(crate) fn kill(&mut self, kill: &Kill)
        ensures { self.new ≡ killed kill.now self.old }
    {
        self.facts.kill(kill);
    }
}
