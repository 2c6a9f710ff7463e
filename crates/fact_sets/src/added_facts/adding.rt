//! Facts that are added within the limit on facts.
ghost use Rattle.erhl_assert.specs.declared.facts.Fact.TheVariants.{LessDef};
ghost use Rattle.erhl_assert.specs.Course.{and_then};
ghost use Rattle.erhl_assert.specs.Growth.{adds};
ghost use Rattle.fact_sets.specs.AddedFacts.Ends.{Follows};

use crate::added_facts::ends::AddEnd;
use crate::added_facts::naming::less_def;
use crate::erhl_sides::Sides;
use erhl_assert::{Fact, FactSet, Side};
use ir_core::{Expr0, Limit};
use std::alloc::Global;

/// Adds the fact to the side's.
fn add<S: FactSet>(side: Side, fact: Fact, sides: &mut Sides<S>) -> Result<(), AddEnd>
    ensures { Follows result sides.new (adds side fact sides.old) }
{
    if sides.add_within(side, fact)? {
        Ok(())
    } else {
        Err(AddEnd::Limit(Limit::Facts))
    }
}

/// Adds that the two expressions are less defined than each other.
#[tactic(auto, using(erhl_assert::proofs::Courses::within_more, erhl_assert::proofs::Courses::within_none))]
pub fn add_equal<S: FactSet>(
    alloc: Global,
    side: Side,
    a: Expr0,
    b: Expr0,
    sides: &mut Sides<S>,
) -> Result<(), AddEnd>
    ensures { Follows result sides.new (and_then (adds side (LessDef a b) sides.old) (adds side (LessDef b a))) }
{
    let back = less_def(alloc, &b, &a)?;
    add(side, Fact::LessDef(a, b), sides)?;
    add(side, back, sides)
}
