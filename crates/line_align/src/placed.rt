//! The steps of a block, kept by the line that they stand before.
ghost use Rattle.std.specs.Prelude.{◌≡◌, ℕ, ◌<◌, ◌≤◌, [], ◌∷◌, ◌++◌, length, map, slice_set, get_or, IfOk, OnOk};
ghost use Rattle.erhl_assert.specs.Steps.{steps_at};
ghost use Rattle.line_align.specs.Placed.{kept_at, AreKept};

use contents::Seq;
use erhl_assert::{HintStep, PlacedStep};
use std::alloc::{AllocError, Global};

/// Makes room for one line more.
fn push_none(alloc: Global, kept: &mut Vec<Seq<&HintStep>>) -> Result<(), AllocError>
    ensures { OnOk result (kept.new.items ≡ kept.old.items ++ [] ∷ []) }
{
    kept.push(Seq::new(alloc))?;
    Ok(())
}

/// Makes room for line k.
#[tactic(auto, using(crate::proofs::Keeping::reached_more))]
fn reach(alloc: Global, kept: &mut Vec<Seq<&HintStep>>, k: usize) -> Result<(), AllocError>
    ensures { OnOk result ((k < length kept.new.items) × ((n : ℕ) → kept_at kept.new.items n ≡ kept_at kept.old.items n)) }
{
    while kept.len() <= k {
        push_none(alloc, kept)?;
    }
    Ok(())
}

/// Keeps a step behind those that stand before the same line.
fn keep<'a>(kept: &mut [Seq<&'a HintStep>], k: usize, step: &'a HintStep) -> Result<(), AllocError>
    requires { k < length kept.old }
    ensures { OnOk result (kept.new ≡ slice_set kept.old k (get_or kept.old k [] ++ step.entry ∷ [])) }
{
    let steps = &mut kept[k];
    steps.push(step)
}

/// Keeps a step at its line.
#[tactic(auto, using(crate::proofs::Keeping::kept_more))]
fn place<'a>(
    alloc: Global,
    kept: &mut Vec<Seq<&'a HintStep>>,
    step: &'a PlacedStep,
) -> Result<(), AllocError>
    ensures { OnOk result ((n : ℕ) → kept_at kept.new.items n ≡ kept_at kept.old.items n ++ steps_at n (step.now ∷ [])) }
{
    reach(alloc, kept, step.at as usize)?;
    keep(kept, step.at as usize, &step.step)
}

/// Steps up to the last line, kept in their order by the line that they stand before.
#[tactic(auto, using(crate::proofs::Keeping::steps_one_more, crate::proofs::Keeping::steps_past))]
fn by_line<'a>(
    alloc: Global,
    steps: &'a [PlacedStep],
    last: usize,
) -> Result<Vec<Seq<&'a HintStep>>, AllocError>
    ensures { IfOk result (λ kept. AreKept kept.items last steps.now) }
{
    let mut kept = Vec::new(alloc);
    for step in steps {
        if step.at <= last as u64 {
            place(alloc, &mut kept, step)?;
        }
    }
    Ok(kept)
}

/// The steps of a block by the line that each stands before.
pub struct StepsByLine<'a> {
    kept: Vec<Seq<&'a HintStep>>,
    none: Seq<&'a HintStep>,
    ghost is_none: { none ≡ [] },
}

impl<'a> Drop for StepsByLine<'a> {
    fn drop(self) {
        let StepsByLine { kept: _, none: _ } = self;
    }
}

impl<'a> StepsByLine<'a> {
    ghost use Rattle.line_align.specs.Places.{before};

    /// The steps that stand before a line up to the last one; others aren't kept.
    pub fn new(
        alloc: Global,
        steps: &'a [PlacedStep],
        last: usize,
    ) -> Result<StepsByLine<'a>, AllocError>
        ensures { IfOk result (λ by. (k : ℕ) → k ≤ last → before by k ≡ steps_at k steps.now) }
    {
        let kept = by_line(alloc, steps, last)?;
        let none = Seq::new(alloc);
        Ok(StepsByLine { kept, none })
    }

    /// Those that stand before line k.
    pub fn before(&self, k: usize) -> &Seq<&'a HintStep>
        ensures { map (λ s. s.now) result.now ≡ before self.now k }
    {
        if let Some(steps) = self.kept.get(k) {
            return steps;
        }
        &self.none
    }
}
