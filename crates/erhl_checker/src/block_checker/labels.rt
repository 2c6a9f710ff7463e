//! Speed alone, the index of labels: a `switch` takes time by its cases (`check-switch` of `bench/count.py`: 27,000 instructions a case).
//!
//! The blocks that a terminator leads to, each once.
ghost use Rattle.std.specs.Prelude.{◌≡◌, [], ◌∷◌, map, IfOk, OnOk};
ghost use Rattle.ir_core.specs.Functions.{successors_of};
ghost use Rattle.definedness.specs.Along.{with_name, with_names};
ghost use Rattle.erhl_assert.specs.Acceptance.{labels_once};
ghost use Rattle.erhl_checker.specs.CheckedPair.Progress.{names_lent};

use contents::Seq;
use ir_core::{Case, Name, NameIndex, Switch, Term};
use std::alloc::{AllocError, Global};

/// Labels, each where it first stands, and which they are.
struct Labels<'a> {
    met: NameIndex,
    labels: Seq<&'a Name>,
    ghost same: { names_lent labels ≡ met },
}

impl<'a> Drop for Labels<'a> {
    fn drop(self) {
        let Labels { met: _, labels: _ } = self;
    }
}

impl<'a> Labels<'a> {
    fn new(alloc: Global) -> Labels<'a>
        ensures { result.met ≡ [] }
    {
        Labels {
            met: NameIndex::new(alloc),
            labels: Seq::new(alloc),
        }
    }

    /// Puts the label at the end, where it isn't there yet.
    fn with(self, alloc: Global, label: &'a Name) -> Result<Labels<'a>, AllocError>
        ensures { IfOk result (λ more. more.met ≡ with_name self.entry.met label.now) }
    {
        let Labels {
            mut met,
            mut labels,
        } = self;
        if met.add(alloc, label)? {
            labels.push(label)?;
        }
        Ok(Labels { met, labels })
    }

    fn with_cases(self, alloc: Global, cases: &'a [Case]) -> Result<Labels<'a>, AllocError>
        ensures { IfOk result (λ more. more.met ≡ with_names self.entry.met (map (λ c. c.label) cases.now)) }
    {
        let mut labels = self;
        for case in cases {
            labels = labels.with(alloc, &case.label)?;
        }
        Ok(labels)
    }

    fn with_switch(self, alloc: Global, switch: &'a Switch) -> Result<Labels<'a>, AllocError>
        ensures { IfOk result
            (λ more. more.met ≡ with_names self.entry.met (switch.now.default ∷ map (λ c. c.label) switch.now.cases)) }
    {
        let labels = self.with(alloc, &switch.default)?;
        labels.with_cases(alloc, switch.cases.as_slice())
    }

    fn into_labels(self) -> Seq<&'a Name>
        ensures { names_lent result ≡ self.entry.met }
    {
        let Labels { met: _, labels } = self;
        labels
    }

    fn with_term(self, alloc: Global, term: &'a Term) -> Result<Labels<'a>, AllocError>
        ensures { IfOk result (λ more. more.met ≡ with_names self.entry.met (successors_of term.now)) }
    {
        match term {
            Term::Ret(_) | Term::RetVoid | Term::Unreachable => Ok(self),
            Term::Br(label) => self.with(alloc, label),
            Term::CondBr(branch) => {
                let labels = self.with(alloc, &branch.on_true)?;
                labels.with(alloc, &branch.on_false)
            }
            Term::Switch(switch) => self.with_switch(alloc, switch),
        }
    }
}

/// The labels of a terminator, each where it first stands.
#[tactic(auto, using(crate::proofs::BlockChecker::Labelled::once_met))]
pub(crate) fn labels_once(alloc: Global, term: &Term) -> Result<Seq<&Name>, AllocError>
    ensures { IfOk result (λ labels. names_lent labels ≡ labels_once (successors_of term.now)) }
{
    let labels = Labels::new(alloc).with_term(alloc, term)?;
    Ok(labels.into_labels())
}
