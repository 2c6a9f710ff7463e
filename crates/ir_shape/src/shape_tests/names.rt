//! Whether the labels of phis and terminators are those of a function's blocks.
ghost use Rattle.std.specs.Prelude.{◌≡◌, map};
ghost use Rattle.ir_core.specs.declared.functions.Case.{Case};
ghost use Rattle.ir_core.specs.Functions as functions;
ghost use Rattle.ir_shape.specs.ShapeTests.Kinds as meaning;

use ir_core::{Case, Entry, Term};
use ir_typing::LentNames;

/// Whether the entries of a phi are of blocks with these labels.
pub fn entries_are_labels(labels: &LentNames, entries: &[Entry]) -> bool
    ensures { result ≡ meaning.are_labels labels.now (meaning.froms_of entries.now) }
{
    for entry in entries {
        if !labels.has(&entry.from) {
            return false;
        }
    }
    true
}

fn cases_are_labels(labels: &LentNames, cases: &[Case]) -> bool
    ensures { result ≡ meaning.are_labels labels.now (map (λ (c : Case). c.label) cases.now) }
{
    for case in cases {
        if !labels.has(&case.label) {
            return false;
        }
    }
    true
}

/// Whether a terminator leads to these labels alone.
#[tactic(auto, using(crate::proofs::ShapeTests::Tests::with_true))]
pub fn leads_to_labels(labels: &LentNames, end: &Term) -> bool
    ensures { result ≡ meaning.are_labels labels.now (functions.successors_of end.now) }
{
    match end {
        Term::Br(label) => labels.has(label),
        Term::CondBr(branch) => labels.has(&branch.on_true) && labels.has(&branch.on_false),
        Term::Switch(switch) => {
            labels.has(&switch.default) && cases_are_labels(labels, switch.cases.as_slice())
        }
        Term::Ret(_) | Term::RetVoid | Term::Unreachable => true,
    }
}
