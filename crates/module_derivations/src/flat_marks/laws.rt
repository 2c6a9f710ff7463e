ghost use Rattle.std.specs.Prelude.{◌≡◌, ◌+◌, ℕ, List};
ghost use Rattle.module_derivations.specs.FlatMarks.Examples.{MarksAreWritten};
ghost use Rattle.module_derivations.specs.FlatMarks.Flat.{AreWritten, skip};

/// Empty on purpose: its contract is the law.
///
/// What a parser's acts write down along trees are the trees' marks.
#[tactic(auto, using(crate::proofs::FlatMarks::Running::are_written))]
pub fn marks_are_written()
    ensures { AreWritten }
{}

/// Empty on purpose: its contract is the law.
///
/// Parts are passed one after another. That what stands ahead is what a text is written of, in any grammar, is a lemma
/// (`proofs/Meaning.antt`).
#[tactic(auto, using(crate::proofs::FlatMarks::Passing::skip_skip))]
pub fn parts_are_passed()
    ensures { (a b : ℕ) (s : List ℕ) → skip (a + b) s ≡ skip b (skip a s) }
{}

/// Empty on purpose: its contract is the law.
///
/// Marks of small texts, and the parts that they make.
#[tactic(auto, using(crate::proofs::FlatMarks::Examples::marks_are_written))]
pub fn examples_of_marks()
    ensures { MarksAreWritten }
{}
