ghost use Rattle.derivation_writer.specs.Examples.{NumbersAreWritten};
ghost use Rattle.derivation_writer.specs.Meant.{NumbersMean};

/// Empty on purpose: its contract is the law.
///
/// What is written down of a text means the one tree that the text is written of.
#[tactic(auto, using(crate::proofs::Meant::numbers_mean))]
pub fn numbers_mean()
    ensures { NumbersMean }
{}

/// Empty on purpose: its contract is the law.
///
/// What is written down of a type and of a module.
#[tactic(auto, using(crate::proofs::Examples::numbers_are_written))]
pub fn examples_of_numbers()
    ensures { NumbersAreWritten }
{}
