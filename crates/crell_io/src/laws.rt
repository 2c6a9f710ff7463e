ghost use Rattle.crell_io.specs.Examples.{CountsOfExamples, SinksOfExamples};

/// Empty on purpose: its contract is the law.
///
/// How many bytes sinks in memory are sure to take, worked out by hand.
pub fn examples_of_sinks()
    ensures { SinksOfExamples }
{}

/// Empty on purpose: its contract is the law.
///
/// When a count has risen, worked out by hand, and which calls are to fail.
pub fn examples_of_counts()
    ensures { CountsOfExamples }
{}
