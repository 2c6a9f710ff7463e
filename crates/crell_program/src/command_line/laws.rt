ghost use Rattle.crell_program.specs.CommandLine.Examples.{WordsOfExamples};

/// Empty on purpose: its contract is the law.
///
/// Which words name which command, worked out by hand.
pub fn examples_of_words()
    ensures { WordsOfExamples }
{}
