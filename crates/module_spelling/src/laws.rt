ghost use Rattle.module_spelling.specs.Laws.{DepthsAreRight, LinesAreCounted, RulesAreNumbered};

/// Empty on purpose: its contract is the law.
///
/// The rules that are meant by number, where depths and lines are counted, are those of the grammar.
pub fn rules_are_numbered()
    ensures { RulesAreNumbered }
{}

/// Empty on purpose: its contract is the law.
///
/// How deep each token stands in examples of types and initialisers.
pub fn examples_of_depths()
    ensures { DepthsAreRight }
{}

/// Empty on purpose: its contract is the law.
///
/// How many lines have begun at each token of examples of definitions.
pub fn examples_of_lines()
    ensures { LinesAreCounted }
{}
