ghost use Rattle.definedness.specs.DefinitionLists.Examples.{ListsOfExamples};
ghost use Rattle.definedness.specs.DefinitionLists.Laws.{ListsAreOne};

/// Empty on purpose: its contract is the law.
///
/// A function has one list for each block.
pub fn lists_are_one()
    ensures { ListsAreOne }
{}

/// Empty on purpose: its contract is the law.
///
/// What is defined at the starts of the blocks of functions, worked out by hand.
pub fn examples_of_definitions()
    ensures { ListsOfExamples }
{}
