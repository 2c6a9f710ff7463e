ghost use Rattle.fact_sets.specs.Examples.{NearFactsOfExamples};

/// Empty on purpose: its contract is the law.
///
/// A fact between a register and a number is found by both.
pub fn examples_of_near_facts()
    ensures { NearFactsOfExamples }
{}
