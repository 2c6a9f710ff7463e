ghost use Rattle.fact_sets.specs.AddedFacts.Ends.{LimitsAreApart};

/// Empty on purpose: its contract is the law.
///
/// The limit on facts alone is told, and not where a course within it gives what is known.
pub fn limits_are_apart()
    ensures { LimitsAreApart }
{}
