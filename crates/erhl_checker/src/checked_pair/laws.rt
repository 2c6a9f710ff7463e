ghost use Rattle.erhl_checker.specs.CheckedPair.Progress.{LimitsAreApart};

/// Empty on purpose: its contract is the law.
///
/// The limit on facts alone is told, and not where there is an answer within it.
pub fn limits_are_apart()
    ensures { LimitsAreApart }
{}
