ghost use Rattle.module_texts.specs.SpelledLimits.Laws.{ModulesAreWithin};

/// Empty on purpose: its contract is the law.
///
/// A module that a text spells passes no limit.
pub fn spelled_modules_are_within()
    ensures { ModulesAreWithin }
{}
