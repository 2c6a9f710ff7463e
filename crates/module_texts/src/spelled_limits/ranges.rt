ghost use Rattle.module_texts.specs.SpelledLimits.Ranges.{ModulesAreInRange};

/// Empty on purpose: its contract is the law.
///
/// Each module that a text of bytes spells is in range: its names, types, constants, alignments and lines.
pub fn spelled_modules_are_in_range()
    ensures { ModulesAreInRange }
{}
