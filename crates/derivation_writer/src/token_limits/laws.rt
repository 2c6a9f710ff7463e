ghost use Rattle.derivation_writer.specs.TokenLimits.Laws.{MarksFirst};

/// Empty on purpose: its contract is the law.
///
/// A watch that is told the derivation of a text marks the limit that is passed by the first token which passes one.
pub fn marks_the_first()
    ensures { MarksFirst }
{}
