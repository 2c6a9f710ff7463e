ghost use Rattle.crell_program.specs.DefinitionText.Lines.{LinesAreOne};

/// Empty on purpose: its contract is the law.
///
/// What is printed of functions is one text.
pub fn lines_are_one()
    ensures { LinesAreOne }
{}
