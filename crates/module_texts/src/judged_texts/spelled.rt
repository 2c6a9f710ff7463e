ghost use Rattle.module_texts.specs.JudgedTexts.Blocks.{BlocksAreTold};
ghost use Rattle.module_texts.specs.JudgedTexts.Context.{NamesStandBehindTypes};

/// Empty on purpose: its contract is the law.
///
/// What passes the limit on blocks, and where it is told.
pub fn examples_of_blocks()
    ensures { BlocksAreTold }
{}

/// Empty on purpose: its contract is the law.
///
/// What tokens stand for behind others.
pub fn examples_of_context()
    ensures { NamesStandBehindTypes }
{}
