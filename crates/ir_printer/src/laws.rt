ghost use Rattle.ir_printer.specs.Examples.{ModulesArePrinted};
ghost use Rattle.ir_printer.specs.GlobalExamples.{GlobalsArePrinted};
ghost use Rattle.ir_printer.specs.MemoryExamples.{LinesArePrinted};

/// Empty on purpose: its contract is the law.
///
/// How functions, blocks, labels, phis and terminators are printed.
#[tactic(auto, using(crate::proofs::Examples::modules_are_printed))]
pub fn examples_of_printed_modules()
    ensures { ModulesArePrinted }
{}

/// Empty on purpose: its contract is the law.
///
/// How `alloca`, `store` and `call` are printed, and the first line of a function with a linkage, `signext` and `zeroext`.
#[tactic(auto, using(crate::proofs::MemoryExamples::lines_are_printed))]
pub fn examples_of_printed_lines()
    ensures { LinesArePrinted }
{}

/// Empty on purpose: its contract is the law.
///
/// How globals and declarations are printed, and where blank lines stand between them.
#[tactic(auto, using(crate::proofs::GlobalExamples::globals_are_printed))]
pub fn examples_of_printed_globals()
    ensures { GlobalsArePrinted }
{}
