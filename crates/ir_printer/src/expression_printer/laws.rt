ghost use Rattle.ir_printer.specs.ExpressionPrinter.Examples.{ConstantsAreWritten, MemoryIsWritten, TypesAreWritten};

/// Empty on purpose: its contract is the law.
///
/// How integers, pointers, arrays, structs, named types and `void` are printed.
#[tactic(auto, using(crate::proofs::ExpressionPrinter::WrittenTypes::types_are_written))]
pub fn examples_of_printed_types()
    ensures { TypesAreWritten }
{}

/// Empty on purpose: its contract is the law.
///
/// How numbers, `null`, globals, `getelementptr` and `bitcast` are printed as constants, and `getelementptr` and `load` as expressions.
#[tactic(auto, using(crate::proofs::ExpressionPrinter::WrittenConstants::constants_are_written, crate::proofs::ExpressionPrinter::WrittenConstants::memory_is_written))]
pub fn examples_of_printed_expressions()
    ensures constants { ConstantsAreWritten }
    ensures memory { MemoryIsWritten }
{}
