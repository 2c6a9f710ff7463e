//! Prints modules as text of LLVM IR (Language Reference 3.7), and what they are made of: names, types, expressions.
//!
//! Each call gives exactly the text that `specs/Printed.antt`, `specs/Globals.antt` and `specs/ExpressionPrinter/Printed.antt` say, and can
//! fail only for want of memory.
//!
//! `expression_printer` prints names, types, values and expressions; the other files lines, blocks, globals and modules.
#![tactic(auto)]

mod blocks;
mod called;
mod expression_printer;
mod globals;
mod laws;
mod lines;
mod modules;
mod named_types;
mod sink;
mod terms;

pub use expression_printer::{
    examples_of_printed_expressions, examples_of_printed_types, print_expr, print_name,
    print_register, print_type, print_value,
};
pub use laws::{
    examples_of_printed_globals, examples_of_printed_lines, examples_of_printed_modules,
};
pub use modules::print_module;
