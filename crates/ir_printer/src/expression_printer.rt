//! Prints names, types and expressions as text of LLVM IR (Language Reference 3.7).
//!
//! Each call gives exactly the text that `specs/ExpressionPrinter/Printed.antt` says, and can fail only for want of memory.

mod expressions;
mod laws;
mod names;
mod registers;
mod types;
mod values;

pub use expressions::{
    print_expr, print_value, push_align, push_right, push_typed_value, push_value,
};
pub use laws::{examples_of_printed_expressions, examples_of_printed_types};
pub use names::{print_name, push_name, push_name_text, push_quoted};
pub use registers::print_register;
pub use types::{print_type, push_type};
pub use values::{push_constant, push_number};
