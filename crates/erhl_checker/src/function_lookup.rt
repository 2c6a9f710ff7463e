//! What is looked up of a function by a name: the phis of a block, and whether a register is defined at another kind.

mod definitions;
mod function_index;

pub use function_index::{FunctionIndex, FunctionParts};
