//! The check of two blocks that align: from what a hint claims at their start along their lines, over their terminators, and over
//! each edge that leaves them.

mod blocks;
mod edges;
mod labels;

pub use crate::checked_pair::{CheckEnd, Pair};
pub use crate::function_lookup::{FunctionIndex, FunctionParts};
pub use blocks::block_answer;
