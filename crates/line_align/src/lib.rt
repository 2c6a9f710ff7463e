//! The alignment of two functions: their blocks in pairs, line by line under a hint's letters. And what is asked on the way
//! there and again by the checker: what is found by its name, what is alike, where in two bodies a letter stands,
//! and which steps of a hint stand before a line.
#![tactic(auto)]

mod alignment;
mod alike;
mod by_name;
mod cursor;
mod named;
mod placed;

pub use alignment::{AlignEnd, AlignedBlock, align};
pub use alike::{Likeness, all_alike};
pub use by_name::ByName;
pub use cursor::{left, on_source, on_target, taken};
pub use named::Named;
pub use placed::StepsByLine;
