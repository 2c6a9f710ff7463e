//! Which registers of a function are defined on every path to the start of each of its blocks.

mod graph;
mod laws;
mod lists;
mod marks;
mod names;
mod places;

pub use laws::{examples_of_definitions, lists_are_one};
pub use lists::defined_at_starts;
