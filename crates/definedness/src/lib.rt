//! Whether each register of a function is defined on every path to its uses (LangRef 3.7, Well-Formedness), and which registers are
//! defined where each of its blocks starts.
//!
//! `paths` has the test of uses, and `definition_lists` the list of registers of each block.
#![tactic(auto)]

mod definition_lists;
mod flow;
mod homes;
mod laws;
mod paths;
mod settled;
mod uses;

pub use definition_lists::{defined_at_starts, examples_of_definitions, lists_are_one};
pub use laws::{first_undefined_is_one, shape_knows_labels, undefined_uses_are_faults};
pub use paths::{DefEnd, Undefined, defined, reachable, reached};
