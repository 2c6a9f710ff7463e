//! Inference rules over facts of memory: what points into one block, what may be accessed, and what loads give.
#![tactic(auto)]

mod accesses;
mod addresses;
mod aliases;
mod globals;
mod laws;
mod rules;
mod tests_of_operands;

pub use laws::examples_of_rules;
pub use rules::{MemoryRule, rules_stand_in_the_table};
