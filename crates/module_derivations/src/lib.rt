//! Flat derivations of the grammar of modules, and what stands ahead in them.
//!
//! A derivation is a list of marks. What they make is a list of parts (`specs/Parts.antt`), a record each with a field for each nonterminal that
//! has more than one rule; `NAME_by` says what each of its rules makes of the parts behind its beginning, and `NAME` of the parts in front what
//! a nonterminal of one rule is, which isn't written down.
#![tactic(auto)]

mod flat_marks;
mod laws;
mod parser_tables;
pub mod rule;
pub mod start;

pub use flat_marks::{examples_of_marks, marks_are_written, parts_are_passed};
pub use laws::{derivations_mean, examples_of_derivations, rules_are_named, rules_are_seen};
pub use parser_tables::TokenGrammar;
