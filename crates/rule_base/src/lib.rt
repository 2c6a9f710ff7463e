//! Inference rules of the logic: what a rule is, books of boxed rules, and the rules that are shipped here. Beside them
//! what a pass is.
#![tactic(auto)]

mod folding;
mod infer;
mod laws;
mod passes;
mod rule_book;
mod shipped;
mod substitution;
mod typed;

pub use infer::InferRule;
pub use laws::examples_of_rules;
pub use passes::Pass;
pub use rule_book::{Fitness, RuleBook, book_is_sound};
pub use shipped::{Rule, rules_stand_in_the_table};
pub use typed::{has_type, have_one_type, is_typed, operand_fits};
