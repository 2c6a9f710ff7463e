//! The rules of conversions, comparisons and selections, as lists of forms.
#![tactic(auto)]

mod laws;
mod rules;
mod table;

pub use laws::{rules_are_lawful, rules_take_their_instances};
pub use rules::{CastCmpRule, rules_stand_in_the_table};
