//! Rules as data: forms with letters in them, what they say of values, and wrong ones.
#![tactic(auto)]

mod forms;
mod laws;

pub use forms::{Condition, FlagPlace, Form, Pattern, Place, TypePlace};
pub use laws::wrong_forms_are_unlawful;
