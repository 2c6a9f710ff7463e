//! Whether a schema is an instance of a form: one matcher for all rules, exact, and sound where the form is lawful.
#![tactic(auto)]

mod laws;
mod letters;
mod matching;
mod typed;

pub use laws::{examples_of_forms, forms_are_matched_exactly, lawful_forms_are_sound};
pub use letters::{Letters, read, unread, within};
pub use matching::{fits, fits_any, is_instance};
