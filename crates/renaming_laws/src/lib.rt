//! The laws of modules under other names: they stay well-formed, and are printed as texts of these modules. Laws of what is judged of a
//! text: each is decided one way or the other. And of hint files: what is printed there, names, expressions, types and facts, is read as what it
//! was.
#![tactic(auto)]

mod hints;
mod judging;
mod laws;

pub use hints::{
    printed_expressions_are_read, printed_facts_are_read, printed_names_are_read,
    printed_types_are_read,
};
pub use judging::{functions_are_judged, texts_are_judged, ways_have_a_first};
pub use laws::{
    fresh_names_are_one, named_modules_can_be_run, named_modules_stay_well_formed,
    numbered_modules_can_be_run, numbered_modules_stay_well_formed,
    renamed_modules_stay_well_formed, renaming_again_changes_nothing, spelled_modules_are_in_order,
    spelled_modules_are_renamed,
};
