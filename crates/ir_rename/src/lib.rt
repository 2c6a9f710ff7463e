//! Functions under other names (Language Reference 3.7, Identifiers): unnamed values are numbered in order of appearance, or get texts
//! for names.
#![tactic(auto)]

mod laws;
mod named;
mod names;
mod numbered;
mod rename;
mod renaming;

pub use laws::{
    examples_of_names, examples_of_numbers, named_functions_are_renamed,
    numbered_functions_are_renamed, renamed_functions_keep_their_shape,
};
pub use named::name_all;
pub use numbered::number_in_order;
