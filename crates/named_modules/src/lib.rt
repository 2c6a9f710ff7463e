//! What module a tree of the whole grammar names (LangRef 3.7, Module Structure, Identifiers), and what is at fault in it: definitions, and
//! the laws that tie them. And what numbers and alignments are that are written.
#![tactic(auto)]

mod laws;
mod numbers;

pub use laws::{faultless_trees_name_what_is_built, named_trees_are_faultless};
pub use numbers::{align_of, built, int_of};
