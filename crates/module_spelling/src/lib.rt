//! What a text of the whole grammar spells (LangRef 3.7), and the limits that its tokens pass: definitions; and
//! what the tokens of a module say of its tree: laws that tie the tree, its text and what it names.
#![tactic(auto)]

mod laws;
mod token_laws;

pub use laws::{examples_of_depths, examples_of_lines, rules_are_numbered};
pub use token_laws::{
    called_names_stand, declared_names_stand, names_rest_on_these_alone, within_trees_are_short,
};
