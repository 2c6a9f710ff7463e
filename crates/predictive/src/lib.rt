//! A predictive parser over grammars as data (LL(1), Aho, Sethi and Ullman): an explicit stack, and acts that are called as rules begin,
//! tokens are shifted and rules reduced.
//!
//! A grammar is an `impl Table`. The easy way to one is a list of rules with their LL(1) sets (`specs/Listed.antt`, and an example in
//! `specs/Examples.antt`): that it is predictive is then computed, `by_test grammar refl`, and `choice` and `side` read its arrays, which
//! are compared with the list by `refl` too.
//!
//! Over it stand typed grammars (`specs/Typed.antt`), whose rules say what they make: a derivation tree gives one value, that value is
//! written as the tree's leaves, and each value that is written has a derivation tree; a `Stack` holds the values of a parser. And typed
//! grammars with gaps (`specs/Gapped.antt`): where a gap is written, any tokens may stand that fill it, and nothing is kept of them.
//!
//! `grammar_decides` has the laws that each text is decided by such a grammar, as a function of the logic.
#![tactic(auto)]

mod action;
mod dense;
mod engine;
mod fillings;
mod frames;
mod grammar_decides;
mod item;
mod items;
mod laws;
mod parts;
mod stack;
mod symbol;
mod table;

pub use action::Action;
pub use dense::{choice, side};
pub use engine::parse;
pub use fillings::examples_of_fillings;
pub use grammar_decides::{brackets_are_decided, each_text_is_decided};
pub use laws::{examples, is_unambiguous, one_first_fault, test_is_sound};
pub use parts::Stack;
pub use symbol::Symbol;
pub use table::Table;
