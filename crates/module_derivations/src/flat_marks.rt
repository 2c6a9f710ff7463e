//! Flat derivations of typed grammars, and what is seen ahead in them.
//!
//! A parser writes down the rules that begin and the tokens that say something, in the order of the text. What these marks make is a list of
//! parts, and each part is what its rule makes as whatever nonterminal it is wanted (`specs/Seeing.antt`). Where each rule keeps its law,
//! what stands in front of a text's marks is what the text is written of.

mod laws;

pub use laws::{examples_of_marks, marks_are_written, parts_are_passed};
