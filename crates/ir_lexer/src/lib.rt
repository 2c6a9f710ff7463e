//! The tokens of textual LLVM IR (Language Reference 3.7, Identifiers and String constants).
//!
//! A text is cut from the left: a gap (blanks, a comment), a token, or a fault, each by what stands first
//! and by the longest run from there. `lex` gives the tokens with their places, or the first fault.
//! `TextFault` says why a text spells nothing; what each fault says of a text is told where its definition stands, in the crates of what is
//! spelled.
#![tactic(auto)]

mod bytes;
mod cut;
mod fault;
mod left_out;
mod names;
mod numbers;
mod pieces;
mod runs;
mod saying;
mod strings;
mod token;
mod wide;
mod widths;

pub use bytes::are_digits;
pub use cut::lex;
pub use fault::TextFault;
pub use left_out::is_left_out;
pub use saying::{bytes_of, is_word, mark_of, says};
pub use token::{Kind, LexFault, Number, Token, TokenKind};
pub use wide::Wide;
pub use widths::{begins_with_zero, up_to_64};
