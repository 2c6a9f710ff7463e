//! What a parser sees of the tokens of a text: their kinds; and what words and strings say.
#![tactic(auto)]

mod bytes;
mod kinds;
mod names;
mod table;
mod widths;
mod words;

pub use bytes::{bytes_in, first_byte_in};
pub use kinds::{is_behind_c, kinds_of};
pub use words::word_of;
