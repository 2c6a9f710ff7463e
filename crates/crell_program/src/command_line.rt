//! The words of the command line, which the library `clap` reads: the command that they name, with its files.

mod laws;
mod line;
mod reading;
mod request;

pub use laws::examples_of_words;
pub use reading::{WordsEnd, read_words};
pub use request::{FileNames, Listing, Request};
