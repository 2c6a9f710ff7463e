//! The laws that tie printed modules of the whole grammar (LangRef 3.7) to what is read.
#![tactic(auto)]

mod laws;

pub use laws::{printed_modules_are_read, spelled_modules_are_printed};
