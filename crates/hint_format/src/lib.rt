//! Reads hint files (JSON, format 1), and prints facts as such a file has them.
//!
//! `specs/Form.antt` says which files have the form, what hints each has, and what is first at fault in any other.
#![tactic(auto)]

mod blocks;
mod facts;
mod fault;
mod hints;
mod laws;
mod print;
mod settling;
mod steps;
mod texts;

pub use fault::HintFault;
pub use hints::read_hints;
pub use laws::hint_files_are_read;
pub use print::print_fact;
pub use settling::settled_hints;
