//! The kinds of a module's tokens where they stand: what by itself is a name or `unnamed_addr` may be none of the grammar, by what stands in
//! the parentheses before it.
#![tactic(auto)]

mod brackets;
mod context;
mod matters;
mod name_surroundings;
mod reading;

pub use brackets::{Brackets, Opened};
pub use context::{InContext, kinds_in_context};
pub use matters::do_parens_matter;
pub use name_surroundings::Around;
