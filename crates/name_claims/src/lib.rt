//! What a text of LLVM IR (Language Reference 3.7, Identifiers) claims of its names: each definition is new, each number that is
//! written is the one that is due, each name that is used stands for a register of the type that is stated.
//!
//! The claims are judged against all definitions, before and behind. The first fault is the first in the text; at one place a name
//! that is defined twice comes before a wrong number, and so on, by `rank`.
#![tactic(auto)]

mod claims;
mod index;
mod judge;
mod laws;
mod places;

pub use claims::{Claim, Count, Definition, Fault, Item, Meaning, Reason, Says, Use};
pub use judge::{before, first_fault, first_with};
pub use laws::examples_of_faults;
