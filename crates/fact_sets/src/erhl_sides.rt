//! What is known at a place, in a form in which it is found without walks.

mod joined;
mod leaving;
mod naming;
mod sides;

pub use joined::Joined;
pub use naming::{OldRegisters, Sort, fact_has, names_old};
pub use sides::{Sides, sides_of};
