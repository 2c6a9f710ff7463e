//! The limits on how deep types and constants stand in one another and on the lines of a function, watched as a text is read.

mod laws;
mod nesting;
mod role;
mod roles;
mod watch;

pub use laws::marks_the_first;
pub use nesting::{Nesting, Saved};
pub use role::Role;
pub use watch::Watch;
