//! Analyses as a user of `flow_solver` brings them.

mod marks;
mod reached;
mod signs;
mod small;

pub use marks::{Gathered, Marks};
pub use reached::Reached;
pub use signs::{Act, Known, Sign, Signs, is_same};
pub use small::{Effect, Small};
