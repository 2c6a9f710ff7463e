//! Laws of what is wrong with operands, and of the limits on modules: examples, worked out by hand.

mod faults;
mod limits;

pub use faults::{examples_of_wrong_calls, examples_of_wrong_constants, examples_of_wrong_globals};
pub use limits::{examples_of_depths, examples_of_parts, examples_of_sizes};
