//! The derivation of a text within the limits on depths and lines, which a parser of the grammar of modules writes down as it reads.
#![tactic(auto)]

mod derivation;
mod laws;
mod read_marks;
mod reading;
mod stop;
mod token_limits;
mod writer;

pub use derivation::derivation_of;
pub use laws::{examples_of_numbers, numbers_mean};
pub use read_marks::{
    Unread, read_called, read_declared, read_expression, read_global, read_local, read_module,
    read_type,
};
pub use stop::Stop;
pub use token_limits::{Nesting, Role, Saved, Watch, marks_the_first};
