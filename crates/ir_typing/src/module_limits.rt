//! The limits on modules: how deep types and constants stand in one another, how many lines a function has, and how much memory is wanted at
//! once.

mod depths;
mod judged;
mod laws;
mod limits;
mod lines;
mod sizes;

pub use judged::Judged;
pub use laws::limits_are_one;
pub use limits::{first_limit, first_limit_of_function};
