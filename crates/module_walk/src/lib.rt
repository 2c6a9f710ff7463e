//! The module that is built of a flat derivation, in one walk.
#![tactic(auto, using(crate::proofs::Differ::differ))]

mod constants;
mod functions;
mod items;
mod lines;
mod operations;

pub use constants::{read_integer, read_type, read_types};
pub use items::{read_module_of, read_named_types};
pub use lines::read_register;
pub use operations::read_expression;
