//! The checker: whether a target refines a source, by the proof that a hint gives. It says no where it doesn't know, with the
//! first place and the first reason.
//!
//! `function_lookup` has what is looked up of a function by a name; `hint_lists` each list of registers that a hint names, once; `checked_pair` what the check of two functions is asked of, and when two
//! blocks agree line by line; `hint_steps` what is known after the steps of a hint; `block_checker` the walk along the lines of two blocks
//! and over the edges that leave them.
#![tactic(auto)]

mod alike;
mod block_checker;
mod checked_pair;
mod function_lookup;
mod functions;
mod hint_lists;
mod hint_steps;
mod modules;

pub use block_checker::CheckEnd;
pub use checked_pair::limits_are_apart;
pub use functions::check_function;
pub use modules::check_module;
