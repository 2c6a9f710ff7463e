//! The laws that a run of `check`, `defs` or `fmt` is judged wherever its files are told: each hint file has hints, or a first fault, as each text of
//! a module is a well-formed module's, or has a first fault; and then one of the premises holds under which the rows of `crell_program` fix the
//! status.
#![tactic(auto)]

mod laws;

pub use laws::{hint_files_are_judged, told_runs_are_judged};
