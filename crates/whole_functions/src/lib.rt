//! Speed alone: functions that are seen to have shape and to be defined at one look-up of each name. No is no answer. A module is judged by
//! 14 to 30 instructions a byte of its text with this; `shape` and then `defined` find what is wrong.
#![tactic(auto)]

mod leads;
mod places;
mod uses;
mod whole;

pub use whole::is_whole_and_defined;
