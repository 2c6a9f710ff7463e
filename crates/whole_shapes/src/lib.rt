//! Speed alone: where the names of a function may stand, each found at one look-up, for `whole_functions`.
#![tactic(auto)]

mod integers;
mod sight;

pub use integers::{is_header_whole, is_plain};
pub use sight::{Home, Sight, home_of, is_in_block, is_line, is_param, is_phi, sight_of};
