//! Whether an aligned line is allowed, and what is known after one that is, and after an edge.
//!
//! `allowed_lines` has when operands of both sides are known to be related and when a line is allowed, `block_phis` the phis of a block,
//! `edge_crossing` what is known on an edge, behind the phis of the block that it enters.
#![tactic(auto)]

mod allowed_lines;
mod block_phis;
mod edge_crossing;
mod lines;

pub use allowed_lines::{can_trap, lines_agree, matched};
pub use block_phis::{IndexedPhi, Phis, phis_match};
pub use edge_crossing::{Edge, after_edge};
pub use fact_sets::LineEnd;
pub use lines::{Line, after_line};
