//! What is known on an edge, behind the phis of the block that it enters.

mod edges;

pub use edges::{Edge, after_edge};
