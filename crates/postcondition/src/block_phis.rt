//! The phis of a block, of which one is found without a walk, and when those of two sides match.

mod phis;

pub use phis::{IndexedPhi, Phis, phis_match, sets_alike};
