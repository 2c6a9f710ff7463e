//! Names in an order, of which one is found without a walk through the others.

mod index;
mod places;

pub use index::NameIndex;
pub use places::PlaceIndex;
