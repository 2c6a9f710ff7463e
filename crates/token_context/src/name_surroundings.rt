//! What stands between parentheses around names whose derivation doesn't keep it, read from the tokens of a text.

mod around;

pub use around::Around;
