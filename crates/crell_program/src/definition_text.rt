//! The registers that are defined at the starts of blocks, as text.

mod laws;
mod text;

pub use laws::lines_are_one;
pub use text::definitions_text;
