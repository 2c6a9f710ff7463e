//! The ranges of modules that texts of the whole grammar spell (LangRef 3.7), and the limits that they keep: two laws.

mod laws;
mod ranges;

pub use laws::spelled_modules_are_within;
pub use ranges::spelled_modules_are_in_range;
