//! Speed alone, in place of `serde_json::Value`: a value takes 32 bytes and a member 48, where an object of that one takes 848. A hint file of
//! 64 MiB is read in 0.73 GB.
//!
//! JSON values that borrow their texts: what `serde_json` reads a text as, in little room.
//!
//! `specs/JsonValues/View.antt` has the data that a value stands for.

mod ends;
mod finding;
mod numbers;
mod reading;
mod sorting;
mod value;

pub use ends::ReadEnd;
pub use json::Scratch;
pub use reading::read;
pub use sorting::sorted;
pub use value::{Member, Value};
