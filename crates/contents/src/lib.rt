//! A `Vec`, a `Box` and a byte string that contracts see as what they hold, and exact comparison and copying.
//!
//! A plain `Vec` is compared with its pointer and its capacity; a `Seq` is the list of its items,
//! a `Boxed` is the value in it, and a `Text` is its bytes, so a tree of them is plain data.
#![tactic(auto)]

mod boxed;
mod exact;
mod in_place;
mod seq;
mod text;

pub use boxed::Boxed;
pub use exact::Exact;
pub use seq::Seq;
pub use text::Text;
