//! Where a walk stands in the derivation of a text. A walk asks which rule begins there, reads what the rule has behind its beginning, and
//! passes what it doesn't want.
#![tactic(auto)]

mod cursor;
mod flags;
mod gaps;
mod leaves;
mod words;

pub use cursor::Cursor;
pub use flags::read_inbounds;
pub use gaps::Gaps;
pub use leaves::{no_name, no_number, read_bytes, read_name, read_number, read_place, skip_part};
pub use words::{
    read_exact, read_extension, read_flag, read_holding, read_linkage, read_overflow, read_plain,
    read_pred, read_resize, read_truth, read_width,
};
