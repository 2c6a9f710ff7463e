//! When operands of the source and of the target are known to be related, whether an aligned line is allowed, and when two lines agree.

mod accesses;
mod agreement;
mod allowed;
mod in_logic;
mod matching;
mod memory;

pub use accesses::access;
pub use agreement::lines_agree;
pub use allowed::{can_trap, line_fault};
pub use matching::{atoms_matched, matched};
