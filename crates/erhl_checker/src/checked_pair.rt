//! What the check of two functions is asked of: rules, a module, the functions and the blocks of their hint, with what is looked up of
//! them; and how a check ends. Blocks whose lines agree one by one, as those of a function that a pass left as it was; and when two
//! terminators may stand beside each other.

mod agreeing;
mod asking;
mod ends;
mod laws;
mod pair;
mod terms;

pub use agreeing::{block_agrees, instrs_agree};
pub use ends::CheckEnd;
pub use laws::limits_are_apart;
pub use pair::Pair;
pub use terms::term_fault;
