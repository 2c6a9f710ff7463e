//! Facts that are added to what is known, of registers as the logic names them, as far as the limit on facts goes.

mod adding;
mod ends;
mod laws;
mod naming;

pub use adding::add_equal;
pub use ends::{AddEnd, LineEnd};
pub use laws::limits_are_apart;
pub use naming::{left_side, names, now_expr, now_operand, old_atom, old_fact, old_register};
