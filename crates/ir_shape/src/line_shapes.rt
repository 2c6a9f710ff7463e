//! What is wrong with a line, a phi, a terminator, a function's header or a declaration beside a module (LangRef 3.7, Well-Formedness): with
//! the types and names that it states, with its operands, and with itself.

mod addressed;
mod operands;
mod scope;
mod stated;
mod told;
mod types;

pub use scope::{Scope, scope_of};
pub use told::{declared_kind, end_kind, header_kind, line_kind, phi_kind};
