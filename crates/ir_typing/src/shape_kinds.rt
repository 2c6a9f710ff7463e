//! The kinds of what can be wrong at a place of a module (LangRef 3.7, Well-Formedness), and names that are lent, with their types.

mod hashed;
mod held;
mod held_types;
mod kind;
mod kinds;
mod lent;
mod lent_types;
mod marked;
mod room;

pub use kind::ShapeKind;
pub use kinds::{fault_unless, is_same_ty, least, points_to};
pub use lent::LentNames;
pub use lent_types::LentTypes;
