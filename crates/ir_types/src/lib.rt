//! The types of textual LLVM IR (Language Reference 3.7, Type System) and their layout in memory.
//!
//! A value of these types is plain data to a contract: two are equal exactly where `Exact::is` says so.
#![tactic(auto)]

mod keeping;
mod kept;
mod laws;
mod layout;
mod name_map;
mod named;
mod named_types;
mod names;
mod order;
mod same;
mod shared;
mod sizes;
mod ty;

pub use laws::{
    examples_of_layouts, layouts_are_computed, parts_lie_inside, sized_types_hold_sized,
};
pub use named::NamedTy;
pub use named_types::NamedTypes;
pub use names::{Name, Sigil};
pub use same::{same_name, same_ty, tests_are_equality};
pub use shared::Shared;
pub use sizes::{SizeFault, align_of, field_offset, fits_block, is_sized, size_of};
pub use ty::Ty;
