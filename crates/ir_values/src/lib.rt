//! The operations on values (LangRef 3.7, Binary Operations, Bitwise Binary Operations, Conversion Operations, icmp, select, getelementptr,
//! Undefined Values, Poison Values), what constants are worth, and the laws of these. Values are related over pairs of blocks, of a source's
//! memory and a target's.
#![tactic(auto)]

mod addresses;
mod comparisons;
mod constants;
mod conversions;
mod flags;
mod indices;
mod kinds_kept;
mod laws;
mod numbers;
mod operations;
mod pointer_laws;
mod results;
mod selections;

pub use addresses::{address_of, eval_gep, is_small};
pub use comparisons::eval_icmp;
pub use constants::{constant_value, is_of_type, width_of};
pub use conversions::eval_cast;
pub use indices::Indices;
pub use kinds_kept::{
    examples_of_binary_operations, examples_of_other_operations, examples_of_outcomes_and_kinds,
    numbers_give_numbers, operations_are_monotone, operations_stay_in_kind,
};
pub use laws::less_defined_is_an_order;
pub use operations::{Outcome, eval_binary, refines};
pub use pointer_laws::{
    addresses_are_addresses, constants_are_of_their_kind, examples_of_constants,
    examples_of_pointers, less_defined_is_related, operations_keep_related,
};
pub use selections::eval_select;
