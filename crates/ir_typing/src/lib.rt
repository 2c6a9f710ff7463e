//! What is asked of types, constants, addresses, initialisers and calls beside a module, and the limits on modules (LangRef 3.7,
//! Well-Formedness): for the shape of a module, and for the reader, which judges what it has built by the same tests.
//!
//! `shape_kinds` has the kinds of what can be wrong and names that are lent with their types, `operand_tests` the tests of operands,
//! `module_limits` the limits, and `operand_laws` examples worked out by hand.
#![tactic(auto)]

mod module_limits;
mod operand_laws;
mod operand_tests;
mod shape_kinds;

pub use module_limits::{Judged, first_limit, first_limit_of_function, limits_are_one};
pub use operand_laws::{
    examples_of_depths, examples_of_parts, examples_of_sizes, examples_of_wrong_calls,
    examples_of_wrong_constants, examples_of_wrong_globals,
};
pub use operand_tests::{
    Beside, Callee, are_types_known, call_kind, constant_kind, element_fits, element_kind, entered,
    global_var_kind, is_constant_known, is_due, is_type_known, leads_somewhere, number_in,
    number_of, pointed_by_constants, pointed_by_operands,
};
pub use shape_kinds::{
    LentNames, LentTypes, ShapeKind, fault_unless, is_same_ty, least, points_to,
};
