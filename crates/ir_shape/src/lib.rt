//! Whether a module has shape (LangRef 3.7, Well-Formedness): whether its names and labels are unique and known, edges and phis agree,
//! lines, calls, terminators, constants and initialisers fit their types, and what wants a size has one.
//!
//! `shape_tests` has what is asked of one line, one terminator, one phi or one name, and the edges that enter blocks; `line_shapes` what
//! is wrong with one of these beside a module; `shape_laws` that what is told of a module is what its shape is, and examples.
#![tactic(auto)]

mod apart;
mod fault;
mod first;
mod line_shapes;
mod modules;
mod named;
mod shape_laws;
mod shape_tests;

pub use fault::{LinePlace, ShapeEnd, ShapeFault};
pub use ir_typing::ShapeKind;
pub use modules::{shape, shape_function};
pub use shape_laws::{
    ends_are_one, examples_of_memory_faults, examples_of_order, examples_of_shape_faults,
    examples_of_type_faults, faultless_modules_have_shape, functions_have_shape_or_a_fault,
    modules_with_shape_are_faultless,
};
pub use shape_tests::{
    Counts, LentNames, Row, branch_fits, cases_fit, counts_of, fits_edges, have_phis, leads_to,
    name_kind, put_at, return_fits, right_kind,
};
