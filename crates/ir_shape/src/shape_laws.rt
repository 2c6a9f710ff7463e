//! That what `shape` tells of a module is what its shape (LangRef 3.7, Well-Formedness) is, and what is told of given modules. Each
//! function is empty on purpose: its contract is the law.

mod laws;

pub use laws::{
    ends_are_one, examples_of_memory_faults, examples_of_order, examples_of_shape_faults,
    examples_of_type_faults, faultless_modules_have_shape, functions_have_shape_or_a_fault,
    modules_with_shape_are_faultless,
};
