//! Examples of what module a tree of the whole grammar names (LangRef 3.7, Module Structure, Identifiers), what is built of it, and what is
//! at fault in it. Each function is empty on purpose: its contract is the law.

mod laws;

pub use laws::{
    examples_of_calls, examples_of_constants, examples_of_modules, examples_of_named_parts,
    examples_of_named_trees, examples_of_names, examples_of_numbers, examples_of_registers,
    examples_of_types,
};
