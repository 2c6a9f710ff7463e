//! What is first at fault in a text of the whole grammar (LangRef 3.7): definitions, and the laws of what texts spell: one module alone, or
//! else one first fault.
#![tactic(auto)]

mod judged_texts;
mod laws;
mod named_module_laws;
mod spelled_limits;

pub use judged_texts::{each_text_is_judged, examples_of_blocks, examples_of_context};
pub use laws::{faults_and_spelling_exclude, faults_are_one, texts_spell_one};
pub use named_module_laws::{
    examples_of_calls, examples_of_constants, examples_of_modules, examples_of_named_parts,
    examples_of_named_trees, examples_of_names, examples_of_numbers, examples_of_registers,
    examples_of_types,
};
pub use spelled_limits::{spelled_modules_are_in_range, spelled_modules_are_within};
