//! Textual LLVM IR read as single types, single names and single expressions of the logic (Language Reference 3.7; Crellvm), without a module
//! around them: exact in what it accepts and in the first fault.
#![tactic(auto)]

mod laws;
mod names;
mod ranges;
mod readers;
mod texts;

pub use laws::{
    each_expression_is_judged, each_name_is_judged, each_type_is_judged, expression_faults_are_one,
    faults_and_expressions_exclude, faults_and_names_exclude, faults_and_types_exclude,
    name_faults_are_one, texts_spell_one_expression, texts_spell_one_name, texts_spell_one_type,
    type_faults_are_one,
};
pub use names::read_name;
pub use readers::{read_expr, read_type};
