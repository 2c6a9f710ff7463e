//! How what is printed is read, over the whole grammar (LangRef 3.7): the tokens of names, types, constants, initialisers and values are
//! written of trees that name them.
#![tactic(auto)]

mod laws;

pub use laws::printed_types_are_written;
