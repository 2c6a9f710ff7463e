//! The whole grammar of textual LLVM IR as the tables of a predictive parser.

mod choices;
mod sides;
mod tables;

pub use tables::TokenGrammar;
