//! Tokens of textual LLVM IR (LangRef 3.7) read by the whole grammar, within the limits on depths and lines: a predictive parser writes down their
//! derivation, whose marks say what the tokens are written of.

mod reader;
mod unread;

pub use reader::{
    read_called, read_declared, read_expression, read_global, read_local, read_module, read_type,
};
pub use unread::Unread;
