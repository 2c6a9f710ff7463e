//! The nonterminals from which texts are read.

pub const MODULE: u8 = 0;

pub const TYPE: u8 = 33;

pub const EXPRESSION: u8 = 74;

pub const LOCAL_NAME: u8 = 76;

pub const GLOBAL_NAME: u8 = 42;

/// The types in the parentheses of a function's type.
pub const CALLED: u8 = 38;

/// The parameters of a declaration.
pub const DECLARED_PARAMS: u8 = 7;
