ghost use Rattle.std.specs.Prelude.{◌≡◌};
ghost use Rattle.ir_lexer.specs.declared.token.LexFault.TheVariants.{Memory};

use crate::wide::Wide;
use contents::Seq;
use ir_core::{Limit, Name};
use std::alloc::{AllocError, AllocFailed};
use thiserror::Error;

/// What sort of token it is. What it says is read from the text.
#[derive(Drop, Clone, Copy)]
pub enum Kind {
    /// `%x`, `%"x y"`, `%5`.
    Local,
    /// `@f`, `@"f g"`, `@5`.
    Global,
    /// `#` and digits.
    Attribute,
    /// `!` alone.
    Bang,
    /// `!` and a run.
    Metadata,
    /// `entry:`, `"my block":`, `5:`.
    Label,
    /// `...`
    Dots,
    Number,
    /// A run that is none of the others.
    Word,
    /// A string.
    Text,
    /// One of `= , ( ) { } [ ] * < > |`.
    Mark,
}

/// A token, and the bytes that spell it: from `start` up to `end`, counted from 0.
#[derive(Drop, Clone, Copy)]
pub struct Token {
    pub kind: Kind,
    pub start: u32,
    pub end: u32,
}

/// What a token is and says.
#[derive(Drop)]
pub enum TokenKind {
    Local(Name),
    Global(Name),
    /// `#` and these digits.
    Attribute(Seq<u8>),
    Bang,
    /// `!` and this run.
    Metadata(Seq<u8>),
    Label(Name),
    Dots,
    Number(Number),
    Word(Seq<u8>),
    /// What stands between two quotes, its escapes read.
    Text(Seq<u8>),
    Mark(u8),
}

/// A number as it is written: its sign and its absolute value.
#[derive(Drop)]
pub struct Number {
    pub negative: bool,
    pub magnitude: Wide,
}

/// Why a text has no tokens. A place counts bytes from 0.
#[derive(Clone, Copy, Debug, Drop, Error)]
pub enum LexFault {
    /// A byte that begins no token, or a sigil that no name follows.
    #[error("{0}: a byte that begins nothing")]
    BadByte(usize),
    /// A string that is not closed, or is empty where a name is wanted. The place is its quote.
    #[error("{0}: a string that is open or empty")]
    BadString(usize),
    /// A run that begins as a number and is none, or a number out of range.
    #[error("{0}: a number that is none or out of range")]
    BadNumber(usize),
    #[error("out of memory")]
    Memory,
    /// The text is longer than 2 to the 24 bytes.
    #[error("the text is too long")]
    Limit(Limit),
}

impl From<AllocError> for LexFault {
    ghost from_gives = { λ _ fault. fault ≡ Memory };

    fn from(_error: AllocError) -> LexFault {
        LexFault::Memory
    }
}

impl<T: Drop> From<AllocFailed<T>> for LexFault {
    ghost from_gives = { λ _ fault. fault ≡ Memory };

    fn from(_error: AllocFailed<T>) -> LexFault {
        LexFault::Memory
    }
}
