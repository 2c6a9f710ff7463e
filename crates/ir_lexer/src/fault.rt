ghost use Rattle.std.specs.Prelude.{◌≡◌};
ghost use Rattle.ir_lexer.specs.declared.fault.TextFault.TheVariants.{Memory};

use ir_core::Limit;
use std::alloc::{AllocError, AllocFailed};

/// Why a text spells nothing: its first fault. Places and lengths count bytes, places from 0.
#[derive(Drop, Clone, Copy)]
pub enum TextFault {
    /// A byte that begins no token, or a sigil that no name follows.
    BadByte(usize),
    /// A string that is not closed, or is empty where a name is wanted. The place is its quote.
    BadString(usize),
    /// A run that begins as a number and is none, or a number out of range.
    BadNumber(usize),
    /// The tokens before the place begin a text, and with the one that stands there none goes on. At the end of the text
    /// the place is its length.
    Expected(usize),
    /// The same, where the token is a word of the language that is left out here; or a function's name that is used as a value.
    LeftOut { place: usize, length: usize },
    /// A name that is used and is not defined.
    Unknown { place: usize, length: usize },
    /// A name that is defined before.
    Twice { place: usize, length: usize },
    /// A number that is written as a name, where another one is due.
    WrongNumber { place: usize, expected: u64 },
    /// A type, or what is not of the type that is stated for it.
    WrongType(usize),
    /// More than the limit allows.
    Limit(Limit),
    Memory,
}

impl From<AllocError> for TextFault {
    ghost from_gives = { λ _ fault. fault ≡ Memory };

    fn from(_error: AllocError) -> TextFault {
        TextFault::Memory
    }
}

impl<T: Drop> From<AllocFailed<T>> for TextFault {
    ghost from_gives = { λ _ fault. fault ≡ Memory };

    fn from(_error: AllocFailed<T>) -> TextFault {
        TextFault::Memory
    }
}
