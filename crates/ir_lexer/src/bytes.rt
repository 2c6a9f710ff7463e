ghost use Rattle.std.specs.Prelude.{◌≡◌};
ghost use Rattle.std.specs.Char.{is_ascii_digit};
ghost use Rattle.std.specs.List.{list_all};
ghost use Rattle.ir_core.specs.Names.{is_name_byte};
ghost use Rattle.ir_lexer.specs.Runs.{is_in_line};
ghost use Rattle.ir_lexer.specs.Bytes.{class_of, begins_word, are_digits, begins_with_colon, begins_with_quote};

use crate::runs;
use Class::{Attribute, Blank, Comment, Global, Letter, Local, Mark, Metadata, Other, Quote, Run};

/// What a byte is at the front of a text.
#[derive(Drop, Clone, Copy)]
pub enum Class {
    /// Space, tab, line feed, carriage return.
    Blank,
    /// `;`
    Comment,
    /// `%`
    Local,
    /// `@`
    Global,
    /// `#`
    Attribute,
    /// `!`
    Metadata,
    /// `"`
    Quote,
    /// A letter, `_` or `$`: it begins a word or the name of a label, and no number.
    Letter,
    /// Any other byte of a run.
    Run,
    /// A byte that is a token by itself.
    Mark,
    /// A byte that begins nothing.
    Other,
}

/// What the byte is at the front of a text.
pub fn class_of(byte: u8) -> Class
    ensures { result ≡ class_of byte }
{
    CLASSES[usize::from(byte)]
}

/// A byte of a run.
pub fn is_run_byte(byte: u8) -> bool
    ensures { result ≡ is_name_byte byte }
{
    RUN_BYTES[usize::from(byte)]
}

/// Neither a line feed nor a carriage return.
pub fn is_in_line(byte: u8) -> bool
    ensures { result ≡ is_in_line byte }
{
    !(byte == b'\n' || byte == b'\r')
}

/// A byte that begins a word.
pub fn begins_word(byte: u8) -> bool
    ensures { result ≡ begins_word byte }
{
    byte.is_ascii_alphabetic() || byte == b'_' || byte == b'.' || byte == b'$'
}

fn are_all_digits(bytes: &[u8]) -> bool
    ensures { result ≡ list_all is_ascii_digit bytes.now }
{
    bytes.iter().all(|byte| byte.is_ascii_digit())
}

/// Whether there is at least one byte, and each is a decimal digit.
pub fn are_digits(bytes: &[u8]) -> bool
    ensures { result ≡ are_digits bytes.now }
{
    if bytes.is_empty() {
        false
    } else {
        are_all_digits(bytes)
    }
}

/// Whether a colon stands first.
pub fn begins_with_colon(text: &[u8]) -> bool
    ensures { result ≡ begins_with_colon text.now }
{
    match runs::split(text) {
        Some((first, _)) => first == b':',
        None => false,
    }
}

/// Whether a quote stands first.
pub fn begins_with_quote(text: &[u8]) -> bool
    ensures { result ≡ begins_with_quote text.now }
{
    match runs::split(text) {
        Some((first, _)) => first == b'"',
        None => false,
    }
}

/// Which bytes are of a run, by their numbers.
static RUN_BYTES: [bool; 256] = [
    false, false, false, false, false, false, false, false, false, false, false, false, false,
    false, false, false, false, false, false, false, false, false, false, false, false, false,
    false, false, false, false, false, false, false, false, false, false, true, false, false,
    false, false, false, false, false, false, true, true, false, true, true, true, true, true,
    true, true, true, true, true, false, false, false, false, false, false, false, true, true,
    true, true, true, true, true, true, true, true, true, true, true, true, true, true, true, true,
    true, true, true, true, true, true, true, true, false, false, false, false, true, false, true,
    true, true, true, true, true, true, true, true, true, true, true, true, true, true, true, true,
    true, true, true, true, true, true, true, true, true, false, false, false, false, false, false,
    false, false, false, false, false, false, false, false, false, false, false, false, false,
    false, false, false, false, false, false, false, false, false, false, false, false, false,
    false, false, false, false, false, false, false, false, false, false, false, false, false,
    false, false, false, false, false, false, false, false, false, false, false, false, false,
    false, false, false, false, false, false, false, false, false, false, false, false, false,
    false, false, false, false, false, false, false, false, false, false, false, false, false,
    false, false, false, false, false, false, false, false, false, false, false, false, false,
    false, false, false, false, false, false, false, false, false, false, false, false, false,
    false, false, false, false, false, false, false, false, false, false, false, false, false,
    false, false, false, false, false, false, false, false, false, false,
];

/// The classes of the bytes, by their numbers.
static CLASSES: [Class; 256] = [
    Other, Other, Other, Other, Other, Other, Other, Other, Other, Blank, Blank, Other, Other,
    Blank, Other, Other, Other, Other, Other, Other, Other, Other, Other, Other, Other, Other,
    Other, Other, Other, Other, Other, Other, Blank, Metadata, Quote, Attribute, Letter, Local,
    Other, Other, Mark, Mark, Mark, Other, Mark, Run, Run, Other, Run, Run, Run, Run, Run, Run,
    Run, Run, Run, Run, Other, Comment, Mark, Mark, Mark, Other, Global, Letter, Letter, Letter,
    Letter, Letter, Letter, Letter, Letter, Letter, Letter, Letter, Letter, Letter, Letter, Letter,
    Letter, Letter, Letter, Letter, Letter, Letter, Letter, Letter, Letter, Letter, Letter, Mark,
    Other, Mark, Other, Letter, Other, Letter, Letter, Letter, Letter, Letter, Letter, Letter,
    Letter, Letter, Letter, Letter, Letter, Letter, Letter, Letter, Letter, Letter, Letter, Letter,
    Letter, Letter, Letter, Letter, Letter, Letter, Letter, Mark, Mark, Mark, Other, Other, Other,
    Other, Other, Other, Other, Other, Other, Other, Other, Other, Other, Other, Other, Other,
    Other, Other, Other, Other, Other, Other, Other, Other, Other, Other, Other, Other, Other,
    Other, Other, Other, Other, Other, Other, Other, Other, Other, Other, Other, Other, Other,
    Other, Other, Other, Other, Other, Other, Other, Other, Other, Other, Other, Other, Other,
    Other, Other, Other, Other, Other, Other, Other, Other, Other, Other, Other, Other, Other,
    Other, Other, Other, Other, Other, Other, Other, Other, Other, Other, Other, Other, Other,
    Other, Other, Other, Other, Other, Other, Other, Other, Other, Other, Other, Other, Other,
    Other, Other, Other, Other, Other, Other, Other, Other, Other, Other, Other, Other, Other,
    Other, Other, Other, Other, Other, Other, Other, Other, Other, Other, Other, Other, Other,
    Other, Other, Other, Other, Other, Other, Other, Other, Other, Other,
];
