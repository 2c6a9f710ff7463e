ghost use Rattle.std.specs.Prelude.{◌≡◌, ℕ, IfOk, List, map};
ghost use Rattle.module_grammar.specs.Spelled.{global_symbol, kind_in, mark_symbol, text_symbol, word_symbol};
ghost use Rattle.module_grammar.specs.Symbols.{behind_others, key_number, kind_of};
ghost use Rattle.module_tokens.specs.Tokens.{is_behind_c};
ghost use Rattle.ir_core.specs.Functions.{is_debug};
ghost use Rattle.ir_types.specs.declared.names.Name.{Name};

use crate::bytes::{bytes_in, first_byte_in};
use crate::names::is_debug_global;
use crate::words::word_of;
use ir_lexer::{Kind, Token};
use module_grammar::{KeyWord, Language, Word};
use std::alloc::{AllocError, Global};

/// The kind of a word that stands alone.
fn kind_of_key(key: KeyWord) -> u8
    ensures { result ≡ behind_others (key_number key) }
{
    match key {
        KeyWord::Define => 24,
        KeyWord::Void => 25,
        KeyWord::Ret => 26,
        KeyWord::Exact => 27,
        KeyWord::Icmp => 28,
        KeyWord::Select => 29,
        KeyWord::To => 30,
        KeyWord::Undef => 31,
        KeyWord::Phi => 32,
        KeyWord::Br => 33,
        KeyWord::Label => 34,
        KeyWord::Switch => 35,
        KeyWord::Unreachable => 36,
        KeyWord::Old => 37,
        KeyWord::Ghost => 38,
        KeyWord::Declare => 39,
        KeyWord::TypeKey => 40,
        KeyWord::Opaque => 41,
        KeyWord::Inbounds => 42,
        KeyWord::Alloca => 43,
        KeyWord::Load => 44,
        KeyWord::Store => 45,
        KeyWord::Call => 46,
        KeyWord::Tail => 47,
        KeyWord::Ccc => 48,
        KeyWord::Align => 49,
        KeyWord::AlignStack => 50,
        KeyWord::UnnamedAddr => 51,
        KeyWord::External => 52,
        KeyWord::Target => 53,
        KeyWord::Property => 54,
        KeyWord::Attributes => 55,
        KeyWord::Distinct => 56,
        KeyWord::Times => 57,
        KeyWord::Bytes => 58,
        KeyWord::ZeroInitializer => 59,
        KeyWord::ParamWord => 60,
        KeyWord::AccessWord => 61,
        KeyWord::SizedWord => 62,
        KeyWord::FunctionWord => 63,
    }
}

/// The kind of what a word is.
fn kind_of_said(said: Word) -> u8
    ensures { (start end : ℕ) → result ≡ kind_of (word_symbol said start end) }
{
    match said {
        Word::Width(_) => 5,
        Word::Truth(_) => 6,
        Word::Overflow(_) => 8,
        Word::Exact(_) => 9,
        Word::Plain(_) => 10,
        Word::Resize(_) => 11,
        Word::Pred(_) => 12,
        Word::Flag(_) => 13,
        Word::Linkage(_) => 14,
        Word::Extension(_) => 15,
        Word::Holding(_) => 16,
        Word::Null => 20,
        Word::Element => 21,
        Word::BitCast => 22,
        Word::Key(key) => kind_of_key(key),
        Word::Foreign => 23,
    }
}

/// The kinds of the marks, by their bytes.
static MARK_KINDS: [u8; 256] = [
    23, 23, 23, 23, 23, 23, 23, 23, 23, 23, 23, 23, 23, 23, 23, 23, 23, 23, 23, 23, 23, 23, 23, 23,
    23, 23, 23, 23, 23, 23, 23, 23, 23, 23, 23, 23, 23, 23, 23, 23, 66, 67, 17, 23, 64, 23, 23, 23,
    23, 23, 23, 23, 23, 23, 23, 23, 23, 23, 23, 23, 23, 65, 23, 23, 23, 23, 23, 23, 23, 23, 23, 23,
    23, 23, 23, 23, 23, 23, 23, 23, 23, 23, 23, 23, 23, 23, 23, 23, 23, 23, 23, 18, 23, 69, 23, 23,
    23, 23, 23, 23, 23, 23, 23, 23, 23, 23, 23, 23, 23, 23, 23, 23, 23, 23, 23, 23, 23, 23, 23, 23,
    23, 23, 23, 19, 23, 68, 23, 23, 23, 23, 23, 23, 23, 23, 23, 23, 23, 23, 23, 23, 23, 23, 23, 23,
    23, 23, 23, 23, 23, 23, 23, 23, 23, 23, 23, 23, 23, 23, 23, 23, 23, 23, 23, 23, 23, 23, 23, 23,
    23, 23, 23, 23, 23, 23, 23, 23, 23, 23, 23, 23, 23, 23, 23, 23, 23, 23, 23, 23, 23, 23, 23, 23,
    23, 23, 23, 23, 23, 23, 23, 23, 23, 23, 23, 23, 23, 23, 23, 23, 23, 23, 23, 23, 23, 23, 23, 23,
    23, 23, 23, 23, 23, 23, 23, 23, 23, 23, 23, 23, 23, 23, 23, 23, 23, 23, 23, 23, 23, 23, 23, 23,
    23, 23, 23, 23, 23, 23, 23, 23, 23, 23, 23, 23, 23, 23, 23, 23,
];

/// The kind of a mark.
#[inline(always)]
fn kind_of_mark(mark: u8) -> u8
    ensures { (start : ℕ) → result ≡ kind_of (mark_symbol mark start) }
{
    MARK_KINDS[usize::from(mark)]
}

/// Whether the token stands directly behind a byte `c`.
pub fn is_behind_c(text: &[u8], token: &Token) -> bool
    ensures { result ≡ is_behind_c text.now token.now.start }
{
    match text.get(token.start.saturating_sub(1) as usize) {
        Some(byte) => *byte == b'c',
        None => false,
    }
}

/// The kind of a global name, of debugging or not.
fn kind_of_global(debug: bool) -> u8
    ensures { (name : Name) (start end : ℕ) → debug ≡ is_debug name → result ≡ kind_of (global_symbol name start end) }
{
    if debug { 2 } else { 1 }
}

/// The kind of a string, directly behind a byte `c` or not.
fn kind_of_text(behind_c: bool) -> u8
    ensures { (text bytes : List ℕ) (start end : ℕ) → behind_c ≡ is_behind_c text start → result ≡ kind_of (text_symbol text bytes start end) }
{
    if behind_c { 7 } else { 74 }
}

/// What a parser sees of a token of the text.
fn kind_of(alloc: Global, language: Language, text: &[u8], token: &Token) -> Result<u8, AllocError>
    ensures { IfOk result (λ kind. kind ≡ kind_in language text.now token.now) }
{
    let kind = match token.kind {
        Kind::Local => 0,
        Kind::Global => kind_of_global(is_debug_global(alloc, text, token)?),
        Kind::Label => 3,
        Kind::Number => 4,
        Kind::Word => kind_of_said(word_of(language, bytes_in(text, token))),
        Kind::Mark => kind_of_mark(first_byte_in(text, token)),
        Kind::Dots => 70,
        Kind::Bang => 71,
        Kind::Metadata => 72,
        Kind::Attribute => 73,
        Kind::Text => kind_of_text(is_behind_c(text, token)),
    };
    Ok(kind)
}

/// What a parser sees of the tokens of a text in the language.
pub fn kinds_of(
    alloc: Global,
    language: Language,
    text: &[u8],
    tokens: &[Token],
) -> Result<Vec<u8>, AllocError>
    ensures { IfOk result (λ kinds. kinds.items ≡ map (kind_in language text.now) tokens.now) }
{
    let mut kinds = Vec::with_capacity(alloc, tokens.len())?;
    for token in tokens {
        let kind = kind_of(alloc, language, text, token)?;
        kinds.push_reserved(kind);
    }
    Ok(kinds)
}
