//! What the token in front says that is a name, a number or bytes, or where it stands.
ghost use Rattle.std.specs.Prelude.{◌≡◌, ℕ, [], IfOk, OnOk};
ghost use Rattle.derivation_cursor.specs.At.{Passes, ahead_of};
ghost use Rattle.module_derivations.specs.Empty.{no_name, no_number, said};
ghost use Rattle.module_derivations.specs.Said.{bytes_of, name_of, number_of, place_of};
ghost use Rattle.module_grammar.specs.Spelled.{at, mark_symbol, symbol_in, word_symbol};
ghost use Rattle.module_grammar.specs.declared.words.Language.{Language as LanguageOf};

use crate::cursor::Cursor;
use contents::Text;
use ir_core::Name;
use ir_lexer::{Kind, Number, Token, TokenKind, Wide, says};
use module_grammar::{Language, Placed, Word};
use module_tokens::{bytes_in, first_byte_in, is_behind_c, word_of};
use std::alloc::{AllocError, Global};

/// Passes the part in front.
pub fn skip_part(c: &mut Cursor)
    ensures { Passes c.old c.new }
{
    c.token();
}

/// The name that is seen where none stands.
pub fn no_name() -> Placed<Name>
    ensures { result ≡ no_name }
{
    Placed {
        what: Name::Number(0),
        start: 0,
        end: 0,
    }
}

/// The number that is seen where none stands.
pub fn no_number() -> Placed<Number>
    ensures { result ≡ no_number }
{
    Placed {
        what: Number {
            negative: false,
            magnitude: Wide::new(0),
        },
        start: 0,
        end: 0,
    }
}

fn no_bytes(alloc: Global) -> Result<Placed<Text>, AllocError>
    ensures { IfOk result (λ it. it ≡ at [] 0 0) }
{
    Ok(Placed {
        what: Text::from_slice(alloc, &[])?,
        start: 0,
        end: 0,
    })
}

/// The name that a token says.
#[tactic(auto, using(crate::proofs::Said::name_of_global, crate::proofs::Said::no_name_of_word, crate::proofs::Said::no_name_of_mark, crate::proofs::Said::no_name_of_text))]
fn name_in(alloc: Global, text: &[u8], token: &Token) -> Result<Placed<Name>, AllocError>
    ensures { IfOk result (λ it. (language : LanguageOf) → it ≡ name_of (symbol_in language text.now token.now)) }
{
    match token.kind {
        Kind::Local | Kind::Global | Kind::Label => match says(alloc, text, token)? {
            TokenKind::Local(what) | TokenKind::Global(what) | TokenKind::Label(what) => Ok(
                Placed {
                    what,
                    start: token.start,
                    end: token.end,
                },
            ),
            _ => Ok(no_name()),
        },
        _ => Ok(no_name()),
    }
}

/// A name.
pub fn read_name(alloc: Global, c: &mut Cursor) -> Result<Placed<Name>, AllocError>
    ensures said { IfOk result (λ it. it ≡ name_of (said (ahead_of c.old))) }
    ensures passes { OnOk result (Passes c.old c.new) }
{
    match c.token() {
        Some(token) => name_in(alloc, c.text, &token),
        None => Ok(no_name()),
    }
}

/// The number that a token says.
#[tactic(auto, using(crate::proofs::Said::no_number_of_global, crate::proofs::Said::no_number_of_word, crate::proofs::Said::no_number_of_mark, crate::proofs::Said::no_number_of_text))]
fn number_in(alloc: Global, text: &[u8], token: &Token) -> Result<Placed<Number>, AllocError>
    ensures { IfOk result (λ it. (language : LanguageOf) → it ≡ number_of (symbol_in language text.now token.now)) }
{
    match token.kind {
        Kind::Number => match says(alloc, text, token)? {
            TokenKind::Number(what) => Ok(Placed {
                what,
                start: token.start,
                end: token.end,
            }),
            _other => Ok(no_number()),
        },
        _ => Ok(no_number()),
    }
}

/// A number by its digits.
pub fn read_number(alloc: Global, c: &mut Cursor) -> Result<Placed<Number>, AllocError>
    ensures said { IfOk result (λ it. it ≡ number_of (said (ahead_of c.old))) }
    ensures passes { OnOk result (Passes c.old c.new) }
{
    match c.token() {
        Some(token) => number_in(alloc, c.text, &token),
        None => Ok(no_number()),
    }
}

/// The bytes that a token says.
#[tactic(auto, using(crate::proofs::Said::no_bytes_of_global, crate::proofs::Said::no_bytes_of_word, crate::proofs::Said::no_bytes_of_mark))]
fn bytes_said(alloc: Global, text: &[u8], token: &Token) -> Result<Placed<Text>, AllocError>
    ensures { IfOk result (λ it. (language : LanguageOf) → it ≡ bytes_of (symbol_in language text.now token.now)) }
{
    match token.kind {
        Kind::Text if is_behind_c(text, token) => match says(alloc, text, token)? {
            TokenKind::Text(bytes) => Ok(Placed {
                what: Text::from_slice(alloc, bytes.as_slice())?,
                start: token.start,
                end: token.end,
            }),
            _ => no_bytes(alloc),
        },
        _ => no_bytes(alloc),
    }
}

/// The bytes of a string behind `c`.
pub fn read_bytes(alloc: Global, c: &mut Cursor) -> Result<Placed<Text>, AllocError>
    ensures said { IfOk result (λ it. it ≡ bytes_of (said (ahead_of c.old))) }
    ensures passes { OnOk result (Passes c.old c.new) }
{
    match c.token() {
        Some(token) => bytes_said(alloc, c.text, &token),
        None => no_bytes(alloc),
    }
}

/// The place of a mark that has one.
#[tactic(auto, unfolding(module_grammar::specs::Spelled::mark_symbol))]
fn place_of_mark(mark: u8, start: u32) -> u32
    ensures { result ≡ place_of (mark_symbol mark start) }
{
    match mark {
        b'*' | b'[' | b'{' => start,
        _ => 0,
    }
}

/// The place of a word that has one.
fn place_of_word(word: Word, start: u32) -> u32
    ensures { (end : ℕ) → result ≡ place_of (word_symbol word start end) }
{
    match word {
        Word::Null | Word::Element | Word::BitCast => start,
        _ => 0,
    }
}

/// Where a token stands whose place is kept.
#[tactic(auto, using(crate::proofs::Said::no_place_of_global, crate::proofs::Said::no_place_of_text))]
fn place_in(language: Language, text: &[u8], token: &Token) -> u32
    ensures { result ≡ place_of (symbol_in language text.now token.now) }
{
    match token.kind {
        Kind::Mark => place_of_mark(first_byte_in(text, token), token.start),
        Kind::Word => place_of_word(word_of(language, bytes_in(text, token)), token.start),
        _ => 0,
    }
}

/// The place of `*`, `[`, `{`, `null`, `getelementptr` or `bitcast`.
pub fn read_place(c: &mut Cursor) -> u32
    ensures said { result ≡ place_of (said (ahead_of c.old)) }
    ensures passes { Passes c.old c.new }
{
    match c.token() {
        Some(token) => place_in(c.language, c.text, &token),
        None => 0,
    }
}
