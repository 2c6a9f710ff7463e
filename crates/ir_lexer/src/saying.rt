ghost use Rattle.std.specs.Prelude.{◌≡◌, ◌-◌, ◌^◌, Bool, length, take, drop, IfOk};
ghost use Rattle.ir_lexer.specs.Bytes.{begins_with_quote};
ghost use Rattle.ir_lexer.specs.Numbers.{value_of, if_below};
ghost use Rattle.ir_lexer.specs.Said.{between, bytes_of, is_word, mark_of, mark_said, name_said, number_said, or_zero, said, said_in, signed};
ghost use Rattle.ir_lexer.specs.Strings.{unescaped};

use crate::{Kind, Number, Token, TokenKind, Wide, bytes, numbers, runs, strings};
use contents::{Seq, Text};
use ir_core::Name;
use std::alloc::{AllocError, Global};

/// What a token of the text says.
#[inline(always)]
pub fn says(alloc: Global, text: &[u8], token: &Token) -> Result<TokenKind, AllocError>
    ensures { IfOk result (λ kind. kind ≡ said_in text.now token.now) }
{
    said(alloc, token.kind, bytes_of(text, token))
}

/// Whether a token of the text is this word.
pub fn is_word(text: &[u8], token: &Token, word: &[u8]) -> bool
    ensures { result ≡ is_word word.now (said_in text.now token.now) }
{
    match token.kind {
        Kind::Word => bytes_of(text, token) == word,
        _ => false,
    }
}

/// The mark that a token of the text is, if it is one.
pub fn mark_of(text: &[u8], token: &Token) -> Option<u8>
    ensures { result ≡ mark_of (said_in text.now token.now) }
{
    match token.kind {
        Kind::Mark => Some(first_byte(bytes_of(text, token))),
        _ => None,
    }
}

/// The bytes that spell it.
pub fn bytes_of<'a>(text: &'a [u8], token: &Token) -> &'a [u8]
    ensures { result.now ≡ bytes_of text.now token.now }
{
    let behind = without_front(text, token.start as usize);
    front(behind, token.end.saturating_sub(token.start) as usize)
}

fn without_front(bytes: &[u8], len: usize) -> &[u8]
    ensures { result.now ≡ drop len bytes.now }
{
    if len <= bytes.len() {
        &bytes[len..]
    } else {
        &[]
    }
}

fn front(bytes: &[u8], len: usize) -> &[u8]
    ensures { result.now ≡ take len bytes.now }
{
    if len <= bytes.len() {
        &bytes[..len]
    } else {
        bytes
    }
}

fn first_byte(bytes: &[u8]) -> u8
    ensures { result ≡ mark_said bytes.now }
{
    match runs::split(bytes) {
        Some((first, _)) => first,
        None => 0,
    }
}

/// What stands between the quotes of a string.
fn between(bytes: &[u8]) -> &[u8]
    ensures { result.now ≡ between bytes.now }
{
    front(without_front(bytes, 1), bytes.len().saturating_sub(2))
}

fn small_number(digits: &[u8]) -> u32
    ensures { result ≡ or_zero (if_below (2 ^ 32) (value_of digits.now)) }
{
    numbers::small_value_of(digits).unwrap_or(0)
}

fn signed(negative: bool, digits: &[u8]) -> Number
    ensures { result ≡ signed negative digits.now }
{
    let magnitude = numbers::value_of(digits).unwrap_or(0);
    Number {
        negative,
        magnitude: Wide::new(magnitude),
    }
}

/// Digits, or `-` and digits.
#[tactic(auto, unfolding(crate::specs::Said::number_said))]
fn number_said(bytes: &[u8]) -> Number
    ensures { result ≡ number_said bytes.now }
{
    match runs::split(bytes) {
        Some((b'-', rest)) => signed(true, rest),
        _ => signed(false, bytes),
    }
}

#[inline(always)]
fn text_name(alloc: Global, bytes: &[u8]) -> Result<Name, AllocError>
    ensures { IfOk result (λ name. name ≡ Name.Text bytes.now) }
{
    Ok(Name::Text(Text::from_slice(alloc, bytes)?))
}

#[inline(never)]
fn string_name(alloc: Global, raw: &[u8]) -> Result<Name, AllocError>
    ensures { IfOk result (λ name. name ≡ Name.Text (unescaped raw.now)) }
{
    let text = strings::unescaped(alloc, raw)?;
    text_name(alloc, text.as_slice())
}

/// A name, without sigil or colon.
#[inline(always)]
#[tactic(auto, unfolding(crate::specs::Said::name_said))]
fn name_said(alloc: Global, bytes: &[u8]) -> Result<Name, AllocError>
    ensures { IfOk result (λ name. name ≡ name_said bytes.now) }
{
    if bytes::begins_with_quote(bytes) {
        string_name(alloc, between(bytes))
    } else if bytes::are_digits(bytes) {
        Ok(Name::Number(small_number(bytes)))
    } else {
        text_name(alloc, bytes)
    }
}

fn copied(alloc: Global, bytes: &[u8]) -> Result<Seq<u8>, AllocError>
    ensures { IfOk result (λ copy. copy ≡ bytes.now) }
{
    Ok(Seq::from_vec(Vec::from_slice(alloc, bytes)?))
}

/// The name of a label, from the bytes that spell it with its colon.
#[inline(always)]
fn label_said(alloc: Global, bytes: &[u8]) -> Result<Name, AllocError>
    ensures { IfOk result (λ name. name ≡ name_said (take (length bytes.now - 1) bytes.now)) }
{
    name_said(alloc, front(bytes, bytes.len().saturating_sub(1)))
}

/// What a token of that kind says, from the bytes that spell it.
#[inline(always)]
fn said(alloc: Global, kind: Kind, bytes: &[u8]) -> Result<TokenKind, AllocError>
    ensures { IfOk result (λ it. it ≡ said kind bytes.now) }
{
    match kind {
        Kind::Local => Ok(TokenKind::Local(name_said(alloc, without_front(bytes, 1))?)),
        Kind::Global => Ok(TokenKind::Global(name_said(alloc, without_front(bytes, 1))?)),
        Kind::Attribute => Ok(TokenKind::Attribute(copied(alloc, without_front(bytes, 1))?)),
        Kind::Bang => Ok(TokenKind::Bang),
        Kind::Metadata => Ok(TokenKind::Metadata(copied(alloc, without_front(bytes, 1))?)),
        Kind::Label => Ok(TokenKind::Label(label_said(alloc, bytes)?)),
        Kind::Dots => Ok(TokenKind::Dots),
        Kind::Number => Ok(TokenKind::Number(number_said(bytes))),
        Kind::Word => Ok(TokenKind::Word(copied(alloc, bytes)?)),
        Kind::Text => Ok(TokenKind::Text(strings::unescaped(alloc, between(bytes))?)),
        Kind::Mark => Ok(TokenKind::Mark(first_byte(bytes))),
    }
}
