//! The words of the language that the profile leaves out.
ghost use Rattle.std.specs.Prelude.{◌≡◌, ℕ, List};
ghost use Rattle.std.specs.Borrow.{Bor};
ghost use Rattle.std.specs.List.{list_any};
ghost use Rattle.std.specs.Str.{bytes_eq};
ghost use Rattle.ir_lexer.specs.Said.{said_in};
ghost use Rattle.ir_lexer.specs.LeftOut as profile;

use crate::bytes::are_digits;
use crate::widths::{begins_with_zero, is_above_64};
use crate::{Kind, Token, bytes_of, mark_of};

/// Whether the word is one of these.
fn is_among(words: &[&[u8]], word: &[u8]) -> bool
    ensures { result ≡ list_any (λ (other : Bor (List ℕ)). bytes_eq word.now other.now) words.now }
{
    words.iter().any(|other| word == *other)
}

fn is_left_out_type(word: &[u8]) -> bool
    ensures { result ≡ profile.is_among profile.left_out_types word.now }
{
    is_among(
        &[
            b"half",
            b"float",
            b"double",
            b"fp128",
            b"x86_fp80",
            b"ppc_fp128",
            b"x86_mmx",
            b"metadata",
            b"addrspace",
        ],
        word,
    )
}

fn is_left_out_instruction(word: &[u8]) -> bool
    ensures { result ≡ profile.is_among profile.left_out_instructions word.now }
{
    is_among(
        &[
            b"fadd",
            b"fsub",
            b"fmul",
            b"fdiv",
            b"frem",
            b"fcmp",
            b"fptrunc",
            b"fpext",
            b"fptoui",
            b"fptosi",
            b"uitofp",
            b"sitofp",
            b"ptrtoint",
            b"inttoptr",
            b"addrspacecast",
            b"extractvalue",
            b"insertvalue",
            b"extractelement",
            b"insertelement",
            b"shufflevector",
            b"va_arg",
            b"invoke",
            b"landingpad",
            b"resume",
            b"indirectbr",
            b"blockaddress",
            b"fence",
            b"cmpxchg",
            b"atomicrmw",
            b"atomic",
            b"volatile",
        ],
        word,
    )
}

fn is_left_out_attribute(word: &[u8]) -> bool
    ensures { result ≡ profile.is_among profile.left_out_attributes word.now }
{
    is_among(
        &[
            b"inalloca",
            b"byval",
            b"sret",
            b"nest",
            b"inreg",
            b"musttail",
            b"fastcc",
            b"coldcc",
            b"cc",
        ],
        word,
    )
}

fn is_left_out_item(word: &[u8]) -> bool
    ensures { result ≡ profile.is_among profile.left_out_items word.now }
{
    is_among(
        &[
            b"asm",
            b"module",
            b"alias",
            b"thread_local",
            b"comdat",
            b"section",
            b"gc",
            b"prefix",
            b"prologue",
            b"personality",
            b"weak",
            b"linkonce",
            b"extern_weak",
            b"appending",
            b"hidden",
            b"protected",
            b"dllimport",
            b"dllexport",
            b"externally_initialized",
            b"uselistorder",
            b"uselistorder_bb",
        ],
        word,
    )
}

/// Whether the digits write a number above 64 without a leading zero.
fn is_too_wide(digits: &[u8]) -> bool
    ensures { result ≡ profile.is_too_wide digits.now }
{
    are_digits(digits) && is_above_64(digits) && !begins_with_zero(digits)
}

/// Whether the word is `iN` with N above 64.
fn is_wide_integer(word: &[u8]) -> bool
    ensures { result ≡ profile.is_wide_integer word.now }
{
    match word.split_first() {
        Some((letter, digits)) => *letter == b'i' && is_too_wide(digits),
        None => false,
    }
}

fn is_left_out_word(word: &[u8]) -> bool
    ensures { result ≡ profile.is_left_out_word word.now }
{
    is_left_out_type(word)
        || is_left_out_instruction(word)
        || is_left_out_attribute(word)
        || is_left_out_item(word)
        || is_wide_integer(word)
}

/// Whether the token of the text is a word or mark of the language that the profile leaves out.
pub fn is_left_out(text: &[u8], token: &Token) -> bool
    ensures { result ≡ profile.is_left_out (said_in text.now token.now) }
{
    match token.kind {
        Kind::Word => is_left_out_word(bytes_of(text, token)),
        Kind::Mark => mark_of(text, token).unwrap_or(0) == b'<',
        _ => false,
    }
}
