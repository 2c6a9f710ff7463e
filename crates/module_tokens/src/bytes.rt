//! The bytes that spell a token, which most often stand within the text.
ghost use Rattle.std.specs.Prelude.{◌≡◌};
ghost use Rattle.ir_lexer.specs.Said.{bytes_of, mark_said};

use ir_lexer::{Token, bytes_of};

/// The bytes that spell a token, wherever it stands.
#[inline(never)]
fn bytes_anywhere<'a>(text: &'a [u8], token: &Token) -> &'a [u8]
    ensures { result.now ≡ bytes_of text.now token.now }
{
    bytes_of(text, token)
}

/// The bytes that spell the token.
#[inline(always)]
pub fn bytes_in<'a>(text: &'a [u8], token: &Token) -> &'a [u8]
    ensures { result.now ≡ bytes_of text.now token.now }
{
    match text.get(token.start as usize..token.end as usize) {
        Some(bytes) => bytes,
        None => bytes_anywhere(text, token),
    }
}

/// The first byte that spells the token, or 0 where none does.
#[inline(always)]
pub fn first_byte_in(text: &[u8], token: &Token) -> u8
    ensures { result ≡ mark_said (bytes_of text.now token.now) }
{
    match bytes_in(text, token) {
        [first, ..] => *first,
        [] => 0,
    }
}
