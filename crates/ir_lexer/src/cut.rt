ghost use Rattle.std.specs.Prelude.{◌≡◌, ◌<◌, ◌≤◌, ◌↔◌, ◌^◌, length, IfOk, IfErr, IsErrAnd};
ghost use Rattle.ir_core.specs.Limits.{text_limit};
ghost use Rattle.ir_lexer.specs.Cut.{lexed, cut, bare_token, AreInOrder, AreThoseOf, IsFaultOf, IsLimit};

use crate::pieces::{self, Outline};
use crate::{Kind, LexFault, Token};
use ir_core::Limit;
use std::alloc::Global;

/// The longest text that is cut, in bytes.
const TEXT_LIMIT: usize = 16_777_216;

/// The tokens of a text, in its order, or its first fault. No memory but that of the list is taken.
pub fn lex(alloc: Global, text: &[u8]) -> Result<Vec<Token>, LexFault>
    ensures tokens { IfOk result (λ tokens. AreThoseOf text.now tokens.items (lexed text.now)) }
    ensures order { IfOk result (λ tokens. AreInOrder 0 (length text.now) tokens.items) }
    ensures fault { IfErr result (λ fault. IsFaultOf fault (lexed text.now)) }
    // The length is tested before all else.
    ensures limit { IsErrAnd result IsLimit ↔ (text_limit < length text.now) }
{
    if text.len() > TEXT_LIMIT {
        Err(LexFault::Limit(Limit::Text))
    } else {
        cut(alloc, text)
    }
}

/// The tokens of a text whose places are small.
#[inline(never)]
fn cut(alloc: Global, text: &[u8]) -> Result<Vec<Token>, LexFault>
    requires { length text.now ≤ text_limit }
    ensures tokens { IfOk result (λ tokens. AreThoseOf text.now tokens.items (cut 0 0 text.now)) }
    ensures order { IfOk result (λ tokens. AreInOrder 0 (length text.now) tokens.items) }
    ensures fault { IfErr result (λ fault. IsFaultOf fault (cut 0 0 text.now)) }
    ensures no_limit { IfErr result (λ fault. IsLimit fault → ⊥) }
{
    let mut tokens = Vec::new(alloc);
    let mut place = 0;
    loop {
        // A space is the most frequent piece, and its test the shortest.
        if place < text.len() && text[place] == b' ' {
            place += 1;
            continue;
        }
        match pieces::outline_at(&text[place..]) {
            Outline::End => return Ok(tokens),
            Outline::Gap(len) => place += len,
            Outline::Token(kind, len) => {
                let end = place + len;
                tokens.push(token(kind, place, end))?;
                place = end;
            }
            Outline::BadByte => return Err(LexFault::BadByte(place)),
            Outline::BadString(offset) => return Err(LexFault::BadString(place + offset)),
            Outline::BadNumber => return Err(LexFault::BadNumber(place)),
        }
    }
}

/// The token of that kind that goes from `start` up to `end`.
#[inline(always)]
fn token(kind: Kind, start: usize, end: usize) -> Token
    requires start { start < 2 ^ 32 }
    requires end { end < 2 ^ 32 }
    ensures { result ≡ bare_token kind start end }
{
    Token {
        kind,
        start: start as u32,
        end: end as u32,
    }
}
