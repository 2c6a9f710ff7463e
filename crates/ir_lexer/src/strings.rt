ghost use Rattle.std.specs.Prelude.{◌≡◌, ◌+◌, ◌≤◌, length, IsTrue, IfOk};
ghost use Rattle.ir_lexer.specs.Strings.{is_hex, hex_value, symbol, unescaped};

use crate::runs;
use contents::Seq;
use std::alloc::{AllocError, Global};

/// A byte that a string means, and how many of its bytes spell it.
#[derive(Drop, Clone, Copy)]
pub struct Symbol {
    pub byte: u8,
    pub len: usize,
}

fn is_hex(byte: u8) -> bool
    ensures { result ≡ is_hex byte }
{
    byte.is_ascii_hexdigit()
}

fn hex_value(digit: u8) -> u8
    requires { IsTrue (is_hex digit) }
    ensures value { result ≡ hex_value digit }
    ensures small { result ≤ 15 }
{
    if digit.is_ascii_digit() {
        digit - b'0'
    } else if digit >= b'a' {
        digit - b'a' + 10
    } else {
        digit - b'A' + 10
    }
}

/// The first byte that a string means, whose bytes are `first` and the rest.
#[tactic(auto, unfolding(crate::specs::Strings::symbol))]
fn first_symbol(first: u8, rest: &[u8]) -> Symbol
    ensures value { result ≡ symbol first rest.now }
    ensures nonempty { 1 ≤ result.len }
    ensures within { result.len ≤ length rest.now + 1 }
{
    match rest {
        [] => Symbol {
            byte: first,
            len: 1,
        },
        [second] => {
            if first == b'\\' && *second == b'\\' {
                Symbol {
                    byte: b'\\',
                    len: 2,
                }
            } else {
                Symbol {
                    byte: first,
                    len: 1,
                }
            }
        }
        [second, third, ..] => {
            if first == b'\\' && *second == b'\\' {
                Symbol {
                    byte: b'\\',
                    len: 2,
                }
            } else if first == b'\\' && is_hex(*second) && is_hex(*third) {
                Symbol {
                    byte: hex_value(*second) * 16 + hex_value(*third),
                    len: 3,
                }
            } else {
                Symbol {
                    byte: first,
                    len: 1,
                }
            }
        }
    }
}

/// What a string means, from what stands between its quotes.
pub fn unescaped(alloc: Global, raw: &[u8]) -> Result<Seq<u8>, AllocError>
    ensures { IfOk result (λ bytes. bytes ≡ unescaped raw.now) }
{
    let mut bytes = Vec::new(alloc);
    let mut rest = raw;
    while let Some((first, after)) = runs::split(rest) {
        let symbol = first_symbol(first, after);
        bytes.push(symbol.byte)?;
        rest = &after[symbol.len - 1..];
    }
    Ok(Seq::from_vec(bytes))
}
