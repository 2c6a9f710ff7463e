ghost use Rattle.std.specs.Prelude.{◌≡◌, [], ◌∷◌};
ghost use Rattle.module_grammar.specs.Words as said;

use ir_core::is_width;
use ir_lexer::{are_digits, begins_with_zero, up_to_64};

/// The width that one digit writes.
#[inline(always)]
fn width_of_one(digit: u8) -> Option<u32>
    ensures { result ≡ said.width_in (digit ∷ []) }
{
    if digit.is_ascii_digit() && digit != b'0' {
        Some(u32::from(digit - b'0'))
    } else {
        None
    }
}

/// The width that two digits write, the first of which is no zero.
#[inline(always)]
fn width_of_two(first: u8, second: u8) -> Option<u32>
    ensures { result ≡ said.width_in (first ∷ second ∷ []) }
{
    if !first.is_ascii_digit() || !second.is_ascii_digit() || first == b'0' {
        return None;
    }
    let width = u32::from(first - b'0') * 10 + u32::from(second - b'0');
    if is_width(width) { Some(width) } else { None }
}

/// The width that so many digits write, without a leading zero.
#[inline(never)]
fn width_of_many(digits: &[u8]) -> Option<u32>
    ensures { result ≡ said.width_in digits.now }
{
    match up_to_64(digits) {
        Some(width) => {
            if are_digits(digits) && is_width(width) && !begins_with_zero(digits) {
                Some(width)
            } else {
                None
            }
        }
        None => None,
    }
}

/// The width that the digits write, without a leading zero. One digit or two write each width.
#[inline(always)]
fn width_in(digits: &[u8]) -> Option<u32>
    ensures { result ≡ said.width_in digits.now }
{
    match digits {
        [digit] => width_of_one(*digit),
        [first, second] => width_of_two(*first, *second),
        _ => width_of_many(digits),
    }
}

/// The width of the integer type `iN` that the word is, if it is one.
pub fn width_of(word: &[u8]) -> Option<u32>
    ensures { result ≡ said.width_of word.now }
{
    match word.split_first() {
        Some((letter, digits)) => {
            if *letter == b'i' {
                width_in(digits)
            } else {
                None
            }
        }
        None => None,
    }
}
