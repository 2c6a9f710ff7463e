//! Digits without a sign.
ghost use Rattle.std.specs.Prelude.{◌≡◌, ◌<◌, ◌≤◌, MatchOption, nat_lt};
ghost use Rattle.ir_lexer.specs.Numbers.{begins_with_zero, value_of};

/// The number that the digits write, if it is at most 64.
pub fn up_to_64(digits: &[u8]) -> Option<u32>
    ensures { MatchOption result (64 < value_of digits.now) (λ value. (value ≡ value_of digits.now) × (value ≤ 64)) }
{
    let mut value: u32 = 0;
    for digit in digits {
        value = value * 10 + u32::from(digit.saturating_sub(b'0'));
        if value > 64 {
            return None;
        }
    }
    Some(value)
}

/// Whether the digits write a number above 64.
pub fn is_above_64(digits: &[u8]) -> bool
    ensures { result ≡ nat_lt 64 (value_of digits.now) }
{
    match up_to_64(digits) {
        Some(_) => false,
        None => true,
    }
}

/// Whether the first is a zero.
pub fn begins_with_zero(digits: &[u8]) -> bool
    ensures { result ≡ begins_with_zero digits.now }
{
    match digits.split_first() {
        Some((first, _)) => *first == b'0',
        None => false,
    }
}
