ghost use Rattle.std.specs.Prelude.{◌≡◌, ◌^◌};
ghost use Rattle.ir_lexer.specs.Numbers.{value_of, if_below};

/// The number that the digits write, if it is below 2 to the 128.
pub fn value_of(digits: &[u8]) -> Option<u128>
    ensures { result ≡ if_below (2 ^ 128) (value_of digits.now) }
{
    let mut value: u128 = 0;
    for digit in digits {
        value = value
            .checked_mul(10)?
            .checked_add(u128::from(digit.saturating_sub(b'0')))?;
    }
    Some(value)
}

/// The number that the digits write, if it is below 2 to the 32.
pub fn small_value_of(digits: &[u8]) -> Option<u32>
    ensures { result ≡ if_below (2 ^ 32) (value_of digits.now) }
{
    match value_of(digits) {
        Some(value) if value < 4_294_967_296 => Some(value as u32),
        _ => None,
    }
}
