//! Numbers of iN, N from 1 to 64, as a sign and a magnitude.
ghost use Rattle.std.specs.Prelude.{◌≡◌, ◌<◌, ◌≤◌, ◌-◌, ◌*◌, ◌^◌, pos, neg_ℤ, ◌≤ℤ◌, ◌<ℤ◌, unsigned_abs};
ghost use Rattle.ir_values.specs.Numbers as meaning;
ghost use Rattle.ir_values.specs.Private as private;

pub(crate) fn power_of_two(exponent: u32) -> u128
    requires { exponent ≤ 64 }
    ensures { result ≡ 2 ^ exponent }
{
    1 << exponent
}

#[tactic(auto, using(crate::proofs::Widths::remainder_fits))]
pub(crate) fn modulo(width: u32, number: u128) -> u64
    requires { width ≤ 64 }
    ensures { result ≡ meaning.modulo width (pos number) }
{
    (number % power_of_two(width)) as u64
}

/// Whether the number is negative in two's complement.
pub(crate) fn is_negative(width: u32, number: u64) -> bool
    requires narrow { width ≤ 64 }
    requires wide { 1 ≤ width }
    ensures { result ≡ private.is_negative width number }
{
    power_of_two(width - 1) <= u128::from(number)
}

/// Of two signs, that of the product and of the quotient.
pub(crate) fn differ(left: bool, right: bool) -> bool
    ensures { result ≡ private.differ left right }
{
    left != right
}

/// How far the number is from 0 in two's complement.
#[tactic(auto, using(crate::proofs::Widths::magnitude_low, crate::proofs::Widths::magnitude_high, crate::proofs::Widths::half_fits))]
pub(crate) fn magnitude(width: u32, number: u64) -> u64
    requires narrow { width ≤ 64 }
    requires wide { 1 ≤ width }
    requires number { number < 2 ^ width }
    ensures value { result ≡ unsigned_abs (meaning.signed width number) }
    ensures bound { result ≤ 2 ^ (width - 1) }
{
    if is_negative(width, number) {
        (power_of_two(width) - u128::from(number)) as u64
    } else {
        number
    }
}

/// The greatest number of that width.
#[tactic(auto, using(crate::proofs::Widths::power_fits))]
pub(crate) fn greatest(width: u32) -> u64
    requires { width ≤ 64 }
    ensures { result ≡ 2 ^ width - 1 }
{
    (power_of_two(width) - 1) as u64
}

/// The number that an integer of this sign and magnitude is modulo 2 to the width.
pub(crate) fn with_sign(width: u32, negative: bool, magnitude: u64) -> u64
    requires { width ≤ 64 }
    ensures { result ≡ meaning.modulo width (private.with_sign negative magnitude) }
{
    if negative && 0 < magnitude {
        greatest(width) - modulo(width, u128::from(magnitude - 1))
    } else {
        modulo(width, u128::from(magnitude))
    }
}

/// The number read in two's complement.
#[tactic(auto, using(crate::proofs::Widths::power_fits))]
pub(crate) fn signed(width: u32, number: u64) -> i128
    requires narrow { width ≤ 64 }
    requires wide { 1 ≤ width }
    ensures value { result ≡ meaning.signed width number }
    ensures low { neg_ℤ (pos (2 ^ 64)) ≤ℤ result }
    ensures high { result <ℤ pos (2 ^ 64) }
{
    if u128::from(number) < power_of_two(width - 1) {
        i128::from(number)
    } else {
        i128::from(number) - power_of_two(width) as i128
    }
}

/// The same at any width, also where no integer has it.
#[tactic(auto, using(crate::proofs::Widths::signed_none, crate::proofs::Widths::signed_wide))]
pub(crate) fn signed_at(width: u32, number: u64) -> i128
    requires number { number < 2 ^ width }
    ensures value { result ≡ meaning.signed width number }
    ensures low { neg_ℤ (pos (2 ^ 64)) ≤ℤ result }
    ensures high { result <ℤ pos (2 ^ 64) }
{
    if width == 0 || 64 < width {
        i128::from(number)
    } else {
        signed(width, number)
    }
}

/// The least number that two's complement has no place for.
#[tactic(auto, using(crate::proofs::Widths::power_fits))]
fn signed_end(width: u32) -> i128
    requires narrow { width ≤ 64 }
    requires wide { 1 ≤ width }
    ensures value { result ≡ pos (2 ^ (width - 1)) }
    ensures high { result ≤ℤ pos (2 ^ 64) }
{
    power_of_two(width - 1) as i128
}

/// Whether the integer is no number of that width in two's complement.
pub(crate) fn is_outside(width: u32, integer: i128) -> bool
    requires narrow { width ≤ 64 }
    requires wide { 1 ≤ width }
    ensures { result ≡ meaning.is_outside width integer }
{
    let end = signed_end(width);
    integer < -end || end <= integer
}

/// Whether an integer of this sign and magnitude is no number of that width in two's complement.
pub(crate) fn is_outside_by_sign(width: u32, negative: bool, magnitude: u128) -> bool
    requires narrow { width ≤ 64 }
    requires wide { 1 ≤ width }
    ensures { result ≡ meaning.is_outside width (private.with_sign negative magnitude) }
{
    let end = power_of_two(width - 1);
    if negative {
        end < magnitude
    } else {
        end <= magnitude
    }
}

#[tactic(auto, using(crate::proofs::Widths::product_fits))]
pub(crate) fn product(left: u64, right: u64) -> u128
    ensures { result ≡ left * right }
{
    u128::from(left) * u128::from(right)
}

/// The number times 2 to the places.
#[tactic(auto, using(crate::proofs::Widths::shift_fits))]
pub(crate) fn scaled(number: u64, places: u64) -> u128
    requires { places < 64 }
    ensures { result ≡ number * 2 ^ places }
{
    u128::from(number) << places
}

/// The word of 64 bits that an offset is.
#[tactic(auto, using(crate::proofs::Wrapped::word_is))]
pub(crate) fn word(offset: i64) -> u64
    ensures { result ≡ meaning.modulo 64 offset }
{
    offset.cast_unsigned()
}

/// The word of 64 bits that an integer is.
pub(crate) fn word_of(integer: i128) -> u64
    ensures { result ≡ meaning.modulo 64 integer }
{
    integer.rem_euclid(1 << 64) as u64
}
