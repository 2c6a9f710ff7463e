//! What the operators make of two numbers.
ghost use Rattle.std.specs.Prelude.{◌≡◌, ◌<◌, ◌≤◌, ◌^◌, true, int_div, int_rem, pos, unsigned_abs};
ghost use Rattle.std.specs.Int.{int_div_euclid};
ghost use Rattle.ir_values.specs.Numbers as numbers;
ghost use Rattle.ir_values.specs.Results as meaning;

use crate::numbers::{
    differ, greatest, is_negative, magnitude, modulo, power_of_two, product, scaled, with_sign,
};
use ir_core::BinOp;

/// The signed quotient, rounded to zero.
#[tactic(auto, using(crate::proofs::Signs::quotient_by_signs, crate::proofs::Signs::magnitude_above_zero))]
fn quotient(width: u32, left: u64, right: u64) -> u64
    requires narrow { width ≤ 64 }
    requires wide { 1 ≤ width }
    requires left { left < 2 ^ width }
    requires right { right < 2 ^ width }
    requires divisor { 0 < right }
    ensures { result ≡ numbers.modulo width (int_div (numbers.signed width left) (numbers.signed width right)) }
{
    let negative = differ(is_negative(width, left), is_negative(width, right));
    with_sign(
        width,
        negative,
        magnitude(width, left) / magnitude(width, right),
    )
}

/// The magnitude of the signed remainder.
#[tactic(auto, using(crate::proofs::Signs::remainder_magnitude_is, crate::proofs::Signs::magnitude_above_zero))]
pub(crate) fn remainder_magnitude(width: u32, left: u64, right: u64) -> u64
    requires narrow { width ≤ 64 }
    requires wide { 1 ≤ width }
    requires left { left < 2 ^ width }
    requires right { right < 2 ^ width }
    requires divisor { 0 < right }
    ensures value { result ≡ unsigned_abs (int_rem (numbers.signed width left) (numbers.signed width right)) }
{
    magnitude(width, left) % magnitude(width, right)
}

/// The signed remainder, which has the dividend's sign.
#[tactic(auto, using(crate::proofs::Signs::remainder_by_signs))]
fn remainder(width: u32, left: u64, right: u64) -> u64
    requires narrow { width ≤ 64 }
    requires wide { 1 ≤ width }
    requires left { left < 2 ^ width }
    requires right { right < 2 ^ width }
    requires divisor { 0 < right }
    ensures { result ≡ numbers.modulo width (int_rem (numbers.signed width left) (numbers.signed width right)) }
{
    with_sign(
        width,
        is_negative(width, left),
        remainder_magnitude(width, left, right),
    )
}

/// The number shifted right by so many places, filled with its sign bit.
#[tactic(auto, using(crate::proofs::Signs::shifted_low, crate::proofs::Signs::shifted_high))]
fn shifted_with_sign(width: u32, number: u64, places: u64) -> u64
    requires narrow { width ≤ 64 }
    requires wide { 1 ≤ width }
    requires number { number < 2 ^ width }
    requires places { places < width }
    ensures { result ≡ numbers.modulo width (int_div_euclid (numbers.signed width number) (pos (2 ^ places))) }
{
    if is_negative(width, number) {
        greatest(width) - ((greatest(width) - number) >> places)
    } else {
        number >> places
    }
}

/// The number that is the result, where the divisor isn't 0 and the shift is by less than the width.
#[tactic(auto, using(crate::proofs::Widths::or_below, crate::proofs::Widths::xor_below))]
pub(crate) fn result(op: BinOp, width: u32, left: u64, right: u64) -> u64
    requires narrow { width ≤ 64 }
    requires wide { 1 ≤ width }
    requires left { left < 2 ^ width }
    requires right { right < 2 ^ width }
    requires divisor { meaning.is_division op ≡ true → 0 < right }
    requires places { meaning.is_shift op ≡ true → right < width }
    ensures { result ≡ meaning.result op width left right }
{
    match op {
        BinOp::Add => modulo(width, u128::from(left) + u128::from(right)),
        BinOp::Sub => modulo(
            width,
            u128::from(left) + (power_of_two(width) - u128::from(right)),
        ),
        BinOp::Mul => modulo(width, product(left, right)),
        BinOp::Shl => modulo(width, scaled(left, right)),
        BinOp::UDiv => left / right,
        BinOp::SDiv => quotient(width, left, right),
        BinOp::LShr => left >> right,
        BinOp::AShr => shifted_with_sign(width, left, right),
        BinOp::URem => left % right,
        BinOp::SRem => remainder(width, left, right),
        BinOp::And => left & right,
        BinOp::Or => left | right,
        BinOp::Xor => left ^ right,
    }
}
