//! Which flags of a line two numbers break.
ghost use Rattle.std.specs.Prelude.{◌≡◌, ◌<◌, ◌≤◌, ◌%◌, ◌^◌, ◌+ℤ◌, ◌-ℤ◌, ◌*ℤ◌, pos, true, nat_lt};
ghost use Rattle.ir_values.specs.Numbers as numbers;
ghost use Rattle.ir_values.specs.Results as meaning;

use crate::numbers::{
    differ, is_negative, is_outside, is_outside_by_sign, magnitude, power_of_two, product, scaled,
    signed,
};
use crate::results::remainder_magnitude;
use ir_core::{BinOp, Flags};

fn wraps_unsigned(op: BinOp, width: u32, left: u64, right: u64) -> bool
    requires width { width ≤ 64 }
    requires places { meaning.is_shift op ≡ true → right < width }
    ensures { result ≡ meaning.wraps_unsigned op width left right }
{
    match op {
        BinOp::Add => power_of_two(width) <= u128::from(left) + u128::from(right),
        BinOp::Sub => left < right,
        BinOp::Mul => power_of_two(width) <= product(left, right),
        BinOp::Shl => power_of_two(width) <= scaled(left, right),
        _ => false,
    }
}

#[tactic(auto, using(crate::proofs::Signs::product_by_signs))]
fn product_is_outside(width: u32, left: u64, right: u64) -> bool
    requires narrow { width ≤ 64 }
    requires wide { 1 ≤ width }
    requires left { left < 2 ^ width }
    requires right { right < 2 ^ width }
    ensures { result ≡ numbers.is_outside width (numbers.signed width left *ℤ numbers.signed width right) }
{
    let negative = differ(is_negative(width, left), is_negative(width, right));
    is_outside_by_sign(
        width,
        negative,
        product(magnitude(width, left), magnitude(width, right)),
    )
}

#[tactic(auto, using(crate::proofs::Signs::scaled_by_signs))]
fn scaled_is_outside(width: u32, number: u64, places: u64) -> bool
    requires narrow { width ≤ 64 }
    requires wide { 1 ≤ width }
    requires number { number < 2 ^ width }
    requires places { places < width }
    ensures { result ≡ numbers.is_outside width (numbers.signed width number *ℤ pos (2 ^ places)) }
{
    is_outside_by_sign(
        width,
        is_negative(width, number),
        scaled(magnitude(width, number), places),
    )
}

fn signed_sum(width: u32, left: u64, right: u64) -> i128
    requires narrow { width ≤ 64 }
    requires wide { 1 ≤ width }
    ensures { result ≡ numbers.signed width left +ℤ numbers.signed width right }
{
    signed(width, left) + signed(width, right)
}

fn signed_difference(width: u32, left: u64, right: u64) -> i128
    requires narrow { width ≤ 64 }
    requires wide { 1 ≤ width }
    ensures { result ≡ numbers.signed width left -ℤ numbers.signed width right }
{
    signed(width, left) - signed(width, right)
}

fn wraps_signed(op: BinOp, width: u32, left: u64, right: u64) -> bool
    requires narrow { width ≤ 64 }
    requires wide { 1 ≤ width }
    requires left { left < 2 ^ width }
    requires right { right < 2 ^ width }
    requires places { meaning.is_shift op ≡ true → right < width }
    ensures { result ≡ meaning.wraps_signed op width left right }
{
    match op {
        BinOp::Add => is_outside(width, signed_sum(width, left, right)),
        BinOp::Sub => is_outside(width, signed_difference(width, left, right)),
        BinOp::Mul => product_is_outside(width, left, right),
        BinOp::Shl => scaled_is_outside(width, left, right),
        _ => false,
    }
}

/// Whether a one bit is among the lowest of so many places.
fn drops_bit(number: u64, places: u64) -> bool
    requires { places < 64 }
    ensures { result ≡ nat_lt 0 (number % 2 ^ places) }
{
    0 < number % (1 << places)
}

fn leaves_rest(op: BinOp, width: u32, left: u64, right: u64) -> bool
    requires narrow { width ≤ 64 }
    requires wide { 1 ≤ width }
    requires left { left < 2 ^ width }
    requires right { right < 2 ^ width }
    requires divisor { meaning.is_division op ≡ true → 0 < right }
    requires places { meaning.is_shift op ≡ true → right < width }
    ensures { result ≡ meaning.leaves_rest op width left right }
{
    match op {
        BinOp::UDiv => 0 < left % right,
        BinOp::SDiv => 0 < remainder_magnitude(width, left, right),
        BinOp::LShr | BinOp::AShr => drops_bit(left, right),
        _ => false,
    }
}

/// Whether two numbers break a flag, where the divisor isn't 0 and the shift is by less than the width.
pub(crate) fn breaks_flag(op: BinOp, flags: Flags, width: u32, left: u64, right: u64) -> bool
    requires narrow { width ≤ 64 }
    requires wide { 1 ≤ width }
    requires left { left < 2 ^ width }
    requires right { right < 2 ^ width }
    requires divisor { meaning.is_division op ≡ true → 0 < right }
    requires places { meaning.is_shift op ≡ true → right < width }
    ensures { result ≡ meaning.breaks_flag op flags width left right }
{
    (flags.nuw && wraps_unsigned(op, width, left, right))
        || (flags.nsw && wraps_signed(op, width, left, right))
        || (flags.exact && leaves_rest(op, width, left, right))
}
