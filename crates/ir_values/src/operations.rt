ghost use Rattle.std.specs.Prelude.{◌≡◌, ◌↔◌, ◌<◌, ◌≤◌, ◌-◌, ◌^◌, IsTrue, false};
ghost use Rattle.ir_core.specs.declared.values.Kind.TheVariants.{Int};
ghost use Rattle.ir_core.specs.declared.values.Value.TheVariants.{Num};
ghost use Rattle.ir_values.specs.Values.{IsInKind, IsLessDefined};
ghost use Rattle.ir_values.specs.Values as values;
ghost use Rattle.ir_values.specs.Operations as meaning;
ghost use Rattle.ir_values.specs.Results as results;

use crate::flags::breaks_flag;
use crate::numbers::power_of_two;
use crate::results::result;
use ir_core::{BinOp, Flags, Value};

/// What an operation leads to: a value, or undefined behaviour at once.
#[derive(Drop, Clone, Copy)]
pub enum Outcome {
    Gives(Value),
    Trap,
}

/// The outcome of `op flags iN a, b` at a width N from 1 to 64, on values of that width.
#[tactic(auto, using(crate::proofs::AsNumbers::number_below, crate::proofs::AsNumbers::numbers_trap))]
pub fn eval_binary(op: BinOp, flags: Flags, width: u32, a: &Value, b: &Value) -> Outcome
    requires narrow { width ≤ 64 }
    requires wide { 1 ≤ width }
    requires left { IsInKind (Int width) a.now }
    requires right { IsInKind (Int width) b.now }
    ensures { result ≡ meaning.binary_outcome op flags width a.now b.now }
{
    if traps(op, width, a, b) {
        return Outcome::Trap;
    }
    if is_poison(a) || is_poison(b) {
        return Outcome::Gives(Value::Poison);
    }
    Outcome::Gives(match as_number(a) {
        Some(left) => match as_number(b) {
            Some(right) => number_value(op, flags, width, left, right),
            None => undef_under(flags),
        },
        None => undef_under(flags),
    })
}

/// Whether the target's value refines the source's: the source's is less defined (Crellvm's lessdef).
pub fn refines(source: &Value, target: &Value) -> bool
    ensures { IsTrue result ↔ IsLessDefined source.now target.now }
{
    match (source, target) {
        (Value::Poison, _) => true,
        (Value::Undef, Value::Poison) => false,
        (Value::Undef, _) => true,
        (Value::Num(mine), Value::Num(theirs)) => *mine == *theirs,
        (Value::Num(_), _) => false,
        (Value::Ptr(block, offset), Value::Ptr(other, place)) => {
            *block == *other && *offset == *place
        }
        (Value::Ptr(_, _), _) => false,
        (Value::Bare(mine), Value::Bare(theirs)) => *mine == *theirs,
        (Value::Bare(_), _) => false,
    }
}

pub(crate) fn is_poison(value: &Value) -> bool
    ensures { result ≡ values.is_poison value.now }
{
    match value {
        Value::Poison => true,
        Value::Undef | Value::Num(_) | Value::Ptr(_, _) | Value::Bare(_) => false,
    }
}

/// The number that it is, if it is one.
pub(crate) fn as_number(value: &Value) -> Option<u64>
    ensures { result ≡ values.as_number value.now }
{
    match value {
        Value::Num(number) => Some(*number),
        Value::Ptr(_, _) | Value::Bare(_) | Value::Undef | Value::Poison => None,
    }
}

fn is_division(op: BinOp) -> bool
    ensures { result ≡ results.is_division op }
{
    match op {
        BinOp::UDiv | BinOp::SDiv | BinOp::URem | BinOp::SRem => true,
        _ => false,
    }
}

fn is_signed_division(op: BinOp) -> bool
    ensures { result ≡ results.is_signed_division op }
{
    match op {
        BinOp::SDiv | BinOp::SRem => true,
        _ => false,
    }
}

fn is_shift(op: BinOp) -> bool
    ensures { result ≡ results.is_shift op }
{
    match op {
        BinOp::Shl | BinOp::LShr | BinOp::AShr => true,
        _ => false,
    }
}

/// Whether the value is that number, or counts as undef, or is poison.
fn may_be(number: u128, value: &Value) -> bool
    ensures { result ≡ meaning.may_be number value.now }
{
    match value {
        Value::Num(mine) => u128::from(*mine) == number,
        Value::Ptr(_, _) => true,
        Value::Bare(_) => true,
        Value::Undef => true,
        Value::Poison => true,
    }
}

fn traps(op: BinOp, width: u32, a: &Value, b: &Value) -> bool
    requires narrow { width ≤ 64 }
    requires wide { 1 ≤ width }
    ensures { result ≡ meaning.traps op width a.now b.now }
{
    (is_division(op) && may_be(0, b))
        || (is_signed_division(op)
            && may_be(power_of_two(width) - 1, b)
            && may_be(power_of_two(width - 1), a))
}

fn undef_under(flags: Flags) -> Value
    ensures { result ≡ meaning.undef_under flags }
{
    if flags.nuw || flags.nsw || flags.exact {
        Value::Poison
    } else {
        Value::Undef
    }
}

fn is_past_width(op: BinOp, width: u32, places: u64) -> bool
    ensures { result ≡ results.is_past_width op width places }
{
    is_shift(op) && u64::from(width) <= places
}

/// What two numbers give where the operation doesn't trap.
#[tactic(auto, using(crate::proofs::Widths::divisor_above_zero, crate::proofs::Widths::places_below_width))]
fn number_value(op: BinOp, flags: Flags, width: u32, left: u64, right: u64) -> Value
    requires narrow { width ≤ 64 }
    requires wide { 1 ≤ width }
    requires left { left < 2 ^ width }
    requires right { right < 2 ^ width }
    requires defined { meaning.traps op width (Num left) (Num right) ≡ false }
    ensures { result ≡ meaning.number_value op flags width left right }
{
    if is_past_width(op, width, right) {
        return undef_under(flags);
    }
    if breaks_flag(op, flags, width, left, right) {
        return Value::Poison;
    }
    Value::Num(result(op, width, left, right))
}
