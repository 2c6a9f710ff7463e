ghost use Rattle.std.specs.Prelude.{◌≡◌, ◌≤◌, ◌<◌, ◌^◌};
ghost use Rattle.ir_values.specs.Conversions as meaning;
ghost use Rattle.ir_values.specs.Numbers as numbers;
ghost use Rattle.ir_values.specs.Values.{HasWidth, IsInKind};

use crate::numbers::{is_negative, magnitude, modulo, with_sign};
use crate::operations::Outcome;
use ir_core::{CastOp, Kind, Value};

/// The outcome of `op a to`, from a value of one kind to another kind.
pub fn eval_cast(op: CastOp, from: Kind, to: Kind, a: &Value) -> Outcome
    requires from { HasWidth from }
    requires to { HasWidth to }
    requires operand { IsInKind from a.now }
    ensures { result ≡ meaning.cast_outcome op from to a.now }
{
    match (from, to) {
        (Kind::Int(few), Kind::Int(many)) => Outcome::Gives(match a {
            Value::Poison => Value::Poison,
            Value::Undef | Value::Ptr(_, _) | Value::Bare(_) => Value::Undef,
            Value::Num(number) => Value::Num(converted(op, few, many, *number)),
        }),
        (Kind::Ptr, Kind::Ptr) => Outcome::Gives(recast_value(a)),
        (Kind::Int(_), Kind::Ptr) | (Kind::Ptr, Kind::Int(_)) => Outcome::Gives(Value::Poison),
    }
}

/// An address, as one of another type.
fn recast_value(value: &Value) -> Value
    ensures { result ≡ meaning.recast_value value.now }
{
    match value {
        Value::Num(_) => Value::Undef,
        Value::Ptr(_, _) | Value::Bare(_) | Value::Undef | Value::Poison => *value,
    }
}

fn converted(op: CastOp, from: u32, to: u32, number: u64) -> u64
    requires narrow { from ≤ 64 }
    requires wide { 1 ≤ from }
    requires number { number < 2 ^ from }
    requires to { to ≤ 64 }
    ensures { result ≡ numbers.modulo to (meaning.read_by op from number) }
{
    match op {
        CastOp::ZExt => modulo(to, u128::from(number)),
        CastOp::SExt => sign_extended(from, to, number),
        CastOp::Trunc => modulo(to, u128::from(number)),
        CastOp::BitCast => modulo(to, u128::from(number)),
    }
}

/// The number in two's complement, at another width.
#[tactic(auto, using(crate::proofs::Signs::by_sign))]
fn sign_extended(from: u32, to: u32, number: u64) -> u64
    requires narrow { from ≤ 64 }
    requires wide { 1 ≤ from }
    requires number { number < 2 ^ from }
    requires to { to ≤ 64 }
    ensures { result ≡ numbers.modulo to (numbers.signed from number) }
{
    with_sign(to, is_negative(from, number), magnitude(from, number))
}
