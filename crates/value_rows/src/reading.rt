// What the words of a row say; nothing where they say none.
ghost use Rattle.std.specs.Prelude.{◌≤◌, IfSome, IsTrue};
ghost use Rattle.ir_core.specs.declared.values.Kind.TheVariants.{Int};
ghost use Rattle.ir_values.specs.Values.{HasWidth, IsInKind};

use ir_core::{BinOp, CastOp, Flags, Pred, Value, fits, is_width};
use ir_values::Outcome;
use std::str::SplitWhitespace;

pub(crate) fn op_named(word: &str) -> Option<BinOp> {
    match word {
        "add" => Some(BinOp::Add),
        "sub" => Some(BinOp::Sub),
        "mul" => Some(BinOp::Mul),
        "shl" => Some(BinOp::Shl),
        "udiv" => Some(BinOp::UDiv),
        "sdiv" => Some(BinOp::SDiv),
        "lshr" => Some(BinOp::LShr),
        "ashr" => Some(BinOp::AShr),
        "urem" => Some(BinOp::URem),
        "srem" => Some(BinOp::SRem),
        "and" => Some(BinOp::And),
        "or" => Some(BinOp::Or),
        "xor" => Some(BinOp::Xor),
        _ => None,
    }
}

pub(crate) fn cast_named(word: &str) -> Option<CastOp> {
    match word {
        "zext" => Some(CastOp::ZExt),
        "sext" => Some(CastOp::SExt),
        "trunc" => Some(CastOp::Trunc),
        "bitcast" => Some(CastOp::BitCast),
        _ => None,
    }
}

pub(crate) fn pred_named(word: &str) -> Option<Pred> {
    match word {
        "eq" => Some(Pred::Eq),
        "ne" => Some(Pred::Ne),
        "ugt" => Some(Pred::Ugt),
        "uge" => Some(Pred::Uge),
        "ult" => Some(Pred::Ult),
        "ule" => Some(Pred::Ule),
        "sgt" => Some(Pred::Sgt),
        "sge" => Some(Pred::Sge),
        "slt" => Some(Pred::Slt),
        "sle" => Some(Pred::Sle),
        _ => None,
    }
}

pub(crate) fn flags_named(word: &str) -> Option<Flags> {
    match word {
        "-" => Some(flags(false, false, false)),
        "nuw" => Some(flags(true, false, false)),
        "nsw" => Some(flags(false, true, false)),
        "nuw,nsw" => Some(flags(true, true, false)),
        "exact" => Some(flags(false, false, true)),
        _ => None,
    }
}

fn flags(nuw: bool, nsw: bool, exact: bool) -> Flags {
    Flags { nuw, nsw, exact }
}

/// The next word as a width.
pub(crate) fn width_in(words: &mut SplitWhitespace<'_>) -> Option<u32>
    ensures { IfSome result (λ width. HasWidth (Int width)) }
{
    let width = words.next()?.parse::<u32>().ok()?;
    if is_width(width) { Some(width) } else { None }
}

/// The next word as a value of that width.
pub(crate) fn value_in(width: u32, words: &mut SplitWhitespace<'_>) -> Option<Value>
    ensures { IfSome result (λ value. IsInKind (Int width) value) }
{
    let value = value_named(words.next()?)?;
    if is_of(width, &value) {
        Some(value)
    } else {
        None
    }
}

/// Whether the value is one of an integer of that many bits.
fn is_of(width: u32, value: &Value) -> bool
    ensures { IsTrue result → IsInKind (Int width) value.now }
{
    match value {
        Value::Num(number) => fits(*number, width),
        Value::Ptr(_, _) => false,
        Value::Bare(_) => false,
        Value::Undef => true,
        Value::Poison => true,
    }
}

fn value_named(word: &str) -> Option<Value> {
    match word {
        "undef" => Some(Value::Undef),
        "poison" => Some(Value::Poison),
        _ => Some(Value::Num(word.parse::<u64>().ok()?)),
    }
}

pub(crate) fn outcome_named(word: &str) -> Option<Outcome> {
    match word {
        "trap" => Some(Outcome::Trap),
        _ => Some(Outcome::Gives(value_named(word)?)),
    }
}
