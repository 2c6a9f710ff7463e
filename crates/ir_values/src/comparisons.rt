ghost use Rattle.std.specs.Prelude.{◌≡◌, ◌≤◌, cond, None};
ghost use Rattle.ir_values.specs.Comparisons as meaning;
ghost use Rattle.ir_core.specs.declared.values.Value.TheVariants.{Undef};
ghost use Rattle.ir_values.specs.Values.{HasWidth, IsInKind, both_numbers};

use crate::numbers::{signed, word};
use crate::operations::{Outcome, as_number, is_poison};
use ir_core::{BlockId, Kind, Pred, Value};

/// The outcome of `icmp pred` on two values of one kind, with the sizes of the blocks that they are in. The size of a value that is in no
/// block is passed over.
pub fn eval_icmp(pred: Pred, kind: Kind, a: &Value, b: &Value, size_a: u64, size_b: u64) -> Outcome
    requires width { HasWidth kind }
    requires left { IsInKind kind a.now }
    requires right { IsInKind kind b.now }
    ensures { result ≡ meaning.icmp_outcome pred kind a.now b.now size_a size_b }
{
    if is_poison(a) || is_poison(b) {
        return Outcome::Gives(Value::Poison);
    }
    Outcome::Gives(match kind {
        Kind::Int(width) => compared_numbers(pred, width, as_number(a), as_number(b)),
        Kind::Ptr => bit_if_known(compared(pred, a, size_a, b, size_b)),
    })
}

fn compared_numbers(pred: Pred, width: u32, left: Option<u64>, right: Option<u64>) -> Value
    requires narrow { width ≤ 64 }
    requires wide { 1 ≤ width }
    ensures { result ≡ both_numbers Undef (λ m n. meaning.bit (meaning.holds pred width m n)) left right }
{
    match left {
        Some(left) => match right {
            Some(right) => bit(holds(pred, width, left, right)),
            None => Value::Undef,
        },
        None => Value::Undef,
    }
}

fn bit_if_known(holds: Option<bool>) -> Value
    ensures { result ≡ meaning.bit_if_known holds }
{
    match holds {
        Some(holds) => bit(holds),
        None => Value::Undef,
    }
}

/// Whether the offset lies inside a block of that size.
fn is_inside(offset: i64, size: u64) -> bool
    ensures { result ≡ meaning.is_inside offset size }
{
    0 <= i128::from(offset) && i128::from(offset) < i128::from(size)
}

/// Whether the predicate holds of two addresses that differ, where that is known.
fn differing(pred: Pred) -> Option<bool>
    ensures { result ≡ meaning.differing pred }
{
    match pred {
        Pred::Eq => Some(false),
        Pred::Ne => Some(true),
        _ => None,
    }
}

fn differing_if(inside: bool, pred: Pred) -> Option<bool>
    ensures { result ≡ cond inside (meaning.differing pred) None }
{
    if inside { differing(pred) } else { None }
}

fn compared_in_block(
    pred: Pred,
    block: BlockId,
    offset: i64,
    size: u64,
    b: &Value,
    other: u64,
) -> Option<bool>
    ensures { result ≡ meaning.compared_in_block pred block offset size b.now other }
{
    match b {
        Value::Ptr(second, place) => {
            if block == *second {
                return Some(holds(pred, 64, word(offset), word(*place)));
            }
            differing_if(is_inside(offset, size) && is_inside(*place, other), pred)
        }
        Value::Bare(address) => differing_if(*address == 0 && is_inside(offset, size), pred),
        Value::Num(_) | Value::Undef | Value::Poison => None,
    }
}

fn compared_bare(pred: Pred, address: u64, b: &Value, other: u64) -> Option<bool>
    ensures { result ≡ meaning.compared_bare pred address b.now other }
{
    match b {
        Value::Ptr(_, place) => differing_if(address == 0 && is_inside(*place, other), pred),
        Value::Bare(second) => Some(holds(pred, 64, address, *second)),
        Value::Num(_) | Value::Undef | Value::Poison => None,
    }
}

/// Whether the predicate holds of two addresses, where that is known.
fn compared(pred: Pred, a: &Value, size: u64, b: &Value, other: u64) -> Option<bool>
    ensures { result ≡ meaning.compared pred a.now size b.now other }
{
    match a {
        Value::Ptr(block, offset) => compared_in_block(pred, *block, *offset, size, b, other),
        Value::Bare(address) => compared_bare(pred, *address, b, other),
        Value::Num(_) | Value::Undef | Value::Poison => None,
    }
}

/// 1 or 0 of `i1`.
fn bit(holds: bool) -> Value
    ensures { result ≡ meaning.bit holds }
{
    Value::Num(u64::from(holds))
}

fn holds(pred: Pred, width: u32, left: u64, right: u64) -> bool
    requires narrow { width ≤ 64 }
    requires wide { 1 ≤ width }
    ensures { result ≡ meaning.holds pred width left right }
{
    match pred {
        Pred::Eq => left == right,
        Pred::Ne => left != right,
        Pred::Ugt => left > right,
        Pred::Uge => left >= right,
        Pred::Ult => left < right,
        Pred::Ule => left <= right,
        Pred::Sgt => signed(width, left) > signed(width, right),
        Pred::Sge => signed(width, left) >= signed(width, right),
        Pred::Slt => signed(width, left) < signed(width, right),
        Pred::Sle => signed(width, left) <= signed(width, right),
    }
}
