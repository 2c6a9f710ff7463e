ghost use Rattle.ir_core.specs.declared.values.Kind.TheVariants.{Int};
ghost use Rattle.ir_values.specs.Values.{IsInKind};
ghost use Rattle.std.specs.Prelude.{IsTrue};

use ir_core::Value::{Num, Poison, Undef};
use ir_core::{BinOp, Flags, Value, fits, is_width};
use ir_values::{Outcome, eval_binary, refines};
use std::test::*;

/// Whether the value is one of an integer of that many bits.
fn is_of(width: u32, value: &Value) -> bool
    ensures { IsTrue result → IsInKind (Int width) value.now }
{
    match value {
        Num(number) => fits(*number, width),
        Value::Ptr(_, _) | Value::Bare(_) => false,
        Undef | Poison => true,
    }
}

fn is_same(a: &Value, b: &Value) -> bool {
    refines(a, b) && refines(b, a)
}

/// Whether the operation, on values of that width, gives the value.
fn gives(op: BinOp, flags: Flags, width: u32, a: &Value, b: &Value, want: &Value) -> bool {
    if !is_width(width) || !is_of(width, a) || !is_of(width, b) {
        return false;
    }
    match eval_binary(op, flags, width, a, b) {
        Outcome::Gives(value) => is_same(&value, want),
        Outcome::Trap => false,
    }
}

const fn flags(nuw: bool, nsw: bool) -> Flags {
    Flags {
        nuw,
        nsw,
        exact: false,
    }
}

#[test]
fn sums_and_differences(rt: HostRuntime) {
    let (add, sub) = (BinOp::Add, BinOp::Sub);
    let (none, both) = (flags(false, false), flags(true, true));
    let (nuw, nsw) = (flags(true, false), flags(false, true));
    for (op, flags, width, a, b, want) in [
        (add, none, 8, Num(100), Num(200), Num(44)),
        (sub, none, 8, Num(100), Num(200), Num(156)),
        (add, nuw, 8, Num(100), Num(200), Poison),
        (add, nsw, 8, Num(100), Num(200), Num(44)),
        (add, nsw, 8, Num(100), Num(100), Poison),
        (sub, nsw, 8, Num(100), Num(200), Poison),
        (add, nsw, 64, Num(u64::MAX), Num(2), Num(1)),
        (add, both, 64, Num(u64::MAX), Num(2), Poison),
        (add, nsw, 32, Num(2_147_483_647), Num(1), Poison),
        (
            add,
            none,
            32,
            Num(2_147_483_647),
            Num(1),
            Num(2_147_483_648),
        ),
        (add, none, 32, Undef, Poison, Poison),
        (add, none, 32, Undef, Num(0), Undef),
        (add, nuw, 32, Undef, Num(0), Poison),
        (add, nsw, 1, Num(1), Num(1), Poison),
        (sub, nsw, 1, Num(0), Num(1), Poison),
        (sub, nuw, 1, Num(1), Num(1), Num(0)),
    ] {
        assert!(rt; gives(op, flags, width, &a, &b, &want));
    }
}

#[test]
fn more_defined_values_refine(rt: HostRuntime) {
    for (source, target, want) in [
        (Undef, Num(3), true),
        (Num(3), Undef, false),
        (Undef, Poison, false),
        (Poison, Undef, true),
        (Num(3), Num(4), false),
    ] {
        assert!(rt; refines(&source, &target) == want);
    }
}

#[test]
fn integers_have_one_to_64_bits(rt: HostRuntime) {
    for (width, want) in [(0, false), (1, true), (64, true), (65, false)] {
        assert!(rt; is_width(width) == want, "{width}");
    }
    for (number, width, want) in [
        (4294967295, 32, true),
        (4294967296, 32, false),
        (u64::MAX, 64, true),
    ] {
        assert!(rt; fits(number, width) == want, "{number}");
    }
}
