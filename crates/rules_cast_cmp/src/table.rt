//! The rows of the table, each as its definition has it.
ghost use Rattle.std.specs.Prelude.{◌≡◌};
ghost use Rattle.rule_forms.specs.Table as row;

use ir_core::{BinOp, CastOp, Pred};
use rule_forms::{Condition, FlagPlace, Form, Pattern, Place, TypePlace};

fn form(premise: Option<Pattern>, left: Pattern, right: Pattern, condition: Condition) -> Form
    ensures { result ≡ record { premise = premise; left = left; right = right; condition = condition } }
{
    Form {
        premise,
        left,
        right,
        condition,
    }
}

pub(crate) fn bitcast_same() -> Form
    ensures { result ≡ row.bitcast_same }
{
    form(
        None,
        Pattern::Cast(CastOp::BitCast, TypePlace::S, Place::X, TypePlace::S),
        Pattern::Plain(TypePlace::S, Place::X),
        Condition::Always,
    )
}

pub(crate) fn cast_cast(first: CastOp, second: CastOp, both: CastOp) -> Form
    ensures { result ≡ row.cast_cast first second both }
{
    form(
        Some(Pattern::Cast(first, TypePlace::S, Place::X, TypePlace::M)),
        Pattern::Cast(second, TypePlace::M, Place::Z, TypePlace::T),
        Pattern::Cast(both, TypePlace::S, Place::X, TypePlace::T),
        Condition::Always,
    )
}

pub(crate) fn icmp_diff(o: BinOp, p: Pred) -> Form
    ensures { result ≡ row.icmp_diff o p }
{
    form(
        Some(Pattern::Binary(o, FlagPlace::G, TypePlace::T, Place::X, Place::Y)),
        Pattern::Icmp(p, TypePlace::T, Place::Z, Place::Zero),
        Pattern::Icmp(p, TypePlace::T, Place::X, Place::Y),
        Condition::Always,
    )
}

pub(crate) fn icmp_edge(p: Pred, at: Place, truth: Place) -> Form
    ensures { result ≡ row.icmp_edge p at truth }
{
    form(
        None,
        Pattern::Icmp(p, TypePlace::T, Place::X, at),
        Pattern::Plain(TypePlace::Bit, truth),
        Condition::Always,
    )
}

pub(crate) fn icmp_one(p: Pred, at: Place, q: Pred) -> Form
    ensures { result ≡ row.icmp_one p at q }
{
    form(
        None,
        Pattern::Icmp(p, TypePlace::T, Place::X, at),
        Pattern::Icmp(q, TypePlace::T, Place::X, Place::Zero),
        Condition::Always,
    )
}

pub(crate) fn icmp_self(p: Pred, truth: Place) -> Form
    ensures { result ≡ row.icmp_self p truth }
{
    form(
        None,
        Pattern::Icmp(p, TypePlace::T, Place::X, Place::X),
        Pattern::Plain(TypePlace::Bit, truth),
        Condition::Always,
    )
}

pub(crate) fn icmp_swap(p: Pred, q: Pred) -> Form
    ensures { result ≡ row.icmp_swap p q }
{
    form(
        None,
        Pattern::Icmp(p, TypePlace::T, Place::X, Place::Y),
        Pattern::Icmp(q, TypePlace::T, Place::Y, Place::X),
        Condition::Always,
    )
}

pub(crate) fn select_bool() -> Form
    ensures { result ≡ row.select_bool }
{
    form(
        None,
        Pattern::Select(Place::Z, TypePlace::Bit, Place::One, Place::Zero),
        Pattern::Plain(TypePlace::Bit, Place::Z),
        Condition::Always,
    )
}

pub(crate) fn select_known(c: Place, chosen: Place) -> Form
    ensures { result ≡ row.select_known c chosen }
{
    form(
        None,
        Pattern::Select(c, TypePlace::T, Place::X, Place::Y),
        Pattern::Plain(TypePlace::T, chosen),
        Condition::Always,
    )
}

pub(crate) fn select_not() -> Form
    ensures { result ≡ row.select_not }
{
    form(
        None,
        Pattern::Select(Place::Z, TypePlace::Bit, Place::Zero, Place::One),
        Pattern::Binary(
            BinOp::Xor,
            FlagPlace::Free,
            TypePlace::Bit,
            Place::Z,
            Place::One,
        ),
        Condition::Always,
    )
}

pub(crate) fn select_same() -> Form
    ensures { result ≡ row.select_same }
{
    form(
        None,
        Pattern::Select(Place::Z, TypePlace::T, Place::X, Place::X),
        Pattern::Plain(TypePlace::T, Place::X),
        Condition::Always,
    )
}

pub(crate) fn trunc_ext(first: CastOp) -> Form
    ensures { result ≡ row.trunc_ext first }
{
    form(
        Some(Pattern::Cast(first, TypePlace::S, Place::X, TypePlace::M)),
        Pattern::Cast(CastOp::Trunc, TypePlace::M, Place::Z, TypePlace::S),
        Pattern::Plain(TypePlace::S, Place::X),
        Condition::Always,
    )
}
