//! The rows of the table, each as its definition has it.
ghost use Rattle.std.specs.Prelude.{◌≡◌};
ghost use Rattle.rule_forms.specs.Table as row;

use ir_core::BinOp;
use rule_forms::{Condition, FlagPlace, Form, Pattern, Place, TypePlace};

fn form(premise: Option<Pattern>, left: Pattern, right: Pattern, condition: Condition) -> Form
    ensures { result ≡ record { premise = premise; left = left; right = right; condition = condition } }
{
    Form {
        premise,
        left,
        right,
        condition,
    }
}

pub(crate) fn add_const() -> Form
    ensures { result ≡ row.add_const }
{
    form(
        Some(Pattern::Binary(BinOp::Add, FlagPlace::G, TypePlace::T, Place::X, Place::C)),
        Pattern::Binary(BinOp::Add, FlagPlace::F, TypePlace::T, Place::Z, Place::D),
        Pattern::Binary(
            BinOp::Add,
            FlagPlace::Free,
            TypePlace::T,
            Place::X,
            Place::E,
        ),
        Condition::Sum,
    )
}

pub(crate) fn add_self() -> Form
    ensures { result ≡ row.add_self }
{
    form(
        None,
        Pattern::Binary(BinOp::Add, FlagPlace::F, TypePlace::T, Place::X, Place::X),
        Pattern::Binary(BinOp::Shl, FlagPlace::H, TypePlace::T, Place::X, Place::One),
        Condition::Twice,
    )
}

pub(crate) fn add_sub() -> Form
    ensures { result ≡ row.add_sub }
{
    form(
        Some(Pattern::Binary(BinOp::Sub, FlagPlace::G, TypePlace::T, Place::X, Place::Y)),
        Pattern::Binary(BinOp::Add, FlagPlace::F, TypePlace::T, Place::Z, Place::Y),
        Pattern::Plain(TypePlace::T, Place::X),
        Condition::Always,
    )
}

pub(crate) fn and_or() -> Form
    ensures { result ≡ row.and_or }
{
    form(
        Some(Pattern::Binary(BinOp::Or, FlagPlace::G, TypePlace::T, Place::X, Place::Y)),
        Pattern::Binary(BinOp::And, FlagPlace::F, TypePlace::T, Place::Z, Place::X),
        Pattern::Plain(TypePlace::T, Place::X),
        Condition::Always,
    )
}

pub(crate) fn bit_bit(o: BinOp, condition: Condition) -> Form
    ensures { result ≡ row.bit_bit o condition }
{
    form(
        Some(Pattern::Binary(o, FlagPlace::G, TypePlace::T, Place::X, Place::C)),
        Pattern::Binary(o, FlagPlace::F, TypePlace::T, Place::Z, Place::D),
        Pattern::Binary(o, FlagPlace::Free, TypePlace::T, Place::X, Place::E),
        condition,
    )
}

pub(crate) fn comm(o: BinOp) -> Form
    ensures { result ≡ row.comm o }
{
    form(
        None,
        Pattern::Binary(o, FlagPlace::F, TypePlace::T, Place::X, Place::Y),
        Pattern::Binary(o, FlagPlace::F, TypePlace::T, Place::Y, Place::X),
        Condition::Always,
    )
}

pub(crate) fn mul_pow() -> Form
    ensures { result ≡ row.mul_pow }
{
    form(
        None,
        Pattern::Binary(BinOp::Mul, FlagPlace::F, TypePlace::T, Place::X, Place::C),
        Pattern::Binary(BinOp::Shl, FlagPlace::H, TypePlace::T, Place::X, Place::E),
        Condition::Factor,
    )
}

pub(crate) fn neg_neg() -> Form
    ensures { result ≡ row.neg_neg }
{
    form(
        Some(Pattern::Binary(
            BinOp::Sub,
            FlagPlace::G,
            TypePlace::T,
            Place::Zero,
            Place::X,
        )),
        Pattern::Binary(
            BinOp::Sub,
            FlagPlace::F,
            TypePlace::T,
            Place::Zero,
            Place::Z,
        ),
        Pattern::Plain(TypePlace::T, Place::X),
        Condition::Always,
    )
}

pub(crate) fn one_right(o: BinOp) -> Form
    ensures { result ≡ row.one_right o }
{
    form(
        None,
        Pattern::Binary(o, FlagPlace::F, TypePlace::T, Place::X, Place::One),
        Pattern::Plain(TypePlace::T, Place::X),
        Condition::Always,
    )
}

pub(crate) fn ones_right() -> Form
    ensures { result ≡ row.ones_right }
{
    form(
        None,
        Pattern::Binary(
            BinOp::And,
            FlagPlace::F,
            TypePlace::T,
            Place::X,
            Place::Ones,
        ),
        Pattern::Plain(TypePlace::T, Place::X),
        Condition::Always,
    )
}

pub(crate) fn or_and() -> Form
    ensures { result ≡ row.or_and }
{
    form(
        Some(Pattern::Binary(BinOp::And, FlagPlace::G, TypePlace::T, Place::X, Place::Y)),
        Pattern::Binary(BinOp::Or, FlagPlace::F, TypePlace::T, Place::Z, Place::X),
        Pattern::Plain(TypePlace::T, Place::X),
        Condition::Always,
    )
}

pub(crate) fn or_ones() -> Form
    ensures { result ≡ row.or_ones }
{
    form(
        None,
        Pattern::Binary(BinOp::Or, FlagPlace::F, TypePlace::T, Place::X, Place::Ones),
        Pattern::Plain(TypePlace::T, Place::Ones),
        Condition::Always,
    )
}

pub(crate) fn rem_one(o: BinOp) -> Form
    ensures { result ≡ row.rem_one o }
{
    form(
        None,
        Pattern::Binary(o, FlagPlace::F, TypePlace::T, Place::X, Place::One),
        Pattern::Plain(TypePlace::T, Place::Zero),
        Condition::Always,
    )
}

pub(crate) fn self_same(o: BinOp) -> Form
    ensures { result ≡ row.self_same o }
{
    form(
        None,
        Pattern::Binary(o, FlagPlace::F, TypePlace::T, Place::X, Place::X),
        Pattern::Plain(TypePlace::T, Place::X),
        Condition::Always,
    )
}

pub(crate) fn self_zero(o: BinOp) -> Form
    ensures { result ≡ row.self_zero o }
{
    form(
        None,
        Pattern::Binary(o, FlagPlace::F, TypePlace::T, Place::X, Place::X),
        Pattern::Plain(TypePlace::T, Place::Zero),
        Condition::Always,
    )
}

pub(crate) fn shift_shift(o: BinOp) -> Form
    ensures { result ≡ row.shift_shift o }
{
    form(
        Some(Pattern::Binary(o, FlagPlace::G, TypePlace::T, Place::X, Place::C)),
        Pattern::Binary(o, FlagPlace::F, TypePlace::T, Place::Z, Place::D),
        Pattern::Binary(o, FlagPlace::Free, TypePlace::T, Place::X, Place::E),
        Condition::Places,
    )
}

pub(crate) fn sub_add() -> Form
    ensures { result ≡ row.sub_add }
{
    form(
        Some(Pattern::Binary(BinOp::Add, FlagPlace::G, TypePlace::T, Place::X, Place::Y)),
        Pattern::Binary(BinOp::Sub, FlagPlace::F, TypePlace::T, Place::Z, Place::Y),
        Pattern::Plain(TypePlace::T, Place::X),
        Condition::Always,
    )
}

pub(crate) fn sub_ones() -> Form
    ensures { result ≡ row.sub_ones }
{
    form(
        None,
        Pattern::Binary(
            BinOp::Sub,
            FlagPlace::F,
            TypePlace::T,
            Place::Ones,
            Place::X,
        ),
        Pattern::Binary(
            BinOp::Xor,
            FlagPlace::Free,
            TypePlace::T,
            Place::X,
            Place::Ones,
        ),
        Condition::Always,
    )
}

pub(crate) fn sub_to_add() -> Form
    ensures { result ≡ row.sub_to_add }
{
    form(
        None,
        Pattern::Binary(BinOp::Sub, FlagPlace::F, TypePlace::T, Place::X, Place::C),
        Pattern::Binary(
            BinOp::Add,
            FlagPlace::Free,
            TypePlace::T,
            Place::X,
            Place::E,
        ),
        Condition::Negated,
    )
}

pub(crate) fn udiv_pow() -> Form
    ensures { result ≡ row.udiv_pow }
{
    form(
        None,
        Pattern::Binary(BinOp::UDiv, FlagPlace::F, TypePlace::T, Place::X, Place::C),
        Pattern::Binary(BinOp::LShr, FlagPlace::H, TypePlace::T, Place::X, Place::E),
        Condition::Divisor,
    )
}

pub(crate) fn urem_pow() -> Form
    ensures { result ≡ row.urem_pow }
{
    form(
        None,
        Pattern::Binary(BinOp::URem, FlagPlace::F, TypePlace::T, Place::X, Place::C),
        Pattern::Binary(
            BinOp::And,
            FlagPlace::Free,
            TypePlace::T,
            Place::X,
            Place::E,
        ),
        Condition::Mask,
    )
}

pub(crate) fn zero_absorb(o: BinOp) -> Form
    ensures { result ≡ row.zero_absorb o }
{
    form(
        None,
        Pattern::Binary(o, FlagPlace::F, TypePlace::T, Place::X, Place::Zero),
        Pattern::Plain(TypePlace::T, Place::Zero),
        Condition::Always,
    )
}

pub(crate) fn zero_right(o: BinOp) -> Form
    ensures { result ≡ row.zero_right o }
{
    form(
        None,
        Pattern::Binary(o, FlagPlace::F, TypePlace::T, Place::X, Place::Zero),
        Pattern::Plain(TypePlace::T, Place::X),
        Condition::Always,
    )
}

pub(crate) fn zero_shift(o: BinOp) -> Form
    ensures { result ≡ row.zero_shift o }
{
    form(
        None,
        Pattern::Binary(o, FlagPlace::F, TypePlace::T, Place::Zero, Place::X),
        Pattern::Plain(TypePlace::T, Place::Zero),
        Condition::Always,
    )
}
