ghost use Rattle.std.specs.Prelude.{◌≡◌, true, map, Contains};
ghost use Rattle.std.specs.List.{list_any};
ghost use Rattle.rule_forms.specs.declared.forms.Form.{Form};
ghost use Rattle.form_matching.specs.Instances as meaning;
ghost use Rattle.rule_base.specs.Rows.{stand_apart};
ghost use Rattle.rules_arith.specs.Rules.{forms_of, in_order, rule_name};
ghost use Rattle.rules_arith.specs.declared.rules.ArithRule.{ArithRule};
ghost use Rattle.rules_arith.specs.declared.rules.ArithRule.TheVariants as variant;

use crate::table::{
    add_const, add_self, add_sub, and_or, bit_bit, comm, mul_pow, neg_neg, one_right, ones_right,
    or_and, or_ones, rem_one, self_same, self_zero, shift_shift, sub_add, sub_ones, sub_to_add,
    udiv_pow, urem_pow, zero_absorb, zero_right, zero_shift,
};
use erhl_assert::{Fact, Schema};
use form_matching::fits_any;
use ir_core::{BinOp, Module};
use rule_base::InferRule;
use rule_forms::Condition;

/// The rules of arithmetic, in the order of the table.
#[derive(Drop, Clone, Copy)]
pub enum ArithRule {
    /// `op F x y >= op F y x`, for add, mul, and, or and xor.
    Comm,
    /// `op F x 0 >= x`, for add, sub, or, xor, shl, lshr and ashr.
    ZeroRight,
    /// `op F x 1 >= x`, for mul, udiv and sdiv.
    OneRight,
    /// `op x 1 >= 0`, for urem and srem.
    RemOne,
    /// `op F x x >= 0`, for sub and xor.
    SelfZero,
    /// `op x x >= x`, for and and or.
    SelfSame,
    /// `op F x 0 >= 0`, for mul and and.
    ZeroAbsorb,
    /// `and x -1 >= x`.
    OnesRight,
    /// `or x -1 >= -1`.
    OrOnes,
    /// `op F 0 x >= 0`, for shl, lshr and ashr.
    ZeroShift,
    /// `sub F x C >= add x -C`, C not 0.
    SubToAdd,
    /// `z >= sub G 0 x` to `sub F 0 z >= x`.
    NegNeg,
    /// `z >= add G x C` to `add F z D >= add x (C + D)`.
    AddConst,
    /// `z >= add G x y` to `sub F z y >= x`.
    SubAdd,
    /// `z >= sub G x y` to `add F z y >= x`.
    AddSub,
    /// `mul F x 2^k >= shl H x k`, the flags H among F, and without nsw where k is the width less 1.
    MulPow,
    /// `udiv F x 2^k >= lshr H x k`, the flags H among F.
    UdivPow,
    /// `urem x 2^k >= and x (2^k - 1)`.
    UremPow,
    /// `z >= op G x j` to `op F z k >= op x (j + k)`, for shl, lshr and ashr, j + k below the width.
    ShiftShift,
    /// `z >= op x C` to `op z D >= op x (C op D)`, for and, or and xor.
    BitBit,
    /// `sub F -1 x >= xor x -1`.
    SubOnes,
    /// `z >= or x y` to `and z x >= x`.
    AndOr,
    /// `z >= and x y` to `or z x >= x`.
    OrAnd,
    /// `add F x x >= shl H x 1`, the flags H among F, of two bits or more.
    AddSelf,
}

impl ArithRule {
    pub const ALL: [ArithRule; 24] = [
        ArithRule::Comm,
        ArithRule::ZeroRight,
        ArithRule::OneRight,
        ArithRule::RemOne,
        ArithRule::SelfZero,
        ArithRule::SelfSame,
        ArithRule::ZeroAbsorb,
        ArithRule::OnesRight,
        ArithRule::OrOnes,
        ArithRule::ZeroShift,
        ArithRule::SubToAdd,
        ArithRule::NegNeg,
        ArithRule::AddConst,
        ArithRule::SubAdd,
        ArithRule::AddSub,
        ArithRule::MulPow,
        ArithRule::UdivPow,
        ArithRule::UremPow,
        ArithRule::ShiftShift,
        ArithRule::BitBit,
        ArithRule::SubOnes,
        ArithRule::AndOr,
        ArithRule::OrAnd,
        ArithRule::AddSelf,
    ];
}

/// Whether `comm` takes the schema.
fn takes_comm(from: &[Fact], to: &Fact) -> bool
    ensures { result ≡ list_any (λ (form : Form). meaning.fits form from.now to.now) (forms_of variant.Comm) }
{
    fits_any(
        &[
            comm(BinOp::Add),
            comm(BinOp::Mul),
            comm(BinOp::And),
            comm(BinOp::Or),
            comm(BinOp::Xor),
        ],
        from,
        to,
    )
}

/// Whether `zero_right` takes the schema.
fn takes_zero_right(from: &[Fact], to: &Fact) -> bool
    ensures { result ≡ list_any (λ (form : Form). meaning.fits form from.now to.now) (forms_of variant.ZeroRight) }
{
    fits_any(
        &[
            zero_right(BinOp::Add),
            zero_right(BinOp::Sub),
            zero_right(BinOp::Or),
            zero_right(BinOp::Xor),
            zero_right(BinOp::Shl),
            zero_right(BinOp::LShr),
            zero_right(BinOp::AShr),
        ],
        from,
        to,
    )
}

/// Whether `one_right` takes the schema.
fn takes_one_right(from: &[Fact], to: &Fact) -> bool
    ensures { result ≡ list_any (λ (form : Form). meaning.fits form from.now to.now) (forms_of variant.OneRight) }
{
    fits_any(
        &[
            one_right(BinOp::Mul),
            one_right(BinOp::UDiv),
            one_right(BinOp::SDiv),
        ],
        from,
        to,
    )
}

/// Whether `zero_absorb` takes the schema.
fn takes_zero_absorb(from: &[Fact], to: &Fact) -> bool
    ensures { result ≡ list_any (λ (form : Form). meaning.fits form from.now to.now) (forms_of variant.ZeroAbsorb) }
{
    fits_any(
        &[zero_absorb(BinOp::Mul), zero_absorb(BinOp::And)],
        from,
        to,
    )
}

/// Whether `zero_shift` takes the schema.
fn takes_zero_shift(from: &[Fact], to: &Fact) -> bool
    ensures { result ≡ list_any (λ (form : Form). meaning.fits form from.now to.now) (forms_of variant.ZeroShift) }
{
    fits_any(
        &[
            zero_shift(BinOp::Shl),
            zero_shift(BinOp::LShr),
            zero_shift(BinOp::AShr),
        ],
        from,
        to,
    )
}

/// Whether `shift_shift` takes the schema.
fn takes_shift_shift(from: &[Fact], to: &Fact) -> bool
    ensures { result ≡ list_any (λ (form : Form). meaning.fits form from.now to.now) (forms_of variant.ShiftShift) }
{
    fits_any(
        &[
            shift_shift(BinOp::Shl),
            shift_shift(BinOp::LShr),
            shift_shift(BinOp::AShr),
        ],
        from,
        to,
    )
}

/// Whether `bit_bit` takes the schema.
fn takes_bit_bit(from: &[Fact], to: &Fact) -> bool
    ensures { result ≡ list_any (λ (form : Form). meaning.fits form from.now to.now) (forms_of variant.BitBit) }
{
    fits_any(
        &[
            bit_bit(BinOp::And, Condition::And),
            bit_bit(BinOp::Or, Condition::Or),
            bit_bit(BinOp::Xor, Condition::Xor),
        ],
        from,
        to,
    )
}

/// Whether the rule takes the schema.
fn takes(rule: ArithRule, from: &[Fact], to: &Fact) -> bool
    ensures { result ≡ list_any (λ (form : Form). meaning.fits form from.now to.now) (forms_of rule) }
{
    match rule {
        ArithRule::Comm => takes_comm(from, to),
        ArithRule::ZeroRight => takes_zero_right(from, to),
        ArithRule::OneRight => takes_one_right(from, to),
        ArithRule::RemOne => fits_any(&[rem_one(BinOp::URem), rem_one(BinOp::SRem)], from, to),
        ArithRule::SelfZero => fits_any(&[self_zero(BinOp::Sub), self_zero(BinOp::Xor)], from, to),
        ArithRule::SelfSame => fits_any(&[self_same(BinOp::And), self_same(BinOp::Or)], from, to),
        ArithRule::ZeroAbsorb => takes_zero_absorb(from, to),
        ArithRule::OnesRight => fits_any(&[ones_right()], from, to),
        ArithRule::OrOnes => fits_any(&[or_ones()], from, to),
        ArithRule::ZeroShift => takes_zero_shift(from, to),
        ArithRule::SubToAdd => fits_any(&[sub_to_add()], from, to),
        ArithRule::NegNeg => fits_any(&[neg_neg()], from, to),
        ArithRule::AddConst => fits_any(&[add_const()], from, to),
        ArithRule::SubAdd => fits_any(&[sub_add()], from, to),
        ArithRule::AddSub => fits_any(&[add_sub()], from, to),
        ArithRule::MulPow => fits_any(&[mul_pow()], from, to),
        ArithRule::UdivPow => fits_any(&[udiv_pow()], from, to),
        ArithRule::UremPow => fits_any(&[urem_pow()], from, to),
        ArithRule::ShiftShift => takes_shift_shift(from, to),
        ArithRule::BitBit => takes_bit_bit(from, to),
        ArithRule::SubOnes => fits_any(&[sub_ones()], from, to),
        ArithRule::AndOr => fits_any(&[and_or()], from, to),
        ArithRule::OrAnd => fits_any(&[or_and()], from, to),
        ArithRule::AddSelf => fits_any(&[add_self()], from, to),
    }
}

impl InferRule for ArithRule {
    ghost use Rattle.rules_arith.specs.Rules.{rule_name, takes_row};
    ghost use Rattle.rules_arith.specs.RuleLaws.{rule_is_sound};

    ghost called = { rule_name };

    ghost takes = { takes_row };

    ghost sound = { rule_is_sound };

    fn name(&self) -> &str {
        match self {
            ArithRule::Comm => "comm",
            ArithRule::ZeroRight => "zero_right",
            ArithRule::OneRight => "one_right",
            ArithRule::RemOne => "rem_one",
            ArithRule::SelfZero => "self_zero",
            ArithRule::SelfSame => "self_same",
            ArithRule::ZeroAbsorb => "zero_absorb",
            ArithRule::OnesRight => "ones_right",
            ArithRule::OrOnes => "or_ones",
            ArithRule::ZeroShift => "zero_shift",
            ArithRule::SubToAdd => "sub_to_add",
            ArithRule::NegNeg => "neg_neg",
            ArithRule::AddConst => "add_const",
            ArithRule::SubAdd => "sub_add",
            ArithRule::AddSub => "add_sub",
            ArithRule::MulPow => "mul_pow",
            ArithRule::UdivPow => "udiv_pow",
            ArithRule::UremPow => "urem_pow",
            ArithRule::ShiftShift => "shift_shift",
            ArithRule::BitBit => "bit_bit",
            ArithRule::SubOnes => "sub_ones",
            ArithRule::AndOr => "and_or",
            ArithRule::OrAnd => "or_and",
            ArithRule::AddSelf => "add_self",
        }
    }

    fn fits(&self, _module: &Module, schema: &Schema) -> bool {
        takes(*self, schema.from.as_slice(), &schema.to)
    }
}

/// Empty on purpose: its contract is the law.
///
/// The table: each rule stands there once, in this order, and no two of them have one name.
pub fn rules_stand_in_the_table()
    ensures table { ArithRule.ALL ≡ in_order }
    ensures whole { (rule : ArithRule) → Contains ArithRule.ALL rule }
    ensures named_apart { stand_apart (map rule_name ArithRule.ALL) ≡ true }
{}
