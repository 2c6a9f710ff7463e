ghost use Rattle.std.specs.Prelude.{◌≡◌, true, map, Contains};
ghost use Rattle.std.specs.List.{list_any};
ghost use Rattle.rule_forms.specs.declared.forms.Form.{Form};
ghost use Rattle.form_matching.specs.Instances as meaning;
ghost use Rattle.rule_base.specs.Rows.{stand_apart};
ghost use Rattle.rules_cast_cmp.specs.Rules.{forms_of, in_order, rule_name};
ghost use Rattle.rules_cast_cmp.specs.declared.rules.CastCmpRule.{CastCmpRule};
ghost use Rattle.rules_cast_cmp.specs.declared.rules.CastCmpRule.TheVariants as variant;

use crate::table::{
    bitcast_same, cast_cast, icmp_diff, icmp_edge, icmp_one, icmp_self, icmp_swap, select_bool,
    select_known, select_not, select_same, trunc_ext,
};
use erhl_assert::{Fact, Schema};
use form_matching::fits_any;
use ir_core::{BinOp, CastOp, Module, Pred};
use rule_base::InferRule;
use rule_forms::Place;

/// The rules of conversions, comparisons and selections, in the order of the table.
#[derive(Drop, Clone, Copy)]
pub enum CastCmpRule {
    /// `z >= zext x` to `zext z >= zext x`.
    ZextZext,
    /// `z >= sext x` to `sext z >= sext x`.
    SextSext,
    /// `z >= trunc x` to `trunc z >= trunc x`.
    TruncTrunc,
    /// `z >= zext x`, or `z >= sext x`, to `trunc z >= x`, back at the type of x.
    TruncExt,
    /// `z >= zext x` to `sext z >= zext x`.
    SextZext,
    /// `icmp p x y >= icmp q y x`, q being p turned round.
    IcmpSwap,
    /// `icmp p x x >= 1`, where p holds of equal numbers, and else `>= 0`.
    IcmpSelf,
    /// `z >= sub G x y`, or `z >= xor x y`, to `icmp p z 0 >= icmp p x y`, for eq and ne.
    IcmpDiff,
    /// `icmp p x n >= 1`, or `>= 0`, where p holds of all numbers, or of none, as n is the least or the greatest.
    IcmpEdge,
    /// `icmp ult x 1 >= icmp eq x 0`, `icmp ugt x 0 >= icmp ne x 0`.
    IcmpOne,
    /// `select 1 x y >= x`, `select 0 x y >= y`.
    SelectKnown,
    /// `select c x x >= x`.
    SelectSame,
    /// `select c 1 0 >= c`, of i1.
    SelectBool,
    /// `select c 0 1 >= xor c 1`, of i1.
    SelectNot,
    /// `bitcast x >= x`, to the type of x.
    BitcastSame,
    /// `z >= bitcast x` to `bitcast z >= bitcast x`.
    BitcastBitcast,
}

impl CastCmpRule {
    pub const ALL: [CastCmpRule; 16] = [
        CastCmpRule::ZextZext,
        CastCmpRule::SextSext,
        CastCmpRule::TruncTrunc,
        CastCmpRule::TruncExt,
        CastCmpRule::SextZext,
        CastCmpRule::IcmpSwap,
        CastCmpRule::IcmpSelf,
        CastCmpRule::IcmpDiff,
        CastCmpRule::IcmpEdge,
        CastCmpRule::IcmpOne,
        CastCmpRule::SelectKnown,
        CastCmpRule::SelectSame,
        CastCmpRule::SelectBool,
        CastCmpRule::SelectNot,
        CastCmpRule::BitcastSame,
        CastCmpRule::BitcastBitcast,
    ];
}

/// Whether `icmp_swap` takes the schema.
fn takes_icmp_swap(from: &[Fact], to: &Fact) -> bool
    ensures { result ≡ list_any (λ (form : Form). meaning.fits form from.now to.now) (forms_of variant.IcmpSwap) }
{
    fits_any(
        &[
            icmp_swap(Pred::Eq, Pred::Eq),
            icmp_swap(Pred::Ne, Pred::Ne),
            icmp_swap(Pred::Ugt, Pred::Ult),
            icmp_swap(Pred::Uge, Pred::Ule),
            icmp_swap(Pred::Ult, Pred::Ugt),
            icmp_swap(Pred::Ule, Pred::Uge),
            icmp_swap(Pred::Sgt, Pred::Slt),
            icmp_swap(Pred::Sge, Pred::Sle),
            icmp_swap(Pred::Slt, Pred::Sgt),
            icmp_swap(Pred::Sle, Pred::Sge),
        ],
        from,
        to,
    )
}

/// Whether `icmp_self` takes the schema.
fn takes_icmp_self(from: &[Fact], to: &Fact) -> bool
    ensures { result ≡ list_any (λ (form : Form). meaning.fits form from.now to.now) (forms_of variant.IcmpSelf) }
{
    fits_any(
        &[
            icmp_self(Pred::Eq, Place::One),
            icmp_self(Pred::Ne, Place::Zero),
            icmp_self(Pred::Ugt, Place::Zero),
            icmp_self(Pred::Uge, Place::One),
            icmp_self(Pred::Ult, Place::Zero),
            icmp_self(Pred::Ule, Place::One),
            icmp_self(Pred::Sgt, Place::Zero),
            icmp_self(Pred::Sge, Place::One),
            icmp_self(Pred::Slt, Place::Zero),
            icmp_self(Pred::Sle, Place::One),
        ],
        from,
        to,
    )
}

/// Whether `icmp_diff` takes the schema.
fn takes_icmp_diff(from: &[Fact], to: &Fact) -> bool
    ensures { result ≡ list_any (λ (form : Form). meaning.fits form from.now to.now) (forms_of variant.IcmpDiff) }
{
    fits_any(
        &[
            icmp_diff(BinOp::Sub, Pred::Eq),
            icmp_diff(BinOp::Sub, Pred::Ne),
            icmp_diff(BinOp::Xor, Pred::Eq),
            icmp_diff(BinOp::Xor, Pred::Ne),
        ],
        from,
        to,
    )
}

/// Whether `icmp_edge` takes the schema.
fn takes_icmp_edge(from: &[Fact], to: &Fact) -> bool
    ensures { result ≡ list_any (λ (form : Form). meaning.fits form from.now to.now) (forms_of variant.IcmpEdge) }
{
    fits_any(
        &[
            icmp_edge(Pred::Ult, Place::Zero, Place::Zero),
            icmp_edge(Pred::Ugt, Place::Ones, Place::Zero),
            icmp_edge(Pred::Slt, Place::Least, Place::Zero),
            icmp_edge(Pred::Sgt, Place::Most, Place::Zero),
            icmp_edge(Pred::Uge, Place::Zero, Place::One),
            icmp_edge(Pred::Ule, Place::Ones, Place::One),
            icmp_edge(Pred::Sge, Place::Least, Place::One),
            icmp_edge(Pred::Sle, Place::Most, Place::One),
        ],
        from,
        to,
    )
}

/// Whether `zext_zext` takes the schema.
fn takes_zext_zext(from: &[Fact], to: &Fact) -> bool
    ensures { result ≡ list_any (λ (form : Form). meaning.fits form from.now to.now) (forms_of variant.ZextZext) }
{
    fits_any(
        &[cast_cast(CastOp::ZExt, CastOp::ZExt, CastOp::ZExt)],
        from,
        to,
    )
}

/// Whether `sext_sext` takes the schema.
fn takes_sext_sext(from: &[Fact], to: &Fact) -> bool
    ensures { result ≡ list_any (λ (form : Form). meaning.fits form from.now to.now) (forms_of variant.SextSext) }
{
    fits_any(
        &[cast_cast(CastOp::SExt, CastOp::SExt, CastOp::SExt)],
        from,
        to,
    )
}

/// Whether `trunc_trunc` takes the schema.
fn takes_trunc_trunc(from: &[Fact], to: &Fact) -> bool
    ensures { result ≡ list_any (λ (form : Form). meaning.fits form from.now to.now) (forms_of variant.TruncTrunc) }
{
    fits_any(
        &[cast_cast(CastOp::Trunc, CastOp::Trunc, CastOp::Trunc)],
        from,
        to,
    )
}

/// Whether `trunc_ext` takes the schema.
fn takes_trunc_ext(from: &[Fact], to: &Fact) -> bool
    ensures { result ≡ list_any (λ (form : Form). meaning.fits form from.now to.now) (forms_of variant.TruncExt) }
{
    fits_any(
        &[trunc_ext(CastOp::ZExt), trunc_ext(CastOp::SExt)],
        from,
        to,
    )
}

/// Whether `sext_zext` takes the schema.
fn takes_sext_zext(from: &[Fact], to: &Fact) -> bool
    ensures { result ≡ list_any (λ (form : Form). meaning.fits form from.now to.now) (forms_of variant.SextZext) }
{
    fits_any(
        &[cast_cast(CastOp::ZExt, CastOp::SExt, CastOp::ZExt)],
        from,
        to,
    )
}

/// Whether `icmp_one` takes the schema.
fn takes_icmp_one(from: &[Fact], to: &Fact) -> bool
    ensures { result ≡ list_any (λ (form : Form). meaning.fits form from.now to.now) (forms_of variant.IcmpOne) }
{
    fits_any(
        &[
            icmp_one(Pred::Ult, Place::One, Pred::Eq),
            icmp_one(Pred::Ugt, Place::Zero, Pred::Ne),
        ],
        from,
        to,
    )
}

/// Whether `select_known` takes the schema.
fn takes_select_known(from: &[Fact], to: &Fact) -> bool
    ensures { result ≡ list_any (λ (form : Form). meaning.fits form from.now to.now) (forms_of variant.SelectKnown) }
{
    fits_any(
        &[
            select_known(Place::One, Place::X),
            select_known(Place::Zero, Place::Y),
        ],
        from,
        to,
    )
}

/// Whether `bitcast_bitcast` takes the schema.
fn takes_bitcast_bitcast(from: &[Fact], to: &Fact) -> bool
    ensures { result ≡ list_any (λ (form : Form). meaning.fits form from.now to.now) (forms_of variant.BitcastBitcast) }
{
    fits_any(
        &[cast_cast(CastOp::BitCast, CastOp::BitCast, CastOp::BitCast)],
        from,
        to,
    )
}

/// Whether the rule takes the schema.
fn takes(rule: CastCmpRule, from: &[Fact], to: &Fact) -> bool
    ensures { result ≡ list_any (λ (form : Form). meaning.fits form from.now to.now) (forms_of rule) }
{
    match rule {
        CastCmpRule::ZextZext => takes_zext_zext(from, to),
        CastCmpRule::SextSext => takes_sext_sext(from, to),
        CastCmpRule::TruncTrunc => takes_trunc_trunc(from, to),
        CastCmpRule::TruncExt => takes_trunc_ext(from, to),
        CastCmpRule::SextZext => takes_sext_zext(from, to),
        CastCmpRule::IcmpSwap => takes_icmp_swap(from, to),
        CastCmpRule::IcmpSelf => takes_icmp_self(from, to),
        CastCmpRule::IcmpDiff => takes_icmp_diff(from, to),
        CastCmpRule::IcmpEdge => takes_icmp_edge(from, to),
        CastCmpRule::IcmpOne => takes_icmp_one(from, to),
        CastCmpRule::SelectKnown => takes_select_known(from, to),
        CastCmpRule::SelectSame => fits_any(&[select_same()], from, to),
        CastCmpRule::SelectBool => fits_any(&[select_bool()], from, to),
        CastCmpRule::SelectNot => fits_any(&[select_not()], from, to),
        CastCmpRule::BitcastSame => fits_any(&[bitcast_same()], from, to),
        CastCmpRule::BitcastBitcast => takes_bitcast_bitcast(from, to),
    }
}

impl InferRule for CastCmpRule {
    ghost use Rattle.rules_cast_cmp.specs.Rules.{rule_name, takes_row};
    ghost use Rattle.rules_cast_cmp.specs.RuleLaws.{rule_is_sound};

    ghost called = { rule_name };

    ghost takes = { takes_row };

    ghost sound = { rule_is_sound };

    fn name(&self) -> &str {
        match self {
            CastCmpRule::ZextZext => "zext_zext",
            CastCmpRule::SextSext => "sext_sext",
            CastCmpRule::TruncTrunc => "trunc_trunc",
            CastCmpRule::TruncExt => "trunc_ext",
            CastCmpRule::SextZext => "sext_zext",
            CastCmpRule::IcmpSwap => "icmp_swap",
            CastCmpRule::IcmpSelf => "icmp_self",
            CastCmpRule::IcmpDiff => "icmp_diff",
            CastCmpRule::IcmpEdge => "icmp_edge",
            CastCmpRule::IcmpOne => "icmp_one",
            CastCmpRule::SelectKnown => "select_known",
            CastCmpRule::SelectSame => "select_same",
            CastCmpRule::SelectBool => "select_bool",
            CastCmpRule::SelectNot => "select_not",
            CastCmpRule::BitcastSame => "bitcast_same",
            CastCmpRule::BitcastBitcast => "bitcast_bitcast",
        }
    }

    fn fits(&self, _module: &Module, schema: &Schema) -> bool {
        takes(*self, schema.from.as_slice(), &schema.to)
    }
}

/// Empty on purpose: its contract is the law.
///
/// The table: each rule stands there once, in this order, and no two of them have one name.
pub fn rules_stand_in_the_table()
    ensures table { CastCmpRule.ALL ≡ in_order }
    ensures whole { (rule : CastCmpRule) → Contains CastCmpRule.ALL rule }
    ensures named_apart { stand_apart (map rule_name CastCmpRule.ALL) ≡ true }
{}
