//! Exact comparison, said as the tests of `specs/Same.antt`, with which definitions compute.
ghost use Rattle.std.specs.Prelude.{◌≡◌};
ghost use Rattle.ir_core.specs.Same as same;
ghost use Rattle.ir_types.specs.Same.{IsEquality, same_name, same_ty};

use crate::{Atom, BinOp, CastOp, Const, Expr0, Flags, Name, Operand, Pred, Reg};
use contents::Exact;

#[tactic(auto, using(crate::proofs::SameLaws::same_const_true, crate::proofs::SameLaws::same_const_refl))]
pub fn same_const(a: &Const, b: &Const) -> bool
    ensures { result ≡ same.same_const a.now b.now }
{
    a.is(b)
}

#[tactic(auto, using(crate::proofs::SameLaws::same_op_true, crate::proofs::SameLaws::same_op_refl))]
pub fn same_op(a: &BinOp, b: &BinOp) -> bool
    ensures { result ≡ same.same_op a.now b.now }
{
    a.is(b)
}

#[tactic(auto, using(crate::proofs::SameLaws::same_cast_true, crate::proofs::SameLaws::same_cast_refl))]
pub fn same_cast(a: &CastOp, b: &CastOp) -> bool
    ensures { result ≡ same.same_cast a.now b.now }
{
    a.is(b)
}

#[tactic(auto, using(crate::proofs::SameLaws::same_pred_true, crate::proofs::SameLaws::same_pred_refl))]
pub fn same_pred(a: &Pred, b: &Pred) -> bool
    ensures { result ≡ same.same_pred a.now b.now }
{
    a.is(b)
}

#[tactic(auto, using(crate::proofs::SameLaws::same_flags_true, crate::proofs::SameLaws::same_flags_refl))]
pub fn same_flags(a: &Flags, b: &Flags) -> bool
    ensures { result ≡ same.same_flags a.now b.now }
{
    a.is(b)
}

#[tactic(auto, using(crate::proofs::SameLaws::same_reg_true, crate::proofs::SameLaws::same_reg_refl))]
pub fn same_reg(a: &Reg, b: &Reg) -> bool
    ensures { result ≡ same.same_reg a.now b.now }
{
    a.is(b)
}

#[tactic(auto, using(crate::proofs::SameLaws::same_reg_expr_true, crate::proofs::SameLaws::same_reg_expr_refl))]
pub fn same_expr(a: &Expr0, b: &Expr0) -> bool
    ensures { result ≡ same.same_expr same.same_reg a.now b.now }
{
    a.is(b)
}

#[tactic(auto, using(crate::proofs::SameLaws::same_name_atom_true, crate::proofs::SameLaws::same_name_atom_refl))]
pub fn same_name_atom(a: &Atom<Name>, b: &Atom<Name>) -> bool
    ensures { result ≡ same.same_atom same_name a.now b.now }
{
    a.is(b)
}

#[tactic(auto, using(crate::proofs::SameLaws::same_reg_atom_true, crate::proofs::SameLaws::same_reg_atom_refl))]
pub fn same_reg_atom(a: &Atom<Reg>, b: &Atom<Reg>) -> bool
    ensures { result ≡ same.same_atom same.same_reg a.now b.now }
{
    a.is(b)
}

#[tactic(auto, using(crate::proofs::SameLaws::same_name_operand_true, crate::proofs::SameLaws::same_name_operand_refl))]
pub fn same_name_operand(a: &Operand<Name>, b: &Operand<Name>) -> bool
    ensures { result ≡ same.same_operand same_name a.now b.now }
{
    a.is(b)
}

#[tactic(auto, using(crate::proofs::SameLaws::same_reg_operand_true, crate::proofs::SameLaws::same_reg_operand_refl))]
pub fn same_reg_operand(a: &Operand<Reg>, b: &Operand<Reg>) -> bool
    ensures { result ≡ same.same_operand same.same_reg a.now b.now }
{
    a.is(b)
}

/// Empty on purpose: its contract is the law.
///
/// Each of the tests above, and of names and types, is true exactly of equal things.
pub fn tests_are_equality()
    ensures names { IsEquality same_name }
    ensures types { IsEquality same_ty }
    ensures constants { IsEquality same.same_const }
    ensures operators { IsEquality same.same_op }
    ensures conversions { IsEquality same.same_cast }
    ensures predicates { IsEquality same.same_pred }
    ensures flags { IsEquality same.same_flags }
    ensures registers { IsEquality same.same_reg }
    ensures atoms { IsEquality (same.same_atom same_name) }
    ensures operands { IsEquality (same.same_operand same_name) }
    ensures lines { IsEquality (same.same_expr same_name) }
    ensures atoms_in_logic { IsEquality (same.same_atom same.same_reg) }
    ensures operands_in_logic { IsEquality (same.same_operand same.same_reg) }
    ensures expressions { IsEquality (same.same_expr same.same_reg) }
{}
