//! Whether an aligned line is allowed.
ghost use Rattle.std.specs.Prelude.{◌≡◌, ◌-◌, ◌^◌, ◌&&◌, not, nat_eq, cond, Some, None, IfOk};
ghost use Rattle.std.specs.Option.{option_copied};
ghost use Rattle.ir_core.specs.declared.expressions.Expr.TheVariants as expr;
ghost use Rattle.ir_core.specs.Types.{fits};
ghost use Rattle.ir_core.specs.Expressions.{operands_in};
ghost use Rattle.ir_values.specs.Results.{is_division, is_signed_division};
ghost use Rattle.erhl_assert.specs.declared.verdict.Reason.TheVariants.{Unmatched, TargetMayTrap};
ghost use Rattle.erhl_assert.specs.Allowed.{divides_all, can_trap, same_operator, may_trap, first_unmatched, right_fault, line_fault_of};

use crate::allowed_lines::accesses::{is_known_to_load, keeps_alignment};
use crate::allowed_lines::agreement::{are_one_load, are_one_operator};
use crate::allowed_lines::atoms_matched;
use crate::allowed_lines::memory::{
    same_slot, slot_fault, source_store_fault, store_fault, target_store_fault,
};
use contents::Exact;
use erhl_assert::{FactSet, Reason};
use fact_sets::Sides;
use ir_core::{Atom, BinOp, Binary, Const, Expr, Instr, Load, Name, Operand, Ty, fits};
use ir_types::NamedTypes;
use std::alloc::{AllocError, Global};

fn is_division(op: BinOp) -> bool
    ensures { result ≡ is_division op }
{
    matches!(op, BinOp::UDiv | BinOp::SDiv | BinOp::URem | BinOp::SRem)
}

fn is_signed_division(op: BinOp) -> bool
    ensures { result ≡ is_signed_division op }
{
    matches!(op, BinOp::SDiv | BinOp::SRem)
}

/// Whether the number is the greatest of that width, which is -1 in two's complement.
#[tactic(auto, using(crate::proofs::AllowedLines::Divisors::wide_is_greater, crate::proofs::AllowedLines::Divisors::power_fits))]
fn is_minus_one(number: u64, width: u32) -> bool
    ensures { result ≡ nat_eq number (2 ^ width - 1) }
{
    width <= 64 && u128::from(number) == (1 << width) - 1
}

/// Whether the number divides whatever is divided.
fn number_divides_all(op: BinOp, width: u32, number: u64) -> bool
    ensures { result
        ≡ (fits number width && not (nat_eq number 0) && not (is_signed_division op && nat_eq number (2 ^ width - 1))) }
{
    fits(number, width) && number != 0 && !(is_signed_division(op) && is_minus_one(number, width))
}

fn divides_all<R>(op: BinOp, ty: &Ty, divisor: &Atom<R>) -> bool
    ensures { result ≡ divides_all op ty.now divisor.now }
{
    match (ty, divisor) {
        (Ty::Int(width), Atom::Constant(Const::Number(number))) => number_divides_all(
            op,
            *width,
            number.get(),
        ),
        _ => false,
    }
}

fn division_can_trap<R>(binary: &Binary<R>) -> bool
    ensures { result ≡ can_trap (expr.Binary binary.now) }
{
    is_division(binary.op) && !divides_all(binary.op, &binary.ty, &binary.right)
}

/// Whether the expression may have undefined behaviour.
pub fn can_trap<R>(expr: &Expr<R>) -> bool
    ensures { result ≡ can_trap expr.now }
{
    match expr {
        Expr::Binary(binary) => division_can_trap(binary),
        Expr::Load(_) => true,
        _ => false,
    }
}

fn load_alone_fault<S: FactSet>(
    alloc: Global,
    types: &NamedTypes,
    known: &Sides<S>,
    load: &Load<Name>,
) -> Result<Option<Reason>, AllocError>
    ensures { IfOk result
        (λ reason. reason ≡ cond (may_trap types.now known.now (expr.Load load.now)) (Some TargetMayTrap) None) }
{
    if is_known_to_load(alloc, types, known, load)? {
        Ok(None)
    } else {
        Ok(Some(Reason::TargetMayTrap))
    }
}

/// Of a target's line, beside which stands none of its operator.
#[tactic(auto, using(crate::proofs::AllowedLines::Trapping::binary_alone))]
fn alone_fault<S: FactSet>(
    alloc: Global,
    types: &NamedTypes,
    known: &Sides<S>,
    right: &Expr<Name>,
) -> Result<Option<Reason>, AllocError>
    ensures { IfOk result
        (λ reason. reason ≡ cond (may_trap types.now known.now right.now) (Some TargetMayTrap) None) }
{
    match right {
        Expr::Binary(binary) => {
            if division_can_trap(binary) {
                Ok(Some(Reason::TargetMayTrap))
            } else {
                Ok(None)
            }
        }
        Expr::Load(load) => load_alone_fault(alloc, types, known, load),
        _ => Ok(None),
    }
}

fn unmatched(
    alloc: Global,
    s: &Ty,
    a: &Atom<Name>,
    t: &Ty,
    b: &Atom<Name>,
) -> Result<Reason, AllocError>
    ensures { IfOk result
        (λ reason. reason ≡ Unmatched (record { ty = s.now; atom = a.now }) (record { ty = t.now; atom = b.now })) }
{
    let source = Operand {
        ty: s.copy(alloc)?,
        atom: a.copy(alloc)?,
    };
    let target = Operand {
        ty: t.copy(alloc)?,
        atom: b.copy(alloc)?,
    };
    Ok(Reason::Unmatched(source, target))
}

fn first_unmatched<S: FactSet>(
    alloc: Global,
    known: &Sides<S>,
    s: &Binary<Name>,
    t: &Binary<Name>,
) -> Result<Option<Reason>, AllocError>
    ensures { IfOk result
        (λ reason. reason ≡ first_unmatched known.now (operands_in (expr.Binary s.now)) (operands_in (expr.Binary t.now))) }
{
    if !atoms_matched(&s.ty, &s.left, &t.ty, &t.left, known) {
        return Ok(Some(unmatched(alloc, &s.ty, &s.left, &t.ty, &t.left)?));
    }
    if !atoms_matched(&s.ty, &s.right, &t.ty, &t.right, known) {
        return Ok(Some(unmatched(alloc, &s.ty, &s.right, &t.ty, &t.right)?));
    }
    Ok(None)
}

fn binary_fault<S: FactSet>(
    alloc: Global,
    known: &Sides<S>,
    s: &Binary<Name>,
    t: &Binary<Name>,
) -> Result<Option<Reason>, AllocError>
    ensures { IfOk result
        (λ reason. reason
        ≡ cond (can_trap (expr.Binary t.now))
        (cond (same_operator (expr.Binary s.now) (expr.Binary t.now))
        (first_unmatched known.now (operands_in (expr.Binary s.now)) (operands_in (expr.Binary t.now))) (Some TargetMayTrap)) None) }
{
    if !division_can_trap(t) {
        return Ok(None);
    }
    if are_one_operator(s, t) {
        first_unmatched(alloc, known, s, t)
    } else {
        Ok(Some(Reason::TargetMayTrap))
    }
}

/// The addresses, if they aren't matched.
fn unmatched_addresses<S: FactSet>(
    alloc: Global,
    known: &Sides<S>,
    s: &Load<Name>,
    t: &Load<Name>,
) -> Result<Option<Reason>, AllocError>
    ensures { IfOk result
        (λ reason. reason ≡ first_unmatched known.now (operands_in (expr.Load s.now)) (operands_in (expr.Load t.now))) }
{
    let (a, b) = (&s.pointer, &t.pointer);
    if atoms_matched(&a.ty, &a.atom, &b.ty, &b.atom, known) {
        Ok(None)
    } else {
        Ok(Some(unmatched(alloc, &a.ty, &a.atom, &b.ty, &b.atom)?))
    }
}

fn load_fault<S: FactSet>(
    alloc: Global,
    types: &NamedTypes,
    known: &Sides<S>,
    s: &Load<Name>,
    t: &Load<Name>,
) -> Result<Option<Reason>, AllocError>
    ensures { IfOk result (λ reason. reason ≡ right_fault types.now known.now (expr.Load s.now) (expr.Load t.now)) }
{
    if is_known_to_load(alloc, types, known, t)? {
        return Ok(None);
    }
    if are_one_load(s, t) && keeps_alignment(types, s, t) {
        unmatched_addresses(alloc, known, s, t)
    } else {
        Ok(Some(Reason::TargetMayTrap))
    }
}

fn right_fault<S: FactSet>(
    alloc: Global,
    types: &NamedTypes,
    known: &Sides<S>,
    s: &Expr<Name>,
    t: &Expr<Name>,
) -> Result<Option<Reason>, AllocError>
    ensures { IfOk result (λ reason. reason ≡ right_fault types.now known.now s.now t.now) }
{
    match (s, t) {
        (Expr::Binary(a), Expr::Binary(b)) => binary_fault(alloc, known, a, b),
        (Expr::Load(a), Expr::Load(b)) => load_fault(alloc, types, known, a, b),
        _ => alone_fault(alloc, types, known, t),
    }
}

/// Why the aligned line isn't allowed, beside the types of its modules, if it isn't.
pub fn line_fault<S: FactSet>(
    alloc: Global,
    types: &NamedTypes,
    known: &Sides<S>,
    source: Option<&Instr>,
    target: Option<&Instr>,
) -> Result<Option<Reason>, AllocError>
    ensures { IfOk result
        (λ reason. reason ≡ line_fault_of types.now known.now (option_copied source.entry) (option_copied target.entry)) }
{
    match (source, target) {
        (None, None) => Ok(None),
        (Some(Instr::Calm(_)), None) => Ok(None),
        (None, Some(Instr::Calm(t))) => alone_fault(alloc, types, known, &t.right),
        (Some(Instr::Calm(s)), Some(Instr::Calm(t))) => {
            right_fault(alloc, types, known, &s.right, &t.right)
        }
        (Some(Instr::Alloca(s)), None) => Ok(slot_fault(s, true)),
        (None, Some(Instr::Alloca(_))) => Ok(None),
        (Some(Instr::Alloca(s)), Some(Instr::Alloca(t))) => {
            Ok(slot_fault(s, same_slot(types, s, t)))
        }
        (Some(Instr::Store(s)), None) => source_store_fault(alloc, known, s),
        (None, Some(Instr::Store(t))) => target_store_fault(alloc, types, known, t),
        (Some(Instr::Store(s)), Some(Instr::Store(t))) => store_fault(alloc, types, known, s, t),
        _ => Ok(Some(Reason::KindsDiffer)),
    }
}
