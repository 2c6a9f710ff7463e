//! Which expressions have a type over integers, and which of their constants fit.
ghost use Rattle.std.specs.Prelude.{◌≡◌};
ghost use Rattle.std.specs.List.{list_all};
ghost use Rattle.ir_core.specs.declared.expressions.Reg.{Reg};
ghost use Rattle.ir_core.specs.declared.operands.Operand.{Operand};
ghost use Rattle.ir_core.specs.Ranges.{may_wrap, may_leave, may_have};
ghost use Rattle.ir_machine.specs.Registers.{selects};
ghost use Rattle.form_matching.specs.Typed.{has_values, has_type, constant_fits, atom_fits, fits_constants, is_typed, have_one_type};

use ir_core::{
    Atom, BinOp, BitType, Const, Expr, Expr0, Flags, Operand, Reg, Ty, converts, fits, is_width,
    same_ty,
};

fn has_values(ty: &Ty) -> bool
    ensures { result ≡ has_values ty.now }
{
    match ty {
        Ty::Int(width) => is_width(*width),
        _ => false,
    }
}

/// Whether `nuw` and `nsw` may stand on the operator.
fn may_wrap(op: BinOp) -> bool
    ensures { result ≡ may_wrap op }
{
    matches!(op, BinOp::Add | BinOp::Sub | BinOp::Mul | BinOp::Shl)
}

/// Whether `exact` may stand on the operator.
fn may_leave(op: BinOp) -> bool
    ensures { result ≡ may_leave op }
{
    matches!(op, BinOp::UDiv | BinOp::SDiv | BinOp::LShr | BinOp::AShr)
}

fn may_have(op: BinOp, flags: Flags) -> bool
    ensures { result ≡ may_have op flags }
{
    (!flags.nuw || may_wrap(op)) && (!flags.nsw || may_wrap(op)) && (!flags.exact || may_leave(op))
}

/// Whether a selection by a condition of the one type may have arms of the others.
fn selects(condition: &Ty, left: &Ty, right: &Ty) -> bool
    ensures { result ≡ selects condition.now left.now right.now }
{
    same_ty(condition, &Ty::Int(1)) && same_ty(left, right)
}

/// Whether the expression has a type.
fn has_type(expr: &Expr0) -> bool
    ensures { result ≡ has_type expr.now }
{
    match expr {
        Expr::Plain(operand) => has_values(&operand.ty),
        Expr::Binary(binary) => has_values(&binary.ty) && may_have(binary.op, binary.flags),
        Expr::Icmp(icmp) => has_values(&icmp.ty),
        Expr::Cast(cast) => {
            has_values(&cast.operand.ty)
                && has_values(&cast.to)
                && converts(cast.op, &cast.operand.ty, &cast.to)
        }
        Expr::Select(select) => {
            let select = select.get();
            has_values(&select.left.ty)
                && selects(&select.condition.ty, &select.left.ty, &select.right.ty)
        }
        Expr::Element(_) | Expr::Load(_) => false,
    }
}

fn constant_fits(ty: &Ty, constant: &Const) -> bool
    ensures { result ≡ constant_fits ty.now constant.now }
{
    match (ty, constant) {
        (Ty::Int(width), Const::Number(number)) => fits(number.get(), *width),
        (Ty::Int(_), Const::Undef) => true,
        _ => false,
    }
}

fn atom_fits(ty: &Ty, atom: &Atom<Reg>) -> bool
    ensures { result ≡ atom_fits ty.now atom.now }
{
    match atom {
        Atom::Constant(constant) => constant_fits(ty, constant),
        Atom::Register(_) => true,
    }
}

fn atoms_fit(operands: &[Operand<Reg>]) -> bool
    ensures { result ≡ list_all (λ (o : Operand Reg). atom_fits o.ty o.atom) operands.now }
{
    operands
        .iter()
        .all(|operand| atom_fits(&operand.ty, &operand.atom))
}

fn fits_constants(expr: &Expr0) -> bool
    ensures { result ≡ fits_constants expr.now }
{
    match expr {
        Expr::Plain(operand) => atom_fits(&operand.ty, &operand.atom),
        Expr::Binary(binary) => {
            atom_fits(&binary.ty, &binary.left) && atom_fits(&binary.ty, &binary.right)
        }
        Expr::Icmp(icmp) => atom_fits(&icmp.ty, &icmp.left) && atom_fits(&icmp.ty, &icmp.right),
        Expr::Cast(cast) => atom_fits(&cast.operand.ty, &cast.operand.atom),
        Expr::Select(select) => {
            let select = select.get();
            atom_fits(&select.condition.ty, &select.condition.atom)
                && atom_fits(&select.left.ty, &select.left.atom)
                && atom_fits(&select.right.ty, &select.right.atom)
        }
        Expr::Element(element) => {
            let element = element.get();
            atom_fits(&element.base.ty, &element.base.atom) && atoms_fit(element.indices.as_slice())
        }
        Expr::Load(load) => atom_fits(&load.pointer.ty, &load.pointer.atom),
    }
}

fn is_typed(expr: &Expr0) -> bool
    ensures { result ≡ is_typed expr.now }
{
    has_type(expr) && fits_constants(expr)
}

/// Whether both have a type over integers, with constants that fit, and it is one type.
pub(crate) fn have_one_type(a: &Expr0, b: &Expr0) -> bool
    ensures { result ≡ have_one_type a.now b.now }
{
    let bit = BitType::new();
    is_typed(a) && is_typed(b) && same_ty(a.ty(&bit), b.ty(&bit))
}
