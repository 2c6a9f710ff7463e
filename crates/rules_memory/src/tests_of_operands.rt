//! What the rows ask of operands, names and alignments.
ghost use Rattle.std.specs.Prelude.{◌≡◌, Some};
ghost use Rattle.ir_core.specs.declared.operands.Operand.{Operand};
ghost use Rattle.ir_core.specs.declared.expressions.Reg.{Reg};
ghost use Rattle.rules_memory.specs.Rows as rows;
ghost use Rattle.rules_memory.specs.Rows.{divides, is_zero, is_name, now_in, global_in};

use ir_core::{Atom, CastOp, Const, Expr, Expr0, Name, Operand, Reg, same_name, same_reg_operand};

/// Whether the first is above 0 and divides the second.
pub(crate) fn divides(b: u64, a: u64) -> bool
    ensures { result ≡ divides b a }
{
    0 < b && a % b == 0
}

pub(crate) fn is_zero(atom: &Atom<Reg>) -> bool
    ensures { result ≡ is_zero atom.now }
{
    match atom {
        Atom::Constant(Const::Number(bits)) => bits.get() == 0,
        Atom::Constant(_) => false,
        Atom::Register(_) => false,
    }
}

/// Whether the atom is that register of now.
pub(crate) fn is_now(name: &Name, atom: &Atom<Reg>) -> bool
    ensures { result ≡ is_name name.now (now_in atom.now) }
{
    match atom {
        Atom::Register(Reg::Now(own)) => same_name(name, own),
        _ => false,
    }
}

/// Whether the atom is another register of now.
pub(crate) fn is_other_now(name: &Name, atom: &Atom<Reg>) -> bool
    ensures { result ≡ rows.are_two (Some name.now) (now_in atom.now) }
{
    match atom {
        Atom::Register(Reg::Now(own)) => !same_name(name, own),
        _ => false,
    }
}

pub(crate) fn is_global(atom: &Atom<Reg>) -> bool
    ensures { result ≡ rows.is_there (global_in atom.now) }
{
    match atom {
        Atom::Constant(Const::Global(_)) => true,
        _ => false,
    }
}

/// Whether the atom is a global of another name.
pub(crate) fn is_other_global(name: &Name, atom: &Atom<Reg>) -> bool
    ensures { result ≡ rows.are_two (Some name.now) (global_in atom.now) }
{
    match atom {
        Atom::Constant(Const::Global(own)) => !same_name(name, own.get()),
        _ => false,
    }
}

/// Whether both are globals, of two names.
pub(crate) fn are_two_globals(a: &Atom<Reg>, b: &Atom<Reg>) -> bool
    ensures { result ≡ rows.are_two (global_in a.now) (global_in b.now) }
{
    match a {
        Atom::Constant(Const::Global(name)) => is_other_global(name.get(), b),
        _ => false,
    }
}

pub(crate) fn is_recast(op: CastOp) -> bool
    ensures { result ≡ rows.is_recast op }
{
    matches!(op, CastOp::BitCast)
}

/// Whether the expression is derived from that operand.
pub(crate) fn is_derived_from(expr: &Expr0, base: &Operand<Reg>) -> bool
    ensures { result ≡ rows.is_derived expr.now (rows.same base.now) }
{
    match expr {
        Expr::Element(element) => same_reg_operand(base, &element.get().base),
        Expr::Cast(cast) => is_recast(cast.op) && same_reg_operand(base, &cast.operand),
        _ => false,
    }
}

/// Whether the expression is derived from that register of now.
pub(crate) fn is_derived_from_now(expr: &Expr0, name: &Name) -> bool
    ensures { result ≡ rows.is_derived expr.now (λ (o : Operand Reg). is_name name.now (now_in o.atom)) }
{
    match expr {
        Expr::Element(element) => is_now(name, &element.get().base.atom),
        Expr::Cast(cast) => is_recast(cast.op) && is_now(name, &cast.operand.atom),
        _ => false,
    }
}
