//! The rules of what may be accessed, and of loads.
ghost use Rattle.std.specs.Prelude.{◌≡◌};
ghost use Rattle.ir_machine.specs.State.{scope_of};
ghost use Rattle.rules_memory.specs.Rows.{alignment, are_of_one, is_load_align, is_load_ok, is_ok_align, is_ok_cast};

use crate::tests_of_operands::{divides, is_recast};
use erhl_assert::Fact;
use ir_core::{Expr, Load, Module, Reg, same_reg_operand, same_ty};
use ir_machine::align_or;
use rule_base::{have_one_type, is_typed};

pub(crate) fn is_ok_align(module: &Module, from: &[Fact], to: &Fact) -> bool
    ensures { result ≡ is_ok_align (scope_of «module».now) from.now to.now }
{
    let [Fact::Ok(address, t, a)] = from else {
        return false;
    };
    let Expr::Plain(p) = address else {
        return false;
    };
    let Fact::Ok(Expr::Plain(q), u, b) = to else {
        return false;
    };
    is_typed(module, address) && same_reg_operand(p, q) && same_ty(t, u) && divides(*b, *a)
}

pub(crate) fn is_ok_cast(module: &Module, from: &[Fact], to: &Fact) -> bool
    ensures { result ≡ is_ok_cast (scope_of «module».now) from.now to.now }
{
    let [Fact::Ok(address, t, a), Fact::LessDef(left, right)] = from else {
        return false;
    };
    let (Expr::Plain(p), Expr::Cast(cast), Expr::Plain(r)) = (address, left, right) else {
        return false;
    };
    let Fact::Ok(Expr::Plain(s), u, b) = to else {
        return false;
    };
    is_typed(module, address)
        && have_one_type(module, left, right)
        && is_recast(cast.op)
        && same_reg_operand(p, &cast.operand)
        && same_reg_operand(r, s)
        && same_ty(t, u)
        && *a == *b
}

/// The alignment of a load: its type's where none is stated.
fn alignment(module: &Module, load: &Load<Reg>) -> u64
    ensures { result ≡ alignment (scope_of «module».now) load.now }
{
    align_or(&module.types, &load.of, load.align)
}

/// Whether two loads are of one type through one pointer.
fn are_of_one(a: &Load<Reg>, b: &Load<Reg>) -> bool
    ensures { result ≡ are_of_one a.now b.now }
{
    same_ty(&a.of, &b.of) && same_reg_operand(&a.pointer, &b.pointer)
}

pub(crate) fn is_load_align(module: &Module, from: &[Fact], to: &Fact) -> bool
    ensures { result ≡ is_load_align (scope_of «module».now) from.now to.now }
{
    if !from.is_empty() {
        return false;
    }
    let Fact::LessDef(a, b) = to else {
        return false;
    };
    match (a, b) {
        (Expr::Load(l), Expr::Load(m)) => {
            have_one_type(module, a, b)
                && are_of_one(l, m)
                && divides(alignment(module, m), alignment(module, l))
        }
        _ => false,
    }
}

pub(crate) fn is_load_ok(module: &Module, from: &[Fact], to: &Fact) -> bool
    ensures { result ≡ is_load_ok (scope_of «module».now) from.now to.now }
{
    let [Fact::Ok(Expr::Plain(p), t, align)] = from else {
        return false;
    };
    let Fact::LessDef(a, b) = to else {
        return false;
    };
    match (a, b) {
        (Expr::Load(l), Expr::Load(m)) => {
            have_one_type(module, a, b)
                && are_of_one(l, m)
                && same_reg_operand(p, &m.pointer)
                && same_ty(t, &m.of)
                && *align == alignment(module, m)
        }
        _ => false,
    }
}
