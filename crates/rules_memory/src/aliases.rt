//! The rules of pointers that aren't into one block, and of private ones.
ghost use Rattle.std.specs.Prelude.{◌≡◌};
ghost use Rattle.ir_machine.specs.State.{scope_of};
ghost use Rattle.rules_memory.specs.Rows.{is_noalias_derived, is_noalias_globals, is_noalias_swap, is_noalias_unique, is_private_derived};

use crate::tests_of_operands::{
    are_two_globals, is_derived_from, is_derived_from_now, is_global, is_now, is_other_now,
};
use erhl_assert::Fact;
use ir_core::{Expr, Module, Reg, is_pointer, same_reg_operand};
use rule_base::{have_one_type, is_typed};

pub(crate) fn is_noalias_unique(module: &Module, from: &[Fact], to: &Fact) -> bool
    ensures { result ≡ is_noalias_unique (scope_of «module».now) from.now to.now }
{
    let [Fact::Unique(Reg::Now(name))] = from else {
        return false;
    };
    let Fact::NoAlias(a, b) = to else {
        return false;
    };
    match (a, b) {
        (Expr::Plain(p), Expr::Plain(q)) => {
            is_typed(module, a)
                && is_typed(module, b)
                && is_now(name, &p.atom)
                && (is_other_now(name, &q.atom) || is_global(&q.atom))
        }
        _ => false,
    }
}

pub(crate) fn is_noalias_swap(module: &Module, from: &[Fact], to: &Fact) -> bool
    ensures { result ≡ is_noalias_swap (scope_of «module».now) from.now to.now }
{
    let [Fact::NoAlias(a, b)] = from else {
        return false;
    };
    let (Expr::Plain(p), Expr::Plain(q)) = (a, b) else {
        return false;
    };
    let Fact::NoAlias(Expr::Plain(r), Expr::Plain(s)) = to else {
        return false;
    };
    is_typed(module, a) && is_typed(module, b) && same_reg_operand(p, s) && same_reg_operand(q, r)
}

pub(crate) fn is_noalias_derived(module: &Module, from: &[Fact], to: &Fact) -> bool
    ensures { result ≡ is_noalias_derived (scope_of «module».now) from.now to.now }
{
    let [Fact::NoAlias(a, b), Fact::LessDef(c, e)] = from else {
        return false;
    };
    let (Expr::Plain(p), Expr::Plain(q), Expr::Plain(r)) = (a, b, c) else {
        return false;
    };
    let Fact::NoAlias(Expr::Plain(s), Expr::Plain(t)) = to else {
        return false;
    };
    is_typed(module, a)
        && is_typed(module, b)
        && have_one_type(module, c, e)
        && is_pointer(&r.ty)
        && is_derived_from(e, p)
        && same_reg_operand(r, s)
        && same_reg_operand(q, t)
}

pub(crate) fn is_noalias_globals(module: &Module, from: &[Fact], to: &Fact) -> bool
    ensures { result ≡ is_noalias_globals (scope_of «module».now) from.now to.now }
{
    if !from.is_empty() {
        return false;
    }
    let Fact::NoAlias(a, b) = to else {
        return false;
    };
    match (a, b) {
        (Expr::Plain(p), Expr::Plain(q)) => {
            is_typed(module, a) && is_typed(module, b) && are_two_globals(&p.atom, &q.atom)
        }
        _ => false,
    }
}

pub(crate) fn is_private_derived(module: &Module, from: &[Fact], to: &Fact) -> bool
    ensures { result ≡ is_private_derived (scope_of «module».now) from.now to.now }
{
    let [Fact::Private(Reg::Now(name)), Fact::LessDef(c, e)] = from else {
        return false;
    };
    let Expr::Plain(r) = c else {
        return false;
    };
    let Fact::Private(Reg::Now(own)) = to else {
        return false;
    };
    have_one_type(module, c, e)
        && is_pointer(&r.ty)
        && is_derived_from_now(e, name)
        && is_now(own, &r.atom)
}
