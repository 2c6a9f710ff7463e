//! The rule `fold`: an expression over numbers is a constant.
ghost use Rattle.std.specs.Prelude.{◌≡◌, true};
ghost use Rattle.std.specs.List.{list_all};
ghost use Rattle.ir_core.specs.declared.expressions.Reg.{Reg};
ghost use Rattle.ir_core.specs.declared.operands.Operand.{Operand};
ghost use Rattle.ir_core.specs.declared.expressions.Expr.TheVariants as expr;
ghost use Rattle.ir_core.specs.declared.values.Value.TheVariants.{Poison};
ghost use Rattle.ir_core.specs.Types.{kind_of};
ghost use Rattle.ir_machine.specs.Registers as meaning;
ghost use Rattle.ir_machine.specs.State.{no_scope, scope_of};
ghost use Rattle.ir_core.specs.declared.values.Value.TheVariants.{Num};
ghost use Rattle.ir_values.specs.declared.operations.Outcome.TheVariants.{Gives};
ghost use Rattle.ir_values.specs.Values.{IsInKindOf};
ghost use Rattle.rule_base.specs.Rows.{is_fold, is_number, is_over_numbers, folded, may_become, number_of_kind};

use crate::shipped::is_undef;
use crate::typed::{have_one_type, selects};
use erhl_assert::Fact;
use ir_core::{
    Atom, Binary, Cast, Const, Expr, Expr0, Icmp, Kind, Load, Module, Operand, Reg, Select, Ty,
    Value, converts, fits, kind_of,
};
use ir_values::{Outcome, eval_binary, eval_cast, eval_icmp, eval_select};

pub(crate) fn is_fold(module: &Module, from: &[Fact], to: &Fact) -> bool
    ensures { result ≡ is_fold (scope_of «module».now) from.now to.now }
{
    if !from.is_empty() {
        return false;
    }
    let Fact::LessDef(e, f) = to else {
        return false;
    };
    match f {
        Expr::Plain(constant) => {
            have_one_type(module, e, f)
                && is_over_numbers(e)
                && may_become(&folded(e), &constant.atom)
        }
        _ => false,
    }
}

fn is_number(atom: &Atom<Reg>) -> bool
    ensures { result ≡ is_number atom.now }
{
    matches!(atom, Atom::Constant(Const::Number(_)))
}

fn are_numbers(operands: &[Operand<Reg>]) -> bool
    ensures { result ≡ list_all (λ (o : Operand Reg). is_number o.atom) operands.now }
{
    operands.iter().all(|operand| is_number(&operand.atom))
}

fn is_over_numbers(expr: &Expr0) -> bool
    ensures { result ≡ is_over_numbers expr.now }
{
    match expr {
        Expr::Plain(operand) => is_number(&operand.atom),
        Expr::Binary(binary) => is_number(&binary.left) && is_number(&binary.right),
        Expr::Icmp(icmp) => is_number(&icmp.left) && is_number(&icmp.right),
        Expr::Cast(cast) => is_number(&cast.operand.atom),
        Expr::Select(select) => {
            let select = select.get();
            is_number(&select.condition.atom)
                && is_number(&select.left.atom)
                && is_number(&select.right.atom)
        }
        Expr::Element(element) => {
            let element = element.get();
            is_number(&element.base.atom) && are_numbers(element.indices.as_slice())
        }
        Expr::Load(load) => is_number(&load.pointer.atom),
    }
}

/// Whether the outcome may be made that constant.
fn may_become(outcome: &Outcome, atom: &Atom<Reg>) -> bool
    ensures { result ≡ may_become outcome.now atom.now }
{
    match outcome {
        Outcome::Gives(Value::Num(given)) => is_that_number(*given, atom),
        Outcome::Gives(Value::Ptr(_, _)) => false,
        Outcome::Gives(Value::Bare(_)) => false,
        _ => is_number(atom) || is_undef(atom),
    }
}

/// Whether the atom is that number; no other constant is, and no register.
fn is_that_number(number: u64, atom: &Atom<Reg>) -> bool
    ensures { result ≡ may_become (Gives (Num number)) atom.now }
{
    match atom {
        Atom::Constant(Const::Number(own)) => number == own.get(),
        Atom::Constant(_) => false,
        Atom::Register(_) => false,
    }
}

/// A number at a kind.
fn number_of_kind(kind: Option<Kind>, number: u64) -> Value
    ensures value { result ≡ number_of_kind kind number }
    ensures in_kind { IsInKindOf kind result }
{
    match kind {
        Some(Kind::Int(width)) => {
            if fits(number, width) {
                Value::Num(number)
            } else {
                Value::Poison
            }
        }
        _ => Value::Poison,
    }
}

/// What a number is worth at a type; another atom counts as poison.
#[tactic(auto, using(crate::specs::NumberLaws::number_is_worth))]
fn value_at(ty: &Ty, atom: &Atom<Reg>) -> Value
    ensures value { is_number atom.now ≡ true → result ≡ meaning.atom_value no_scope (λ k r. Poison) ty.now atom.now }
    ensures in_kind { IsInKindOf (kind_of ty.now) result }
{
    match atom {
        Atom::Constant(Const::Number(bits)) => number_of_kind(kind_of(ty), bits.get()),
        _ => Value::Poison,
    }
}

/// What a number is worth at its stated type.
fn operand_value(operand: &Operand<Reg>) -> Value
    ensures value { is_number operand.now.atom ≡ true → result ≡ meaning.operand_value no_scope (λ k r. Poison) operand.now }
    ensures in_kind { IsInKindOf (kind_of operand.now.ty) result }
{
    value_at(&operand.ty, &operand.atom)
}

/// What an expression over numbers comes to.
fn folded(expr: &Expr0) -> Outcome
    ensures { is_over_numbers expr.now ≡ true → result ≡ folded expr.now }
{
    match expr {
        Expr::Plain(operand) => Outcome::Gives(operand_value(operand)),
        Expr::Binary(binary) => folded_binary(binary),
        Expr::Icmp(icmp) => folded_icmp(icmp),
        Expr::Cast(cast) => folded_cast(cast),
        Expr::Select(select) => folded_select(select.get()),
        Expr::Element(_) => Outcome::Gives(Value::Poison),
        Expr::Load(load) => folded_load(load),
    }
}

fn folded_binary(binary: &Binary<Reg>) -> Outcome
    ensures { is_number binary.now.left ≡ true → is_number binary.now.right ≡ true → result ≡ folded (expr.Binary binary.now) }
{
    let left = value_at(&binary.ty, &binary.left);
    let right = value_at(&binary.ty, &binary.right);
    match kind_of(&binary.ty) {
        Some(Kind::Int(width)) => eval_binary(binary.op, binary.flags, width, &left, &right),
        _ => Outcome::Gives(Value::Poison),
    }
}

fn folded_icmp(icmp: &Icmp<Reg>) -> Outcome
    ensures { is_number icmp.now.left ≡ true → is_number icmp.now.right ≡ true → result ≡ folded (expr.Icmp icmp.now) }
{
    let left = value_at(&icmp.ty, &icmp.left);
    let right = value_at(&icmp.ty, &icmp.right);
    match kind_of(&icmp.ty) {
        Some(kind) => eval_icmp(icmp.pred, kind, &left, &right, 0, 0),
        None => Outcome::Gives(Value::Poison),
    }
}

fn folded_cast(cast: &Cast<Reg>) -> Outcome
    ensures { is_number cast.now.operand.atom ≡ true → result ≡ folded (expr.Cast cast.now) }
{
    if !converts(cast.op, &cast.operand.ty, &cast.to) {
        return Outcome::Gives(Value::Poison);
    }
    let value = operand_value(&cast.operand);
    match (kind_of(&cast.operand.ty), kind_of(&cast.to)) {
        (Some(from), Some(to)) => eval_cast(cast.op, from, to, &value),
        _ => Outcome::Gives(Value::Poison),
    }
}

fn folded_select(select: &Select<Reg>) -> Outcome
    ensures { is_number select.now.condition.atom ≡ true → is_number select.now.left.atom ≡ true → is_number select.now.right.atom ≡ true
        → result ≡ folded (expr.Select select.now) }
{
    let (condition, left, right) = (&select.condition, &select.left, &select.right);
    if !selects(&condition.ty, &left.ty, &right.ty) {
        return Outcome::Gives(Value::Poison);
    }
    let (a, b) = (operand_value(left), operand_value(right));
    eval_select(&operand_value(condition), &a, &b)
}

/// There is no block to load from.
#[tactic(auto, using(crate::proofs::Blockless::nothing_is_loaded))]
fn folded_load(load: &Load<Reg>) -> Outcome
    ensures { result ≡ folded (expr.Load load.now) }
{
    match kind_of(&load.of) {
        Some(_) => Outcome::Trap,
        None => Outcome::Gives(Value::Poison),
    }
}
