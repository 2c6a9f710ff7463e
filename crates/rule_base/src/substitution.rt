//! The rule `subst`: one operand is made another.
ghost use Rattle.std.specs.Prelude.{◌≡◌, true, ◌&&◌, ◌||◌, [], ◌∷◌};
ghost use Rattle.ir_types.specs.Same.{same_list};
ghost use Rattle.ir_core.specs.Same.{same_align, same_reg, same_operand};
ghost use Rattle.ir_machine.specs.State.{scope_of};
ghost use Rattle.ir_core.specs.Expressions.{operands_in};
ghost use Rattle.ir_types.specs.declared.ty.Ty.{out-Ty};
ghost use Rattle.rule_base.specs.Rows.{is_subst, makes_one, are_alike, one_made, is_array, keep_fields, keeps_fields};

use crate::typed::have_one_type;
use erhl_assert::{Fact, number_in};
use ir_core::{
    Atom, Element, Expr, Expr0, Module, NamedTypes, Operand, Reg, Select, Ty, same_cast,
    same_flags, same_op, same_pred, same_reg_atom, same_reg_operand, same_ty,
};
use ir_typing::entered;

/// Two operands of one type.
#[derive(Drop, Clone, Copy)]
struct Pair<'a> {
    ty: &'a Ty,
    left: &'a Atom<Reg>,
    right: &'a Atom<Reg>,
}

pub(crate) fn is_subst(module: &Module, from: &[Fact], to: &Fact) -> bool
    ensures { result ≡ is_subst (scope_of «module».now) from.now to.now }
{
    let [Fact::LessDef(a, b)] = from else {
        return false;
    };
    let (Expr::Plain(before), Expr::Plain(after)) = (a, b) else {
        return false;
    };
    let Fact::LessDef(e, f) = to else {
        return false;
    };
    have_one_type(module, a, b)
        && have_one_type(module, e, f)
        && makes_one(&module.types, before, after, e, f)
}

/// Whether the second is the first with one operand changed, which tells no field.
fn makes_one(
    types: &NamedTypes,
    before: &Operand<Reg>,
    after: &Operand<Reg>,
    e: &Expr0,
    f: &Expr0,
) -> bool
    ensures { result ≡ makes_one types.now before.now after.now e.now f.now }
{
    are_alike(e, f) && one_made(before, after, e, f) && keeps_fields(types, e, f)
}

/// Whether two alignments are the same, or both aren't stated.
fn same_align(a: Option<u32>, b: Option<u32>) -> bool
    ensures { result ≡ same_align a b }
{
    match (a, b) {
        (Some(a), Some(b)) => a == b,
        (None, None) => true,
        _ => false,
    }
}

/// Whether the two differ at most in operands.
fn are_alike(e: &Expr0, f: &Expr0) -> bool
    ensures { result ≡ are_alike e.now f.now }
{
    match (e, f) {
        (Expr::Plain(_), Expr::Plain(_)) => true,
        (Expr::Binary(x), Expr::Binary(y)) => {
            same_op(&x.op, &y.op) && same_flags(&x.flags, &y.flags)
        }
        (Expr::Icmp(x), Expr::Icmp(y)) => same_pred(&x.pred, &y.pred),
        (Expr::Cast(x), Expr::Cast(y)) => same_cast(&x.op, &y.op) && same_ty(&x.to, &y.to),
        (Expr::Select(_), Expr::Select(_)) => true,
        (Expr::Element(x), Expr::Element(y)) => {
            let (x, y) = (x.get(), y.get());
            x.inbounds == y.inbounds && same_ty(&x.of, &y.of) && same_ty(&x.to, &y.to)
        }
        (Expr::Load(x), Expr::Load(y)) => same_ty(&x.of, &y.of) && same_align(x.align, y.align),
        _ => false,
    }
}

/// Whether the operands of the second, which is like the first, are the first's with one changed.
fn one_made(before: &Operand<Reg>, after: &Operand<Reg>, e: &Expr0, f: &Expr0) -> bool
    requires alike { are_alike e.now f.now ≡ true }
    ensures { result ≡ one_made before.now after.now (operands_in e.now) (operands_in f.now) }
{
    match (e, f) {
        (Expr::Plain(x), Expr::Plain(y)) => lone_made(before, after, x, y),
        (Expr::Binary(x), Expr::Binary(y)) => one_of_two(
            before,
            after,
            &Pair {
                ty: &x.ty,
                left: &x.left,
                right: &x.right,
            },
            &Pair {
                ty: &y.ty,
                left: &y.left,
                right: &y.right,
            },
        ),
        (Expr::Icmp(x), Expr::Icmp(y)) => one_of_two(
            before,
            after,
            &Pair {
                ty: &x.ty,
                left: &x.left,
                right: &x.right,
            },
            &Pair {
                ty: &y.ty,
                left: &y.left,
                right: &y.right,
            },
        ),
        (Expr::Cast(x), Expr::Cast(y)) => lone_made(before, after, &x.operand, &y.operand),
        (Expr::Select(x), Expr::Select(y)) => one_of_three(before, after, x.get(), y.get()),
        (Expr::Element(x), Expr::Element(y)) => one_of_address(before, after, x.get(), y.get()),
        (Expr::Load(x), Expr::Load(y)) => lone_made(before, after, &x.pointer, &y.pointer),
        _ => false,
    }
}

/// Whether the first is the operand that is changed, and the second what it is made.
fn is_made(before: &Operand<Reg>, after: &Operand<Reg>, x: &Operand<Reg>, y: &Operand<Reg>) -> bool
    ensures { result ≡ (same_operand same_reg x.now before.now && same_operand same_reg y.now after.now) }
{
    same_reg_operand(x, before) && same_reg_operand(y, after)
}

/// Whether an operand that stands alone stays.
fn lone_stays(x: &Operand<Reg>, y: &Operand<Reg>) -> bool
    ensures { result ≡ same_list (same_operand same_reg) (x.now ∷ []) (y.now ∷ []) }
{
    same_reg_operand(x, y)
}

/// Whether an operand that stands alone is the one that is changed.
fn lone_made(
    before: &Operand<Reg>,
    after: &Operand<Reg>,
    x: &Operand<Reg>,
    y: &Operand<Reg>,
) -> bool
    ensures { result ≡ one_made before.now after.now (x.now ∷ []) (y.now ∷ []) }
{
    is_made(before, after, x, y)
}

/// Whether the atom, at the type, is the operand.
fn is_operand(ty: &Ty, atom: &Atom<Reg>, operand: &Operand<Reg>) -> bool
    ensures { result ≡ same_operand same_reg (record { ty = ty.now; atom = atom.now }) operand.now }
{
    same_ty(ty, &operand.ty) && same_reg_atom(atom, &operand.atom)
}

fn one_of_two(before: &Operand<Reg>, after: &Operand<Reg>, x: &Pair, y: &Pair) -> bool
    ensures { result ≡ one_made before.now after.now
        (record { ty = x.now.ty.now; atom = x.now.left.now } ∷ record { ty = x.now.ty.now; atom = x.now.right.now } ∷ [])
        (record { ty = y.now.ty.now; atom = y.now.left.now } ∷ record { ty = y.now.ty.now; atom = y.now.right.now } ∷ []) }
{
    let left = is_operand(x.ty, x.left, before) && is_operand(y.ty, y.left, after);
    let right = is_operand(x.ty, x.right, before) && is_operand(y.ty, y.right, after);
    let same = same_ty(x.ty, y.ty);
    (left && same && same_reg_atom(x.right, y.right))
        || (same && same_reg_atom(x.left, y.left) && right)
}

/// Whether the first operand is made and the rest stays, or it stays and a later one is made.
fn first_or_later(made: bool, rest_stays: bool, stays: bool, later_made: bool) -> bool
    ensures { result ≡ ((made && rest_stays) || (stays && later_made)) }
{
    (made && rest_stays) || (stays && later_made)
}

/// Whether the arms of the second selection are the first's with one changed.
fn one_arm_made(
    before: &Operand<Reg>,
    after: &Operand<Reg>,
    x: &Select<Reg>,
    y: &Select<Reg>,
) -> bool
    ensures { result ≡ one_made before.now after.now (x.now.left ∷ x.now.right ∷ []) (y.now.left ∷ y.now.right ∷ []) }
{
    first_or_later(
        is_made(before, after, &x.left, &y.left),
        lone_stays(&x.right, &y.right),
        same_reg_operand(&x.left, &y.left),
        lone_made(before, after, &x.right, &y.right),
    )
}

/// Whether the arms of two selections are the same.
fn arms_stay(x: &Select<Reg>, y: &Select<Reg>) -> bool
    ensures { result ≡ same_list (same_operand same_reg) (x.now.left ∷ x.now.right ∷ []) (y.now.left ∷ y.now.right ∷ []) }
{
    same_reg_operand(&x.left, &y.left) && same_reg_operand(&x.right, &y.right)
}

fn one_of_three(
    before: &Operand<Reg>,
    after: &Operand<Reg>,
    x: &Select<Reg>,
    y: &Select<Reg>,
) -> bool
    ensures { result ≡ one_made before.now after.now
        (x.now.condition ∷ x.now.left ∷ x.now.right ∷ []) (y.now.condition ∷ y.now.left ∷ y.now.right ∷ []) }
{
    first_or_later(
        is_made(before, after, &x.condition, &y.condition),
        arms_stay(x, y),
        same_reg_operand(&x.condition, &y.condition),
        one_arm_made(before, after, x, y),
    )
}

// ---- addresses

/// Whether the operands are the same, one by one.
pub(crate) fn same_operands(xs: &[Operand<Reg>], ys: &[Operand<Reg>]) -> bool
    ensures { result ≡ same_list (same_operand same_reg) xs.now ys.now }
{
    let (mut left, mut right) = (xs, ys);
    loop {
        match (left.split_first(), right.split_first()) {
            (Some((x, rest)), Some((y, others))) => {
                if !same_reg_operand(x, y) {
                    return false;
                }
                left = rest;
                right = others;
            }
            (None, None) => return true,
            _ => return false,
        }
    }
}

/// Whether the second operands are the first with one changed.
#[tactic(auto, using(crate::proofs::OneMade::made_here, crate::proofs::OneMade::made_later))]
fn one_of_many(
    before: &Operand<Reg>,
    after: &Operand<Reg>,
    xs: &[Operand<Reg>],
    ys: &[Operand<Reg>],
) -> bool
    ensures { result ≡ one_made before.now after.now xs.now ys.now }
{
    let (mut left, mut right) = (xs, ys);
    while let (Some((x, rest)), Some((y, others))) = (left.split_first(), right.split_first()) {
        if is_made(before, after, x, y) {
            return same_operands(rest, others);
        }
        if !same_reg_operand(x, y) {
            return false;
        }
        left = rest;
        right = others;
    }
    false
}

/// Whether the base or an index of the second address is the first's changed, and the others are the same.
fn one_of_address(
    before: &Operand<Reg>,
    after: &Operand<Reg>,
    x: &Element<Reg>,
    y: &Element<Reg>,
) -> bool
    ensures { result ≡ one_made before.now after.now (x.now.base ∷ x.now.indices) (y.now.base ∷ y.now.indices) }
{
    let (is, js) = (x.indices.as_slice(), y.indices.as_slice());
    first_or_later(
        is_made(before, after, &x.base, &y.base),
        same_operands(is, js),
        same_reg_operand(&x.base, &y.base),
        one_of_many(before, after, is, js),
    )
}

fn is_array(ty: &Ty) -> bool
    ensures { result ≡ is_array (out-Ty ty.now) }
{
    matches!(ty, Ty::Array(_, _))
}

/// Whether indices that enter fields are the same.
fn keep_fields(types: &NamedTypes, of: &Ty, xs: &[Operand<Reg>], ys: &[Operand<Reg>]) -> bool
    ensures { result ≡ keep_fields types.now of.now xs.now ys.now }
{
    let (mut ty, mut left, mut right) = (of, xs, ys);
    while let (Some((x, rest)), Some((y, others))) = (left.split_first(), right.split_first()) {
        if !is_array(ty) && !same_reg_operand(x, y) {
            return false;
        }
        let Some(further) = entered(types, ty, &x.ty, number_in(&x.atom)) else {
            return true;
        };
        ty = further;
        left = rest;
        right = others;
    }
    true
}

fn keeps_fields(types: &NamedTypes, e: &Expr0, f: &Expr0) -> bool
    ensures { result ≡ keeps_fields types.now e.now f.now }
{
    let (Expr::Element(x), Expr::Element(y)) = (e, f) else {
        return true;
    };
    let (x, y) = (x.get(), y.get());
    match (x.indices.as_slice(), y.indices.as_slice()) {
        ([_, is @ ..], [_, js @ ..]) => keep_fields(types, &x.of, is, js),
        _ => true,
    }
}
