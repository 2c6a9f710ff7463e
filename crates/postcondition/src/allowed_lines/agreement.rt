//! When two lines are of one operator, and when they agree.
ghost use Rattle.std.specs.Prelude.{◌≡◌, [], ◌∷◌};
ghost use Rattle.ir_types.specs.Same.{same_list, same_ty};
ghost use Rattle.ir_core.specs.Typing.{number_in};
ghost use Rattle.ir_core.specs.declared.expressions.Expr.TheVariants as expr;
ghost use Rattle.ir_values.specs.Laws.{flags_among};
ghost use Rattle.erhl_assert.specs.Matched.{are_matched};
ghost use Rattle.erhl_assert.specs.Allowed.{same_operator, stated_types, keeps_number, keep_numbers};
ghost use Rattle.erhl_assert.specs.Postcondition.{rights_agree, lines_agree};

use crate::allowed_lines::{atoms_matched, matched};
use erhl_assert::FactSet;
use fact_sets::Sides;
use ir_core::{
    Atom, Binary, Calm, Cast, Const, Element, Expr, Flags, Icmp, Load, Name, Operand, Select, Ty,
    same_cast, same_name, same_op, same_pred, same_ty,
};

/// Whether the operators are one, and their type.
pub(crate) fn are_one_operator(s: &Binary<Name>, t: &Binary<Name>) -> bool
    ensures { result ≡ same_operator (expr.Binary s.now) (expr.Binary t.now) }
{
    same_op(&s.op, &t.op) && same_ty(&s.ty, &t.ty)
}

fn are_one_comparison(s: &Icmp<Name>, t: &Icmp<Name>) -> bool
    ensures { result ≡ same_operator (expr.Icmp s.now) (expr.Icmp t.now) }
{
    same_pred(&s.pred, &t.pred) && same_ty(&s.ty, &t.ty)
}

fn are_one_conversion(s: &Cast<Name>, t: &Cast<Name>) -> bool
    ensures { result ≡ same_operator (expr.Cast s.now) (expr.Cast t.now) }
{
    same_cast(&s.op, &t.op) && same_ty(&s.operand.ty, &t.operand.ty) && same_ty(&s.to, &t.to)
}

fn are_one_selection(s: &Select<Name>, t: &Select<Name>) -> bool
    ensures { result ≡ same_operator (expr.Select s.now) (expr.Select t.now) }
{
    same_ty(&s.condition.ty, &t.condition.ty)
        && same_ty(&s.left.ty, &t.left.ty)
        && same_ty(&s.right.ty, &t.right.ty)
}

/// Whether the types that are stated for the operands are the same.
fn same_stated_types(source: &[Operand<Name>], target: &[Operand<Name>]) -> bool
    ensures { result ≡ same_list same_ty (stated_types source.now) (stated_types target.now) }
{
    let mut rest = target;
    for a in source {
        match rest.split_first() {
            Some((b, after)) => {
                if !same_ty(&a.ty, &b.ty) {
                    return false;
                }
                rest = after;
            }
            None => return false,
        }
    }
    rest.is_empty()
}

/// Whether base and indices are of the same stated types.
fn same_base_and_indices(s: &Element<Name>, t: &Element<Name>) -> bool
    ensures { result ≡ same_list same_ty
        (stated_types (s.now.base ∷ s.now.indices)) (stated_types (t.now.base ∷ t.now.indices)) }
{
    same_ty(&s.base.ty, &t.base.ty) && same_stated_types(s.indices.as_slice(), t.indices.as_slice())
}

/// The number that an operand is.
fn number_in(atom: &Atom<Name>) -> Option<u64>
    ensures { result ≡ number_in atom.now }
{
    match atom {
        Atom::Constant(Const::Number(number)) => Some(number.get()),
        _ => None,
    }
}

/// Whether the number that a source's index is, where it is one, is the target's.
fn keeps_number(source: Option<u64>, target: Option<u64>) -> bool
    ensures { result ≡ keeps_number source target }
{
    match (source, target) {
        (None, _) => true,
        (Some(m), Some(n)) => m == n,
        (Some(_), None) => false,
    }
}

/// Whether the numbers among the source's indices stand at their places among the target's.
fn keep_numbers(source: &[Operand<Name>], target: &[Operand<Name>]) -> bool
    ensures { result ≡ keep_numbers source.now target.now }
{
    let mut rest = target;
    for a in source {
        match rest.split_first() {
            Some((b, after)) => {
                if !keeps_number(number_in(&a.atom), number_in(&b.atom)) {
                    return false;
                }
                rest = after;
            }
            None => return true,
        }
    }
    true
}

fn are_one_address(s: &Element<Name>, t: &Element<Name>) -> bool
    ensures { result ≡ same_operator (expr.Element s.now) (expr.Element t.now) }
{
    same_ty(&s.of, &t.of)
        && same_ty(&s.to, &t.to)
        && same_base_and_indices(s, t)
        && keep_numbers(s.indices.as_slice(), t.indices.as_slice())
}

/// Whether the types of what is loaded are the same, and of the addresses.
pub(crate) fn are_one_load(s: &Load<Name>, t: &Load<Name>) -> bool
    ensures { result ≡ same_operator (expr.Load s.now) (expr.Load t.now) }
{
    same_ty(&s.of, &t.of) && same_ty(&s.pointer.ty, &t.pointer.ty)
}

/// Whether each flag of the first is one of the second's.
fn flags_among(few: &Flags, many: &Flags) -> bool
    ensures { result ≡ flags_among few.now many.now }
{
    (!few.nuw || many.nuw) && (!few.nsw || many.nsw) && (!few.exact || many.exact)
}

/// Whether the operand is matched.
#[tactic(auto, using(crate::proofs::AllowedLines::Agreeing::one_matched))]
fn operand_matched<S: FactSet>(known: &Sides<S>, a: &Operand<Name>, b: &Operand<Name>) -> bool
    ensures { result ≡ are_matched known.now (a.now ∷ []) (b.now ∷ []) }
{
    matched(a, b, known)
}

/// Whether both operands are matched.
#[tactic(auto, using(crate::proofs::AllowedLines::Agreeing::two_matched))]
fn operands_matched<S: FactSet>(
    known: &Sides<S>,
    s: &Ty,
    a: &Atom<Name>,
    b: &Atom<Name>,
    t: &Ty,
    c: &Atom<Name>,
    d: &Atom<Name>,
) -> bool
    ensures { result ≡ are_matched known.now
        (record { ty = s.now; atom = a.now } ∷ record { ty = s.now; atom = b.now } ∷ [])
        (record { ty = t.now; atom = c.now } ∷ record { ty = t.now; atom = d.now } ∷ []) }
{
    atoms_matched(s, a, t, c, known) && atoms_matched(s, b, t, d, known)
}

/// Whether condition and arms are matched.
#[tactic(auto, using(crate::proofs::AllowedLines::Agreeing::three_matched))]
fn arms_matched<S: FactSet>(known: &Sides<S>, s: &Select<Name>, t: &Select<Name>) -> bool
    ensures { result ≡ are_matched known.now
        (s.now.condition ∷ s.now.left ∷ s.now.right ∷ []) (t.now.condition ∷ t.now.left ∷ t.now.right ∷ []) }
{
    matched(&s.condition, &t.condition, known)
        && matched(&s.left, &t.left, known)
        && matched(&s.right, &t.right, known)
}

/// Whether the operands are matched, each with the one in its place.
fn are_matched<S: FactSet>(
    known: &Sides<S>,
    source: &[Operand<Name>],
    target: &[Operand<Name>],
) -> bool
    ensures { result ≡ are_matched known.now source.now target.now }
{
    let mut rest = target;
    for a in source {
        match rest.split_first() {
            Some((b, after)) => {
                if !matched(a, b, known) {
                    return false;
                }
                rest = after;
            }
            None => return false,
        }
    }
    rest.is_empty()
}

/// Whether base and indices are matched.
fn places_matched<S: FactSet>(known: &Sides<S>, s: &Element<Name>, t: &Element<Name>) -> bool
    ensures { result ≡ are_matched known.now (s.now.base ∷ s.now.indices) (t.now.base ∷ t.now.indices) }
{
    matched(&s.base, &t.base, known)
        && are_matched(known, s.indices.as_slice(), t.indices.as_slice())
}

fn plain_agree<S: FactSet>(known: &Sides<S>, a: &Operand<Name>, b: &Operand<Name>) -> bool
    ensures { result ≡ rights_agree known.now (expr.Plain a.now) (expr.Plain b.now) }
{
    same_ty(&a.ty, &b.ty) && operand_matched(known, a, b)
}

fn binaries_agree<S: FactSet>(known: &Sides<S>, s: &Binary<Name>, t: &Binary<Name>) -> bool
    ensures { result ≡ rights_agree known.now (expr.Binary s.now) (expr.Binary t.now) }
{
    are_one_operator(s, t)
        && flags_among(&t.flags, &s.flags)
        && operands_matched(known, &s.ty, &s.left, &s.right, &t.ty, &t.left, &t.right)
}

fn comparisons_agree<S: FactSet>(known: &Sides<S>, s: &Icmp<Name>, t: &Icmp<Name>) -> bool
    ensures { result ≡ rights_agree known.now (expr.Icmp s.now) (expr.Icmp t.now) }
{
    are_one_comparison(s, t)
        && operands_matched(known, &s.ty, &s.left, &s.right, &t.ty, &t.left, &t.right)
}

fn conversions_agree<S: FactSet>(known: &Sides<S>, s: &Cast<Name>, t: &Cast<Name>) -> bool
    ensures { result ≡ rights_agree known.now (expr.Cast s.now) (expr.Cast t.now) }
{
    are_one_conversion(s, t) && operand_matched(known, &s.operand, &t.operand)
}

fn selections_agree<S: FactSet>(known: &Sides<S>, s: &Select<Name>, t: &Select<Name>) -> bool
    ensures { result ≡ rights_agree known.now (expr.Select s.now) (expr.Select t.now) }
{
    are_one_selection(s, t) && arms_matched(known, s, t)
}

fn addresses_agree<S: FactSet>(known: &Sides<S>, s: &Element<Name>, t: &Element<Name>) -> bool
    ensures { result ≡ rights_agree known.now (expr.Element s.now) (expr.Element t.now) }
{
    are_one_address(s, t) && (!t.inbounds || s.inbounds) && places_matched(known, s, t)
}

fn loads_agree<S: FactSet>(known: &Sides<S>, s: &Load<Name>, t: &Load<Name>) -> bool
    ensures { result ≡ rights_agree known.now (expr.Load s.now) (expr.Load t.now) }
{
    are_one_load(s, t) && operand_matched(known, &s.pointer, &t.pointer)
}

fn rights_agree<S: FactSet>(known: &Sides<S>, s: &Expr<Name>, t: &Expr<Name>) -> bool
    ensures { result ≡ rights_agree known.now s.now t.now }
{
    match (s, t) {
        (Expr::Plain(a), Expr::Plain(b)) => plain_agree(known, a, b),
        (Expr::Binary(a), Expr::Binary(b)) => binaries_agree(known, a, b),
        (Expr::Icmp(a), Expr::Icmp(b)) => comparisons_agree(known, a, b),
        (Expr::Cast(a), Expr::Cast(b)) => conversions_agree(known, a, b),
        (Expr::Select(a), Expr::Select(b)) => selections_agree(known, a.get(), b.get()),
        (Expr::Element(a), Expr::Element(b)) => addresses_agree(known, a.get(), b.get()),
        (Expr::Load(a), Expr::Load(b)) => loads_agree(known, a, b),
        _ => false,
    }
}

/// Whether the lines define one register, and agree.
pub fn lines_agree<S: FactSet>(known: &Sides<S>, s: &Calm, t: &Calm) -> bool
    ensures { result ≡ lines_agree known.now s.now t.now }
{
    same_name(&s.name, &t.name) && rights_agree(known, &s.right, &t.right)
}
