//! When the source's operand and the target's operand are known to be related. No memory is taken: a function's operand
//! is compared with those of facts as it stands.
ghost use Rattle.std.specs.Prelude.{◌≡◌, ◌&&◌};
ghost use Rattle.std.specs.List.{list_any};
ghost use Rattle.ir_core.specs.declared.expressions.Reg.TheVariants.{Now};
ghost use Rattle.ir_core.specs.declared.expressions.Expr.TheVariants.{Plain};
ghost use Rattle.ir_core.specs.Same.{same_reg, same_atom, same_expr};
ghost use Rattle.ir_core.specs.Types.{kind_of};
ghost use Rattle.ir_core.specs.Expressions.{map_atom};
ghost use Rattle.erhl_assert.specs.Facts.{has_fact};
ghost use Rattle.erhl_assert.specs.Matched.{now_operand, of_plain, from_fact, into_fact, some_into, is_kind, meet, meet_at, matched_at, matched, atoms_matched};

use crate::allowed_lines::in_logic::InLogic;
use erhl_assert::{Fact, FactSet, Side};
use fact_sets::{Joined, RegisterSet, Sides};
use ir_core::{Atom, Expr, Expr0, Kind, Name, Operand, Reg, Ty, kind_of, same_const, same_ty};

/// Whether the type's values are of that kind.
fn is_kind(ty: &Ty, kind: Kind) -> bool
    ensures { result ≡ is_kind (kind_of ty.now) kind }
{
    match (kind_of(ty), kind) {
        (Some(Kind::Int(other)), Kind::Int(width)) => other == width,
        (Some(Kind::Ptr), Kind::Ptr) => true,
        (Some(Kind::Int(_)), Kind::Ptr) => false,
        (Some(Kind::Ptr), Kind::Int(_)) => false,
        (None, _) => false,
    }
}

/// Whether c and the target's operand are one constant of one type, or one register that doesn't differ.
fn is_one_now<R: InLogic>(diff: &RegisterSet, s: &Ty, c: &Atom<R>, t: &Ty, b: &Atom<Name>) -> bool
    ensures { result
        ≡ meet_at diff.now (record { ty = s.now; atom = map_atom R.in_logic c.now })
        (now_operand (record { ty = t.now; atom = b.now })) (map_atom R.in_logic c.now) (map_atom Now b.now) }
{
    match (c, b) {
        (Atom::Constant(m), Atom::Constant(n)) => same_ty(s, t) && same_const(m, n),
        (Atom::Register(x), Atom::Register(y)) => x.is_now(y) && !x.is_in(diff),
        _ => false,
    }
}

/// Whether c and an operand of a fact are one constant of one type, or one register that doesn't differ.
fn is_one<R: InLogic>(diff: &RegisterSet, s: &Ty, c: &Atom<R>, d: &Operand<Reg>) -> bool
    ensures { result
        ≡ meet_at diff.now (record { ty = s.now; atom = map_atom R.in_logic c.now }) d.now
        (map_atom R.in_logic c.now) d.now.atom }
{
    match (c, &d.atom) {
        (Atom::Constant(m), Atom::Constant(n)) => same_ty(s, &d.ty) && same_const(m, n),
        (Atom::Register(x), Atom::Register(y)) => x.is_reg(y) && !x.is_in(diff),
        _ => false,
    }
}

/// Whether c and the target's operand are one, of that kind.
fn meets_now<R: InLogic>(
    diff: &RegisterSet,
    kind: Kind,
    s: &Ty,
    c: &Atom<R>,
    t: &Ty,
    b: &Atom<Name>,
) -> bool
    ensures { result
        ≡ meet diff.now kind (record { ty = s.now; atom = map_atom R.in_logic c.now })
        (now_operand (record { ty = t.now; atom = b.now })) }
{
    is_kind(s, kind) && is_kind(t, kind) && is_one_now(diff, s, c, t, b)
}

/// Whether c and an operand of a fact are one, of that kind.
fn meets_plain<R: InLogic>(
    diff: &RegisterSet,
    kind: Kind,
    s: &Ty,
    c: &Atom<R>,
    expr: &Expr0,
) -> bool
    ensures { result
        ≡ of_plain
        (λ d. meet diff.now kind (record { ty = s.now; atom = map_atom R.in_logic c.now }) d)
        expr.now }
{
    match expr {
        Expr::Plain(d) => is_kind(s, kind) && is_kind(&d.ty, kind) && is_one(diff, s, c, d),
        _ => false,
    }
}

fn is_now_atom(a: &Atom<Reg>, b: &Atom<Name>) -> bool
    ensures { result ≡ same_atom same_reg a.now (map_atom Now b.now) }
{
    match (a, b) {
        (Atom::Constant(m), Atom::Constant(n)) => same_const(m, n),
        (Atom::Register(x), Atom::Register(y)) => x.is_now(y),
        _ => false,
    }
}

/// Whether the expression is the function's operand.
fn is_plain_now(expr: &Expr0, ty: &Ty, atom: &Atom<Name>) -> bool
    ensures { result ≡ same_expr same_reg expr.now (Plain (now_operand (record { ty = ty.now; atom = atom.now }))) }
{
    match expr {
        Expr::Plain(operand) => is_now_atom(&operand.atom, atom) && same_ty(&operand.ty, ty),
        _ => false,
    }
}

/// Whether the fact says that c is less defined than the target's operand.
fn leads_into<R: InLogic>(
    fact: &Fact,
    diff: &RegisterSet,
    kind: Kind,
    s: &Ty,
    c: &Atom<R>,
    t: &Ty,
    b: &Atom<Name>,
) -> bool
    ensures { result
        ≡ into_fact
        (λ d. meet diff.now kind (record { ty = s.now; atom = map_atom R.in_logic c.now }) d)
        (now_operand (record { ty = t.now; atom = b.now })) fact.now }
{
    match fact {
        Fact::LessDef(x, y) => is_plain_now(y, t, b) && meets_plain(diff, kind, s, c, x),
        _ => false,
    }
}

/// Whether one of the facts that are known and near says that c is less defined than the target's operand.
fn near_leads_into<R: InLogic, S: FactSet>(
    facts: &S,
    near: &[Fact],
    diff: &RegisterSet,
    kind: Kind,
    s: &Ty,
    c: &Atom<R>,
    t: &Ty,
    b: &Atom<Name>,
) -> bool
    ensures { result
        ≡ list_any
        (λ f. has_fact f (S.contents facts.now)
        && into_fact
        (λ d. meet diff.now kind (record { ty = s.now; atom = map_atom R.in_logic c.now }) d)
        (now_operand (record { ty = t.now; atom = b.now })) f)
        near.now }
{
    for fact in near {
        if facts.has(fact) && leads_into(fact, diff, kind, s, c, t, b) {
            return true;
        }
    }
    false
}

/// The same of all facts, by a walk.
#[tactic(auto, using(fact_sets::proofs::ErhlSides::Walked::found, fact_sets::proofs::ErhlSides::Walked::not_yet, fact_sets::proofs::ErhlSides::Walked::nowhere))]
fn walked_into<R: InLogic, S: FactSet>(
    facts: &S,
    diff: &RegisterSet,
    kind: Kind,
    s: &Ty,
    c: &Atom<R>,
    t: &Ty,
    b: &Atom<Name>,
) -> bool
    ensures { result
        ≡ list_any
        (into_fact
        (λ d. meet diff.now kind (record { ty = s.now; atom = map_atom R.in_logic c.now }) d)
        (now_operand (record { ty = t.now; atom = b.now })))
        (S.contents facts.now) }
{
    for k in 0..facts.len() {
        if let Some(fact) = facts.at(k) {
            if leads_into(fact, diff, kind, s, c, t, b) {
                return true;
            }
        }
    }
    false
}

fn some_leads_into<R: InLogic, S: FactSet>(
    facts: &Joined<S>,
    diff: &RegisterSet,
    kind: Kind,
    s: &Ty,
    c: &Atom<R>,
    t: &Ty,
    b: &Atom<Name>,
) -> bool
    ensures { result
        ≡ list_any
        (into_fact
        (λ d. meet diff.now kind (record { ty = s.now; atom = map_atom R.in_logic c.now }) d)
        (now_operand (record { ty = t.now; atom = b.now })))
        facts.now }
{
    match facts.near(b) {
        Some(near) => near_leads_into(facts.facts(), near, diff, kind, s, c, t, b),
        None => walked_into(facts.facts(), diff, kind, s, c, t, b),
    }
}

#[tactic(auto, using(crate::proofs::AllowedLines::Leading::none_leads_into))]
fn reaches_among<R: InLogic, S: FactSet>(
    diff: &RegisterSet,
    facts: &Joined<S>,
    kind: Kind,
    s: &Ty,
    c: &Atom<R>,
    t: &Ty,
    b: &Atom<Name>,
) -> bool
    ensures { result
        ≡ some_into
        (λ d. meet diff.now kind
        (record { ty = s.now; atom = map_atom R.in_logic c.now }) d)
        (now_operand (record { ty = t.now; atom = b.now })) facts.now }
{
    meets_now(diff, kind, s, c, t, b)
        || facts.may_join() && some_leads_into(facts, diff, kind, s, c, t, b)
}

/// Whether c is the target's operand, or is known on the target to be less defined than it.
fn reaches<R: InLogic, S: FactSet>(
    known: &Sides<S>,
    kind: Kind,
    s: &Ty,
    c: &Atom<R>,
    t: &Ty,
    b: &Atom<Name>,
) -> bool
    ensures { result
        ≡ some_into
        (λ d. meet known.now.diff kind
        (record { ty = s.now; atom = map_atom R.in_logic c.now }) d)
        (now_operand (record { ty = t.now; atom = b.now })) known.now.tgt }
{
    reaches_among(known.diff(), known.joined(Side::Tgt), kind, s, c, t, b)
}

fn plain_reaches<S: FactSet>(
    known: &Sides<S>,
    kind: Kind,
    expr: &Expr0,
    t: &Ty,
    b: &Atom<Name>,
) -> bool
    ensures { result
        ≡ of_plain
        (λ c. some_into (λ d. meet known.now.diff kind c d)
        (now_operand (record { ty = t.now; atom = b.now })) known.now.tgt)
        expr.now }
{
    match expr {
        Expr::Plain(c) => reaches(known, kind, &c.ty, &c.atom, t, b),
        _ => false,
    }
}

/// Whether the fact says that the source's operand is less defined than some c that reaches the target's.
fn leads_from<S: FactSet>(
    fact: &Fact,
    known: &Sides<S>,
    kind: Kind,
    s: &Ty,
    a: &Atom<Name>,
    t: &Ty,
    b: &Atom<Name>,
) -> bool
    ensures { result
        ≡ from_fact
        (λ c. some_into (λ d. meet known.now.diff kind c d)
        (now_operand (record { ty = t.now; atom = b.now })) known.now.tgt)
        (now_operand (record { ty = s.now; atom = a.now })) fact.now }
{
    match fact {
        Fact::LessDef(x, y) => is_plain_now(x, s, a) && plain_reaches(known, kind, y, t, b),
        _ => false,
    }
}

/// Whether one of the facts that are known and near says that the source's operand is less defined than some c that reaches the target's.
fn near_leads_from<S: FactSet>(
    near: &[Fact],
    known: &Sides<S>,
    kind: Kind,
    s: &Ty,
    a: &Atom<Name>,
    t: &Ty,
    b: &Atom<Name>,
) -> bool
    ensures { result
        ≡ list_any
        (λ f. has_fact f known.now.src
        && from_fact
        (λ c. some_into (λ d. meet known.now.diff kind c d)
        (now_operand (record { ty = t.now; atom = b.now })) known.now.tgt)
        (now_operand (record { ty = s.now; atom = a.now })) f)
        near.now }
{
    for fact in near {
        if known.has_fact(Side::Src, fact) && leads_from(fact, known, kind, s, a, t, b) {
            return true;
        }
    }
    false
}

/// The same of all facts, by a walk.
#[tactic(auto, using(fact_sets::proofs::ErhlSides::Walked::found, fact_sets::proofs::ErhlSides::Walked::not_yet, fact_sets::proofs::ErhlSides::Walked::nowhere))]
fn walked_from<S: FactSet>(
    known: &Sides<S>,
    kind: Kind,
    s: &Ty,
    a: &Atom<Name>,
    t: &Ty,
    b: &Atom<Name>,
) -> bool
    ensures { result
        ≡ list_any
        (from_fact
        (λ c. some_into (λ d. meet known.now.diff kind c d)
        (now_operand (record { ty = t.now; atom = b.now })) known.now.tgt)
        (now_operand (record { ty = s.now; atom = a.now })))
        known.now.src }
{
    let facts = known.facts(Side::Src);
    for k in 0..facts.len() {
        if let Some(fact) = facts.at(k) {
            if leads_from(fact, known, kind, s, a, t, b) {
                return true;
            }
        }
    }
    false
}

/// Whether the source's operand is known to be less defined than some c that reaches the target's.
#[tactic(auto, using(crate::proofs::AllowedLines::Leading::none_leads_from))]
fn reaches_by_fact<S: FactSet>(
    known: &Sides<S>,
    kind: Kind,
    s: &Ty,
    a: &Atom<Name>,
    t: &Ty,
    b: &Atom<Name>,
) -> bool
    ensures { result
        ≡ list_any
        (from_fact
        (λ c. some_into (λ d. meet known.now.diff kind c d)
        (now_operand (record { ty = t.now; atom = b.now })) known.now.tgt)
        (now_operand (record { ty = s.now; atom = a.now })))
        known.now.src }
{
    if !known.joined(Side::Src).may_join() {
        return false;
    }
    match known.joined(Side::Src).near(a) {
        Some(near) => near_leads_from(near, known, kind, s, a, t, b),
        None => walked_from(known, kind, s, a, t, b),
    }
}

/// Whether two atoms are matched at the kind of the first one's type.
fn atoms_meet<S: FactSet>(known: &Sides<S>, s: &Ty, a: &Atom<Name>, t: &Ty, b: &Atom<Name>) -> bool
    ensures { result
        ≡ matched_at known.now (kind_of s.now) (now_operand (record { ty = s.now; atom = a.now }))
        (now_operand (record { ty = t.now; atom = b.now })) }
{
    // At a type without values nothing is matched.
    let Some(kind) = kind_of(s) else {
        return false;
    };
    reaches(known, kind, s, a, t, b) || reaches_by_fact(known, kind, s, a, t, b)
}

/// Whether two atoms at their types are matched.
pub fn atoms_matched<S: FactSet>(
    s: &Ty,
    a: &Atom<Name>,
    t: &Ty,
    b: &Atom<Name>,
    known: &Sides<S>,
) -> bool
    ensures { result ≡ atoms_matched known.now s.now a.now t.now b.now }
{
    same_ty(s, t) && atoms_meet(known, s, a, t, b)
}

/// Whether the source's operand and the target's are known to be related. Takes no memory.
pub fn matched<S: FactSet>(src: &Operand<Name>, tgt: &Operand<Name>, sides: &Sides<S>) -> bool
    ensures { result ≡ matched sides.now src.now tgt.now }
{
    atoms_matched(&src.ty, &src.atom, &tgt.ty, &tgt.atom, sides)
}
