//! Facts by which a store or a call leaves what is loaded, beside those that have loads.
ghost use Rattle.std.specs.Prelude.{◌≡◌, ◌++◌, ◌||◌, filter, true, OnOk, OnErr};
ghost use Rattle.std.specs.List.{list_all};
ghost use Rattle.ir_core.specs.declared.expressions.Expr.TheVariants.{Plain};
ghost use Rattle.erhl_assert.specs.declared.facts.Fact.{Fact};
ghost use Rattle.erhl_assert.specs.declared.facts.Fact.TheVariants.{Unique, Private, NoAlias};
ghost use Rattle.erhl_assert.specs.Facts.{has_fact, with_fact};
ghost use Rattle.erhl_assert.specs.Kills as kills;
ghost use Rattle.fact_sets.specs.Shields as spec;

use crate::fact_key::FactKey;
use contents::Exact;
use erhl_assert::Fact;
use indexmap::IndexSet;
use ir_core::{Atom, Expr, Expr0, Operand, Reg, same_const, same_reg};
use std::alloc::{AllocError, Global};

/// Whether a kill asks of the fact whether it is known.
pub(crate) fn shields(fact: &Fact) -> bool
    ensures { result ≡ spec.shields fact.now }
{
    match fact {
        Fact::Unique(_) | Fact::Private(_) => true,
        Fact::NoAlias(Expr::Plain(_), Expr::Plain(_)) => true,
        Fact::NoAlias(_, _) | Fact::LessDef(_, _) | Fact::Ok(_, _, _) => false,
    }
}

fn is_load(expr: &Expr0) -> bool
    ensures { result ≡ spec.is_load expr.now }
{
    matches!(expr, Expr::Load(_))
}

/// Whether the fact has a load.
fn has_load(fact: &Fact) -> bool
    ensures { result ≡ spec.has_load fact.now }
{
    match fact {
        Fact::LessDef(a, b) | Fact::NoAlias(a, b) => is_load(a) || is_load(b),
        Fact::Ok(address, _, _) => is_load(address),
        Fact::Unique(_) | Fact::Private(_) => false,
    }
}

/// Whether some facts and this one may have a load.
pub(crate) fn may_load_with(may_load: bool, fact: &Fact) -> bool
    ensures { result ≡ (may_load || spec.has_load fact.now) }
{
    may_load || has_load(fact)
}

/// Whether the fact is that two operands aren't both pointers into one block.
fn parts(fact: &Fact) -> bool
    ensures { result ≡ spec.parts fact.now }
{
    matches!(fact, Fact::NoAlias(Expr::Plain(_), Expr::Plain(_)))
}

/// Whether some facts and this one may part two operands.
pub(crate) fn may_part_with(may_part: bool, fact: &Fact) -> bool
    ensures { result ≡ (may_part || spec.parts fact.now) }
{
    may_part || parts(fact)
}

/// Whether it is known that the register is unique.
pub(crate) fn has_unique(register: &Reg, shields: &IndexSet<Fact>) -> bool
    ensures { result ≡ has_fact (Unique register.now) shields.now.keys }
{
    shields.contains(FactKey::Unique(register))
}

fn has_private(register: &Reg, shields: &IndexSet<Fact>) -> bool
    ensures { result ≡ has_fact (Private register.now) shields.now.keys }
{
    shields.contains(FactKey::Private(register))
}

fn has_no_alias(p: &Operand<Reg>, q: &Operand<Reg>, shields: &IndexSet<Fact>) -> bool
    ensures { result ≡ has_fact (NoAlias (Plain p.now) (Plain q.now)) shields.now.keys }
{
    shields.contains(FactKey::NoAlias(p, q))
}

/// Whether it is known, in either order, that the two aren't both pointers into one block.
fn are_no_aliases(p: &Operand<Reg>, q: &Operand<Reg>, shields: &IndexSet<Fact>) -> bool
    ensures { result ≡ kills.are_no_aliases shields.now.keys p.now q.now }
{
    has_no_alias(p, q, shields) || has_no_alias(q, p, shields)
}

/// Whether it is known that the atom is a unique register.
pub(crate) fn is_unique(atom: &Atom<Reg>, shields: &IndexSet<Fact>) -> bool
    ensures { result ≡ kills.is_unique shields.now.keys atom.now }
{
    match atom {
        Atom::Constant(_) => false,
        Atom::Register(register) => has_unique(register, shields),
    }
}

fn is_private(atom: &Atom<Reg>, shields: &IndexSet<Fact>) -> bool
    ensures { result ≡ kills.is_private shields.now.keys atom.now }
{
    match atom {
        Atom::Constant(_) => false,
        Atom::Register(register) => has_private(register, shields),
    }
}

/// Whether the atom is a register of now, or a constant.
pub(crate) fn is_now_or_constant(atom: &Atom<Reg>) -> bool
    ensures { result ≡ kills.is_now_or_constant atom.now }
{
    match atom {
        Atom::Constant(_) => true,
        Atom::Register(register) => matches!(register, Reg::Now(_)),
    }
}

/// Whether the atoms are two.
fn is_other(a: &Atom<Reg>, b: &Atom<Reg>) -> bool
    ensures { result ≡ kills.is_other a.now b.now }
{
    match (a, b) {
        (Atom::Register(r), Atom::Register(q)) => !same_reg(r, q),
        (Atom::Constant(c), Atom::Constant(d)) => !same_const(c, d),
        _ => true,
    }
}

/// What leaves loads: a store through an address, or a call.
pub(crate) trait Change {
    ghost use Rattle.std.specs.Prelude.{Bool, List};
    ghost use Rattle.ir_core.specs.declared.expressions.Reg.{Reg};
    ghost use Rattle.ir_core.specs.declared.operands.Operand.{Operand};
    ghost use Rattle.erhl_assert.specs.declared.facts.Fact.{Fact};

    ghost leaves: { Self → List Fact → Operand Reg → Bool };

    /// Whether it leaves what is loaded from the pointer.
    fn leaves(&self, shields: &IndexSet<Fact>, pointer: &Operand<Reg>) -> bool
        ensures { result ≡ leaves self.now shields.now.keys pointer.now };
}

/// A store through the address, with what is known of that before any load is looked at.
#[derive(Drop, Clone, Copy)]
pub(crate) struct Store<'a> {
    pub(crate) address: &'a Operand<Reg>,
    /// Whether it is known that the address is a unique register.
    pub(crate) is_unique: bool,
    /// Whether the address is a register of now, or a constant.
    pub(crate) is_now_or_constant: bool,
    /// Whether a fact may part two operands.
    pub(crate) may_part: bool,
}

impl<'a> Change for Store<'a> {
    ghost leaves = { λ store fs p. spec.spares_by store.is_unique store.is_now_or_constant store.may_part fs store.address.now p };

    fn leaves(&self, shields: &IndexSet<Fact>, pointer: &Operand<Reg>) -> bool {
        is_other(&self.address.atom, &pointer.atom)
            && ((self.is_unique && is_now_or_constant(&pointer.atom))
                || (self.is_now_or_constant && is_unique(&pointer.atom, shields))
                || (self.may_part && are_no_aliases(pointer, self.address, shields)))
    }
}

/// A call.
#[derive(Drop, Clone, Copy)]
pub(crate) struct Call;

impl Change for Call {
    ghost leaves = { λ _ fs p. kills.is_private fs p.atom };

    fn leaves(&self, shields: &IndexSet<Fact>, pointer: &Operand<Reg>) -> bool {
        is_private(&pointer.atom, shields)
    }
}

fn leaves_expr<C: Change>(change: &C, shields: &IndexSet<Fact>, expr: &Expr0) -> bool
    ensures { result ≡ list_all (C.leaves change.now shields.now.keys) (kills.loads_in expr.now) }
{
    match expr {
        Expr::Load(load) => change.leaves(shields, &load.pointer),
        _ => true,
    }
}

#[tactic(auto, using(crate::proofs::Shielding::all_of_two))]
fn leaves_both<C: Change>(change: &C, shields: &IndexSet<Fact>, a: &Expr0, b: &Expr0) -> bool
    ensures { result ≡ list_all (C.leaves change.now shields.now.keys) (kills.loads_in a.now ++ kills.loads_in b.now) }
{
    leaves_expr(change, shields, a) && leaves_expr(change, shields, b)
}

/// Whether the change leaves each load of the fact.
fn leaves_fact<C: Change>(change: &C, shields: &IndexSet<Fact>, fact: &Fact) -> bool
    ensures { result ≡ list_all (C.leaves change.now shields.now.keys) (kills.loads_of fact.now) }
{
    match fact {
        Fact::LessDef(a, b) | Fact::NoAlias(a, b) => leaves_both(change, shields, a, b),
        Fact::Ok(address, _, _) => leaves_expr(change, shields, address),
        Fact::Unique(_) | Fact::Private(_) => true,
    }
}

/// Whether the change leaves each load of each fact.
fn leaves_all<C: Change>(change: &C, shields: &IndexSet<Fact>, facts: &[Fact]) -> bool
    ensures { result ≡ list_all (λ (f : Fact). list_all (C.leaves change.now shields.now.keys) (kills.loads_of f)) facts.now }
{
    facts.iter().all(|fact| leaves_fact(change, shields, fact))
}

/// Takes out the facts of which the change doesn't leave each load. None is moved, where it leaves all.
pub(crate) fn keep_left<C: Change>(change: &C, shields: &IndexSet<Fact>, facts: &mut IndexSet<Fact>)
    ensures { facts.new.keys ≡ kills.with_loads (C.leaves change.now shields.now.keys) facts.old.keys }
{
    if !leaves_all(change, shields, facts.as_slice()) {
        facts.retain(|fact| leaves_fact(change, shields, fact));
    }
}

/// Puts a fact that shields at the end of both, where it isn't there yet.
#[tactic(auto, using(crate::proofs::ErhlSides::Once::left_with))]
pub(crate) fn add_shield(
    alloc: Global,
    fact: Fact,
    facts: &mut IndexSet<Fact>,
    some: &mut IndexSet<Fact>,
) -> Result<(), AllocError>
    requires shields { spec.shields fact ≡ true }
    requires before { some.old.keys ≡ filter spec.shields facts.old.keys }
    ensures ok { OnOk result (facts.new.keys ≡ with_fact fact facts.old.keys) }
    ensures err { OnErr result (facts.new.keys ≡ facts.old.keys) }
    ensures all { some.new.keys ≡ filter spec.shields facts.new.keys }
{
    if facts.contains(&fact) {
        return Ok(());
    }
    let shield = fact.copy(alloc)?;
    some.reserve(1)?;
    facts.insert(fact)?;
    some.insert(shield)?;
    Ok(())
}
