//! What a kill asks for, as a key by which the fact is found in a set without a copy of it.
ghost use Rattle.std.specs.Prelude.{◌≡◌};
ghost use Rattle.std.specs.List.{fold};
ghost use Rattle.ir_core.specs.declared.expressions.Expr.TheVariants.{Plain};
ghost use Rattle.erhl_assert.specs.declared.facts.Fact.TheVariants.{Unique, Private, NoAlias};
ghost use Rattle.erhl_assert.specs.Facts.{same_fact};
ghost use Rattle.erhl_assert.specs.Hashed.{hashed_atom};

use erhl_assert::{Fact, bare_name};
use indexmap::Equivalent;
use ir_core::{Atom, Const, Expr, Operand, Reg, same_reg, same_reg_operand};
use std::hash::{Hash, Hasher};

/// A fact of which a kill asks whether it is known: that a register is unique, that it is private, or that the first operand isn't an
/// alias of the second.
#[derive(Drop, Clone, Copy)]
pub(crate) enum FactKey<'a> {
    Unique(&'a Reg),
    Private(&'a Reg),
    NoAlias(&'a Operand<Reg>, &'a Operand<Reg>),
}

/// Whether the fact is that the register is unique.
fn is_unique_of(register: &Reg, fact: &Fact) -> bool
    ensures { result ≡ same_fact (Unique register.now) fact.now }
{
    match fact {
        Fact::Unique(other) => same_reg(register, other),
        _ => false,
    }
}

/// Whether the fact is that the register is private.
fn is_private_of(register: &Reg, fact: &Fact) -> bool
    ensures { result ≡ same_fact (Private register.now) fact.now }
{
    match fact {
        Fact::Private(other) => same_reg(register, other),
        _ => false,
    }
}

/// Whether the fact is that the first isn't an alias of the second.
fn is_no_alias_of(p: &Operand<Reg>, q: &Operand<Reg>, fact: &Fact) -> bool
    ensures { result ≡ same_fact (NoAlias (Plain p.now) (Plain q.now)) fact.now }
{
    match fact {
        Fact::NoAlias(Expr::Plain(a), Expr::Plain(b)) => {
            same_reg_operand(p, a) && same_reg_operand(q, b)
        }
        _ => false,
    }
}

/// As an atom of a fact is hashed.
fn feed_atom<H: Hasher>(atom: &Atom<Reg>, state: &mut H)
    ensures { state.new ≡ fold H.write state.old (hashed_atom atom.now) }
{
    match atom {
        Atom::Constant(Const::Number(number)) => number.get().hash(state),
        Atom::Constant(_) => {}
        Atom::Register(register) => bare_name(register).hash(state),
    }
}

impl<'a> PartialEq for FactKey<'a> {
    ghost use Rattle.std.specs.Cmp as cmp;
    ghost use Rattle.erhl_assert.specs.Facts.{same_fact};
    ghost use Rattle.erhl_assert.specs.FactLaws.{fact_equivalence};
    ghost use Rattle.fact_sets.specs.Shields.{fact_of};

    ghost eq = { λ a b. same_fact (fact_of a) (fact_of b) };

    ghost laws = { cmp.on_per fact_of (cmp.partial_equiv_from_equiv fact_equivalence) };

    fn eq(&self, other: &FactKey<'a>) -> bool {
        match (self, other) {
            (FactKey::Unique(r), FactKey::Unique(s)) => same_reg(r, s),
            (FactKey::Private(r), FactKey::Private(s)) => same_reg(r, s),
            (FactKey::NoAlias(p, q), FactKey::NoAlias(a, b)) => {
                same_reg_operand(p, a) && same_reg_operand(q, b)
            }
            _ => false,
        }
    }
}

impl<'a> Eq for FactKey<'a> {
    ghost use Rattle.std.specs.Cmp as cmp;
    ghost use Rattle.erhl_assert.specs.FactLaws.{fact_equivalence};
    ghost use Rattle.fact_sets.specs.Shields.{fact_of};

    ghost laws = { cmp.on_equiv fact_of fact_equivalence };
}

impl<'a> Hash for FactKey<'a> {
    ghost use Rattle.std.proofs.Common.{ap};
    ghost use Rattle.erhl_assert.specs.Hashed.{hashed_fact};
    ghost use Rattle.erhl_assert.specs.FactLaws.{same_fact_true};
    ghost use Rattle.fact_sets.specs.Shields.{fact_of};

    ghost hash_input = { λ key. hashed_fact (fact_of key) };

    ghost respects_eq = { λ a b same. ap hashed_fact (same_fact_true (fact_of a) (fact_of b) same) };

    fn hash<H: Hasher>(&self, state: &mut H) {
        match self {
            FactKey::Unique(register) | FactKey::Private(register) => {
                bare_name(register).hash(state)
            }
            FactKey::NoAlias(p, q) => {
                feed_atom(&p.atom, state);
                feed_atom(&q.atom, state);
            }
        }
    }
}

impl<'a> Equivalent<Fact> for FactKey<'a> {
    ghost use Rattle.std.proofs.Common.{ap};
    ghost use Rattle.erhl_assert.specs.Facts.{same_fact};
    ghost use Rattle.erhl_assert.specs.Hashed.{hashed_fact};
    ghost use Rattle.erhl_assert.specs.FactLaws.{fact_equivalence, same_fact_true};
    ghost use Rattle.fact_sets.specs.Shields.{fact_of};

    ghost equivalent = { λ key fact. same_fact (fact_of key) fact };

    ghost respects_hash = { λ key fact same. ap hashed_fact (same_fact_true (fact_of key) fact same) };

    ghost respects_eq = { λ key. fact_equivalence.congr (fact_of key) };

    fn equivalent(&self, fact: &Fact) -> bool {
        match self {
            FactKey::Unique(register) => is_unique_of(register, fact),
            FactKey::Private(register) => is_private_of(register, fact),
            FactKey::NoAlias(p, q) => is_no_alias_of(p, q, fact),
        }
    }
}
