//! Registers that may differ: what is left of a lent list, what it was before an edge, and what was added.
//!
//! Speed alone beside a list: a block takes time by what it adds and takes out, not by its list (`check-differ` of `bench/count.py`).
ghost use Rattle.std.specs.Prelude.{◌≡◌, ◌++◌, [], ◌∷◌, false, not, filter, map, IfOk, OnOk};
ghost use Rattle.std.specs.List.{list_any};
ghost use Rattle.ir_core.specs.declared.expressions.Reg.TheVariants.{Now};
ghost use Rattle.erhl_assert.specs.Edges.{is_old, old_of, old_too};
ghost use Rattle.erhl_assert.specs.Sides.{has_reg};
ghost use Rattle.erhl_assert.specs.Postcondition.{with_reg, without_reg};
ghost use Rattle.fact_sets.specs.ErhlSides.Differing.{is_left_over};

use crate::added_facts::old_register;
use crate::added_registers::AddedRegisters;
use crate::left_registers::{LeftRegisters, is_left_over};
use crate::listed_registers::LentRegisters;
use contents::{Exact, Seq};
use ir_core::{Name, Reg};
use std::alloc::{AllocError, Global};
use std::marker::Model;

/// A list of registers, of which one is found by hash: what is left of a lent list and registers behind it; the same of a lent list as it
/// was before an edge, each made old; and registers behind that.
pub struct RegisterSet<'l, 'a> {
    kept: LeftRegisters<'l, 'a>,
    added: AddedRegisters,
    before: LeftRegisters<'l, 'a>,
    behind: AddedRegisters,
}

impl<'l, 'a> Model for RegisterSet<'l, 'a> {
    ghost use Rattle.std.specs.Prelude.{◌++◌, List, map};
    ghost use Rattle.ir_core.specs.declared.expressions.Reg.{Reg};
    ghost use Rattle.erhl_assert.specs.Edges.{old_of};

    ghost Value = { List Reg };

    ghost view = { λ it. it.kept ++ it.added ++ map old_of it.before ++ it.behind };
}

impl<'l, 'a> Drop for RegisterSet<'l, 'a> {
    fn drop(self) {
        let RegisterSet {
            kept: _,
            added: _,
            before: _,
            behind: _,
        } = self;
    }
}

fn is_old(register: &Reg) -> bool
    ensures { result ≡ is_old register.now }
{
    matches!(register, Reg::Old(_))
}

/// Adds the register, if it isn't old.
#[tactic(auto, using(crate::proofs::Crossed::young_put, crate::proofs::Crossed::old_not_put))]
fn put_young(alloc: Global, register: &Reg, young: &mut Seq<Reg>) -> Result<(), AllocError>
    ensures { OnOk result (young.new ≡ young.old ++ filter (λ r. not (is_old r)) (register.now ∷ [])) }
{
    if is_old(register) {
        return Ok(());
    }
    young.push(register.copy(alloc)?)
}

/// Those that aren't old.
#[tactic(auto, using(crate::proofs::Crossed::young_on))]
fn all_young(alloc: Global, registers: &[Reg]) -> Result<Seq<Reg>, AllocError>
    ensures { IfOk result (λ young. young ≡ filter (λ r. not (is_old r)) registers.now) }
{
    let mut young = Seq::new(alloc);
    for register in registers {
        put_young(alloc, register, &mut young)?;
    }
    Ok(young)
}

/// The registers as they were before the edge.
fn all_old(alloc: Global, registers: &[Reg]) -> Result<Seq<Reg>, AllocError>
    ensures { IfOk result (λ old. old ≡ map old_of registers.now) }
{
    let mut old = Seq::new(alloc);
    for register in registers {
        old.push(old_register(alloc, register)?)?;
    }
    Ok(old)
}

/// Puts registers behind others.
fn put_all(alloc: Global, registers: &[Reg], all: &mut Seq<Reg>) -> Result<(), AllocError>
    ensures { OnOk result (all.new ≡ all.old ++ registers.now) }
{
    for register in registers {
        all.push(register.copy(alloc)?)?;
    }
    Ok(())
}

/// Whether the register is one of these as they were before the edge.
#[tactic(auto, using(crate::proofs::Crossed::has_no_now, crate::proofs::Crossed::has_as_old, crate::proofs::Crossed::has_ghost))]
fn has_before(before: &LeftRegisters<'_, '_>, register: &Reg) -> bool
    ensures { result ≡ has_reg register.now (map old_of before.now) }
{
    match register {
        Reg::Now(_) => false,
        Reg::Old(name) => before.has_now(name) || before.has(register),
        Reg::Ghost(_) => before.has(register),
    }
}

/// Takes the register out of these as they were before the edge.
#[tactic(auto, using(crate::proofs::Crossed::now_stays, crate::proofs::Crossed::old_leaves, crate::proofs::Crossed::ghost_leaves))]
fn remove_before(before: &mut LeftRegisters<'_, '_>, register: &Reg)
    ensures { map old_of before.new ≡ without_reg register.now (map old_of before.old) }
{
    match register {
        Reg::Now(_) => {}
        Reg::Old(name) => {
            before.remove_now(name);
            before.remove(register);
        }
        Reg::Ghost(_) => before.remove(register),
    }
}

/// Whether one of these as they were before the edge may be left over: only ghost registers aren't old then.
#[tactic(auto, using(crate::proofs::Crossed::none_before_over, crate::proofs::Crossed::none_over_before))]
fn may_be_over_before(before: &LeftRegisters<'_, '_>, wanted: &LentRegisters<'_, '_>) -> bool
    ensures { result ≡ false → list_any (is_left_over wanted.now) (map old_of before.now) ≡ false }
{
    before.may_have_ghosts() && before.has_left_over(wanted)
}

fn some_left_over(wanted: &LentRegisters<'_, '_>, registers: &[Reg]) -> bool
    ensures { result ≡ list_any (is_left_over wanted.now) registers.now }
{
    registers
        .iter()
        .any(|register| is_left_over(wanted, register))
}

/// What may differ behind an edge, but for its phis, of what may where these and then those may before it.
fn over_edge<'l, 'a>(
    alloc: Global,
    kept: LeftRegisters<'l, 'a>,
    before: LeftRegisters<'l, 'a>,
    rest: &[Reg],
) -> Result<RegisterSet<'l, 'a>, AllocError>
    ensures { IfOk result
        (λ set. set
        ≡ kept.entry ++ filter (λ r. not (is_old r)) rest.now ++ map old_of before.entry ++ map old_of (filter (λ r. not (is_old r)) rest.now)) }
{
    let young = all_young(alloc, rest)?;
    let old = all_old(alloc, young.as_slice())?;
    Ok(RegisterSet {
        kept,
        added: AddedRegisters::of(alloc, young)?,
        before,
        behind: AddedRegisters::of(alloc, old)?,
    })
}

impl<'l, 'a> RegisterSet<'l, 'a> {
    /// The registers of the lent list.
    #[tactic(auto, using(crate::proofs::Crossed::kept_alone))]
    pub fn lent(
        alloc: Global,
        list: LentRegisters<'l, 'a>,
    ) -> Result<RegisterSet<'l, 'a>, AllocError>
        ensures { IfOk result (λ set. set ≡ list.entry) }
    {
        Ok(RegisterSet {
            kept: LeftRegisters::of(alloc, list)?,
            added: AddedRegisters::none(alloc),
            before: LeftRegisters::none(alloc),
            behind: AddedRegisters::none(alloc),
        })
    }

    #[tactic(auto, using(crate::proofs::Crossed::has_in_four))]
    pub fn has(&self, register: &Reg) -> bool
        ensures { result ≡ has_reg register.now self.now }
    {
        self.kept.has(register)
            || self.added.has(register)
            || has_before(&self.before, register)
            || self.behind.has(register)
    }

    /// Whether the register of now is there.
    #[tactic(auto, using(crate::proofs::Crossed::has_now_in_three))]
    pub fn has_now(&self, name: &Name) -> bool
        ensures { result ≡ has_reg (Now name.now) self.now }
    {
        self.kept.has_now(name) || self.added.has_now(name) || self.behind.has_now(name)
    }

    /// Puts the register at the end, whether it is there or not.
    #[tactic(auto, using(crate::proofs::Crossed::one_behind))]
    pub fn push(&mut self, alloc: Global, register: Reg) -> Result<(), AllocError>
        ensures { OnOk result (self.new ≡ self.old ++ register ∷ []) }
    {
        self.behind.push(alloc, register)
    }

    /// Puts the register at the end, where it isn't there yet.
    pub fn add(&mut self, alloc: Global, register: Reg) -> Result<(), AllocError>
        ensures { OnOk result (self.new ≡ with_reg register self.old) }
    {
        if self.has(&register) {
            return Ok(());
        }
        self.push(alloc, register)
    }

    /// Takes out the register.
    #[tactic(auto, using(crate::proofs::Crossed::without_in_four))]
    pub fn remove(&mut self, register: &Reg)
        ensures { self.new ≡ without_reg register.now self.old }
    {
        self.kept.remove(register);
        self.added.remove(register);
        remove_before(&mut self.before, register);
        self.behind.remove(register);
    }

    /// A list of all.
    pub fn all(&self, alloc: Global) -> Result<Seq<Reg>, AllocError>
        ensures { IfOk result (λ all. all ≡ self.now) }
    {
        let mut all = self.kept.all(alloc)?;
        put_all(alloc, self.added.as_slice(), &mut all)?;
        let before = self.before.all(alloc)?;
        let old = all_old(alloc, before.as_slice())?;
        put_all(alloc, old.as_slice(), &mut all)?;
        put_all(alloc, self.behind.as_slice(), &mut all)?;
        Ok(all)
    }

    /// The registers that aren't old, and then the same as they were before an edge.
    #[tactic(auto, using(crate::proofs::Crossed::kept_over, crate::proofs::Crossed::all_over))]
    pub fn old_too(&self, alloc: Global) -> Result<RegisterSet<'l, 'a>, AllocError>
        ensures { IfOk result (λ set. set ≡ old_too self.now) }
    {
        if self.before.is_none() && self.added.as_slice().is_empty() && !self.kept.may_have_old() {
            let kept = self.kept.again(alloc)?;
            let before = self.kept.again(alloc)?;
            let set = over_edge(alloc, kept, before, self.behind.as_slice())?;
            return Ok(set);
        }
        let all = self.all(alloc)?;
        let kept = LeftRegisters::none(alloc);
        let before = LeftRegisters::none(alloc);
        let set = over_edge(alloc, kept, before, all.as_slice())?;
        Ok(set)
    }

    /// Whether one may be left over: where none may, none is printed.
    #[tactic(auto, using(crate::proofs::Crossed::none_over_in_four))]
    pub(crate) fn may_be_over(&self, wanted: &LentRegisters<'_, '_>) -> bool
        ensures { result ≡ false → list_any (is_left_over wanted.now) self.now ≡ false }
    {
        self.kept.has_left_over(wanted)
            || some_left_over(wanted, self.added.as_slice())
            || may_be_over_before(&self.before, wanted)
            || some_left_over(wanted, self.behind.as_slice())
    }
}
