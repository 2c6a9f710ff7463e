//! What is left of a list of registers that is lent.
ghost use Rattle.std.specs.Prelude.{◌≡◌, ◌<◌, ◌++◌, ◌&&◌, [], ◌∷◌, cond, true, false, filter, length, get_or, IfOk, IfSome, OnOk};
ghost use Rattle.std.specs.List.{list_any};
ghost use Rattle.ir_core.specs.declared.expressions.Reg.TheVariants.{Now};
ghost use Rattle.erhl_assert.specs.Edges.{is_old};
ghost use Rattle.erhl_assert.specs.Sides.{has_reg};
ghost use Rattle.erhl_assert.specs.Postcondition.{without_reg};
ghost use Rattle.fact_sets.specs.ErhlSides.Differing.{is_left_over};
ghost use Rattle.fact_sets.specs.Places.{is_left, is_left_at, is_ghost, gone_at};

use crate::listed_registers::LentRegisters;
use contents::{Exact, Seq};
use ir_core::{Name, Reg};
use std::alloc::{AllocError, Global};
use std::marker::Model;

fn is_gone(k: usize, gone: &[bool]) -> bool
    ensures { result ≡ get_or gone.now k false }
{
    if let Some(is_gone) = gone.get(k) {
        return *is_gone;
    }
    false
}

/// Whether what has this place is left, where those of these places are gone.
fn is_left_at(place: Option<usize>, gone: &[bool]) -> bool
    ensures { result ≡ is_left_at place gone.now }
{
    match place {
        Some(k) => !is_gone(k, gone),
        None => false,
    }
}

/// What has this place goes.
fn go_at(place: Option<usize>, gone: &mut Vec<bool>)
    requires { IfSome place (λ k. k < length gone.old.items) }
    ensures { gone.new.items ≡ gone_at place gone.old.items }
{
    if let Some(k) = place {
        gone[k] = true;
    }
}

fn is_left(list: &LentRegisters<'_, '_>, gone: &[bool], register: &Reg) -> bool
    ensures { result ≡ is_left list.now gone.now register.now }
{
    is_left_at(list.position(register), gone)
}

/// Adds the register, if it is left.
#[tactic(auto, using(crate::proofs::Lent::is_put, crate::proofs::Lent::is_not_put))]
fn put_one(
    alloc: Global,
    list: &LentRegisters<'_, '_>,
    gone: &[bool],
    register: &Reg,
    all: &mut Seq<Reg>,
) -> Result<(), AllocError>
    ensures { OnOk result (all.new ≡ all.old ++ cond (is_left list.now gone.now register.now) (register.now ∷ []) []) }
{
    if is_left(list, gone, register) {
        all.push(register.copy(alloc)?)
    } else {
        Ok(())
    }
}

/// The registers that are left.
#[tactic(auto, using(crate::proofs::Lent::put_on))]
fn all_left(
    alloc: Global,
    list: &LentRegisters<'_, '_>,
    gone: &[bool],
) -> Result<Seq<Reg>, AllocError>
    ensures { IfOk result (λ all. all ≡ filter (is_left list.now gone.now) list.now) }
{
    let mut all = Seq::new(alloc);
    for register in list.as_slice() {
        put_one(alloc, list, gone, register, &mut all)?;
    }
    Ok(all)
}

/// Whether the register may differ, is not old and isn't wanted.
pub(crate) fn is_left_over(wanted: &LentRegisters<'_, '_>, register: &Reg) -> bool
    ensures { result ≡ is_left_over wanted.now register.now }
{
    !matches!(register, Reg::Old(_)) && !wanted.has(register)
}

/// Whether one of the registers that are left is left over.
fn some_left_over(
    list: &LentRegisters<'_, '_>,
    gone: &[bool],
    wanted: &LentRegisters<'_, '_>,
) -> bool
    ensures { result ≡ list_any (λ r. is_left_over wanted.now r && is_left list.now gone.now r) list.now }
{
    for register in list.as_slice() {
        if is_left_over(wanted, register) && is_left(list, gone, register) {
            return true;
        }
    }
    false
}

/// The registers that are left of a lent list.
pub(crate) struct LeftRegisters<'l, 'a> {
    list: LentRegisters<'l, 'a>,
    /// Of each place whether the register that stands there first is gone.
    gone: Vec<bool>,
}

impl<'l, 'a> Model for LeftRegisters<'l, 'a> {
    ghost use Rattle.std.specs.Prelude.{◌≡◌, List, length};
    ghost use Rattle.ir_core.specs.declared.expressions.Reg.{Reg};
    ghost use Rattle.fact_sets.specs.Places.{left_of};

    ghost Value = { List Reg };

    ghost view = { λ it. left_of it.list it.gone.items };

    ghost invariant = { λ it. length it.gone.items ≡ length it.list };
}

impl<'l, 'a> Drop for LeftRegisters<'l, 'a> {
    fn drop(self) {
        let LeftRegisters { list: _, gone: _ } = self;
    }
}

impl<'l, 'a> LeftRegisters<'l, 'a> {
    #[tactic(auto, using(crate::proofs::Lent::none_left))]
    pub(crate) fn none(alloc: Global) -> LeftRegisters<'l, 'a>
        ensures { result ≡ [] }
    {
        LeftRegisters {
            list: LentRegisters::none(),
            gone: Vec::new(alloc),
        }
    }

    #[tactic(auto, using(crate::proofs::Lent::all_are_left))]
    pub(crate) fn of(
        alloc: Global,
        list: LentRegisters<'l, 'a>,
    ) -> Result<LeftRegisters<'l, 'a>, AllocError>
        ensures { IfOk result (λ left. left ≡ list.entry) }
    {
        let gone = vec![in alloc; false; list.as_slice().len()]?;
        Ok(LeftRegisters { list, gone })
    }

    pub(crate) fn again(&self, alloc: Global) -> Result<LeftRegisters<'l, 'a>, AllocError>
        ensures { IfOk result (λ left. left ≡ self.now) }
    {
        let mut gone = Vec::new(alloc);
        gone.extend_from_slice(self.gone.as_slice())?;
        Ok(LeftRegisters {
            list: self.list.again(),
            gone,
        })
    }

    #[tactic(auto, using(crate::proofs::Lent::has_left))]
    pub(crate) fn has(&self, register: &Reg) -> bool
        ensures { result ≡ has_reg register.now self.now }
    {
        is_left(&self.list, self.gone.as_slice(), register)
    }

    /// Whether the register of now is left.
    #[tactic(auto, using(crate::proofs::Lent::has_left))]
    pub(crate) fn has_now(&self, name: &Name) -> bool
        ensures { result ≡ has_reg (Now name.now) self.now }
    {
        is_left_at(self.list.position_now(name), self.gone.as_slice())
    }

    /// Takes out the register.
    #[tactic(auto, using(crate::proofs::Lent::is_within, crate::proofs::Lent::as_many, crate::proofs::Lent::one_gone))]
    pub(crate) fn remove(&mut self, register: &Reg)
        ensures { self.new ≡ without_reg register.now self.old }
    {
        let place = self.list.position(register);
        go_at(place, &mut self.gone);
    }

    /// Takes out the register of now.
    #[tactic(auto, using(crate::proofs::Lent::is_within, crate::proofs::Lent::as_many, crate::proofs::Lent::one_gone))]
    pub(crate) fn remove_now(&mut self, name: &Name)
        ensures { self.new ≡ without_reg (Now name.now) self.old }
    {
        let place = self.list.position_now(name);
        go_at(place, &mut self.gone);
    }

    /// Whether there is no list.
    #[tactic(auto, using(crate::proofs::Lent::nothing_left))]
    pub(crate) fn is_none(&self) -> bool
        ensures { result ≡ true → self.now ≡ [] }
    {
        self.list.as_slice().is_empty()
    }

    /// All that are left.
    #[tactic(auto, using(crate::proofs::Lent::are_left))]
    pub(crate) fn all(&self, alloc: Global) -> Result<Seq<Reg>, AllocError>
        ensures { IfOk result (λ all. all ≡ self.now) }
    {
        all_left(alloc, &self.list, self.gone.as_slice())
    }

    /// Whether an old one may be among them.
    #[tactic(auto, using(crate::proofs::Lent::none_of_them))]
    pub(crate) fn may_have_old(&self) -> bool
        ensures { result ≡ false → list_any is_old self.now ≡ false }
    {
        self.list.has_old()
    }

    /// Whether a ghost register may be among them.
    #[tactic(auto, using(crate::proofs::Lent::none_of_them))]
    pub(crate) fn may_have_ghosts(&self) -> bool
        ensures { result ≡ false → list_any is_ghost self.now ≡ false }
    {
        self.list.has_ghosts()
    }

    /// Whether one of them is left over. The list that is wanted itself leaves none.
    #[tactic(auto, using(crate::proofs::Lent::none_over_itself, crate::proofs::Lent::some_over))]
    pub(crate) fn has_left_over(&self, wanted: &LentRegisters<'_, '_>) -> bool
        ensures { result ≡ list_any (is_left_over wanted.now) self.now }
    {
        if self.list.is_same(wanted) {
            return false;
        }
        some_left_over(&self.list, self.gone.as_slice(), wanted)
    }
}
