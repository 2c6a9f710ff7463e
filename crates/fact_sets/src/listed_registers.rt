//! The registers of a list, made findable once and lent.
//!
//! Speed alone beside the list: a function's blocks share one, and none of them copies or hashes it (`check-differ` of `bench/count.py`).
ghost use Rattle.std.specs.Prelude.{◌≡◌, [], IfOk, OnOk, Option, ℕ, true};
ghost use Rattle.std.specs.List.{list_any, position};
ghost use Rattle.ir_core.specs.declared.expressions.Reg.{Reg};
ghost use Rattle.ir_core.specs.declared.expressions.Reg.TheVariants.{Now};
ghost use Rattle.ir_core.specs.Same.{same_reg};
ghost use Rattle.erhl_assert.specs.Edges.{is_old};
ghost use Rattle.erhl_assert.specs.Sides.{has_reg};
ghost use Rattle.fact_sets.specs.Places.{is_ghost, place_in_kind, placed, ArePlaced};

use contents::{Exact, Seq};
use ir_core::{Name, PlaceIndex, Reg};
use std::alloc::{AllocError, Global};
use std::marker::Model;

/// Where registers stand, found by hash: those of a function as they are now, those as they were, and ghost registers.
struct Places<'a> {
    current: PlaceIndex<'a>,
    former: PlaceIndex<'a>,
    ghosts: PlaceIndex<'a>,
}

impl<'a> Drop for Places<'a> {
    fn drop(self) {
        let Places {
            current: _,
            former: _,
            ghosts: _,
        } = self;
    }
}

impl<'a> Places<'a> {
    /// No register has a place, and there is room for so many of now.
    #[tactic(auto, using(crate::proofs::Placing::none_placed))]
    fn with_room(alloc: Global, registers: usize) -> Result<Places<'a>, AllocError>
        ensures { IfOk result (λ places. ArePlaced places []) }
    {
        Ok(Places {
            current: PlaceIndex::with_room(alloc, registers)?,
            former: PlaceIndex::with_room(alloc, 0)?,
            ghosts: PlaceIndex::with_room(alloc, 0)?,
        })
    }

    /// The register has this place, and no other one.
    #[tactic(auto, using(crate::proofs::Placing::put_now, crate::proofs::Placing::put_old, crate::proofs::Placing::put_ghost))]
    fn put(&mut self, register: &'a Reg, place: usize) -> Result<(), AllocError>
        ensures { OnOk result
            ((other : Reg) → place_in_kind self.new other ≡ placed register.now place (place_in_kind self.old) other) }
    {
        match register {
            Reg::Now(name) => self.current.put(name, place),
            Reg::Old(name) => self.former.put(name, place),
            Reg::Ghost(name) => self.ghosts.put(name, place),
        }
    }

    /// The place of the register, if it has one.
    fn position(&self, register: &Reg) -> Option<usize>
        ensures { result ≡ place_in_kind self.now register.now }
    {
        match register {
            Reg::Now(name) => self.current.position(name),
            Reg::Old(name) => self.former.position(name),
            Reg::Ghost(name) => self.ghosts.position(name),
        }
    }
}

/// Where each of the registers stands first.
fn places_of<'a>(alloc: Global, registers: &'a [Reg]) -> Result<Places<'a>, AllocError>
    ensures { IfOk result (λ places. ArePlaced places registers.now) }
{
    let mut places = Places::with_room(alloc, registers.len())?;
    let mut at = registers.len();
    while at > 0 {
        at -= 1;
        places.put(&registers[at], at)?;
    }
    Ok(places)
}

fn some_old(registers: &[Reg]) -> bool
    ensures { result ≡ list_any is_old registers.now }
{
    registers
        .iter()
        .any(|register| matches!(register, Reg::Old(_)))
}

fn some_ghost(registers: &[Reg]) -> bool
    ensures { result ≡ list_any is_ghost registers.now }
{
    registers
        .iter()
        .any(|register| matches!(register, Reg::Ghost(_)))
}

/// A list of registers, of which one is found by hash.
pub struct ListedRegisters<'a> {
    registers: &'a Seq<Reg>,
    places: Places<'a>,
    has_old: bool,
    has_ghosts: bool,
}

impl<'a> Model for ListedRegisters<'a> {
    ghost use Rattle.std.specs.Prelude.{◌≡◌, List};
    ghost use Rattle.std.specs.List.{list_any};
    ghost use Rattle.ir_core.specs.declared.expressions.Reg.{Reg};
    ghost use Rattle.erhl_assert.specs.Edges.{is_old};
    ghost use Rattle.fact_sets.specs.Places.{is_ghost, ArePlaced};

    ghost Value = { List Reg };

    ghost view = { λ it. it.registers.now };

    ghost invariant = { λ it. ArePlaced it.places it.registers.now
        × (it.has_old ≡ list_any is_old it.registers.now)
        × (it.has_ghosts ≡ list_any is_ghost it.registers.now) };
}

impl<'a> Drop for ListedRegisters<'a> {
    fn drop(self) {
        let ListedRegisters {
            registers: _,
            places: _,
            has_old: _,
            has_ghosts: _,
        } = self;
    }
}

impl<'a> ListedRegisters<'a> {
    pub fn of(alloc: Global, registers: &'a Seq<Reg>) -> Result<ListedRegisters<'a>, AllocError>
        ensures { IfOk result (λ listed. listed ≡ registers.now) }
    {
        let places = places_of(alloc, registers.as_slice())?;
        let has_old = some_old(registers.as_slice());
        let has_ghosts = some_ghost(registers.as_slice());
        Ok(ListedRegisters {
            registers,
            places,
            has_old,
            has_ghosts,
        })
    }

    /// The list itself.
    pub fn registers(&self) -> &'a Seq<Reg>
        ensures { result.now ≡ self.now }
    {
        self.registers
    }

    /// Where the register stands first.
    #[tactic(auto, using(crate::proofs::Placing::is_placed))]
    fn position(&self, register: &Reg) -> Option<usize>
        ensures { result ≡ position (same_reg register.now) self.now }
    {
        self.places.position(register)
    }

    /// Where the register of now stands first.
    #[tactic(auto, using(crate::proofs::Placing::is_placed_now))]
    fn position_now(&self, name: &Name) -> Option<usize>
        ensures { result ≡ position (same_reg (Now name.now)) self.now }
    {
        self.places.current.position(name)
    }

    fn has_old(&self) -> bool
        ensures { result ≡ list_any is_old self.now }
    {
        self.has_old
    }

    fn has_ghosts(&self) -> bool
        ensures { result ≡ list_any is_ghost self.now }
    {
        self.has_ghosts
    }
}

/// A list of registers that is lent, or none of them.
pub struct LentRegisters<'l, 'a> {
    list: Option<&'l ListedRegisters<'a>>,
}

impl<'l, 'a> Model for LentRegisters<'l, 'a> {
    ghost use Rattle.std.specs.Prelude.{List};
    ghost use Rattle.ir_core.specs.declared.expressions.Reg.{Reg};
    ghost use Rattle.fact_sets.specs.Places.{lent};

    ghost Value = { List Reg };

    ghost view = { λ it. lent it.list };
}

impl<'l, 'a> Drop for LentRegisters<'l, 'a> {
    fn drop(self) {
        let LentRegisters { list: _ } = self;
    }
}

impl<'l, 'a> LentRegisters<'l, 'a> {
    pub fn none() -> LentRegisters<'l, 'a>
        ensures { result ≡ [] }
    {
        LentRegisters { list: None }
    }

    pub fn of(list: &'l ListedRegisters<'a>) -> LentRegisters<'l, 'a>
        ensures { result ≡ list.now }
    {
        LentRegisters { list: Some(list) }
    }

    /// The same list once more.
    pub fn again(&self) -> LentRegisters<'l, 'a>
        ensures { result ≡ self.now }
    {
        LentRegisters { list: self.list }
    }

    pub(crate) fn as_slice(&self) -> &'a [Reg]
        ensures { result.now ≡ self.now }
    {
        match self.list {
            Some(list) => list.registers().as_slice(),
            None => &[],
        }
    }

    /// Where the register stands first.
    pub(crate) fn position(&self, register: &Reg) -> Option<usize>
        ensures { result ≡ position (same_reg register.now) self.now }
    {
        match self.list {
            Some(list) => list.position(register),
            None => None,
        }
    }

    /// Where the register of now stands first.
    pub(crate) fn position_now(&self, name: &Name) -> Option<usize>
        ensures { result ≡ position (same_reg (Now name.now)) self.now }
    {
        match self.list {
            Some(list) => list.position_now(name),
            None => None,
        }
    }

    #[tactic(auto, using(crate::proofs::Placing::found, crate::proofs::Placing::not_found))]
    pub(crate) fn has(&self, register: &Reg) -> bool
        ensures { result ≡ has_reg register.now self.now }
    {
        match self.position(register) {
            Some(_) => true,
            None => false,
        }
    }

    pub(crate) fn has_old(&self) -> bool
        ensures { result ≡ list_any is_old self.now }
    {
        match self.list {
            Some(list) => list.has_old(),
            None => false,
        }
    }

    pub(crate) fn has_ghosts(&self) -> bool
        ensures { result ≡ list_any is_ghost self.now }
    {
        match self.list {
            Some(list) => list.has_ghosts(),
            None => false,
        }
    }

    /// Whether both are the same list.
    pub(crate) fn is_same(&self, other: &LentRegisters<'_, '_>) -> bool
        ensures { result ≡ true → self.now ≡ other.now }
    {
        match (self.list, other.list) {
            (Some(list), Some(other)) => list.registers().is(other.registers()),
            (None, None) => true,
            (Some(_), None) | (None, Some(_)) => false,
        }
    }
}
