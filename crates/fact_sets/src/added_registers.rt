//! Registers of its own, of which one is found without a walk.
ghost use Rattle.std.specs.Prelude.{◌≡◌, [], ◌∷◌, ◌++◌, IfOk, OnOk, OnErr, not, filter};
ghost use Rattle.ir_core.specs.declared.expressions.Reg.TheVariants.{Now};
ghost use Rattle.erhl_assert.specs.Sides.{has_reg};
ghost use Rattle.std.specs.List.{list_any};
ghost use Rattle.ir_types.specs.Same.{same_name};
ghost use Rattle.erhl_assert.specs.Named.{name_of};
ghost use Rattle.erhl_assert.specs.Postcondition.{with_reg, without_reg};
ghost use Rattle.fact_sets.specs.Names.{of_kind, no_names, with_register, without_register, with_registers};

use contents::{Exact, Seq};
use erhl_assert::bare_name;
use indexmap::IndexSet;
use ir_core::{Name, Reg, same_name, same_reg};
use std::alloc::{AllocError, Global};
use std::marker::Model;

/// Names of registers, found by hash: of those of a function as they are now, of those as they were, and of ghost registers.
struct ByKind {
    current: IndexSet<Name>,
    former: IndexSet<Name>,
    ghosts: IndexSet<Name>,
}

impl Model for ByKind {
    ghost use Rattle.fact_sets.specs.Names.{Kinds};

    ghost Value = { Kinds };

    ghost view = { λ it. record { current = it.current.keys; former = it.former.keys; ghosts = it.ghosts.keys } };
}

impl Drop for ByKind {
    fn drop(self) {
        let ByKind {
            current: _,
            former: _,
            ghosts: _,
        } = self;
    }
}

/// A list of registers, of which one is found by hash.
pub(crate) struct AddedRegisters {
    registers: Vec<Reg>,
    /// The names of exactly these registers.
    names: ByKind,
}

impl Model for AddedRegisters {
    ghost use Rattle.std.specs.Prelude.{List};
    ghost use Rattle.ir_core.specs.declared.expressions.Reg.{Reg};
    ghost use Rattle.fact_sets.specs.Names.{AreListed};

    ghost Value = { List Reg };

    ghost view = { λ it. it.registers.items };

    ghost invariant = { λ it. AreListed it.names it.registers.items };
}

impl Drop for AddedRegisters {
    fn drop(self) {
        let AddedRegisters {
            registers: _,
            names: _,
        } = self;
    }
}

/// Whether the name is there. Mostly no register differs, and then no name is hashed.
fn is_among(name: &Name, names: &IndexSet<Name>) -> bool
    ensures { result ≡ list_any (same_name name.now) names.now.keys }
{
    !names.is_empty() && names.contains(name)
}

/// Takes out the name.
fn take_out(name: &Name, names: &mut IndexSet<Name>)
    ensures { names.new.keys ≡ filter (λ n. not (same_name name.now n)) names.old.keys }
{
    names.retain(|other| !same_name(name, other));
}

impl ByKind {
    fn none(alloc: Global) -> ByKind
        ensures { result ≡ no_names }
    {
        ByKind {
            current: IndexSet::new(alloc),
            former: IndexSet::new(alloc),
            ghosts: IndexSet::new(alloc),
        }
    }

    /// Whether the register's name is among those of its kind.
    fn has(&self, register: &Reg) -> bool
        ensures { result ≡ list_any (same_name (name_of register.now)) (of_kind register.now self.now) }
    {
        match register {
            Reg::Now(name) => is_among(name, &self.current),
            Reg::Old(name) => is_among(name, &self.former),
            Reg::Ghost(name) => is_among(name, &self.ghosts),
        }
    }

    /// Whether the name is that of a register as it is now.
    fn has_current(&self, name: &Name) -> bool
        ensures { result ≡ list_any (same_name name.now) self.now.current }
    {
        is_among(name, &self.current)
    }

    /// Puts the register's name among those of its kind.
    fn add(&mut self, alloc: Global, register: &Reg) -> Result<(), AllocError>
        ensures ok { OnOk result (self.new ≡ with_register register.now self.old) }
        ensures err { OnErr result (self.new ≡ self.old) }
    {
        match register {
            Reg::Now(name) => {
                self.current.insert(name.copy(alloc)?)?;
            }
            Reg::Old(name) => {
                self.former.insert(name.copy(alloc)?)?;
            }
            Reg::Ghost(name) => {
                self.ghosts.insert(name.copy(alloc)?)?;
            }
        }
        Ok(())
    }

    /// Takes out the register's name.
    fn remove(&mut self, register: &Reg)
        ensures { self.new ≡ without_register register.now self.old }
    {
        match register {
            Reg::Now(name) => take_out(name, &mut self.current),
            Reg::Old(name) => take_out(name, &mut self.former),
            Reg::Ghost(name) => take_out(name, &mut self.ghosts),
        }
    }
}

fn all_names(alloc: Global, registers: &[Reg]) -> Result<ByKind, AllocError>
    ensures { IfOk result (λ names. names ≡ with_registers registers.now no_names) }
{
    let mut names = ByKind::none(alloc);
    for register in registers {
        names.add(alloc, register)?;
    }
    Ok(names)
}

impl AddedRegisters {
    #[tactic(auto, using(crate::proofs::Listed::all_listed))]
    pub(crate) fn none(alloc: Global) -> AddedRegisters
        ensures { result ≡ [] }
    {
        AddedRegisters {
            registers: Vec::new(alloc),
            names: ByKind::none(alloc),
        }
    }

    #[tactic(auto, using(crate::proofs::Listed::all_listed))]
    pub(crate) fn of(alloc: Global, registers: Seq<Reg>) -> Result<AddedRegisters, AllocError>
        ensures { IfOk result (λ set. set ≡ registers) }
    {
        let names = all_names(alloc, registers.as_slice())?;
        Ok(AddedRegisters {
            registers: registers.into_vec(),
            names,
        })
    }

    pub(crate) fn as_slice(&self) -> &[Reg]
        ensures { result.now ≡ self.now }
    {
        self.registers.as_slice()
    }

    #[tactic(auto, using(crate::proofs::Listed::listed))]
    pub(crate) fn has(&self, register: &Reg) -> bool
        ensures { result ≡ has_reg register.now self.now }
    {
        self.names.has(register)
    }

    /// Whether the register of now is there.
    #[tactic(auto, using(crate::proofs::Listed::now_listed))]
    pub(crate) fn has_now(&self, name: &Name) -> bool
        ensures { result ≡ has_reg (Now name.now) self.now }
    {
        self.names.has_current(name)
    }

    /// Puts the register at the end, whether it is there or not.
    #[tactic(auto, using(crate::proofs::Listed::one_listed))]
    pub(crate) fn push(&mut self, alloc: Global, register: Reg) -> Result<(), AllocError>
        ensures { OnOk result (self.new ≡ self.old ++ register ∷ []) }
    {
        self.registers.reserve(1)?;
        self.names.add(alloc, &register)?;
        self.registers.push(register)?;
        Ok(())
    }

    /// Puts the register at the end, where it isn't there yet.
    pub(crate) fn add(&mut self, alloc: Global, register: Reg) -> Result<(), AllocError>
        ensures { OnOk result (self.new ≡ with_reg register self.old) }
    {
        if self.has(&register) {
            return Ok(());
        }
        self.push(alloc, register)
    }

    /// Takes out the register. Where it is there, the others are walked.
    #[tactic(auto, using(crate::proofs::Listed::rest_listed))]
    pub(crate) fn remove(&mut self, register: &Reg)
        ensures { self.new ≡ without_reg register.now self.old }
    {
        if self.has(register) {
            self.names.remove(register);
            self.registers.retain(|other| !same_reg(register, other));
        }
    }
}
