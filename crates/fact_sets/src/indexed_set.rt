ghost use Rattle.std.specs.Prelude.{◌≡◌, [], IfOk, filter};
ghost use Rattle.erhl_assert.specs.declared.fact_set.Kill.TheVariants as kill;
ghost use Rattle.erhl_assert.specs.Kills.{killed, spares, with_loads};
ghost use Rattle.fact_sets.specs.Shields.{shields};

use crate::fact_key::FactKey;
use crate::naming::add_named;
use crate::shields::{
    Call, Change, Store, add_shield, has_unique, is_now_or_constant, is_unique, keep_left,
    may_load_with, may_part_with, shields,
};
use erhl_assert::{Fact, FactSet, Kill, bare_name, fact_names};
use indexmap::IndexSet;
use ir_core::{Name, Operand, Reg};
use std::alloc::{AllocError, Global};
use std::marker::Model;

/// A set of facts by hash.
pub struct IndexedSet {
    facts: IndexSet<Fact>,
    /// The name of each register that a fact names, and maybe others.
    named: IndexSet<Name>,
    /// Those of the facts that a kill asks for, found by hash too.
    shields: IndexSet<Fact>,
    /// Whether a fact may have a load.
    may_load: bool,
    /// Whether a fact may be that two operands aren't both pointers into one block.
    may_part: bool,
}

impl Model for IndexedSet {
    ghost use Rattle.std.specs.Prelude.{List};
    ghost use Rattle.erhl_assert.specs.declared.facts.Fact.{Fact};
    ghost use Rattle.erhl_assert.specs.Facts.{fact_names};
    ghost use Rattle.fact_sets.specs.Names.{IsIndexed};
    ghost use Rattle.fact_sets.specs.Shields.{AreShields};
    ghost use Rattle.std.specs.Coded.{codes};
    ghost use Rattle.ir_core.specs.contracts.operands.Const as constant;
    ghost use Rattle.ir_types.specs.contracts.ty.Ty as ty;

    ghost Value = { List Fact };

    ghost coded = { Prim.hlevel (codes, ty.the_row.coded, constant.the_row.coded) };

    ghost view = { λ it. it.facts.keys };

    ghost invariant = { λ it. IsIndexed fact_names it.named.keys it.facts.keys
        × AreShields it.shields.keys it.may_load it.may_part it.facts.keys };
}

impl Drop for IndexedSet {
    fn drop(self) {
        let IndexedSet {
            facts: _,
            named: _,
            shields: _,
            may_load: _,
            may_part: _,
        } = self;
    }
}

impl IndexedSet {
    /// No facts. There is room for so many, and for the names of so many registers.
    #[tactic(auto, using(crate::proofs::RegisterNames::nothing_indexed, crate::proofs::Shielding::no_shields))]
    pub fn with_room(alloc: Global, facts: usize, names: usize) -> Result<IndexedSet, AllocError>
        ensures { IfOk result (λ set. set ≡ []) }
    {
        let facts = IndexSet::with_capacity(alloc, facts)?;
        let named = IndexSet::with_capacity(alloc, names)?;
        Ok(IndexedSet {
            facts,
            named,
            shields: IndexSet::new(alloc),
            may_load: false,
            may_part: false,
        })
    }

    /// Takes out the facts that name the register. No walk over them, where none can.
    fn forget(&mut self, register: &Reg)
        ensures { self.new ≡ killed (kill.Naming register.now) self.old }
    {
        if self.named.contains(bare_name(register)) {
            self.facts.retain(|fact| !fact_names(register, fact));
            self.shields.retain(|fact| !fact_names(register, fact));
        }
    }

    /// Takes out that the register is unique, which is one fact at most. No fact is moved, where it isn't known.
    fn share(&mut self, register: &Reg)
        ensures { self.new ≡ killed (kill.Unique register.now) self.old }
    {
        if has_unique(register, &self.shields) {
            self.facts.shift_remove(FactKey::Unique(register));
            self.shields.shift_remove(FactKey::Unique(register));
        }
    }

    /// Takes out the facts of which the change doesn't leave each load. No walk over them, where none has one.
    #[tactic(auto, using(crate::proofs::Shielding::none_leaves, crate::proofs::Shielding::shields_stay))]
    fn change<C: Change>(&mut self, change: &C)
        ensures { self.new ≡ with_loads (C.leaves change.now (filter shields self.old)) self.old }
    {
        if self.may_load {
            keep_left(change, &self.shields, &mut self.facts);
        }
    }

    /// Takes out the facts of loads that a store through the address may change.
    fn store(&mut self, address: &Operand<Reg>)
        ensures { self.new ≡ with_loads (spares self.old address.now) self.old }
    {
        let store = Store {
            address,
            is_unique: is_unique(&address.atom, &self.shields),
            is_now_or_constant: is_now_or_constant(&address.atom),
            may_part: self.may_part,
        };
        self.change(&store);
    }
}

impl FactSet for IndexedSet {
    ghost contents = { λ facts. facts };

    #[tactic(auto, using(crate::proofs::RegisterNames::nothing_indexed, crate::proofs::Shielding::no_shields))]
    fn empty(alloc: Global) -> IndexedSet {
        IndexedSet {
            facts: IndexSet::new(alloc),
            named: IndexSet::new(alloc),
            shields: IndexSet::new(alloc),
            may_load: false,
            may_part: false,
        }
    }

    fn len(&self) -> usize {
        self.facts.len()
    }

    fn at(&self, k: usize) -> Option<&Fact> {
        self.facts.get_index(k)
    }

    fn has(&self, fact: &Fact) -> bool {
        self.facts.contains(fact)
    }

    #[tactic(auto, using(crate::proofs::RegisterNames::fact_indexed, crate::proofs::RegisterNames::indexed_kept, crate::proofs::Shielding::more_known, crate::proofs::Shielding::with_other, crate::proofs::Shielding::with_shield))]
    fn add(&mut self, fact: Fact) -> Result<(), AllocError> {
        let alloc = *self.facts.allocator();
        add_named(alloc, &fact, &mut self.named)?;
        self.may_load = may_load_with(self.may_load, &fact);
        self.may_part = may_part_with(self.may_part, &fact);
        if shields(&fact) {
            add_shield(alloc, fact, &mut self.facts, &mut self.shields)?;
            return Ok(());
        }
        self.facts.insert(fact)?;
        Ok(())
    }

    fn kill(&mut self, kill: &Kill) {
        match kill {
            Kill::Naming(register) => self.forget(register),
            Kill::Unique(register) => self.share(register),
            Kill::Stored(address, _) => self.store(address),
            Kill::Called => self.change(&Call),
        }
    }
}
