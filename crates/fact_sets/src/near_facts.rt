//! Speed alone: 5,000 facts between operands beside 5,000 operands that differ take 0.2 s, where each fact would be looked at for each operand.
//!
//! Facts between two operands, found by either of them.
ghost use Rattle.std.specs.Prelude.{◌≡◌, List, [], ◌++◌, OnOk};
ghost use Rattle.ir_types.specs.declared.names.Name.{Name};
ghost use Rattle.ir_core.specs.declared.expressions.Reg.TheVariants.{Now};
ghost use Rattle.ir_core.specs.Expressions.{map_atom};
ghost use Rattle.erhl_assert.specs.declared.facts.Fact.{Fact};
ghost use Rattle.erhl_assert.specs.Facts.{with_fact};
ghost use Rattle.fact_sets.specs.Near.{constant_name, found_under, list_or_none, near_in, if_under, AreNear};

use contents::{Exact, Seq};
use erhl_assert::{Fact, bare_name};
use indexmap::IndexMap;
use ir_core::{Atom, Const, Expr, Name, Reg};
use std::alloc::{AllocError, Global};

/// Facts between two operands, by the names under which the operands are found. What is kept needn't be known any more.
pub struct NearFacts {
    by_name: IndexMap<Name, Seq<Fact>>,
}

impl Drop for NearFacts {
    fn drop(self) {
        let NearFacts { by_name: _ } = self;
    }
}

/// The name under which a constant is found.
fn constant_name(constant: &Const) -> Name
    ensures { result ≡ constant_name constant.now }
{
    match constant {
        Const::Number(number) => Name::Number((number.get() % (1 << 32)) as u32),
        _ => Name::Number(0),
    }
}

fn found_or_none(alloc: Global, found: Option<Seq<Fact>>) -> Seq<Fact>
    ensures { result ≡ list_or_none found }
{
    match found {
        Some(facts) => facts,
        None => Seq::new(alloc),
    }
}

impl NearFacts {
    #[tactic(auto, using(crate::proofs::Nearness::none_near))]
    pub fn none(alloc: Global) -> NearFacts
        ensures { AreNear result [] }
    {
        NearFacts {
            by_name: IndexMap::new(alloc),
        }
    }

    /// Keeps the fact under the name.
    fn put_under(&mut self, alloc: Global, name: &Name, fact: &Fact) -> Result<(), AllocError>
        ensures { OnOk result ((x : Name) → near_in self.new x ≡ near_in self.old x ++ if_under name.now x fact.now) }
    {
        let mut facts = found_or_none(alloc, self.by_name.swap_remove(name));
        facts.push(fact.copy(alloc)?)?;
        self.by_name.insert(name.copy(alloc)?, facts)?;
        Ok(())
    }

    /// Keeps the fact under the operand's name.
    fn put_at(&mut self, alloc: Global, atom: &Atom<Reg>, fact: &Fact) -> Result<(), AllocError>
        ensures { OnOk result
            ((x : Name) → near_in self.new x ≡ near_in self.old x ++ if_under (found_under atom.now) x fact.now) }
    {
        match atom {
            Atom::Constant(constant) => self.put_under(alloc, &constant_name(constant), fact),
            Atom::Register(register) => self.put_under(alloc, bare_name(register), fact),
        }
    }

    /// Keeps the fact, if it is between two operands, beside those that are known.
    #[tactic(auto, using(crate::proofs::Nearness::not_near))]
    pub fn put(&mut self, fact: &Fact) -> Result<(), AllocError>
        ensures { OnOk result ((fs : List Fact) → AreNear self.old fs → AreNear self.new (with_fact fact.now fs)) }
    {
        let alloc = *self.by_name.allocator();
        match fact {
            Fact::LessDef(Expr::Plain(a), Expr::Plain(b)) => {
                self.put_at(alloc, &a.atom, fact)?;
                self.put_at(alloc, &b.atom, fact)?;
                Ok(())
            }
            _ => Ok(()),
        }
    }

    fn under(&self, name: &Name) -> &[Fact]
        ensures { result.now ≡ near_in self.now name.now }
    {
        match self.by_name.get(name) {
            Some(facts) => facts.as_slice(),
            None => &[],
        }
    }

    /// What is kept under the name of a function's operand.
    pub fn near(&self, atom: &Atom<Name>) -> &[Fact]
        ensures { result.now ≡ near_in self.now (found_under (map_atom Now atom.now)) }
    {
        match atom {
            Atom::Constant(constant) => self.under(&constant_name(constant)),
            Atom::Register(name) => self.under(name),
        }
    }
}
