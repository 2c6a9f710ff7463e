//! Sets of facts, each a list without repeats, and what takes facts out of them.
ghost use Rattle.std.specs.Prelude.{◌≡◌, [], length, slice_get, OnErr, OnOk};
ghost use Rattle.std.specs.List.{list_any};
ghost use Rattle.std.specs.Option.{option_copied};
ghost use Rattle.ir_core.specs.declared.expressions.Reg.{Reg};
ghost use Rattle.ir_core.specs.declared.operands.Operand.{Operand};
ghost use Rattle.ir_core.specs.Same.{same_reg};
ghost use Rattle.ir_core.specs.Expressions.{atom_has};
ghost use Rattle.erhl_assert.specs.Named.{name_of};
ghost use Rattle.erhl_assert.specs.Facts.{has_fact, with_fact, expr_names, fact_names};
ghost use Rattle.erhl_assert.specs.Kills.{killed};

use crate::Fact;
use ir_core::{Atom, Expr, Expr0, Name, Operand, Reg, Ty, same_reg};
use std::alloc::{AllocError, Global};

/// What takes facts out of a set.
pub enum Kill {
    /// Those that name the register.
    Naming(Reg),
    /// That nothing else points into the block of that register.
    Unique(Reg),
    /// Those of loads that a store of the type through the address may change.
    Stored(Operand<Reg>, Ty),
    /// Those of loads that a call may change.
    Called,
}

impl Drop for Kill {
    fn drop(self) {
        match self {
            Kill::Naming(_) => {}
            Kill::Unique(_) => {}
            Kill::Stored(_, _) => {}
            Kill::Called => {}
        }
    }
}

/// A set of facts in the order in which they were added.
pub trait FactSet: Drop {
    ghost use Rattle.std.specs.Prelude.{List};
    ghost use Rattle.erhl_assert.specs.declared.facts.Fact.{Fact};

    /// The facts that it has.
    ghost contents: { Self → List Fact };

    fn empty(alloc: Global) -> Self
        ensures { contents result ≡ [] };

    fn len(&self) -> usize
        ensures { result ≡ length (contents self.now) };

    /// The fact of that number.
    fn at(&self, k: usize) -> Option<&Fact>
        ensures { option_copied result ≡ slice_get (contents self.now) k };

    fn has(&self, fact: &Fact) -> bool
        ensures { result ≡ has_fact fact.now (contents self.now) };

    /// Puts the fact at the end, where it isn't there yet.
    fn add(&mut self, fact: Fact) -> Result<(), AllocError>
        ensures ok { OnOk result (contents self.new ≡ with_fact fact (contents self.old)) }
        ensures err { OnErr result (contents self.new ≡ contents self.old) };

    /// Takes out what the kill takes. No memory is taken.
    fn kill(&mut self, kill: &Kill)
        ensures { contents self.new ≡ killed kill.now (contents self.old) };
}

fn atom_names(register: &Reg, atom: &Atom<Reg>) -> bool
    ensures { result ≡ atom_has (same_reg register.now) atom.now }
{
    match atom {
        Atom::Constant(_) => false,
        Atom::Register(other) => same_reg(register, other),
    }
}

fn operands_name(register: &Reg, operands: &[Operand<Reg>]) -> bool
    ensures { result ≡ list_any (λ (o : Operand Reg). atom_has (same_reg register.now) o.atom) operands.now }
{
    operands
        .iter()
        .any(|operand| atom_names(register, &operand.atom))
}

/// Whether the expression names the register.
pub fn expr_names(register: &Reg, expr: &Expr0) -> bool
    ensures { result ≡ expr_names register.now expr.now }
{
    match expr {
        Expr::Plain(operand) => atom_names(register, &operand.atom),
        Expr::Binary(binary) => {
            atom_names(register, &binary.left) || atom_names(register, &binary.right)
        }
        Expr::Icmp(icmp) => atom_names(register, &icmp.left) || atom_names(register, &icmp.right),
        Expr::Cast(cast) => atom_names(register, &cast.operand.atom),
        Expr::Select(select) => {
            let select = select.get();
            atom_names(register, &select.condition.atom)
                || atom_names(register, &select.left.atom)
                || atom_names(register, &select.right.atom)
        }
        Expr::Element(element) => {
            let element = element.get();
            atom_names(register, &element.base.atom)
                || operands_name(register, element.indices.as_slice())
        }
        Expr::Load(load) => atom_names(register, &load.pointer.atom),
    }
}

/// Whether the fact names the register.
pub fn fact_names(register: &Reg, fact: &Fact) -> bool
    ensures { result ≡ fact_names register.now fact.now }
{
    match fact {
        Fact::LessDef(a, b) | Fact::NoAlias(a, b) => {
            expr_names(register, a) || expr_names(register, b)
        }
        Fact::Unique(other) | Fact::Private(other) => same_reg(register, other),
        Fact::Ok(address, _, _) => expr_names(register, address),
    }
}

/// A register's name, whatever the register is of.
pub fn bare_name(register: &Reg) -> &Name
    ensures { result.now ≡ name_of register.now }
{
    match register {
        Reg::Now(name) | Reg::Old(name) | Reg::Ghost(name) => name,
    }
}
