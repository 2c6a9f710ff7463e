//! The names of the registers that facts speak of.
ghost use Rattle.std.specs.Prelude.{◌≡◌, OnOk};
ghost use Rattle.ir_types.specs.Same.{same_name};
ghost use Rattle.indexmap.specs.IndexSet.{insert_key};
ghost use Rattle.fact_sets.specs.Names.{with_atom, with_expr, with_named, with_operands, IsKept};

use contents::Exact;
use erhl_assert::{Fact, bare_name};
use indexmap::IndexSet;
use ir_core::{Atom, Expr, Expr0, Name, Operand, Reg};
use std::alloc::{AllocError, Global};

#[tactic(auto, using(crate::proofs::RegisterNames::kept_same, crate::proofs::RegisterNames::kept_insert))]
fn add_name(alloc: Global, name: &Name, names: &mut IndexSet<Name>) -> Result<(), AllocError>
    ensures ok { OnOk result (names.new.keys ≡ insert_key same_name names.old.keys name.now) }
    ensures kept { IsKept names.old.keys names.new.keys }
{
    if names.contains(name) {
        return Ok(());
    }
    let name = name.copy(alloc)?;
    names.insert(name)?;
    Ok(())
}

#[tactic(auto, using(crate::proofs::RegisterNames::kept_same))]
fn add_atom(alloc: Global, atom: &Atom<Reg>, names: &mut IndexSet<Name>) -> Result<(), AllocError>
    ensures ok { OnOk result (names.new.keys ≡ with_atom atom.now names.old.keys) }
    ensures kept { IsKept names.old.keys names.new.keys }
{
    match atom {
        Atom::Constant(_) => Ok(()),
        Atom::Register(register) => add_name(alloc, bare_name(register), names),
    }
}

#[tactic(auto, using(crate::proofs::RegisterNames::kept_same, crate::proofs::RegisterNames::kept_then))]
fn add_operands(
    alloc: Global,
    operands: &[Operand<Reg>],
    names: &mut IndexSet<Name>,
) -> Result<(), AllocError>
    ensures ok { OnOk result (names.new.keys ≡ with_operands operands.now names.old.keys) }
    ensures kept { IsKept names.old.keys names.new.keys }
{
    for operand in operands {
        add_atom(alloc, &operand.atom, names)?;
    }
    Ok(())
}

#[tactic(auto, using(crate::proofs::RegisterNames::kept_then))]
fn add_expr(alloc: Global, expr: &Expr0, names: &mut IndexSet<Name>) -> Result<(), AllocError>
    ensures ok { OnOk result (names.new.keys ≡ with_expr expr.now names.old.keys) }
    ensures kept { IsKept names.old.keys names.new.keys }
{
    match expr {
        Expr::Plain(operand) => add_atom(alloc, &operand.atom, names),
        Expr::Binary(binary) => {
            add_atom(alloc, &binary.left, names)?;
            add_atom(alloc, &binary.right, names)
        }
        Expr::Icmp(icmp) => {
            add_atom(alloc, &icmp.left, names)?;
            add_atom(alloc, &icmp.right, names)
        }
        Expr::Cast(cast) => add_atom(alloc, &cast.operand.atom, names),
        Expr::Select(select) => {
            let select = select.get();
            add_atom(alloc, &select.condition.atom, names)?;
            add_atom(alloc, &select.left.atom, names)?;
            add_atom(alloc, &select.right.atom, names)
        }
        Expr::Element(element) => {
            let element = element.get();
            add_atom(alloc, &element.base.atom, names)?;
            add_operands(alloc, element.indices.as_slice(), names)
        }
        Expr::Load(load) => add_atom(alloc, &load.pointer.atom, names),
    }
}

/// Adds the names of the registers that the fact names. Names that are there stay, also where memory runs out.
#[tactic(auto, using(crate::proofs::RegisterNames::kept_then), unfolding(crate::specs::Names::with_named))]
pub(crate) fn add_named(
    alloc: Global,
    fact: &Fact,
    names: &mut IndexSet<Name>,
) -> Result<(), AllocError>
    ensures ok { OnOk result (names.new.keys ≡ with_named fact.now names.old.keys) }
    ensures kept { IsKept names.old.keys names.new.keys }
{
    match fact {
        Fact::LessDef(a, b) | Fact::NoAlias(a, b) => {
            add_expr(alloc, a, names)?;
            add_expr(alloc, b, names)
        }
        Fact::Unique(register) | Fact::Private(register) => {
            add_name(alloc, bare_name(register), names)
        }
        Fact::Ok(address, _, _) => add_expr(alloc, address, names),
    }
}
