//! Facts that name registers of some sort.
ghost use Rattle.std.specs.Prelude.{◌≡◌};
ghost use Rattle.std.specs.List.{list_any};
ghost use Rattle.ir_core.specs.declared.expressions.Reg.{Reg};
ghost use Rattle.ir_core.specs.declared.operands.Operand.{Operand};
ghost use Rattle.ir_core.specs.Expressions.{atom_has, expr_has};
ghost use Rattle.erhl_assert.specs.Facts.{fact_has};
ghost use Rattle.erhl_assert.specs.Edges.{is_old};

use erhl_assert::Fact;
use ir_core::{Atom, Expr, Expr0, Operand, Reg};

/// A sort of registers.
pub trait Sort {
    ghost use Rattle.std.specs.Prelude.{Bool};
    ghost use Rattle.ir_core.specs.declared.expressions.Reg.{Reg};

    ghost is_of: { Self → Reg → Bool };

    /// Whether the register is of this sort.
    fn is_of(&self, register: &Reg) -> bool
        ensures { result ≡ is_of self.now register.now };
}

/// Registers as they were before the edge that is being crossed.
#[derive(Drop, Clone, Copy)]
pub struct OldRegisters;

impl Sort for OldRegisters {
    ghost use Rattle.erhl_assert.specs.Edges.{is_old};

    ghost is_of = { λ _ r. is_old r };

    fn is_of(&self, register: &Reg) -> bool {
        matches!(register, Reg::Old(_))
    }
}

fn atom_has<T: Sort>(sort: &T, atom: &Atom<Reg>) -> bool
    ensures { result ≡ atom_has (T.is_of sort.now) atom.now }
{
    match atom {
        Atom::Constant(_) => false,
        Atom::Register(register) => sort.is_of(register),
    }
}

fn operands_have<T: Sort>(sort: &T, operands: &[Operand<Reg>]) -> bool
    ensures { result ≡ list_any (λ (o : Operand Reg). atom_has (T.is_of sort.now) o.atom) operands.now }
{
    operands.iter().any(|operand| atom_has(sort, &operand.atom))
}

fn expr_has<T: Sort>(sort: &T, expr: &Expr0) -> bool
    ensures { result ≡ expr_has (T.is_of sort.now) expr.now }
{
    match expr {
        Expr::Plain(operand) => atom_has(sort, &operand.atom),
        Expr::Binary(binary) => atom_has(sort, &binary.left) || atom_has(sort, &binary.right),
        Expr::Icmp(icmp) => atom_has(sort, &icmp.left) || atom_has(sort, &icmp.right),
        Expr::Cast(cast) => atom_has(sort, &cast.operand.atom),
        Expr::Select(select) => {
            let select = select.get();
            atom_has(sort, &select.condition.atom)
                || atom_has(sort, &select.left.atom)
                || atom_has(sort, &select.right.atom)
        }
        Expr::Element(element) => {
            let element = element.get();
            atom_has(sort, &element.base.atom) || operands_have(sort, element.indices.as_slice())
        }
        Expr::Load(load) => atom_has(sort, &load.pointer.atom),
    }
}

/// Whether the fact names a register of the sort.
pub fn fact_has<T: Sort>(sort: &T, fact: &Fact) -> bool
    ensures { result ≡ fact_has (T.is_of sort.now) fact.now }
{
    match fact {
        Fact::LessDef(a, b) | Fact::NoAlias(a, b) => expr_has(sort, a) || expr_has(sort, b),
        Fact::Unique(register) | Fact::Private(register) => sort.is_of(register),
        Fact::Ok(address, _, _) => expr_has(sort, address),
    }
}

/// Whether the fact names an old register.
pub fn names_old(fact: &Fact) -> bool
    ensures { result ≡ fact_has is_old fact.now }
{
    fact_has(&OldRegisters, fact)
}
