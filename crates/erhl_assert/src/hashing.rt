//! Facts as keys: told apart by their contents, hashed by their numbers and the names of their registers.
ghost use Rattle.std.specs.Prelude.{◌≡◌};
ghost use Rattle.std.specs.List.{fold};
ghost use Rattle.erhl_assert.specs.Hashed.{hashed_atom, hashed_expr};

use crate::{Fact, bare_name, same_fact};
use ir_core::{Atom, Const, Expr, Expr0, Reg};
use std::hash::{Hash, Hasher};

fn feed_atom<H: Hasher>(atom: &Atom<Reg>, state: &mut H)
    ensures { state.new ≡ fold H.write state.old (hashed_atom atom.now) }
{
    match atom {
        Atom::Constant(Const::Number(number)) => number.get().hash(state),
        Atom::Constant(_) => {}
        Atom::Register(register) => bare_name(register).hash(state),
    }
}

fn feed_expr<H: Hasher>(expr: &Expr0, state: &mut H)
    ensures { state.new ≡ fold H.write state.old (hashed_expr expr.now) }
{
    match expr {
        Expr::Plain(operand) => feed_atom(&operand.atom, state),
        Expr::Binary(binary) => {
            feed_atom(&binary.left, state);
            feed_atom(&binary.right, state);
        }
        Expr::Icmp(icmp) => {
            feed_atom(&icmp.left, state);
            feed_atom(&icmp.right, state);
        }
        Expr::Cast(cast) => feed_atom(&cast.operand.atom, state),
        Expr::Select(select) => {
            let select = select.get();
            feed_atom(&select.condition.atom, state);
            feed_atom(&select.left.atom, state);
            feed_atom(&select.right.atom, state);
        }
        Expr::Element(element) => feed_atom(&element.get().base.atom, state),
        Expr::Load(load) => feed_atom(&load.pointer.atom, state),
    }
}

impl PartialEq for Fact {
    ghost use Rattle.std.specs.Cmp as cmp;
    ghost use Rattle.erhl_assert.specs.Facts.{same_fact};
    ghost use Rattle.erhl_assert.specs.FactLaws.{fact_equivalence};

    ghost eq = { same_fact };

    ghost laws = { cmp.partial_equiv_from_equiv fact_equivalence };

    fn eq(&self, other: &Fact) -> bool {
        same_fact(self, other)
    }
}

impl Eq for Fact {
    ghost use Rattle.erhl_assert.specs.FactLaws.{fact_equivalence};

    ghost laws = { fact_equivalence };
}

impl Hash for Fact {
    ghost use Rattle.std.proofs.Common.{ap};
    ghost use Rattle.erhl_assert.specs.Hashed.{hashed_fact};
    ghost use Rattle.erhl_assert.specs.FactLaws.{same_fact_true};

    ghost hash_input = { hashed_fact };

    ghost respects_eq = { λ a b same. ap hashed_fact (same_fact_true a b same) };

    fn hash<H: Hasher>(&self, state: &mut H) {
        match self {
            Fact::LessDef(a, b) | Fact::NoAlias(a, b) => {
                feed_expr(a, state);
                feed_expr(b, state);
            }
            Fact::Unique(register) | Fact::Private(register) => bare_name(register).hash(state),
            Fact::Ok(address, _, align) => {
                feed_expr(address, state);
                align.hash(state);
            }
        }
    }
}
