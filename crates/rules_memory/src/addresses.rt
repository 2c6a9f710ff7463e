//! The rule of addresses.
ghost use Rattle.std.specs.Prelude.{◌≡◌};
ghost use Rattle.ir_machine.specs.State.{scope_of};
ghost use Rattle.rules_memory.specs.Rows.{is_gep_zero, is_one_zero};

use crate::tests_of_operands::is_zero;
use erhl_assert::Fact;
use ir_core::{Expr, Module, Operand, Reg, same_reg_operand};
use rule_base::have_one_type;

fn is_one_zero(indices: &[Operand<Reg>]) -> bool
    ensures { result ≡ is_one_zero indices.now }
{
    match indices {
        [index] => is_zero(&index.atom),
        _ => false,
    }
}

pub(crate) fn is_gep_zero(module: &Module, from: &[Fact], to: &Fact) -> bool
    ensures { result ≡ is_gep_zero (scope_of «module».now) from.now to.now }
{
    if !from.is_empty() {
        return false;
    }
    let Fact::LessDef(a, b) = to else {
        return false;
    };
    match (a, b) {
        (Expr::Element(element), Expr::Plain(base)) => {
            let element = element.get();
            have_one_type(module, a, b)
                && same_reg_operand(&element.base, base)
                && is_one_zero(element.indices.as_slice())
        }
        _ => false,
    }
}
