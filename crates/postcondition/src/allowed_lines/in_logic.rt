ghost use Rattle.std.specs.Prelude.{◌≡◌};
ghost use Rattle.ir_core.specs.Same.{same_reg};
ghost use Rattle.ir_core.specs.declared.expressions.Reg.TheVariants.{Now};
ghost use Rattle.erhl_assert.specs.Sides.{has_reg};

use fact_sets::RegisterSet;
use ir_core::{Name, Reg, same_name, same_reg};

/// A register as the logic names it: that of a function is the register of now.
pub(crate) trait InLogic {
    ghost use Rattle.ir_core.specs.declared.expressions.Reg.{Reg};

    ghost in_logic: { Self → Reg };

    fn is_reg(&self, other: &Reg) -> bool
        ensures { result ≡ same_reg (in_logic self.now) other.now };

    fn is_now(&self, other: &Name) -> bool
        ensures { result ≡ same_reg (in_logic self.now) (Now other.now) };

    fn is_in(&self, registers: &RegisterSet) -> bool
        ensures { result ≡ has_reg (in_logic self.now) registers.now };
}

impl InLogic for Name {
    ghost in_logic = { Now };

    fn is_reg(&self, other: &Reg) -> bool {
        match other {
            Reg::Now(name) => same_name(self, name),
            Reg::Old(_) | Reg::Ghost(_) => false,
        }
    }

    fn is_now(&self, other: &Name) -> bool {
        same_name(self, other)
    }

    fn is_in(&self, registers: &RegisterSet) -> bool {
        registers.has_now(self)
    }
}

impl InLogic for Reg {
    ghost in_logic = { λ r. r };

    fn is_reg(&self, other: &Reg) -> bool {
        same_reg(self, other)
    }

    fn is_now(&self, other: &Name) -> bool {
        match self {
            Reg::Now(name) => same_name(name, other),
            Reg::Old(_) | Reg::Ghost(_) => false,
        }
    }

    fn is_in(&self, registers: &RegisterSet) -> bool {
        registers.has(self)
    }
}
