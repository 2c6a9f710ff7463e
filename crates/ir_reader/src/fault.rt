ghost use Rattle.std.specs.Prelude.{◌≡◌};
ghost use Rattle.ir_reader.specs.declared.fault.ModuleFault.TheVariants as fault;

use definedness::Undefined;
use ir_core::Name;
use ir_lexer::TextFault;
use ir_shape::ShapeFault;
use std::alloc::AllocError;

/// Why a text holds no module that can be used: its first fault.
#[derive(Drop)]
pub enum ModuleFault {
    /// The text spells no module, or passes a limit.
    Text(TextFault),
    /// A line, a terminator or a function's name is out of shape.
    Shape(ShapeFault),
    /// In the function of that name a register is used where it isn't defined on a path.
    Undefined {
        function: Name,
        undefined: Undefined,
    },
    Memory,
}

impl From<AllocError> for ModuleFault {
    ghost from_gives = { λ _ e. e ≡ fault.Memory };

    fn from(_error: AllocError) -> ModuleFault {
        ModuleFault::Memory
    }
}
