//! Numbers, which most parts of initialisers are.
ghost use Rattle.std.specs.Prelude.{◌≡◌, true};
ghost use Rattle.ir_typing.specs.OperandTests.Numbers.{IsNumber};

use ir_core::{Const, Init, Ty, TypedInit};

/// Whether it is seen at once that the part is a number of an integer type.
#[inline(always)]
pub fn is_number(part: &TypedInit) -> bool
    ensures { result ≡ true → IsNumber part.now }
{
    match (&part.0, &part.1) {
        (Ty::Int(_), Init::Const(Const::Number(_))) => true,
        _ => false,
    }
}
