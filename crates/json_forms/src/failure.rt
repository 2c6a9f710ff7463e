ghost use Rattle.std.specs.Prelude.{◌≡◌};
ghost use Rattle.json_forms.specs.Faults.{here};

use contents::Seq;
use ir_core::Limit;
use std::alloc::{AllocError, Global};

/// What is first at fault in a value that doesn't have the form.
#[derive(Drop)]
pub enum Fault {
    /// The place, as a JSON pointer.
    At(Seq<u8>),
    /// A text passes this limit.
    Past(Limit),
}

/// Why nothing was read.
#[derive(Drop)]
pub enum Failure {
    Form(Fault),
    /// Memory could not be had.
    Memory,
}

impl From<AllocError> for Failure {
    ghost use Rattle.std.specs.Prelude.{◌≡◌};
    ghost use Rattle.json_forms.specs.declared.failure.Failure.TheVariants.{Memory};

    ghost from_gives = { λ _ failure. failure ≡ Memory };

    fn from(_refused: AllocError) -> Failure {
        Failure::Memory
    }
}

/// The value itself is at fault.
pub fn unfit(alloc: Global) -> Failure
    ensures { result ≡ Failure.Form here }
{
    Failure::Form(Fault::At(Seq::new(alloc)))
}
