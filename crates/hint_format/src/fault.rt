ghost use Rattle.std.specs.Prelude.{◌≡◌};
ghost use Rattle.json_forms.specs.declared.failure.Failure.{Failure};
ghost use Rattle.hint_format.specs.Faults.{fault_of_failure};

use contents::Seq;
use ir_core::Limit;
use json_forms::{Failure, Fault};

/// Why no hints were read.
#[derive(Drop)]
pub enum HintFault {
    /// The file doesn't have the form. What is first at fault stands there, a JSON pointer.
    Unfit(Seq<u8>),
    /// A text in the file passes this limit, before anything is at fault.
    Limit(Limit),
    /// Memory could not be had.
    Memory,
}

pub(crate) fn hint_fault(failure: Failure) -> HintFault
    ensures { result ≡ fault_of_failure failure }
{
    match failure {
        Failure::Form(Fault::At(path)) => HintFault::Unfit(path),
        Failure::Form(Fault::Past(limit)) => HintFault::Limit(limit),
        Failure::Memory => HintFault::Memory,
    }
}
