ghost use Rattle.std.specs.Prelude.{◌≡◌};
ghost use Rattle.ir_machine.specs.declared.machine.StepEnd.TheVariants as step_end;
ghost use Rattle.ir_machine.specs.declared.machine.StartEnd.TheVariants as start_end;

use crate::{StartEnd, StepEnd};
use std::alloc::AllocError;

impl From<AllocError> for StepEnd {
    ghost from_gives = { λ _ e. e ≡ step_end.Memory };

    fn from(_error: AllocError) -> StepEnd {
        StepEnd::Memory
    }
}

impl From<AllocError> for StartEnd {
    ghost from_gives = { λ _ e. e ≡ start_end.Memory };

    fn from(_error: AllocError) -> StartEnd {
        StartEnd::Memory
    }
}
