ghost use Rattle.std.specs.Prelude.{◌≡◌};
ghost use Rattle.erhl_checker.specs.declared.checked_pair.ends.CheckEnd.TheVariants as check_end;

use ir_core::Limit;
use std::alloc::AllocError;

/// Why a check ended without a verdict.
#[derive(Drop, Clone, Copy)]
pub enum CheckEnd {
    /// More facts would be known than this limit allows.
    Limit(Limit),
    /// No memory is left.
    Memory,
}

impl From<AllocError> for CheckEnd {
    ghost from_gives = { λ _ e. e ≡ check_end.Memory };

    fn from(_error: AllocError) -> CheckEnd {
        CheckEnd::Memory
    }
}
