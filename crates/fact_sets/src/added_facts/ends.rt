ghost use Rattle.std.specs.Prelude.{◌≡◌};
ghost use Rattle.fact_sets.specs.declared.added_facts.ends.AddEnd.TheVariants as add_end;
ghost use Rattle.fact_sets.specs.declared.added_facts.ends.LineEnd.TheVariants as line_end;

use erhl_assert::Reason;
use ir_core::Limit;
use std::alloc::AllocError;

/// Why nothing is known after a line.
#[derive(Drop)]
pub enum LineEnd {
    /// The line isn't allowed, for this reason.
    Refused(Reason),
    /// More facts would be known than this limit allows.
    Limit(Limit),
    Memory,
}

impl From<AllocError> for LineEnd {
    ghost from_gives = { λ _ e. e ≡ line_end.Memory };

    fn from(_error: AllocError) -> LineEnd {
        LineEnd::Memory
    }
}

/// Why a fact isn't added.
#[derive(Drop, Clone, Copy)]
pub enum AddEnd {
    Limit(Limit),
    Memory,
}

impl From<AllocError> for AddEnd {
    ghost from_gives = { λ _ e. e ≡ add_end.Memory };

    fn from(_error: AllocError) -> AddEnd {
        AddEnd::Memory
    }
}
