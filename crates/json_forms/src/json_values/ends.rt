ghost use Rattle.std.specs.Prelude.{◌≡◌};

use json::Invalid;
use std::alloc::{AllocError, AllocFailed};

/// Why no value was read.
#[derive(Drop, Clone, Copy)]
pub enum ReadEnd {
    /// The bytes are no JSON text.
    NoJson,
    /// Memory could not be had.
    Memory,
}

impl From<Invalid> for ReadEnd {
    ghost use Rattle.std.specs.Prelude.{◌≡◌};
    ghost use Rattle.json_forms.specs.declared.json_values.ends.ReadEnd.TheVariants.{NoJson};

    ghost from_gives = { λ _ end. end ≡ NoJson };

    fn from(_invalid: Invalid) -> ReadEnd {
        ReadEnd::NoJson
    }
}

impl From<AllocError> for ReadEnd {
    ghost use Rattle.std.specs.Prelude.{◌≡◌};
    ghost use Rattle.json_forms.specs.declared.json_values.ends.ReadEnd.TheVariants.{Memory};

    ghost from_gives = { λ _ end. end ≡ Memory };

    fn from(_refused: AllocError) -> ReadEnd {
        ReadEnd::Memory
    }
}

impl<T: Drop> From<AllocFailed<T>> for ReadEnd {
    ghost use Rattle.std.specs.Prelude.{◌≡◌};
    ghost use Rattle.json_forms.specs.declared.json_values.ends.ReadEnd.TheVariants.{Memory};

    ghost from_gives = { λ _ end. end ≡ Memory };

    fn from(_refused: AllocFailed<T>) -> ReadEnd {
        ReadEnd::Memory
    }
}
