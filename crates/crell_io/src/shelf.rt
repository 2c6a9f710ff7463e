// What texts are read from.
ghost use Rattle.std.specs.Prelude.{◌≡◌, ◌^◌, ◌-◌, ◌<◌, ◌≤◌, ℕ, List, length, vec_len, IfOk, IsErrOf};
ghost use Rattle.crell_io.specs.Count.{HasRisen, HasRisenAbove};
ghost use Rattle.crell_io.specs.Shelf.{Told, IfTold, StaysWell};
ghost use Rattle.crell_io.specs.Shelf.Told.{NoSuch};
ghost use Rattle.crell_io.specs.declared.shelf.ShelfEnd.TheVariants.{Memory};

use std::alloc::{AllocError, Global};
use thiserror::Error;

/// Why a shelf gives no bytes.
#[derive(Clone, Copy, Debug, PartialEq, Eq, Error)]
pub enum ShelfEnd {
    #[error("reading failed")]
    Failed,
    #[error("there is no such name")]
    Absent,
    #[error("the contents are longer than the limit")]
    TooLong,
    #[error("out of memory")]
    Memory,
}

impl From<AllocError> for ShelfEnd {
    ghost from_gives = { λ _ end. end ≡ Memory };

    fn from(_: AllocError) -> ShelfEnd {
        ShelfEnd::Memory
    }
}

pub trait Shelf {
    /// What it tells of a name.
    ghost told: { Self → List ℕ → Told };

    /// How often it has failed. A count that stands at its last value counts as risen.
    ghost faults: { Self → ℕ };

    /// How many bytes were taken from what it holds, counted in the same way.
    ghost taken: { Self → ℕ };

    /// No call fails from now on.
    ghost fails_nowhere: { Self → Type 0 };

    /// Gives the bytes under a name, if they are at most `limit` many. That it answers `Memory` only
    /// where there was none is not said.
    fn get(&mut self, alloc: Global, name: &str, limit: u64) -> Result<Vec<u8>, ShelfEnd>
        requires { limit < 2 ^ 64 - 1 }

        // No call changes what is told, and no count falls.
        ensures told { told self.new ≡ told self.old }
        ensures faults { faults self.old ≤ faults self.new }
        ensures taken { taken self.old ≤ taken self.new }

        // Where no call fails, no fault is counted.
        ensures well { StaysWell fails_nowhere faults self.old self.new }

        ensures within { IfOk result (λ bytes. vec_len bytes ≤ limit) }
        ensures whole { IfOk result
            (λ bytes. IfTold (told self.old name.now) (λ held. bytes.items ≡ held)) }

        ensures failed { IsErrOf result ShelfEnd.Failed →
            HasRisen (faults self.old) (faults self.new) }
        ensures absent { IsErrOf result ShelfEnd.Absent → told self.old name.now ≡ NoSuch }
        ensures too_long { IsErrOf result ShelfEnd.TooLong →
            HasRisenAbove limit (taken self.old) (taken self.new) }
        ensures longer { IsErrOf result ShelfEnd.TooLong →
            IfTold (told self.old name.now) (λ held. limit < length held) };
}
