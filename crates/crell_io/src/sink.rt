// What text is written to.
ghost use Rattle.std.specs.Prelude.{◌≡◌, ◌≢◌, ◌≤◌, ◌+◌, ℕ, List, [], length, take, Option, IfOk, IsOkAnd, OnErr};
ghost use Rattle.crell_io.specs.Count.{HasRisen};
ghost use Rattle.crell_io.specs.Sink.{appended};

use thiserror::Error;

/// Why a sink takes nothing.
#[derive(Clone, Copy, Debug, PartialEq, Eq, Error)]
pub enum SinkFault {
    #[error("writing failed")]
    Failed,
}

pub trait Sink {
    /// The bytes written, where it tells them.
    ghost written: { Self → Option (List ℕ) };

    /// How often it has failed. A count that stands at its last value counts as risen.
    ghost faults: { Self → ℕ };

    /// How many bytes more it is sure to take; 0 where that isn't known.
    ghost room_left: { Self → ℕ };

    /// Takes some first bytes of the piece, and answers how many. It takes no memory.
    fn put(&mut self, piece: &[u8]) -> Result<usize, SinkFault>
        ensures faults { faults self.old ≤ faults self.new }

        ensures within { IfOk result (λ count. count ≤ length piece.now) }
        ensures appends { IfOk result
            (λ count. written self.new ≡ appended (written self.old) (take count piece.now)) }

        // A piece that isn't empty and of which nothing is taken is a fault.
        ensures none_taken { IfOk result
            (λ count. count ≡ 0 → piece.now ≢ [] → HasRisen (faults self.old) (faults self.new)) }

        ensures failed { OnErr result (HasRisen (faults self.old) (faults self.new)) }
        ensures nothing { OnErr result (written self.new ≡ written self.old) }

        // Of a piece that there is room for some is taken, and no fault is counted. There is room for the rest.
        ensures roomy { piece.now ≢ [] → length piece.now ≤ room_left self.old → IsOkAnd result
            (λ count. (1 ≤ count) × (room_left self.old ≤ room_left self.new + count)
            × (faults self.new ≡ faults self.old)) };
}
