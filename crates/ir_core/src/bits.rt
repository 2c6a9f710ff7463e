ghost use Rattle.std.specs.Prelude.{◌≡◌};

use std::marker::Model;

/// The bits of a number, which contracts see as the number that they are. How many there may be is decided here alone.
#[derive(Drop, Clone, Copy, PartialEq, Eq)]
pub struct Bits {
    low: u64,
}

impl Model for Bits {
    ghost use Rattle.std.specs.Prelude.{ℕ};

    ghost Value = { ℕ };

    ghost view = { λ bits. bits.low };

    ghost inverse = { λ n. record { low = n } };
}

impl Bits {
    pub fn new(number: u64) -> Bits
        ensures { result ≡ number }
    {
        Bits { low: number }
    }

    pub fn get(self) -> u64
        ensures { result ≡ self }
    {
        self.low
    }
}
