ghost use Rattle.std.specs.Prelude.{◌≡◌};

use std::marker::Model;

/// The half of a wide number is below it.
const HALF: u128 = 18_446_744_073_709_551_616;

/// A number below 2 to the 128, which contracts see as that. It stands in two halves, so that what holds it is aligned to 8 bytes alone.
#[derive(Drop)]
pub struct Wide {
    high: u64,
    low: u64,
}

impl Model for Wide {
    ghost use Rattle.std.specs.Prelude.{ℕ, ◌+◌, ◌*◌, ◌^◌};

    ghost Value = { ℕ };

    ghost view = { λ it. it.high * 2 ^ 64 + it.low };
}

impl Wide {
    pub fn new(number: u128) -> Wide
        ensures { result ≡ number }
    {
        Wide {
            high: (number / HALF) as u64,
            low: (number % HALF) as u64,
        }
    }

    pub fn get(&self) -> u128
        ensures { result ≡ self.now }
    {
        u128::from(self.high) * HALF + u128::from(self.low)
    }
}
