//! The indices of an address.
ghost use Rattle.std.specs.Prelude.{◌≡◌, ◌<◌, List, length, slice_get, Some};
ghost use Rattle.ir_values.specs.Addresses.{GivenIndex};

use ir_core::Value;

/// A list of indices, each with its width, of which one is asked at a time.
pub trait Indices {
    ghost listed: { Self → List GivenIndex };

    fn count(&self) -> usize
        ensures { result ≡ length (listed self.now) };

    fn at(&self, place: usize) -> (u32, Value)
        requires { place < length (listed self.now) }
        ensures { Some result ≡ slice_get (listed self.now) place };
}

impl<'a> Indices for &'a [(u32, Value)] {
    ghost listed = { λ is. is.now };

    fn count(&self) -> usize {
        self.len()
    }

    fn at(&self, place: usize) -> (u32, Value) {
        let index = &self[place];
        (index.0, index.1)
    }
}
