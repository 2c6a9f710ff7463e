ghost use Rattle.std.specs.Prelude.{◌≡◌, ◌↔◌, IsTrue, IfOk};

use crate::{Boxed, Seq};
use std::alloc::{AllocError, Global};

/// Comparing and copying by contents: two values are the same exactly where contracts see one value.
pub trait Exact: Drop {
    fn is(&self, other: &Self) -> bool
        ensures { IsTrue result ↔ (self.now ≡ other.now) };

    fn copy(&self, alloc: Global) -> Result<Self, AllocError>
        ensures { IfOk result (λ copied. copied ≡ self.now) };
}

impl Exact for u8 {
    fn is(&self, other: &u8) -> bool {
        *self == *other
    }

    fn copy(&self, _alloc: Global) -> Result<u8, AllocError> {
        Ok(*self)
    }
}

impl Exact for u32 {
    fn is(&self, other: &u32) -> bool {
        *self == *other
    }

    fn copy(&self, _alloc: Global) -> Result<u32, AllocError> {
        Ok(*self)
    }
}

impl Exact for u64 {
    fn is(&self, other: &u64) -> bool {
        *self == *other
    }

    fn copy(&self, _alloc: Global) -> Result<u64, AllocError> {
        Ok(*self)
    }
}

impl Exact for bool {
    fn is(&self, other: &bool) -> bool {
        *self == *other
    }

    fn copy(&self, _alloc: Global) -> Result<bool, AllocError> {
        Ok(*self)
    }
}

impl<T: Exact> Exact for Seq<T> {
    fn is(&self, other: &Seq<T>) -> bool {
        if self.len() != other.len() {
            return false;
        }
        for i in 0..self.len() {
            if !self.as_slice()[i].is(&other.as_slice()[i]) {
                return false;
            }
        }
        true
    }

    fn copy(&self, alloc: Global) -> Result<Seq<T>, AllocError> {
        let mut copy = Seq::new(alloc);
        for x in self.as_slice() {
            copy.push(x.copy(alloc)?)?;
        }
        Ok(copy)
    }
}

impl<T: Exact> Exact for Boxed<T> {
    fn is(&self, other: &Boxed<T>) -> bool {
        self.get().is(other.get())
    }

    fn copy(&self, alloc: Global) -> Result<Boxed<T>, AllocError> {
        Boxed::new(alloc, self.get().copy(alloc)?)
    }
}
