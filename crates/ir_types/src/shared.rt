ghost use Rattle.std.specs.Prelude.{◌≡◌, IfOk};

use contents::Exact;
use std::alloc::{AllocError, Global};
use std::marker::Model;
use std::rc::Rc;

/// An `Rc` that contracts see as its value. A copy is another owner: it takes no memory and no walk.
pub struct Shared<T> {
    inner: Rc<T>,
}

impl<T: Drop> Drop for Shared<T> {
    fn drop(self) {
        let Shared { inner: _ } = self;
    }
}

impl<T> Model for Shared<T> {
    ghost Value = { T };

    ghost coded = { T.code };

    ghost view = { λ it. it.inner.value };
}

impl<T> Shared<T> {
    pub fn get(&self) -> &T
        ensures { result.now ≡ self.now }
    {
        Rc::as_ref(&self.inner)
    }
}

impl<T: Drop> Shared<T> {
    pub fn new(alloc: Global, value: T) -> Result<Shared<T>, AllocError>
        ensures { IfOk result (λ it. it ≡ value) }
    {
        Ok(Shared {
            inner: Rc::new(alloc, value)?,
        })
    }

    /// Another owner of the value. Takes no memory, and is refused only where the owners can't be counted.
    pub fn share(&self) -> Result<Shared<T>, AllocError>
        ensures { IfOk result (λ it. it ≡ self.now) }
    {
        Ok(Shared {
            inner: self.inner.clone()?,
        })
    }
}

impl<T: Exact> Exact for Shared<T> {
    fn is(&self, other: &Shared<T>) -> bool {
        self.get().is(other.get())
    }

    fn copy(&self, _alloc: Global) -> Result<Shared<T>, AllocError> {
        self.share()
    }
}
