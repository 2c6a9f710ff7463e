ghost use Rattle.std.specs.Prelude.{◌≡◌, ◌+◌, ◌≤◌, [], ◌∷◌, length, slice_get, vec_len, vec_capacity, MatchOption, OnOk, OnErr};
ghost use Rattle.std.specs.Option.{option_copied};

use std::alloc::{AllocError, Global};
use std::marker::Model;

/// A stack with room for more items is large.
const LARGE: usize = 1024;

/// A stack that contracts see as a list, top first.
pub struct Stack<T> {
    items: Vec<T>,
}

impl<T: Drop> Drop for Stack<T> {
    fn drop(self) {
        let Stack { items: _ } = self;
    }
}

impl<T> Model for Stack<T> {
    ghost use Rattle.std.specs.Prelude.{List, reverse};
    ghost use Rattle.std.specs.Coded.{coded_list};

    ghost Value = { List T };

    ghost coded = { coded_list T.code };

    ghost view = { λ it. reverse it.items.items };
}

impl<T> Stack<T> {
    pub fn new(alloc: Global) -> Stack<T>
        ensures { result ≡ [] }
    {
        Stack {
            items: Vec::new(alloc),
        }
    }

    pub fn len(&self) -> usize
        ensures { result ≡ length self.now }
    {
        self.items.len()
    }

    /// The item of that number, counted from the top.
    pub fn get(&self, number: usize) -> Option<&T>
        ensures { option_copied result ≡ slice_get self.now number }
    {
        let count = self.items.len();
        if number < count {
            self.items.get(count - 1 - number)
        } else {
            None
        }
    }

    pub fn pop(&mut self) -> Option<T>
        ensures { MatchOption result ((self.old ≡ []) × (self.new ≡ [])) (λ top. self.old ≡ top ∷ self.new) }
    {
        self.items.pop()
    }

    /// Gives back the room of items that are popped, once it is a quarter of a large stack's.
    pub fn shrink(&mut self)
        ensures { self.new ≡ self.old }
    {
        let room = self.items.capacity();
        if room > LARGE && self.items.len() < room / 4 * 3 {
            self.items.shrink_to_fit();
        }
    }
}

/// Room for one item more. A first item gets room for itself alone, as many stacks of a text hold no other.
#[inline(never)]
fn grow<T: Drop>(items: &mut Vec<T>) -> Result<(), AllocError>
    ensures items { items.new.items ≡ items.old.items }
    ensures room { OnOk result (vec_len items.new + 1 ≤ vec_capacity items.new) }
{
    if items.capacity() == 0 {
        items.reserve_exact(1)
    } else {
        items.reserve(1)
    }
}

impl<T: Drop> Stack<T> {
    #[inline(always)]
    pub fn push(&mut self, item: T) -> Result<(), AllocError>
        ensures ok { OnOk result (self.new ≡ item ∷ self.old) }
        ensures err { OnErr result (self.new ≡ self.old) }
    {
        if self.items.len() == self.items.capacity() {
            grow(&mut self.items)?;
        }
        self.items.push_reserved(item);
        Ok(())
    }
}
