ghost use Rattle.std.specs.Prelude.{◌≡◌, nat_eq, IfOk};
ghost use Rattle.std.specs.Cmp.Lexicographic.{pointwise};
ghost use Rattle.contents.specs.Text.{bytes_held};

use crate::in_place::InPlace;
use crate::{Exact, Seq};
use std::alloc::{AllocError, Global};
use std::hash::{Hash, Hasher};
use std::marker::Model;
use std::rc::Rc;

/// How a text stands: at most 14 bytes in place, more of them shared by their owners.
#[derive(Drop)]
enum Held {
    Short(InPlace),
    Long(Rc<Seq<u8>>),
}

/// A byte string that contracts see as the list of its bytes. A copy takes no memory and no walk.
pub struct Text {
    held: Held,
}

impl Drop for Text {
    fn drop(self) {
        let Text { held: _ } = self;
    }
}

impl Model for Text {
    ghost use Rattle.std.specs.Prelude.{ℕ, List};
    ghost use Rattle.contents.specs.Text.{bytes_held};

    ghost Value = { List ℕ };

    ghost view = { λ it. bytes_held it.held };
}

fn copy_of(held: &Held) -> Result<Held, AllocError>
    ensures { IfOk result (λ copy. bytes_held copy ≡ bytes_held held.now) }
{
    match held {
        Held::Short(bytes) => Ok(Held::Short(*bytes)),
        Held::Long(bytes) => Ok(Held::Long(bytes.clone()?)),
    }
}

/// Shared by its owners.
fn shared(alloc: Global, bytes: &[u8]) -> Result<Held, AllocError>
    ensures { IfOk result (λ held. bytes_held held ≡ bytes.now) }
{
    let bytes = Seq::from_vec(bytes.to_vec(alloc)?);
    Ok(Held::Long(Rc::new(alloc, bytes)?))
}

/// Whether the bytes are the same. Most texts are short, so they are compared one by one.
fn are_same(some: &[u8], others: &[u8]) -> bool
    ensures { result ≡ pointwise nat_eq some.now others.now }
{
    if some.len() != others.len() {
        return false;
    }
    for at in 0..some.len() {
        if some[at] != others[at] {
            return false;
        }
    }
    true
}

impl Text {
    /// Takes memory for more than 14 bytes alone.
    pub fn from_slice(alloc: Global, bytes: &[u8]) -> Result<Text, AllocError>
        ensures { IfOk result (λ text. text ≡ bytes.now) }
    {
        match InPlace::of(bytes) {
            Some(short) => Ok(Text {
                held: Held::Short(short),
            }),
            None => Ok(Text {
                held: shared(alloc, bytes)?,
            }),
        }
    }

    pub fn as_slice(&self) -> &[u8]
        ensures { result.now ≡ self.now }
    {
        match &self.held {
            Held::Short(bytes) => bytes.as_slice(),
            Held::Long(bytes) => Rc::as_ref(bytes).as_slice(),
        }
    }
}

impl Exact for Text {
    fn is(&self, other: &Text) -> bool {
        are_same(self.as_slice(), other.as_slice())
    }

    fn copy(&self, _alloc: Global) -> Result<Text, AllocError> {
        Ok(Text {
            held: copy_of(&self.held)?,
        })
    }
}

impl PartialEq for Text {
    ghost use Rattle.std.specs.Prelude.{nat_eq};
    ghost use Rattle.std.specs.Cmp.Lexicographic.{pointwise, nat_list_eq_equiv};
    ghost use Rattle.std.specs.Cmp as cmp;

    ghost eq = { pointwise nat_eq };

    ghost laws = { cmp.partial_equiv_from_equiv nat_list_eq_equiv };

    fn eq(&self, other: &Text) -> bool {
        are_same(self.as_slice(), other.as_slice())
    }
}

impl Eq for Text {
    ghost use Rattle.std.specs.Cmp.Lexicographic.{nat_list_eq_equiv};

    ghost laws = { nat_list_eq_equiv };
}

impl Hash for Text {
    ghost use Rattle.std.specs.Hash as fed;
    ghost use Rattle.std.specs.Hash.{items_Alike};
    ghost use Rattle.contents.specs.Text.{bytes_are_fed_alike};

    ghost hash_input = { fed.slice fed.u8 };

    ghost respects_eq = { (items_Alike bytes_are_fed_alike).fed };

    fn hash<H: Hasher>(&self, state: &mut H) {
        self.as_slice().hash(state);
    }
}
