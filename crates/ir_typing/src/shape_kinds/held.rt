//! Names that are lent: few in a row, each with a mark, and many with their hashes.
ghost use Rattle.std.specs.Prelude.{◌≡◌, IfOk, OnOk};
ghost use Rattle.ir_core.specs.NameIndexes.Among.{is_among, place_among};
ghost use Rattle.ir_typing.specs.ShapeKinds.Held.{names_marked};
ghost use Rattle.ir_typing.specs.ShapeKinds.Marks as marks;
ghost use Rattle.ir_typing.specs.ShapeKinds.Names.{with_name};

use crate::shape_kinds::hashed::Hashed;
use crate::shape_kinds::marked::{Marked, is_it, mark_of};
use ir_core::Name;
use std::alloc::{AllocError, Global};

/// So many are found at once one by one, and more by hash.
const FEW: usize = 24;

pub(crate) enum Held<'a> {
    Few(Vec<Marked<'a>>),
    Many(Hashed<'a>),
}

impl<'a> Drop for Held<'a> {
    fn drop(self) {
        match self {
            Held::Few(_) => {}
            Held::Many(_) => {}
        }
    }
}

/// Whether the name of that mark is one of these.
fn is_one_of(row: &[Marked], mark: u32, name: &Name) -> bool
    requires { mark ≡ marks.mark_of name.now }
    ensures { result ≡ is_among name.now (names_marked row.now) }
{
    for one in row {
        if is_it(one, mark, name) {
            return true;
        }
    }
    false
}

/// The place of the name of that mark among these, if it is one.
fn place_of(row: &[Marked], mark: u32, name: &Name) -> Option<usize>
    requires { mark ≡ marks.mark_of name.now }
    ensures { result ≡ place_among name.now (names_marked row.now) }
{
    for place in 0..row.len() {
        if is_it(&row[place], mark, name) {
            return Some(place);
        }
    }
    None
}

fn take_few<'a>(row: &mut Vec<Marked<'a>>, name: &'a Name) -> Result<bool, AllocError>
    ensures taken { IfOk result (λ taken. taken ≡ is_among name.now (names_marked row.old.items)) }
    ensures names { OnOk result (names_marked row.new.items ≡ with_name (names_marked row.old.items) name.now) }
{
    let mark = mark_of(name);
    if is_one_of(row.as_slice(), mark, name) {
        return Ok(true);
    }
    row.push(Marked::new(mark, name))?;
    Ok(false)
}

impl<'a> Held<'a> {
    ghost use Rattle.std.specs.Prelude.{[]};
    ghost use Rattle.ir_typing.specs.ShapeKinds.Held.{names_held};

    /// There is room for so many, which are found by hash where they are many.
    pub(crate) fn with_room(alloc: Global, names: usize) -> Result<Held<'a>, AllocError>
        ensures { IfOk result (λ held. names_held held ≡ []) }
    {
        if names > FEW {
            return Ok(Held::Many(Hashed::with_room(alloc, names)?));
        }
        Ok(Held::Few(Vec::with_capacity(alloc, names)?))
    }

    /// How many there will be isn't known. Takes no memory.
    pub(crate) fn new(alloc: Global) -> Held<'a>
        ensures { names_held result ≡ [] }
    {
        Held::Many(Hashed::new(alloc))
    }

    pub(crate) fn has(&self, name: &Name) -> bool
        ensures { result ≡ is_among name.now (names_held self.now) }
    {
        match self {
            Held::Few(row) => is_one_of(row.as_slice(), mark_of(name), name),
            Held::Many(names) => names.has(name),
        }
    }

    /// The place of the name among them, if it is one.
    pub(crate) fn position(&self, name: &Name) -> Option<usize>
        ensures { result ≡ place_among name.now (names_held self.now) }
    {
        match self {
            Held::Few(row) => place_of(row.as_slice(), mark_of(name), name),
            Held::Many(names) => names.position(name),
        }
    }

    /// Puts the name behind the others where it is new, and says whether it was taken.
    pub(crate) fn take(&mut self, name: &'a Name) -> Result<bool, AllocError>
        ensures taken { IfOk result (λ taken. taken ≡ is_among name.now (names_held self.old)) }
        ensures names { OnOk result (names_held self.new ≡ with_name (names_held self.old) name.now) }
    {
        match self {
            Held::Few(row) => take_few(row, name),
            Held::Many(names) => names.take(name),
        }
    }
}
