//! The types of names that are lent: few in a row, each name with a mark, and many with their hashes.
ghost use Rattle.std.specs.Prelude.{◌≡◌, not, IfOk, OnOk};
ghost use Rattle.std.specs.Option.{is_some, option_copied};
ghost use Rattle.ir_typing.specs.ShapeKinds.Kept.{entries_told, found_among, told_at, types_among};
ghost use Rattle.ir_typing.specs.ShapeKinds.Marks as marks;
ghost use Rattle.ir_typing.specs.ShapeKinds.Typed.{with_type};

use crate::shape_kinds::marked::{Marked, is_it, mark_of};
use ir_core::{Name, Ty};
use std::alloc::{AllocError, Global};
use std::collections::HashMap;

/// So many are found at once one by one, and more by hash.
const FEW: usize = 24;

/// What is told of a name: its type, or that it has none.
#[derive(Drop, Clone, Copy)]
pub(crate) struct Told<'a> {
    marked: Marked<'a>,
    ty: Option<&'a Ty>,
}

pub(crate) enum HeldTypes<'a> {
    Few(Vec<Told<'a>>),
    Many(HashMap<&'a Name, Option<&'a Ty>>),
}

impl<'a> Drop for HeldTypes<'a> {
    fn drop(self) {
        match self {
            HeldTypes::Few(_) => {}
            HeldTypes::Many(_) => {}
        }
    }
}

/// The place of the name of that mark, or how many there are where it isn't one of them.
#[inline(always)]
fn place_in(row: &[Told], mark: u32, name: &Name) -> usize
    requires { mark ≡ marks.mark_of name.now }
    ensures { told_at row.now result ≡ found_among (entries_told row.now) name.now }
{
    for place in 0..row.len() {
        let told = &row[place];
        if is_it(&told.marked, mark, name) {
            return place;
        }
    }
    row.len()
}

/// What is told of the name of that mark, if it is there.
#[inline(always)]
fn told_of<'a>(row: &[Told<'a>], mark: u32, name: &Name) -> Option<Option<&'a Ty>>
    requires { mark ≡ marks.mark_of name.now }
    ensures { result ≡ found_among (entries_told row.now) name.now }
{
    let place = place_in(row, mark, name);
    if place < row.len() {
        let told = &row[place];
        Some(told.ty)
    } else {
        None
    }
}

fn put_few<'a>(
    row: &mut Vec<Told<'a>>,
    name: &'a Name,
    ty: Option<&'a Ty>,
) -> Result<bool, AllocError>
    ensures new { IfOk result (λ new. new ≡ not (is_some (found_among (entries_told row.old.items) name.now))) }
    ensures types { OnOk result
        (types_among (entries_told row.new.items) ≡ with_type (types_among (entries_told row.old.items)) name.now (option_copied ty.entry)) }
{
    let mark = mark_of(name);
    if place_in(row.as_slice(), mark, name) < row.len() {
        return Ok(false);
    }
    let marked = Marked::new(mark, name);
    row.push(Told { marked, ty })?;
    Ok(true)
}

fn put_many<'a>(
    types: &mut HashMap<&'a Name, Option<&'a Ty>>,
    name: &'a Name,
    ty: Option<&'a Ty>,
) -> Result<bool, AllocError>
    ensures new { IfOk result (λ new. new ≡ not (is_some (found_among types.old.entries name.now))) }
    ensures types { OnOk result
        (types_among types.new.entries ≡ with_type (types_among types.old.entries) name.now (option_copied ty.entry)) }
{
    // A name that is there keeps its place and what was told of it first.
    match types.insert(name, ty)? {
        None => Ok(true),
        Some(first) => {
            types.insert(name, first)?;
            Ok(false)
        }
    }
}

impl<'a> HeldTypes<'a> {
    ghost use Rattle.std.specs.Prelude.{[]};
    ghost use Rattle.ir_typing.specs.ShapeKinds.Kept.{entries_held};

    /// There is room for so many, which are found by hash where they are many.
    pub(crate) fn with_room(alloc: Global, names: usize) -> Result<HeldTypes<'a>, AllocError>
        ensures { IfOk result (λ held. entries_held held ≡ []) }
    {
        if names > FEW {
            return Ok(HeldTypes::Many(HashMap::with_capacity(alloc, names)?));
        }
        Ok(HeldTypes::Few(Vec::with_capacity(alloc, names)?))
    }

    /// How many there will be isn't known. Takes no memory.
    pub(crate) fn new(alloc: Global) -> HeldTypes<'a>
        ensures { entries_held result ≡ [] }
    {
        HeldTypes::Many(HashMap::new(alloc))
    }

    pub(crate) fn get(&self, name: &Name) -> Option<Option<&'a Ty>>
        ensures { result ≡ found_among (entries_held self.now) name.now }
    {
        match self {
            HeldTypes::Few(row) => told_of(row.as_slice(), mark_of(name), name),
            HeldTypes::Many(types) => types.get(&name).copied(),
        }
    }

    /// Puts the name where it is new, and says whether it is.
    pub(crate) fn put(&mut self, name: &'a Name, ty: Option<&'a Ty>) -> Result<bool, AllocError>
        ensures new { IfOk result (λ new. new ≡ not (is_some (found_among (entries_held self.old) name.now))) }
        ensures types { OnOk result
            (types_among (entries_held self.new) ≡ with_type (types_among (entries_held self.old)) name.now (option_copied ty.entry)) }
    {
        match self {
            HeldTypes::Few(row) => put_few(row, name, ty),
            HeldTypes::Many(types) => put_many(types, name, ty),
        }
    }
}
