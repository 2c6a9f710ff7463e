//! The entries of a phi: how many there are of each block, and what is first for each.
ghost use Rattle.std.specs.Prelude.{◌≡◌, true, IfOk, OnOk};
ghost use Rattle.ir_shape.specs.ShapeTests.Counted.{alike_along, count_in, counts_of, first_in, none_first};
ghost use Rattle.ir_shape.specs.ShapeTests.Edges.{named};
ghost use Rattle.ir_shape.specs.ShapeTests.Kinds as meaning;

use ir_core::{Atom, Entry, Name, same_name_atom};
use std::alloc::{AllocError, Global};
use std::collections::HashMap;

/// How often each name stands among some, found without a walk through them.
pub struct Counts<'a> {
    of: HashMap<&'a Name, usize>,
}

impl<'a> Drop for Counts<'a> {
    fn drop(self) {
        let Counts { of: _ } = self;
    }
}

impl<'a> Counts<'a> {
    ghost use Rattle.ir_shape.specs.ShapeTests.Counted.{none_counted, with_count};

    pub(crate) fn new(alloc: Global) -> Counts<'a>
        ensures { count_in result ≡ none_counted }
    {
        Counts {
            of: HashMap::new(alloc),
        }
    }

    #[tactic(auto, unfolding(crate::specs::ShapeTests::Counted::count_in))]
    pub(crate) fn get(&self, name: &Name) -> usize
        ensures { result ≡ count_in self.now name.now }
    {
        match self.of.get(&name).copied() {
            None => 0,
            Some(count) => count,
        }
    }

    /// There is room for so many.
    fn with_room(alloc: Global, names: usize) -> Result<Counts<'a>, AllocError>
        ensures { IfOk result (λ counts. count_in counts ≡ none_counted) }
    {
        Ok(Counts {
            of: HashMap::with_capacity(alloc, names)?,
        })
    }

    /// Most names come once.
    fn put(&mut self, name: &'a Name) -> Result<(), AllocError>
        ensures { OnOk result (count_in self.new ≡ with_count (count_in self.old) name.now) }
    {
        match self.of.insert(name, 1)? {
            None => Ok(()),
            Some(count) => {
                // So many names stand in no memory.
                if count == usize::MAX {
                    return Err(AllocError);
                }
                self.of.insert(name, count + 1)?;
                Ok(())
            }
        }
    }
}

pub(crate) fn count_edges<'a>(alloc: Global, edges: &[&'a Name]) -> Result<Counts<'a>, AllocError>
    ensures { IfOk result (λ counts. count_in counts ≡ counts_of (named edges.now)) }
{
    let mut counts = Counts::with_room(alloc, edges.len())?;
    for edge in edges {
        counts.put(*edge)?;
    }
    Ok(counts)
}

pub(crate) fn count_entries<'a>(
    alloc: Global,
    entries: &'a [Entry],
) -> Result<Counts<'a>, AllocError>
    ensures { IfOk result (λ counts. count_in counts ≡ counts_of (meaning.froms_of entries.now)) }
{
    let mut counts = Counts::with_room(alloc, entries.len())?;
    for entry in entries {
        counts.put(&entry.from)?;
    }
    Ok(counts)
}

/// The value of the first entry of each block.
struct Firsts<'a> {
    of: HashMap<&'a Name, &'a Atom<Name>>,
}

impl<'a> Drop for Firsts<'a> {
    fn drop(self) {
        let Firsts { of: _ } = self;
    }
}

impl<'a> Firsts<'a> {
    ghost use Rattle.ir_shape.specs.ShapeTests.Counted.{agrees_with, with_first};

    /// There is room for so many.
    fn with_room(alloc: Global, names: usize) -> Result<Firsts<'a>, AllocError>
        ensures { IfOk result (λ firsts. first_in firsts ≡ none_first) }
    {
        Ok(Firsts {
            of: HashMap::with_capacity(alloc, names)?,
        })
    }

    /// Keeps the value, and says whether it is the first one of that name, if there is one.
    #[tactic(auto, unfolding(crate::specs::ShapeTests::Counted::first_in))]
    fn meet(&mut self, name: &'a Name, value: &'a Atom<Name>) -> Result<bool, AllocError>
        ensures alike { IfOk result (λ alike. alike ≡ agrees_with (first_in self.old name.now) value.now) }
        ensures kept { IfOk result
            (λ alike. alike ≡ true → first_in self.new ≡ with_first (first_in self.old) name.now value.now) }
    {
        match self.of.insert(name, value)? {
            None => Ok(true),
            Some(first) => Ok(same_name_atom(first, value)),
        }
    }
}

/// Whether entries of one block have one value.
pub(crate) fn are_alike(alloc: Global, entries: &[Entry]) -> Result<bool, AllocError>
    ensures { IfOk result (λ alike. alike ≡ alike_along none_first entries.now) }
{
    let mut firsts = Firsts::with_room(alloc, entries.len())?;
    for entry in entries {
        if !firsts.meet(&entry.from, &entry.value)? {
            return Ok(false);
        }
    }
    Ok(true)
}
