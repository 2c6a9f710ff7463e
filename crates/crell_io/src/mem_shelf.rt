// A shelf in memory, which tells all that it holds.
ghost use Rattle.std.specs.Prelude.{◌≡◌, ◌≢◌, ◌+◌, ◌<◌, ◌≤◌, ◌^◌, ◌-◌, ◌↔◌, [], length, map, false, IsTrue, IfOk, IfErr, IsErrOf, MatchOption, if◌then◌else◌};
ghost use Rattle.crell_io.specs.Count.{raised_by};
ghost use Rattle.crell_io.specs.Shelf.{IsBytesAnd};
ghost use Rattle.crell_io.specs.Shelf.Told.{NoSuch, Bytes};
ghost use Rattle.crell_io.specs.MemShelf.{entry_pair, held, shelf_fails};

use crate::count::is_in;
use crate::{Shelf, ShelfEnd};
use std::alloc::Global;
use std::marker::Model;

/// A name, and the bytes under it.
#[derive(Drop)]
pub struct Entry {
    pub name: String,
    pub bytes: Vec<u8>,
}

/// Entries, of which the first with a name counts, and the calls that are to fail, by their numbers
/// from 0.
#[derive(Drop)]
pub struct MemShelf {
    entries: Vec<Entry>,
    failing: Vec<u64>,
    calls: u64,
    faults: u64,
    taken: u64,
}

impl Model for MemShelf {
    ghost use Rattle.std.specs.Prelude.{map};
    ghost use Rattle.crell_io.specs.MemShelf.{ShelfState, entry_pair};

    ghost Value = { ShelfState };

    ghost view = { λ s. record {
      entries = map entry_pair s.entries.items;
      failing = s.failing.items;
      calls = s.calls;
      faults = s.faults;
      taken = s.taken;
    } };
}

impl MemShelf {
    pub fn new(entries: Vec<Entry>, failing: Vec<u64>) -> MemShelf
        ensures { result ≡ record {
          entries = map entry_pair entries.items;
          failing = failing.items;
          calls = 0;
          faults = 0;
          taken = 0;
        } }
    {
        MemShelf {
            entries,
            failing,
            calls: 0,
            faults: 0,
            taken: 0,
        }
    }

    /// How many calls failed.
    pub fn faults(&self) -> u64
        ensures { result ≡ self.now.faults }
    {
        self.faults
    }

    /// How many bytes were taken.
    pub fn taken(&self) -> u64
        ensures { result ≡ self.now.taken }
    {
        self.taken
    }
}

// The bytes of the first entry with the name.
fn find<'a>(entries: &'a [Entry], name: &str) -> Option<&'a [u8]>
    ensures { MatchOption result
        (held (map entry_pair entries.now) name.now ≡ NoSuch)
        (λ bytes. held (map entry_pair entries.now) name.now ≡ Bytes bytes.now) }
{
    for entry in entries {
        if entry.name.as_str() == name {
            return Some(entry.bytes.as_slice());
        }
    }
    None
}

// A copy of the bytes, if they are at most `limit` many. All that is given is taken, and one more than the limit of
// what is longer.
fn copy_within(
    alloc: Global,
    bytes: &[u8],
    limit: u64,
    taken: &mut u64,
) -> Result<Vec<u8>, ShelfEnd>
    requires { limit < 2 ^ 64 - 1 }
    ensures contents { IfOk result (λ copy. copy.items ≡ bytes.now) }
    ensures too_long_exactly { IsErrOf result ShelfEnd.TooLong ↔ limit < length bytes.now }
    ensures ends { IfErr result (λ end. (end ≢ ShelfEnd.Failed) × (end ≢ ShelfEnd.Absent)) }
    ensures rises { taken.old ≤ taken.new }
    ensures taken_all { IfOk result (λ copy. taken.new ≡ raised_by (length copy.items) taken.old) }
    ensures taken_above { IsErrOf result ShelfEnd.TooLong →
        taken.new ≡ raised_by (limit + 1) taken.old }
    ensures taken_else { IfErr result
        (λ end. end ≢ ShelfEnd.TooLong → taken.new ≡ taken.old) }
{
    let length = bytes.len() as u64;
    if length > limit {
        *taken = taken.saturating_add(limit + 1);
        return Err(ShelfEnd::TooLong);
    }
    let copy = bytes.to_vec(alloc)?;
    *taken = taken.saturating_add(length);
    Ok(copy)
}

// A copy of the bytes of the first entry with the name.
fn copy_named(
    alloc: Global,
    entries: &[Entry],
    name: &str,
    limit: u64,
    taken: &mut u64,
) -> Result<Vec<u8>, ShelfEnd>
    requires { limit < 2 ^ 64 - 1 }
    ensures not_failed { IfErr result (λ end. end ≢ ShelfEnd.Failed) }
    ensures absent_exactly { IsErrOf result ShelfEnd.Absent
        ↔ (held (map entry_pair entries.now) name.now ≡ NoSuch) }
    ensures too_long_exactly { IsErrOf result ShelfEnd.TooLong
        ↔ IsBytesAnd (held (map entry_pair entries.now) name.now) (λ bytes. limit < length bytes) }
    ensures contents { IfOk result
        (λ bytes. held (map entry_pair entries.now) name.now ≡ Bytes bytes.items) }
    ensures rises { taken.old ≤ taken.new }
    ensures taken_all { IfOk result (λ bytes. taken.new ≡ raised_by (length bytes.items) taken.old) }
    ensures taken_above { IsErrOf result ShelfEnd.TooLong →
        taken.new ≡ raised_by (limit + 1) taken.old }
    ensures taken_else { IfErr result
        (λ end. end ≢ ShelfEnd.TooLong → taken.new ≡ taken.old) }
{
    match find(entries, name) {
        Some(bytes) => copy_within(alloc, bytes, limit, taken),
        None => Err(ShelfEnd::Absent),
    }
}

impl Shelf for MemShelf {
    ghost told = { λ shelf. held shelf.entries };

    ghost faults = { λ shelf. shelf.faults };

    ghost taken = { λ shelf. shelf.taken };

    ghost fails_nowhere = { λ shelf. shelf.failing ≡ [] };

    /// It fails exactly in the calls that are to fail, and only there its count of faults rises.
    fn get(&mut self, alloc: Global, name: &str, limit: u64) -> Result<Vec<u8>, ShelfEnd>
        requires { limit < 2 ^ 64 - 1 }

        ensures faults { self.old.faults ≤ self.new.faults }
        ensures taken { self.old.taken ≤ self.new.taken }

        ensures entries_kept { self.new.entries ≡ self.old.entries }
        ensures failing_kept { self.new.failing ≡ self.old.failing }
        ensures calls { self.new.calls ≡ raised_by 1 self.old.calls }
        ensures faults_exactly { self.new.faults ≡
            (if shelf_fails self.old then raised_by 1 self.old.faults else self.old.faults) }

        ensures failed_exactly { IsErrOf result ShelfEnd.Failed ↔ IsTrue (shelf_fails self.old) }
        ensures absent_exactly { IsErrOf result ShelfEnd.Absent ↔
            ((shelf_fails self.old ≡ false) × (held self.old.entries name.now ≡ NoSuch)) }
        ensures too_long_exactly { IsErrOf result ShelfEnd.TooLong ↔
            ((shelf_fails self.old ≡ false)
            × IsBytesAnd (held self.old.entries name.now) (λ bytes. limit < length bytes)) }

        ensures contents { IfOk result
            (λ bytes. held self.old.entries name.now ≡ Bytes bytes.items) }

        ensures taken_all { IfOk result
            (λ bytes. self.new.taken ≡ raised_by (length bytes.items) self.old.taken) }
        ensures taken_above { IsErrOf result ShelfEnd.TooLong →
            self.new.taken ≡ raised_by (limit + 1) self.old.taken }
        ensures taken_else { IfErr result
            (λ end. end ≢ ShelfEnd.TooLong → self.new.taken ≡ self.old.taken) }
    {
        let call = self.calls;
        self.calls = call.saturating_add(1);
        if is_in(&self.failing, call) {
            self.faults = self.faults.saturating_add(1);
            return Err(ShelfEnd::Failed);
        }
        copy_named(alloc, &self.entries, name, limit, &mut self.taken)
    }
}
