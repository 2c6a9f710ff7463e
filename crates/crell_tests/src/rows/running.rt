// A row is run by a book of rules: over a shelf and sinks that fail where the row says so, or over texts in memory.
ghost use Rattle.std.specs.Prelude.{◌≤◌};

use crell_io::{Entry, MemShelf, MemSink};
use crell_program::{MemoryRun, crell, crell_in_memory};
use rule_base::RuleBook;
use std::alloc::{AllocError, Global};
use std::mem;
use test_support::{Fault, File, Given, Plan, Row, Table, Wanted};

/// How a row went.
#[derive(Clone, Copy, PartialEq)]
pub(crate) enum End {
    Passed,
    /// Something came otherwise than the row says.
    Differs,
    /// The row isn't as it must be.
    Unlike,
    Memory,
}

/// How a row is run: by this book, over a shelf and sinks that fail where the row says so, or, where that is wanted, over texts in memory.
#[derive(Drop, Clone, Copy)]
pub(crate) struct Way<'a> {
    pub(crate) book: &'a RuleBook,
    pub(crate) in_memory: bool,
}

/// How the row at that place goes.
pub(crate) fn end_of(alloc: Global, way: &Way, table: &Table, place: usize) -> End {
    match came_so(alloc, way, table, place) {
        Ok(true) => End::Passed,
        Ok(false) => End::Differs,
        Err(Fault::Unlike(_)) => End::Unlike,
        Err(Fault::Memory) => End::Memory,
    }
}

/// Whether all came as the row says.
fn came_so(alloc: Global, way: &Way, table: &Table, place: usize) -> Result<bool, Fault> {
    let mut row = table.row(alloc, place)?;
    let run = run_of(alloc, way, &mut row)?;
    Ok(is_wanted(&run, &row.wanted))
}

fn is_wanted(run: &MemoryRun, wanted: &Wanted) -> bool {
    run.status == wanted.status
        && run.out.bytes() == wanted.stdout.as_slice()
        && run.err.bytes() == wanted.stderr.as_slice()
        && wanted.faults.unwrap_or(run.shelf.faults()) == run.shelf.faults()
        && wanted.taken.unwrap_or(run.shelf.taken()) == run.shelf.taken()
}

fn run_of(alloc: Global, way: &Way, row: &mut Row) -> Result<MemoryRun, AllocError> {
    if way.in_memory {
        run_in_memory(alloc, way.book, row)
    } else {
        run_over_shelf(alloc, way.book, row)
    }
}

/// A run in which no call fails, and err has the room that the row gives to out.
fn run_in_memory(alloc: Global, book: &RuleBook, row: &mut Row) -> Result<MemoryRun, AllocError> {
    let files = mem::replace(&mut row.given.files, Vec::new(alloc));
    let entries = entries_of(alloc, files)?;
    let room = row.out.room as usize;
    crell_in_memory(alloc, &row.given.words, book, entries, room)
}

fn run_over_shelf(alloc: Global, book: &RuleBook, row: &mut Row) -> Result<MemoryRun, AllocError> {
    let mut out = sink_of(alloc, &mut row.out)?;
    let mut err = sink_of(alloc, &mut row.err)?;
    let mut shelf = shelf_of(alloc, &mut row.given)?;
    let words = &row.given.words;
    let status = crell(alloc, words, book, &[], &mut shelf, &mut out, &mut err);
    Ok(MemoryRun {
        status,
        shelf,
        out,
        err,
    })
}

fn sink_of(alloc: Global, plan: &mut Plan) -> Result<MemSink, AllocError> {
    let failing = mem::replace(&mut plan.failing, Vec::new(alloc));
    new_sink(alloc, plan.room, plan.most, failing)
}

fn new_sink(alloc: Global, room: u64, most: u64, failing: Vec<u64>) -> Result<MemSink, AllocError> {
    MemSink::new(alloc, room as usize, at_least_one(most), failing)
}

/// The number itself: a plan in which `most` is 0 isn't read.
fn at_least_one(most: u64) -> usize
    ensures { 1 ≤ result }
{
    if most == 0 { 1 } else { most as usize }
}

fn shelf_of(alloc: Global, given: &mut Given) -> Result<MemShelf, AllocError> {
    let files = mem::replace(&mut given.files, Vec::new(alloc));
    let entries = entries_of(alloc, files)?;
    let failing = mem::replace(&mut given.failing_gets, Vec::new(alloc));
    Ok(MemShelf::new(entries, failing))
}

fn entries_of(alloc: Global, files: Vec<File>) -> Result<Vec<Entry>, AllocError> {
    let mut entries = Vec::new(alloc);
    for file in files {
        entries.push(entry_of(file))?;
    }
    Ok(entries)
}

fn entry_of(file: File) -> Entry {
    Entry {
        name: file.name,
        bytes: file.bytes,
    }
}
