ghost use Rattle.std.specs.Prelude.{◌≡◌, IfOk, map, string_bytes};
ghost use Rattle.crell_io.specs.MemShelf.{entry_pair};
ghost use Rattle.rule_base.specs.Book.{rules_of};
ghost use Rattle.crell_program.specs.CommandLine.Words.{command_of};
ghost use Rattle.crell_program.specs.InMemory.{new_shelf, new_sink, memory_run, EndsWell};

use crate::crell;
use crell_io::{Entry, MemShelf, MemSink};
use ir_reader::first_faults_agree;
use rule_base::RuleBook;
use std::alloc::{AllocError, Global};

/// A run over texts in memory, as it ended.
pub struct MemoryRun {
    pub status: u8,
    pub shelf: MemShelf,
    pub out: MemSink,
    pub err: MemSink,
}

impl Drop for MemoryRun {
    fn drop(self) {
        let MemoryRun {
            status: _,
            shelf: _,
            out: _,
            err: _,
        } = self;
    }
}

/// Runs the command that the words name over these texts, by a book of rules, with so many bytes of room in each sink. No call is made
/// to fail.
pub fn crell_in_memory(
    alloc: Global,
    words: &[String],
    rules: &RuleBook,
    entries: Vec<Entry>,
    room: usize,
) -> Result<MemoryRun, AllocError>
    ensures { IfOk result
        (λ ended. EndsWell
        (memory_run (rules_of called takes rules.now)
        (command_of (map string_bytes words.now)) (map entry_pair entries.items) room
        ended.shelf ended.out ended.err)
        ended.status) }
{
    first_faults_agree();
    let mut shelf = new_shelf(alloc, entries);
    let mut out = new_sink(alloc, room)?;
    let mut err = new_sink(alloc, room)?;
    let status = crell(alloc, words, rules, &[], &mut shelf, &mut out, &mut err);
    Ok(MemoryRun {
        status,
        shelf,
        out,
        err,
    })
}

fn new_shelf(alloc: Global, entries: Vec<Entry>) -> MemShelf
    ensures { result ≡ new_shelf (map entry_pair entries.items) }
{
    MemShelf::new(entries, Vec::new(alloc))
}

fn new_sink(alloc: Global, room: usize) -> Result<MemSink, AllocError>
    ensures { IfOk result (λ sink. sink ≡ new_sink room) }
{
    MemSink::new(alloc, room, usize::MAX, Vec::new(alloc))
}
