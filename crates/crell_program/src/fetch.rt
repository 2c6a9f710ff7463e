ghost use Rattle.std.specs.Prelude.{◌≡◌, ◌≤◌, IfOk, IfErr, map};
ghost use Rattle.crell_io.specs.Shelf.{StaysWell};
ghost use Rattle.crell_program.specs.Due.{shelf_seen, DueOfFile, DueOfFiles};
ghost use Rattle.crell_program.specs.Fetching.{IsHeld, AreHeld, IfDue};
ghost use Rattle.crell_program.specs.Command.{shown_file};

use crate::command::Wanted;
use crate::crell_answers::{Answer, absent, past_limit, read_failed};
use contents::Seq;
use crell_io::{Shelf, ShelfEnd};
use std::alloc::{AllocError, Global};

/// Why there are no bytes: a file isn't held, and this answer is due; or memory was refused.
#[derive(Drop)]
pub enum Stop {
    Due(Answer),
    Memory,
}

impl From<AllocError> for Stop {
    ghost use Rattle.crell_program.specs.declared.fetch.Stop.TheVariants.{Memory};

    ghost from_gives = { λ _ stop. stop ≡ Memory };

    fn from(_: AllocError) -> Stop {
        Stop::Memory
    }
}

/// Asks the shelf for the files, up to the first that isn't held.
pub fn gather<S: Shelf>(
    alloc: Global,
    shelf: &mut S,
    files: &[Wanted<'_>],
) -> Result<Seq<Seq<u8>>, Stop>
    ensures told { S.told shelf.new ≡ S.told shelf.old }
    ensures well { StaysWell S.fails_nowhere S.faults shelf.old shelf.new }
    ensures faults { S.faults shelf.old ≤ S.faults shelf.new }
    ensures taken { S.taken shelf.old ≤ S.taken shelf.new }
    ensures held { IfOk result
        (λ texts. AreHeld (shelf_seen S.told S.faults S.taken shelf.old shelf.new) (map shown_file files.now) texts) }
    ensures due { IfErr result
        (λ stop. IfDue stop (λ answer. DueOfFiles
        (shelf_seen S.told S.faults S.taken shelf.old shelf.new)
        (map shown_file files.now) answer (λ texts. ⊥))) }
{
    let mut texts = Seq::new(alloc);
    for file in files {
        let text = fetch(alloc, shelf, file)?;
        texts.push(text)?;
    }
    Ok(texts)
}

/// Asks the shelf for a file.
fn fetch<S: Shelf>(alloc: Global, shelf: &mut S, file: &Wanted<'_>) -> Result<Seq<u8>, Stop>
    ensures told { S.told shelf.new ≡ S.told shelf.old }
    ensures well { StaysWell S.fails_nowhere S.faults shelf.old shelf.new }
    ensures faults { S.faults shelf.old ≤ S.faults shelf.new }
    ensures taken { S.taken shelf.old ≤ S.taken shelf.new }
    ensures held { IfOk result
        (λ text. IsHeld (shelf_seen S.told S.faults S.taken shelf.old shelf.new) (shown_file file.now) text) }
    ensures due { IfErr result
        (λ stop. IfDue stop (λ answer. DueOfFile
        (shelf_seen S.told S.faults S.taken shelf.old shelf.new)
        (shown_file file.now) answer (λ text. ⊥))) }
{
    match shelf.get(alloc, file.name, file.most_bytes()) {
        Ok(bytes) => Ok(Seq::from_vec(bytes)),
        Err(ShelfEnd::Failed) => Err(Stop::Due(read_failed(alloc, file.name)?)),
        Err(ShelfEnd::Absent) => Err(Stop::Due(absent(alloc, file.name)?)),
        Err(ShelfEnd::TooLong) => Err(Stop::Due(past_limit(alloc, file.form.limit(), file.name)?)),
        Err(ShelfEnd::Memory) => Err(Stop::Memory),
    }
}
