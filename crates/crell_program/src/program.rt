ghost use Rattle.std.specs.Prelude.{◌≡◌, ◌≢◌, ◌≤◌, [], None, Some, IfOk, map, string_bytes};
ghost use Rattle.rule_base.specs.Book.{meanings_of, rules_of};
ghost use Rattle.crell_io.specs.Shelf.{StaysWell};
ghost use Rattle.crell_program.specs.CrellAnswers.Answer.{usage};
ghost use Rattle.crell_program.specs.CommandLine.Words.{Print, command_of, shown_request};
ghost use Rattle.crell_program.specs.Command.{files_of, shown_command};
ghost use Rattle.crell_program.specs.Due.{shelf_seen, DueOfFiles, DueOfListing, DueOfTexts, IsListing, Lists};
ghost use Rattle.crell_program.specs.Delivery.{sink_seen, IsDelivered};
ghost use Rattle.crell_program.specs.Modules.{SpellsOne};
ghost use Rattle.crell_program.specs.Rows.{IsAnswered, KeepsRows};
ghost use Rattle.crell_program.specs.Statuses.{IsRefinement, IsRefinementOfBytes};

use crate::command::{files_of_check, files_of_listing};
use crate::command_line::{FileNames, Listing, Request, WordsEnd, read_words};
use crate::crell_answers::{Answer, module_fault, printed};
use crate::definition_text::definitions_text;
use crate::delivery::deliver;
use crate::fetch::{Stop, gather};
use crate::judging::judge_pair;
use crell_io::{Shelf, Sink};
use ir_core::Module;
use ir_printer::print_module;
use ir_reader::{first_faults_agree, read_well_formed};
use ir_rename::name_all;
use rule_base::{InferRule, Pass, RuleBook};
use std::alloc::{AllocError, Global};

/// The status where the words are no command's.
const USAGE: u8 = 2;

/// What is told of words that are no command's where the library says nothing of them.
const NO_COMMAND: &str = "crell: no command\n";

/// The status of a run that memory was refused to.
pub const WANT_OF_MEMORY: u8 = 8;

/// Runs the command that the words name, over this shelf and these sinks, and gives the status: `check SRC TGT HINTS`,
/// `defs FILE` or `fmt FILE [--names]`. The first word is the program's name. The passes are those that later commands run; these call none.
pub fn crell<S: Shelf, O: Sink, E: Sink>(
    alloc: Global,
    words: &[String],
    rules: &RuleBook,
    _passes: &[Box<dyn Pass>],
    shelf: &mut S,
    out: &mut O,
    err: &mut E,
) -> u8
    // THE HEADLINE: where the status is 0, the bytes under the two names spell modules of which the target's refines the source's.
    ensures headline { result ≡ 0 → IsRefinementOfBytes (S.told shelf.old)
        (command_of (map string_bytes words.now)) }

    // The rows of the table of statuses.
    ensures rows { KeepsRows (record {
      rules = meanings_of
          (λ b. (⟦<dyn InferRule as InferRule>⟧ b.vtable).called b.value)
          (λ b. (⟦<dyn InferRule as InferRule>⟧ b.vtable).takes b.value)
          rules.now.rules.items;
      command = command_of (map string_bytes words.now);
      shelf = shelf_seen S.told S.faults S.taken shelf.old shelf.new;
      out = sink_seen O.written O.room_left O.faults out.old out.new;
      err = sink_seen E.written E.room_left E.faults err.old err.new;
    }) result }

    // The shelf tells what it told before, and counts no fault where it fails nowhere. No count falls.
    ensures told { S.told shelf.new ≡ S.told shelf.old }
    ensures well { StaysWell S.fails_nowhere S.faults shelf.old shelf.new }
    ensures counts { (S.faults shelf.old ≤ S.faults shelf.new) × (S.taken shelf.old ≤ S.taken shelf.new)
        × (O.faults out.old ≤ O.faults out.new) × (E.faults err.old ≤ E.faults err.new) }

    // Where the words are no command's, the shelf isn't asked.
    ensures unasked { command_of (map string_bytes words.now) ≡ None → shelf.new ≡ shelf.old }
{
    first_faults_agree();
    run(alloc, words, rules, shelf, out, err)
}

/// Finds the answer, and delivers it.
fn run<S: Shelf, O: Sink, E: Sink>(
    alloc: Global,
    words: &[String],
    rules: &RuleBook,
    shelf: &mut S,
    out: &mut O,
    err: &mut E,
) -> u8
    ensures headline { result ≡ 0 → IsRefinementOfBytes (S.told shelf.old)
        (command_of (map string_bytes words.now)) }
    ensures answered { IsAnswered (record {
      rules = rules_of called takes rules.now;
      command = command_of (map string_bytes words.now);
      shelf = shelf_seen S.told S.faults S.taken shelf.old shelf.new;
      out = sink_seen O.written O.room_left O.faults out.old out.new;
      err = sink_seen E.written E.room_left E.faults err.old err.new;
    }) result }
    ensures told { S.told shelf.new ≡ S.told shelf.old }
    ensures well { StaysWell S.fails_nowhere S.faults shelf.old shelf.new }
    ensures counts { (S.faults shelf.old ≤ S.faults shelf.new) × (S.taken shelf.old ≤ S.taken shelf.new)
        × (O.faults out.old ≤ O.faults out.new) × (E.faults err.old ≤ E.faults err.new) }
    ensures unasked { command_of (map string_bytes words.now) ≡ None → shelf.new ≡ shelf.old }
{
    match read_words(alloc, words) {
        Ok(request) => serve(alloc, &request, rules, shelf, out, err),
        Err(WordsEnd::Refused(text)) => tell_usage(said(&text), out, err),
        Err(WordsEnd::Memory) => WANT_OF_MEMORY,
    }
}

/// The text, and where that is empty one that says what is wrong.
fn said(text: &str) -> &str
    ensures { result.now ≢ [] }
{
    if text.is_empty() { NO_COMMAND } else { text }
}

/// Writes what is wrong with the words, or how the program is used, to err.
fn tell_usage<O: Sink, E: Sink>(text: &str, out: &mut O, err: &mut E) -> u8
    ensures delivered { IsDelivered (usage text.now)
        (sink_seen O.written O.room_left O.faults out.old out.new)
        (sink_seen E.written E.room_left E.faults err.old err.new) result }
    ensures out_faults { O.faults out.old ≤ O.faults out.new }
    ensures err_faults { E.faults err.old ≤ E.faults err.new }
{
    deliver(USAGE, b"", text.as_bytes(), out, err)
}

/// Finds the answer that is due to a command's files, and delivers it.
fn serve<S: Shelf, O: Sink, E: Sink>(
    alloc: Global,
    request: &Request<'_>,
    rules: &RuleBook,
    shelf: &mut S,
    out: &mut O,
    err: &mut E,
) -> u8
    ensures headline { result ≡ 0 → IsRefinement (S.told shelf.old) (shown_request request.now) }
    ensures answered { IsAnswered (record {
      rules = rules_of called takes rules.now;
      command = Some (shown_request request.now);
      shelf = shelf_seen S.told S.faults S.taken shelf.old shelf.new;
      out = sink_seen O.written O.room_left O.faults out.old out.new;
      err = sink_seen E.written E.room_left E.faults err.old err.new;
    }) result }
    ensures told { S.told shelf.new ≡ S.told shelf.old }
    ensures well { StaysWell S.fails_nowhere S.faults shelf.old shelf.new }
    ensures counts { (S.faults shelf.old ≤ S.faults shelf.new) × (S.taken shelf.old ≤ S.taken shelf.new)
        × (O.faults out.old ≤ O.faults out.new) × (E.faults err.old ≤ E.faults err.new) }
{
    match find_answer(alloc, request, rules, shelf) {
        Ok(answer) => deliver(
            answer.status,
            answer.out.as_slice(),
            answer.err.as_slice(),
            out,
            err,
        ),
        Err(_) => WANT_OF_MEMORY,
    }
}

/// The answer that is due to a command's files.
fn find_answer<S: Shelf>(
    alloc: Global,
    request: &Request<'_>,
    rules: &RuleBook,
    shelf: &mut S,
) -> Result<Answer, AllocError>
    ensures due { IfOk result
        (λ answer. DueOfFiles
        (shelf_seen S.told S.faults S.taken shelf.old shelf.new)
        (files_of (shown_request request.now))
        answer (DueOfTexts (rules_of called takes rules.now) (shown_request request.now) answer)) }
    ensures refines { IfOk result
        (λ answer. answer.status ≡ 0 → IsRefinement (S.told shelf.old) (shown_request request.now)) }
    ensures told { S.told shelf.new ≡ S.told shelf.old }
    ensures well { StaysWell S.fails_nowhere S.faults shelf.old shelf.new }
    ensures faults { S.faults shelf.old ≤ S.faults shelf.new }
    ensures taken { S.taken shelf.old ≤ S.taken shelf.new }
{
    match request {
        Request::Check(files) => check_files(alloc, files, rules, shelf),
        Request::Print(listing, file) => list_file(alloc, *listing, file, rules, shelf),
    }
}

/// The answer that is due to the file of `defs` or `fmt`. The rules don't matter.
fn list_file<S: Shelf>(
    alloc: Global,
    listing: Listing,
    file: &str,
    _rules: &RuleBook,
    shelf: &mut S,
) -> Result<Answer, AllocError>
    ensures due { IfOk result
        (λ answer. DueOfFiles
        (shelf_seen S.told S.faults S.taken shelf.old shelf.new)
        (files_of (Print listing file.now))
        answer (DueOfTexts (rules_of called takes _rules.now) (Print listing file.now) answer)) }
    ensures refines { IfOk result
        (λ answer. answer.status ≡ 0 → IsRefinement (S.told shelf.old) (Print listing file.now)) }
    ensures told { S.told shelf.new ≡ S.told shelf.old }
    ensures well { StaysWell S.fails_nowhere S.faults shelf.old shelf.new }
    ensures faults { S.faults shelf.old ≤ S.faults shelf.new }
    ensures taken { S.taken shelf.old ≤ S.taken shelf.new }
{
    match gather(alloc, shelf, &files_of_listing(listing, file)) {
        Ok(texts) => {
            let [text] = texts.as_slice() else {
                unreachable!()
            };
            list_text(alloc, listing, file, text.as_slice())
        }
        Err(Stop::Due(answer)) => Ok(answer),
        Err(Stop::Memory) => Err(AllocError),
    }
}

/// The answer that is due to the text of `defs` or `fmt`.
fn list_text(alloc: Global, listing: Listing, file: &str, text: &[u8]) -> Result<Answer, AllocError>
    ensures due { IfOk result (λ answer. DueOfListing listing file.now answer text.now) }
    ensures spelled { IfOk result (λ answer. answer.status ≡ 0 → SpellsOne text.now) }
{
    match read_well_formed(alloc, text) {
        Ok(module) => listed(alloc, listing, &module),
        Err(fault) => module_fault(alloc, &fault, text, file),
    }
}

/// What is listed of a module, printed.
fn listed(alloc: Global, listing: Listing, module: &Module) -> Result<Answer, AllocError>
    ensures { IfOk result (IsListing listing «module».now) }
{
    let text = listing_text(alloc, listing, module)?;
    Ok(printed(alloc, text))
}

/// What is defined at the starts of a module's blocks; or the module itself, or with names for its numbers.
fn listing_text(alloc: Global, listing: Listing, module: &Module) -> Result<Vec<u8>, AllocError>
    ensures { IfOk result (λ text. Lists listing «module».now text.items) }
{
    match listing {
        Listing::Definitions => definitions_text(alloc, module.functions.as_slice()),
        Listing::ModuleItself => print_module(alloc, module),
        Listing::NamedModule => {
            let named = name_all(alloc, module)?;
            print_module(alloc, &named)
        }
    }
}

/// The answer that is due to the three files.
fn check_files<S: Shelf>(
    alloc: Global,
    files: &FileNames<'_>,
    rules: &RuleBook,
    shelf: &mut S,
) -> Result<Answer, AllocError>
    ensures due { IfOk result
        (λ answer. DueOfFiles
        (shelf_seen S.told S.faults S.taken shelf.old shelf.new)
        (files_of (shown_command files.now))
        answer (DueOfTexts (rules_of called takes rules.now) (shown_command files.now) answer)) }
    ensures refines { IfOk result
        (λ answer. answer.status ≡ 0 → IsRefinement (S.told shelf.old) (shown_command files.now)) }
    ensures told { S.told shelf.new ≡ S.told shelf.old }
    ensures well { StaysWell S.fails_nowhere S.faults shelf.old shelf.new }
    ensures faults { S.faults shelf.old ≤ S.faults shelf.new }
    ensures taken { S.taken shelf.old ≤ S.taken shelf.new }
{
    match gather(alloc, shelf, &files_of_check(files)) {
        Ok(texts) => {
            let [source, target, hints] = texts.as_slice() else {
                unreachable!()
            };
            judge_pair(
                alloc,
                files,
                rules,
                source.as_slice(),
                target.as_slice(),
                hints.as_slice(),
            )
        }
        Err(Stop::Due(answer)) => Ok(answer),
        Err(Stop::Memory) => Err(AllocError),
    }
}
