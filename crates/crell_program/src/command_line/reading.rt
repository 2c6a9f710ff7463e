ghost use Rattle.std.specs.Prelude.{◌≡◌, ◌≢◌, None, Some, IfErr, IfOk, map, option_map, string_bytes};
ghost use Rattle.clap.specs.Words.{first_of, found_of, kind_of, rows_of, subcommand_rows_of};
ghost use Rattle.clap.specs.declared.error.kind.ErrorKind.TheVariants.{OutOfMemory};
ghost use Rattle.crell_program.specs.CommandLine.Words.{IfRefused, command_found, command_of, files_given, given, is_asked, listing_asked, shown_names, shown_request};

use crate::command_line::line::command_line;
use crate::command_line::request::{FileNames, Listing, Request};
use clap::error::ErrorKind;
use clap::{ArgMatches, Error};
use std::alloc::{AllocError, Global};

/// Why the words name no command: they are none's, with the library's text for the user, which may be help; or memory was refused.
#[derive(Drop)]
pub enum WordsEnd {
    Refused(String),
    Memory,
}

impl From<AllocError> for WordsEnd {
    ghost use Rattle.crell_program.specs.declared.command_line.reading.WordsEnd.TheVariants.{Memory};

    ghost from_gives = { λ _ end. end ≡ Memory };

    fn from(_: AllocError) -> WordsEnd {
        WordsEnd::Memory
    }
}

/// The command that the words name. The first word is the program's name.
pub fn read_words<'a>(alloc: Global, words: &'a [String]) -> Result<Request<'a>, WordsEnd>
    ensures named { IfOk result (λ request. Some (shown_request request) ≡ command_of (map string_bytes words.now)) }
    ensures refused { IfErr result (λ end. IfRefused end (None ≡ command_of (map string_bytes words.now))) }
{
    let line = command_line(alloc)?;
    match line.try_get_matches_from(words) {
        Ok(matches) => match request_found(&matches) {
            Some(request) => Ok(request),
            None => Err(WordsEnd::Refused(String::new(alloc))),
        },
        Err(error) => Err(refusal(alloc, &error)),
    }
}

/// What the library says is wrong with the words.
fn refusal(alloc: Global, error: &Error) -> WordsEnd
    ensures { IfRefused result (kind_of error.now ≢ OutOfMemory) }
{
    if error.kind() == ErrorKind::OutOfMemory {
        return WordsEnd::Memory;
    }
    match error.to_string(alloc) {
        Ok(text) => WordsEnd::Refused(text),
        Err(_) => WordsEnd::Memory,
    }
}

/// The command that the library found, with what is given of it.
fn request_found<'a>(matches: &ArgMatches<'a>) -> Option<Request<'a>>
    ensures { option_map shown_request result ≡ command_found (subcommand_rows_of matches.now) }
{
    let (name, found) = entered(matches)?;
    if name == "check" {
        Some(Request::Check(files_found(found)))
    } else if name == "defs" {
        Some(Request::Print(Listing::Definitions, given(found, "FILE")))
    } else if name == "fmt" {
        Some(Request::Print(listing_found(found), given(found, "FILE")))
    } else {
        None
    }
}

fn files_found<'a>(found: &ArgMatches<'a>) -> FileNames<'a>
    ensures { shown_names result ≡ files_given (rows_of (found_of found.now)) }
{
    FileNames {
        source: given(found, "SRC"),
        target: given(found, "TGT"),
        hints: given(found, "HINTS"),
    }
}

fn listing_found(found: &ArgMatches<'_>) -> Listing
    ensures { result ≡ listing_asked (rows_of (found_of found.now)) }
{
    if is_asked(found, "names") {
        Listing::NamedModule
    } else {
        Listing::ModuleItself
    }
}

/// The command by its name, and what is given of it.
fn entered<'c, 'a>(matches: &'c ArgMatches<'a>) -> Option<(&'a str, &'c ArgMatches<'a>)>
    ensures { option_map (λ p. (p.0.now, rows_of (found_of p.1.now))) result ≡ subcommand_rows_of matches.now }
{
    matches.subcommand()
}

/// The value of an argument. One that must be given has one.
fn given<'a>(found: &ArgMatches<'a>, name: &str) -> &'a str
    ensures { result.now ≡ given name.now (rows_of (found_of found.now)) }
{
    match value_of(found, name) {
        Some(text) => text,
        None => "",
    }
}

/// Whether a flag is given.
fn is_asked(found: &ArgMatches<'_>, name: &str) -> bool
    ensures { result ≡ is_asked name.now (rows_of (found_of found.now)) }
{
    match value_of(found, name) {
        Some(text) => text == "true",
        None => false,
    }
}

fn value_of<'a>(found: &ArgMatches<'a>, name: &str) -> Option<&'a str>
    ensures { option_map (λ text. text.now) result ≡ first_of name.now (rows_of (found_of found.now)) }
{
    found.get_str(name)
}
