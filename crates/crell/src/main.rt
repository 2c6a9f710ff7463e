//! `crell check SRC TGT HINTS`: whether the target module refines the source module, by hints that say why; `crell defs FILE`: which
//! registers are defined on every path to each block of a module; and `crell fmt FILE [--names]`: the module, printed.
#![tactic(auto)]

ghost use Rattle.std.specs.Prelude.{◌≡◌, ◌⊎◌, None, IfOk, OnErr, map, string_bytes};
ghost use Rattle.crell_program.specs.CommandLine.Words.{command_of};
ghost use Rattle.crell_program.specs.Statuses.{IsStatus};

use crell_io::{HostShelf, HostSink};
use crell_program::{WANT_OF_MEMORY, crell};
use rule_base::{InferRule, Rule, RuleBook};
use rules_arith::ArithRule;
use rules_cast_cmp::CastCmpRule;
use rules_memory::MemoryRule;
use std::alloc::{AllocError, Global};
use std::env::{self, Env};
use std::io::ErrorKind;
use std::process::ExitCode;

/// The book of rules is filled with those that are shipped.
fn main(rt: HostRuntime) -> ExitCode {
    let mut rules: Vec<Box<dyn InferRule>> = Vec::new(rt.alloc());
    for rule in Rule::ALL {
        let Ok(boxed) = Box::new(rt.alloc(), rule) else {
            return ExitCode::from(WANT_OF_MEMORY);
        };
        if rules.push(boxed).is_err() {
            return ExitCode::from(WANT_OF_MEMORY);
        }
    }
    for rule in ArithRule::ALL {
        let Ok(boxed) = Box::new(rt.alloc(), rule) else {
            return ExitCode::from(WANT_OF_MEMORY);
        };
        if rules.push(boxed).is_err() {
            return ExitCode::from(WANT_OF_MEMORY);
        }
    }
    for rule in CastCmpRule::ALL {
        let Ok(boxed) = Box::new(rt.alloc(), rule) else {
            return ExitCode::from(WANT_OF_MEMORY);
        };
        if rules.push(boxed).is_err() {
            return ExitCode::from(WANT_OF_MEMORY);
        }
    }
    for rule in MemoryRule::ALL {
        let Ok(boxed) = Box::new(rt.alloc(), rule) else {
            return ExitCode::from(WANT_OF_MEMORY);
        };
        if rules.push(boxed).is_err() {
            return ExitCode::from(WANT_OF_MEMORY);
        }
    }
    let book = RuleBook::new(rules);
    ExitCode::from(start(&rt, words(&rt), &book))
}

/// Runs the command that these words name, by a book of rules, and gives its status. Memory may have been refused to the words.
fn start(rt: &HostRuntime, words: Result<Vec<String>, AllocError>, rules: &RuleBook) -> u8
    ensures unread { OnErr words (result ≡ 8) }
    // The words are no command's under 2, and only there or under 7, where that couldn't be written, or 8.
    ensures usage { IfOk words (λ words. result ≡ 2 → command_of (map string_bytes words.items) ≡ None) }
    ensures no_command { IfOk words
        (λ words. command_of (map string_bytes words.items) ≡ None → (result ≡ 2) ⊎ (result ≡ 7) ⊎ (result ≡ 8)) }
    ensures statuses { IsStatus result }
{
    match words {
        Ok(words) => run(rt, &words, rules),
        Err(_) => WANT_OF_MEMORY,
    }
}

/// Runs the command over the files and the outputs of the system.
fn run(rt: &HostRuntime, words: &[String], rules: &RuleBook) -> u8
    ensures usage { result ≡ 2 → command_of (map string_bytes words.now) ≡ None }
    ensures no_command { command_of (map string_bytes words.now) ≡ None → (result ≡ 2) ⊎ (result ≡ 7) ⊎ (result ≡ 8) }
    ensures statuses { IsStatus result }
{
    crell(
        rt.alloc(),
        words,
        rules,
        &[],
        &mut HostShelf::new(*rt),
        &mut HostSink::new(rt.stdout()),
        &mut HostSink::new(rt.stderr()),
    )
}

/// The words of the command line; none where one of them isn't UTF-8.
fn words<R: Env + Alloc<A = Global>>(rt: &R) -> Result<Vec<String>, AllocError> {
    match env::args(rt) {
        Ok(args) => args.collect(rt.alloc()),
        Err(error) if error.kind() == ErrorKind::OutOfMemory => Err(AllocError),
        Err(_) => Ok(Vec::new(rt.alloc())),
    }
}
