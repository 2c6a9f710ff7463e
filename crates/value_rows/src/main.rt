//! Compares the operations on values with rows of data that say what must come: `value_rows FILE..`.
//!
//! A row is a line of words between blanks, as `data/make.py` tells. A row that fails is told on a line, with what came, and so is one that
//! can't be read; the last line counts. The status is 0 where all rows pass and there is one, else 1.
#![tactic(auto)]

mod operations;
mod reading;

use ir_core::Value;
use ir_values::Outcome;
use operations::came_of;
use reading::outcome_named;
use std::process::ExitCode;
use std::rt::Files;
use std::{env, fs, io};

/// How many rows passed, and how many failed.
#[derive(Clone, Copy)]
struct Tally {
    passed: u64,
    failed: u64,
}

/// What comes of a row's operation, and what must come.
#[derive(Clone, Copy)]
struct Pair {
    came: Outcome,
    wanted: Outcome,
}

fn main(rt: HostRuntime) -> io::Result<ExitCode> {
    let mut tally = Tally {
        passed: 0,
        failed: 0,
    };
    for file in env::args(&rt)?.skip(1) {
        let text = fs::read_to_string(&rt, file.as_str())?;
        judge_rows(&rt, text.as_str(), &mut tally)?;
    }
    let Tally { passed, failed } = tally;
    println!(rt; "{passed} passed, {failed} failed")?;
    Ok(status_of(tally))
}

fn status_of(tally: Tally) -> ExitCode {
    if tally.passed > 0 && tally.failed == 0 {
        ExitCode::SUCCESS
    } else {
        ExitCode::FAILURE
    }
}

fn judge_rows<R: Print>(rt: &R, text: &str, tally: &mut Tally) -> io::Result<()> {
    for row in text.lines() {
        judge(rt, row, tally)?;
    }
    Ok(())
}

fn judge<R: Print>(rt: &R, row: &str, tally: &mut Tally) -> io::Result<()> {
    match pair_of(row) {
        Some(pair) => count(rt, row, &pair, tally),
        None => {
            tally.failed = tally.failed.saturating_add(1);
            println!(rt; "{row}: can't be read")
        }
    }
}

/// Both outcomes of a row; nothing where it can't be read.
fn pair_of(row: &str) -> Option<Pair> {
    let mut words = row.split_whitespace();
    let came = came_of(&mut words)?;
    let wanted = outcome_named(words.next()?)?;
    match words.next() {
        None => Some(Pair { came, wanted }),
        Some(_) => None,
    }
}

/// Counts a row that was read.
fn count<R: Print>(rt: &R, row: &str, pair: &Pair, tally: &mut Tally) -> io::Result<()> {
    if is_same(pair.came, pair.wanted) {
        tally.passed = tally.passed.saturating_add(1);
        return Ok(());
    }
    tally.failed = tally.failed.saturating_add(1);
    tell(rt, row, pair.came)
}

fn is_same(came: Outcome, wanted: Outcome) -> bool {
    match (came, wanted) {
        (Outcome::Trap, Outcome::Trap) => true,
        (Outcome::Gives(mine), Outcome::Gives(theirs)) => is_same_value(mine, theirs),
        _ => false,
    }
}

fn is_same_value(mine: Value, theirs: Value) -> bool {
    match (mine, theirs) {
        (Value::Num(left), Value::Num(right)) => left == right,
        (Value::Undef, Value::Undef) => true,
        (Value::Poison, Value::Poison) => true,
        _ => false,
    }
}

/// Tells what came of a row that fails.
fn tell<R: Print>(rt: &R, row: &str, came: Outcome) -> io::Result<()> {
    match came {
        Outcome::Trap => println!(rt; "{row}: came trap"),
        Outcome::Gives(Value::Num(number)) => println!(rt; "{row}: came {number}"),
        Outcome::Gives(Value::Ptr(_, _) | Value::Bare(_)) => println!(rt; "{row}: came an address"),
        Outcome::Gives(Value::Undef) => println!(rt; "{row}: came undef"),
        Outcome::Gives(Value::Poison) => println!(rt; "{row}: came poison"),
    }
}
