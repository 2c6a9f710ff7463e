// Each row passes, and each that is wrong is told.
use crate::rows::running::{End, Way, end_of};
use crate::rows::table::ROWS;
use crate::rows::worked::WORKED;
use crate::rows::wrong::{DIFFERING, NO_TABLES, UNLIKE};
use rule_base::{InferRule, Rule, RuleBook};
use rules_arith::ArithRule;
use rules_cast_cmp::CastCmpRule;
use rules_memory::MemoryRule;
use std::alloc::{AllocError, Global};
use std::test::*;
use test_support::{Fault, Table};

fn shipped(alloc: Global) -> Result<RuleBook, AllocError> {
    let mut rules: Vec<Box<dyn InferRule>> = Vec::new(alloc);
    for rule in Rule::ALL {
        rules.push(Box::new(alloc, rule)?)?;
    }
    for rule in ArithRule::ALL {
        rules.push(Box::new(alloc, rule)?)?;
    }
    for rule in CastCmpRule::ALL {
        rules.push(Box::new(alloc, rule)?)?;
    }
    for rule in MemoryRule::ALL {
        rules.push(Box::new(alloc, rule)?)?;
    }
    Ok(RuleBook::new(rules))
}

fn first_other(alloc: Global, way: &Way, table: &Table, end: End) -> Option<usize> {
    for place in 0..table.len() {
        if end_of(alloc, way, table, place) != end {
            return Some(place);
        }
    }
    None
}

/// Nothing where there is a row and each goes so; else the first that doesn't fails, by its name.
fn all_go(alloc: Global, way: &Way, table: &Table, end: End) -> Result<(), Fail> {
    match first_other(alloc, way, table, end) {
        Some(place) => Err(Fail::new(table.name(place))),
        None if table.len() == 0 => Err(Fail::new("there is no row")),
        None => Ok(()),
    }
}

/// The same by the rules that the program has, over a shelf and sinks, or over texts in memory.
fn all_of(alloc: Global, in_memory: bool, text: &str, end: End) -> Result<(), Fail> {
    let book = shipped(alloc)?;
    let way = Way {
        book: &book,
        in_memory,
    };
    match Table::read(alloc, text) {
        Ok(table) => all_go(alloc, &way, &table, end),
        Err(fault) => Err(Fail::new(fault.told())),
    }
}

#[test]
fn rows_come_as_they_say(rt: HostRuntime) -> Result<(), Fail> {
    all_of(rt.alloc(), false, ROWS, End::Passed)
}

#[test]
fn worked_rows_come_as_they_say(rt: HostRuntime) -> Result<(), Fail> {
    all_of(rt.alloc(), false, WORKED, End::Passed)
}

#[test]
fn worked_rows_come_as_they_say_in_memory(rt: HostRuntime) -> Result<(), Fail> {
    all_of(rt.alloc(), true, WORKED, End::Passed)
}

#[test]
fn rows_that_come_otherwise_are_told(rt: HostRuntime) -> Result<(), Fail> {
    all_of(rt.alloc(), false, DIFFERING, End::Differs)
}

#[test]
fn rows_that_cannot_be_read_are_told(rt: HostRuntime) -> Result<(), Fail> {
    all_of(rt.alloc(), false, UNLIKE, End::Unlike)
}

fn is_no_table(alloc: Global, text: &str) -> bool {
    match Table::read(alloc, text) {
        Err(Fault::Unlike(_)) => true,
        Ok(_) | Err(Fault::Memory) => false,
    }
}

#[test]
fn tables_that_cannot_be_read_are_told(rt: HostRuntime) {
    for text in NO_TABLES {
        assert!(rt; is_no_table(rt.alloc(), text), "{text}");
    }
}
