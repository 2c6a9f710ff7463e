ghost use Rattle.std.specs.Prelude.{◌≡◌, ◌⊎◌, IfOk};
ghost use Rattle.module_spelling.specs.Context.{called_number, declared_number};
ghost use Rattle.token_context.specs.Readings.{IsReadBehind, Reads, due, due_in_parens, reading_of};

use crate::brackets::{Opened, between};
use derivation_writer::Watch;
use ir_core::Limit;
use module_derivations::TokenGrammar;
use predictive::parse;
use std::alloc::{AllocError, Global};

/// How the tokens between two parentheses are read.
#[derive(Drop, Clone, Copy)]
pub enum Reading {
    /// They are what has to stand there, if anything has.
    Whole,
    /// They would be, but are too deep.
    Deep,
    /// They aren't.
    Other,
}

/// What has to stand in parentheses, by the kinds of the tokens before them and behind them.
fn due_in_parens(behind: u8, kind: u8) -> Option<u8>
    ensures { result ≡ due_in_parens behind kind }
{
    match (kind, behind) {
        (1, 25) => Some(38),
        (51, 2) => Some(7),
        _ => None,
    }
}

/// What has to stand in the pair, where a token of this kind follows.
fn due(pair: Opened, kind: u8) -> Option<u8>
    ensures { result ≡ due pair kind }
{
    if pair.kind == 66 {
        due_in_parens(pair.behind, kind)
    } else {
        None
    }
}

/// How tokens of the nonterminal are read that pass this limit first, which is that on depths, or none.
fn reading_of(limit: Option<Limit>) -> Reading
    ensures { result ≡ reading_of limit }
{
    match limit {
        None => Reading::Whole,
        Some(_) => Reading::Deep,
    }
}

/// How the tokens are read as the nonterminal.
fn read(alloc: Global, start: u8, kinds: &[u8]) -> Result<Reading, AllocError>
    requires { (start ≡ called_number) ⊎ (start ≡ declared_number) }
    ensures { IfOk result (λ reading. Reads start kinds.now reading) }
{
    let mut watch = Watch::new(alloc);
    let fault = parse(alloc, &TokenGrammar, &mut watch, start, kinds)?;
    match fault {
        None => Ok(reading_of(watch.limit())),
        Some(_) => Ok(Reading::Other),
    }
}

/// How what stands directly before `place` between parentheses is read, where a token of this kind stands there.
pub fn seen(
    alloc: Global,
    kinds: &[u8],
    place: usize,
    kind: u8,
    closed: Option<Opened>,
) -> Result<Reading, AllocError>
    ensures { IfOk result (λ reading. IsReadBehind closed kinds.now place kind reading) }
{
    let Some(pair) = closed else {
        return Ok(Reading::Whole);
    };
    match due(pair, kind) {
        Some(start) => read(alloc, start, between(kinds, pair.place, place)),
        None => Ok(Reading::Whole),
    }
}
