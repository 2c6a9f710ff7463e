// What comes of the operation with which a row begins; nothing where it can't be read.
use crate::reading::{cast_named, flags_named, op_named, pred_named, value_in, width_in};
use ir_core::{BinOp, CastOp, Kind, Ty, Value, converts};
use ir_values::{Outcome, eval_binary, eval_cast, eval_icmp, eval_select, refines};
use std::str::SplitWhitespace;

/// Takes all words of the row but the last, which says what must come.
pub(crate) fn came_of(words: &mut SplitWhitespace<'_>) -> Option<Outcome> {
    match words.next()? {
        "icmp" => compared(words),
        "select" => selected(words),
        "refines" => refined(words),
        word => calculated(word, words),
    }
}

fn calculated(word: &str, words: &mut SplitWhitespace<'_>) -> Option<Outcome> {
    match cast_named(word) {
        Some(op) => cast(op, words),
        None => binary(op_named(word)?, words),
    }
}

/// `FLAGS WIDTH A B`
fn binary(op: BinOp, words: &mut SplitWhitespace<'_>) -> Option<Outcome> {
    let flags = flags_named(words.next()?)?;
    let width = width_in(words)?;
    let a = value_in(width, words)?;
    let b = value_in(width, words)?;
    Some(eval_binary(op, flags, width, &a, &b))
}

/// `PREDICATE WIDTH A B`
fn compared(words: &mut SplitWhitespace<'_>) -> Option<Outcome> {
    let pred = pred_named(words.next()?)?;
    let width = width_in(words)?;
    let a = value_in(width, words)?;
    let b = value_in(width, words)?;
    Some(eval_icmp(pred, Kind::Int(width), &a, &b, 0, 0))
}

/// `FROM TO A`
fn cast(op: CastOp, words: &mut SplitWhitespace<'_>) -> Option<Outcome> {
    let from = width_in(words)?;
    let to = width_in(words)?;
    let a = value_in(from, words)?;
    if !converts(op, &Ty::Int(from), &Ty::Int(to)) {
        return None;
    }
    Some(eval_cast(op, Kind::Int(from), Kind::Int(to), &a))
}

/// `WIDTH C A B`
fn selected(words: &mut SplitWhitespace<'_>) -> Option<Outcome> {
    let width = width_in(words)?;
    let condition = value_in(1, words)?;
    let a = value_in(width, words)?;
    let b = value_in(width, words)?;
    Some(eval_select(&condition, &a, &b))
}

/// `A B`, of any width: 1 where B may stand for A, else 0.
fn refined(words: &mut SplitWhitespace<'_>) -> Option<Outcome> {
    let a = value_in(64, words)?;
    let b = value_in(64, words)?;
    Some(Outcome::Gives(Value::Num(u64::from(refines(&a, &b)))))
}
