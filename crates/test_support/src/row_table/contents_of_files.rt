// What a file of a row holds.
//
// A text stands as it is. An array is a list of pieces: a text is a line, and ends with a line feed; a number is a byte; `{"text": T,
// "times": N}` is T so often, and `{"text": T, "times": N, "until": U}` is N times T, a number and U, where the numbers are 0, 1 and so on.
// An object is that JSON, written compactly.
use crate::row_table::fault::Fault;
use crate::row_table::members::{byte, members_among, number, push};
use serde_json::{Map, Value};
use std::alloc::Global;

const MEMBERS_OF_REPEATED: [&str; 3] = ["text", "times", "until"];

/// The bytes of a file.
pub(crate) fn bytes_of(alloc: Global, value: &Value) -> Result<Vec<u8>, Fault> {
    let mut bytes = Vec::new(alloc);
    push_file(alloc, &mut bytes, value)?;
    Ok(bytes)
}

fn push_file(alloc: Global, bytes: &mut Vec<u8>, value: &Value) -> Result<(), Fault> {
    match value {
        Value::String(text) => push_bytes(bytes, text.as_bytes()),
        Value::Array(pieces) => push_pieces(bytes, pieces),
        Value::Object(_) => push_json(alloc, bytes, value),
        _ => Err(Fault::Unlike("a file is a text, an array or an object")),
    }
}

fn push_bytes(bytes: &mut Vec<u8>, more: &[u8]) -> Result<(), Fault> {
    Ok(bytes.extend_from_slice(more)?)
}

fn push_json(alloc: Global, bytes: &mut Vec<u8>, value: &Value) -> Result<(), Fault> {
    let text = value.to_string(alloc)?;
    push_bytes(bytes, text.as_bytes())
}

fn push_pieces(bytes: &mut Vec<u8>, pieces: &[Value]) -> Result<(), Fault> {
    for piece in pieces {
        push_piece(bytes, piece)?;
    }
    Ok(())
}

fn push_piece(bytes: &mut Vec<u8>, piece: &Value) -> Result<(), Fault> {
    match piece {
        Value::String(line) => push_line(bytes, line.as_bytes()),
        Value::Object(_) => push_repeated(bytes, piece),
        _ => push_byte(bytes, byte(piece)?),
    }
}

fn push_line(bytes: &mut Vec<u8>, line: &[u8]) -> Result<(), Fault> {
    push_bytes(bytes, line)?;
    push_byte(bytes, b'\n')
}

fn push_byte(bytes: &mut Vec<u8>, byte: u8) -> Result<(), Fault> {
    Ok(push(bytes, byte)?)
}

/// What is repeated: a text, how often, and the text behind the number of each turn, where it is told.
struct Turns<'a> {
    text: &'a [u8],
    times: u64,
    until: Option<&'a [u8]>,
}

impl<'a> Drop for Turns<'a> {
    fn drop(self) {
        let Turns {
            text: _,
            times: _,
            until: _,
        } = self;
    }
}

fn push_repeated(bytes: &mut Vec<u8>, piece: &Value) -> Result<(), Fault> {
    let turns = turns_of(members_among(piece, &MEMBERS_OF_REPEATED)?)?;
    for turn in 0..turns.times {
        push_bytes(bytes, turns.text)?;
        push_number(bytes, turn, turns.until)?;
    }
    Ok(())
}

/// The number and what stands behind it, if a text behind it is told.
fn push_number(bytes: &mut Vec<u8>, number: u64, until: Option<&[u8]>) -> Result<(), Fault> {
    match until {
        None => Ok(()),
        Some(text) => {
            push_decimal(bytes, number)?;
            push_bytes(bytes, text)
        }
    }
}

fn push_decimal(bytes: &mut Vec<u8>, number: u64) -> Result<(), Fault> {
    let alloc = *bytes.allocator();
    let digits = format!(in alloc; "{number}")?;
    push_bytes(bytes, digits.as_bytes())
}

fn turns_of<'a>(members: &'a Map<String, Value>) -> Result<Turns<'a>, Fault> {
    let until = end_of_number(members)?;
    match (members.get("text"), members.get("times")) {
        (Some(Value::String(text)), Some(times)) => Ok(Turns {
            text: text.as_bytes(),
            times: number(times)?,
            until,
        }),
        _ => Err(Fault::Unlike("a repeated text has text and times")),
    }
}

fn end_of_number(members: &Map<String, Value>) -> Result<Option<&[u8]>, Fault> {
    match members.get("until") {
        None => Ok(None),
        Some(Value::String(text)) => Ok(Some(text.as_bytes())),
        Some(_) => Err(Fault::Unlike("what ends a repeated number is a text")),
    }
}
