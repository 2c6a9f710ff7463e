//! From a text to a value, in one pass over its tokens.
ghost use Rattle.std.specs.Prelude.{◌≡◌, ◌<◌, ◌≤◌, length, Some, None, Err, IfOk, IfErr, OnOk, IsUtf8};
ghost use Rattle.json.specs.Json.{value, items, members};
ghost use Rattle.serde_json.specs.Data.{no_members};
ghost use Rattle.serde_json.specs.Read.{of_json, of_items, of_members, converted, read as read_text};
ghost use Rattle.json_forms.specs.JsonValues.View.{view, items_view, members_view};

use crate::json_values::numbers::number;
use crate::json_values::{Member, ReadEnd, Value};
use json::{Reader, Scratch, Token};
use std::alloc::Global;

/// How deep arrays and objects may nest.
const MAX_DEPTH: usize = 127;

/// The value of a text. What has escapes is written to `scratch`.
pub fn read<'a>(
    alloc: Global,
    bytes: &'a [u8],
    scratch: &'a mut Scratch,
) -> Result<Value<'a>, ReadEnd>
    ensures ok { IfOk result (λ v. IsUtf8 bytes.now × (read_text bytes.now ≡ Some (view v))) }
    ensures no_json { result ≡ Err ReadEnd.NoJson → IsUtf8 bytes.now → read_text bytes.now ≡ None }
{
    match simdutf8::compat::from_utf8(bytes) {
        Ok(text) => read_all(alloc, text, scratch),
        Err(_) => Err(ReadEnd::NoJson),
    }
}

fn read_all<'a>(
    alloc: Global,
    text: &'a str,
    scratch: &'a mut Scratch,
) -> Result<Value<'a>, ReadEnd>
    ensures ok { IfOk result (λ v. read_text text.now ≡ Some (view v)) }
    ensures no_json { result ≡ Err ReadEnd.NoJson → read_text text.now ≡ None }
{
    let Ok(mut reader) = Reader::new(text, scratch) else {
        return Err(ReadEnd::Memory);
    };
    let value = read_value(alloc, &mut reader, MAX_DEPTH)?;
    if reader.next().is_some() {
        return Err(ReadEnd::NoJson);
    }
    Ok(value)
}

#[cycle(read_value)]
#[inline(always)]
fn read_value<'a>(
    alloc: Global,
    reader: &mut Reader<'a>,
    depth: usize,
) -> Result<Value<'a>, ReadEnd>
    ensures ok { IfOk result
        (λ v. converted of_json (value depth reader.old) ≡ Some (view v, reader.new)) }
    ensures shorter { OnOk result (length reader.new < length reader.old) }
    ensures err { result ≡ Err ReadEnd.NoJson → converted of_json (value depth reader.old) ≡ None }
{
    let token = reader.next().ok_or(ReadEnd::NoJson)?;
    match token {
        Token::String(text) => Ok(Value::Text(text)),
        Token::Number(text) => match number(text) {
            Some(number) => Ok(Value::Number(number)),
            None => Err(ReadEnd::NoJson),
        },
        Token::Bool(b) => Ok(Value::Bool(b)),
        Token::Null => Ok(Value::Null),
        Token::EndObject | Token::EndArray | Token::Key(_) | Token::Bad => Err(ReadEnd::NoJson),
        Token::BeginArray => {
            if depth == 0 {
                return Err(ReadEnd::NoJson);
            }
            Ok(Value::Array(read_items(alloc, reader, depth - 1)?))
        }
        Token::BeginObject => {
            if depth == 0 {
                return Err(ReadEnd::NoJson);
            }
            Ok(Value::Object(read_members(alloc, reader, depth - 1)?))
        }
    }
}

/// The list, without room of which it fills at most a half.
fn fitted<T>(list: Vec<T>) -> Vec<T>
    ensures { result.items ≡ list.items }
{
    let mut fitted = list;
    if fitted.len() <= fitted.capacity() / 2 {
        fitted.shrink_to_fit();
    }
    fitted
}

#[cycle(read_value)]
#[inline(never)]
fn read_items<'a>(
    alloc: Global,
    reader: &mut Reader<'a>,
    depth: usize,
) -> Result<Vec<Value<'a>>, ReadEnd>
    ensures ok { IfOk result
        (λ v. converted of_items (items (value depth) (length reader.old) reader.old)
        ≡ Some (items_view v.items, reader.new)) }
    ensures shorter { OnOk result (length reader.new < length reader.old) }
    ensures err { result ≡ Err ReadEnd.NoJson
        → converted of_items (items (value depth) (length reader.old) reader.old) ≡ None }
{
    let mut found = Vec::new(alloc);
    'items: while !reader.take_end_array() {
        let item = read_value(alloc, reader, depth)?;
        found.push(item)?;
    }
    Ok(fitted(found))
}

#[cycle(read_value)]
#[inline(never)]
fn read_members<'a>(
    alloc: Global,
    reader: &mut Reader<'a>,
    depth: usize,
) -> Result<Vec<Member<'a>>, ReadEnd>
    ensures ok { IfOk result
        (λ m. converted (λ ms. of_members ms no_members)
        (members (value depth) (length reader.old) reader.old)
        ≡ Some (members_view m.items, reader.new)) }
    ensures shorter { OnOk result (length reader.new < length reader.old) }
    ensures err { result ≡ Err ReadEnd.NoJson
        → converted (λ ms. of_members ms no_members)
        (members (value depth) (length reader.old) reader.old) ≡ None }
{
    let mut found = Vec::new(alloc);
    'members: while let Some(key) = reader.next_key()? {
        let member = read_value(alloc, reader, depth)?;
        found.push((key, member))?;
    }
    Ok(fitted(found))
}
