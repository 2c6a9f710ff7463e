// The members of an object of JSON, by their names.
use crate::row_table::fault::Fault;
use serde_json::{Map, Value};
use std::alloc::{AllocError, Global};

/// The members of an object. One that isn't named among these is an error.
pub(crate) fn members_among<'a>(
    value: &'a Value,
    known: &[&str],
) -> Result<&'a Map<String, Value>, Fault> {
    match value {
        Value::Object(members) => if_known(members, known),
        _ => Err(Fault::Unlike("an object is wanted: a row, a plan or a repeated text")),
    }
}

fn if_known<'a>(
    members: &'a Map<String, Value>,
    known: &[&str],
) -> Result<&'a Map<String, Value>, Fault> {
    if count_known(members, known) < members.len() {
        return Err(Fault::Unlike("a member isn't known"));
    }
    Ok(members)
}

fn count_known(members: &Map<String, Value>, known: &[&str]) -> usize {
    let mut count: usize = 0;
    for name in known {
        count = count.saturating_add(times_named(members, *name));
    }
    count
}

fn times_named(members: &Map<String, Value>, name: &str) -> usize {
    if members.contains_key(name) { 1 } else { 0 }
}

/// The member of that name, a text.
pub(crate) fn text_of<'a>(
    members: &'a Map<String, Value>,
    name: &str,
) -> Result<&'a String, Fault> {
    match members.get(name) {
        Some(Value::String(text)) => Ok(text),
        _ => Err(Fault::Unlike("a row has a name, which is a text")),
    }
}

/// The number under that name, where there is one.
pub(crate) fn number_under(members: &Map<String, Value>, name: &str) -> Result<Option<u64>, Fault> {
    match members.get(name) {
        None => Ok(None),
        Some(value) => Ok(Some(number(value)?)),
    }
}

/// The numbers under that name; none where there is no such member.
pub(crate) fn numbers_of(
    alloc: Global,
    members: &Map<String, Value>,
    name: &str,
) -> Result<Vec<u64>, Fault> {
    match members.get(name) {
        None => Ok(Vec::new(alloc)),
        Some(Value::Array(values)) => numbers(alloc, values),
        Some(_) => Err(Fault::Unlike("a list of numbers is wanted")),
    }
}

fn numbers(alloc: Global, values: &[Value]) -> Result<Vec<u64>, Fault> {
    let mut numbers = Vec::new(alloc);
    for value in values {
        push_number(&mut numbers, value)?;
    }
    Ok(numbers)
}

fn push_number(numbers: &mut Vec<u64>, value: &Value) -> Result<(), Fault> {
    Ok(push(numbers, number(value)?)?)
}

/// Appends an item.
pub(crate) fn push<T: Drop>(list: &mut Vec<T>, item: T) -> Result<(), AllocError> {
    Ok(list.push(item)?)
}

/// The number that a value is.
pub(crate) fn number(value: &Value) -> Result<u64, Fault> {
    match value.as_u64() {
        Some(number) => Ok(number),
        None => Err(Fault::Unlike("a whole number is wanted")),
    }
}

/// The byte that a value is.
pub(crate) fn byte(value: &Value) -> Result<u8, Fault> {
    let number = number(value)?;
    if number > 255 {
        return Err(Fault::Unlike("a number up to 255 is wanted"));
    }
    Ok(number as u8)
}
