// Whether a member is given twice. A value keeps one of the two, so its own text has fewer members.
use serde_json::Value;
use std::alloc::{AllocError, Global};

/// Where a byte stands in JSON: outside strings, in one, or just after a backslash in one.
#[derive(Clone, Copy)]
enum Place {
    Outside,
    Inside,
    Escaped,
}

/// Whether the text from which the value was read gives a member twice.
pub(crate) fn gives_twice(alloc: Global, text: &str, value: &Value) -> Result<bool, AllocError> {
    let kept = value.to_string(alloc)?;
    Ok(count_members(text.as_bytes()) != count_members(kept.as_bytes()))
}

/// How many members stand in a text of JSON: a colon outside strings each.
fn count_members(text: &[u8]) -> u64 {
    let mut count: u64 = 0;
    let mut place = Place::Outside;
    for byte in text {
        count = count.saturating_add(colons(place, *byte));
        place = after(place, *byte);
    }
    count
}

fn colons(place: Place, byte: u8) -> u64 {
    match (place, byte) {
        (Place::Outside, b':') => 1,
        _ => 0,
    }
}

fn after(place: Place, byte: u8) -> Place {
    match place {
        Place::Outside => after_outside(byte),
        Place::Inside => after_inside(byte),
        Place::Escaped => Place::Inside,
    }
}

fn after_outside(byte: u8) -> Place {
    match byte {
        b'"' => Place::Inside,
        _ => Place::Outside,
    }
}

fn after_inside(byte: u8) -> Place {
    match byte {
        b'"' => Place::Outside,
        b'\\' => Place::Escaped,
        _ => Place::Inside,
    }
}
