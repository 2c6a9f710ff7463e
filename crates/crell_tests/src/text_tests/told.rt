use ir_lexer::TextFault;
use std::alloc::{AllocError, Global};

/// The word of a fault, and behind it its places.
pub(crate) fn told(alloc: Global, fault: TextFault) -> Result<Vec<u8>, AllocError> {
    let text = match fault {
        TextFault::BadByte(place) => format!(in alloc; "BadByte {place}")?,
        TextFault::BadString(place) => format!(in alloc; "BadString {place}")?,
        TextFault::BadNumber(place) => format!(in alloc; "BadNumber {place}")?,
        TextFault::Expected(place) => format!(in alloc; "Expected {place}")?,
        TextFault::LeftOut { place, length } => format!(in alloc; "LeftOut {place} {length}")?,
        TextFault::WrongType(place) => format!(in alloc; "WrongType {place}")?,
        TextFault::Limit(limit) => {
            let name = limit.name();
            format!(in alloc; "Limit {name}")?
        }
        TextFault::Unknown {
            place: _,
            length: _,
        } => format!(in alloc; "Unknown")?,
        TextFault::Twice {
            place: _,
            length: _,
        } => format!(in alloc; "Twice")?,
        TextFault::WrongNumber {
            place: _,
            expected: _,
        } => format!(in alloc; "WrongNumber")?,
        TextFault::Memory => format!(in alloc; "Memory")?,
    };
    Ok(text.into_bytes())
}

/// Whether this was shown.
pub(crate) fn is(shown: Result<Vec<u8>, AllocError>, wanted: &[u8]) -> bool {
    match shown {
        Ok(shown) => shown.as_slice() == wanted,
        Err(_) => false,
    }
}

/// The text with so many stars behind it, and then this.
pub(crate) fn starred(
    alloc: Global,
    text: &[u8],
    stars: usize,
    behind: &[u8],
) -> Result<Vec<u8>, AllocError> {
    let mut starred = Vec::new(alloc);
    starred.extend_from_slice(text)?;
    for _ in 0..stars {
        starred.push(b'*')?;
    }
    starred.extend_from_slice(behind)?;
    Ok(starred)
}
