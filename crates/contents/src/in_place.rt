ghost use Rattle.std.specs.Prelude.{◌≡◌, ◌<◌, ◌≤◌, length, take, IfSome, IfNone};

/// At most 14 bytes, in place: the first so many of these. One byte counts them, so that they stand in 15.
#[derive(Drop, Clone, Copy)]
pub(crate) struct InPlace {
    count: u8,
    bytes: [u8; 14],
    ghost are_there: { count ≤ length bytes },
}

impl InPlace {
    pub(crate) fn of(bytes: &[u8]) -> Option<InPlace>
        ensures whole { IfSome result (λ it. take it.count it.bytes ≡ bytes.now) }
        ensures more { IfNone result (14 < length bytes.now) }
    {
        if bytes.len() > 14 {
            return None;
        }
        let mut place = [0; 14];
        place[..bytes.len()].copy_from_slice(bytes);
        Some(InPlace {
            count: bytes.len() as u8,
            bytes: place,
        })
    }

    pub(crate) fn as_slice(&self) -> &[u8]
        ensures { result.now ≡ take self.now.count self.now.bytes }
    {
        &self.bytes[..self.count as usize]
    }
}
