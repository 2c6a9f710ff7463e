/// What a token says, and the bytes that spell the token: from `start` up to `end`, counted from 0.
#[derive(Drop)]
pub struct Placed<T> {
    pub what: T,
    pub start: u32,
    pub end: u32,
}
