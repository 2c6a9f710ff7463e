use block_memory::{Shown, ShownByte};
use contents::Seq;
use ir_core::Name;

/// What a run shows.
#[derive(Drop)]
pub enum Item {
    /// A terminator was executed, a jump or a return. One that is undefined behaviour shows none.
    Turn,
    /// A function of the outside was called, with these arguments.
    Called(Name, Seq<Shown>),
    /// The outside read this byte, of the block of that name at the offset.
    EnvRead(u64, i64, ShownByte),
    /// The outside wrote it.
    EnvWrite(u64, i64, ShownByte),
    /// The outside made a block of that alignment and these bytes, which has the next name.
    EnvNew(u64, Seq<ShownByte>),
    /// The outside answered a call, by a value or by nothing.
    Replied(Option<Shown>),
    /// The entry function returned this, or nothing where its result is `void`.
    Returned(Option<Shown>),
    /// Undefined behaviour. It is the last item of a run.
    Wrong,
}
