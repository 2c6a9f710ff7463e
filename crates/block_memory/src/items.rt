use contents::Seq;
use ir_core::{BlockId, Name};

/// A value as the outside sees it: a number, a name at an offset, or an address of no block.
#[derive(Drop, Clone, Copy)]
pub enum Shown {
    Num(u64),
    Name(u64, i64),
    Bare(u64),
}

/// A byte as the outside sees it: a number, or the part at a place of a pointer to a name at an offset.
#[derive(Drop, Clone, Copy)]
pub enum ShownByte {
    Num(u8),
    Frag(u64, i64, u8),
}

/// What is chosen where a run leaves a choice.
#[derive(Drop)]
pub enum Choice {
    /// The block to which a branch or a switch on undef goes.
    Go(Name),
    /// What an undef that is shown is taken for.
    Pick(Shown),
    /// The same of an undef byte.
    PickByte(ShownByte),
    /// An undef that is shown is taken for the next name, at an offset, and that name is bound to a block or to nothing.
    Fresh(Option<BlockId>, i64),
    /// The outside reads a byte: of the block of that name, at the offset.
    Read(u64, i64),
    /// The outside writes a byte.
    Write(u64, i64, ShownByte),
    /// The outside makes a block of that alignment and these bytes.
    New(u64, Seq<ShownByte>),
    /// A call is answered, by a value or by nothing.
    Reply(Option<Shown>),
    /// The outside does what is undefined behaviour.
    Wrong,
}
