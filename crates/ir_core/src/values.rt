/// The number of a block of memory: its place in the order of making.
pub type BlockId = u64;

/// What a register holds (LangRef 3.7, Pointer Type, Undefined Values, Poison Values): a number below 2 to its width, the address at an
/// offset of a block, an address of no block, or one of the two values that stand for none.
#[derive(Drop, Clone, Copy)]
pub enum Value {
    Num(u64),
    Ptr(BlockId, i64),
    Bare(u64),
    Undef,
    Poison,
}

/// What one byte of memory holds: a number, the part of a pointer at a place from 0 to 7, undef or poison.
#[derive(Drop, Clone, Copy)]
pub enum Byte {
    Num(u8),
    Frag(BlockId, i64, u8),
    Undef,
    Poison,
}

/// What sort of value a register holds: a number of that many bits, or an address.
#[derive(Drop, Clone, Copy)]
pub enum Kind {
    Int(u32),
    Ptr,
}
