//! What a run is started on.
use block_memory::{Shown, ShownByte};
use contents::Seq;
use ir_core::Name;

/// One argument for each parameter; blocks of memory that the outside has made; and the bytes of external globals.
#[derive(Drop)]
pub struct Input {
    pub args: Seq<Shown>,
    /// They have the names behind those of the globals.
    pub blocks: Seq<InputBlock>,
    /// An external global that isn't among them is 0 in every byte. Of two of one name the first counts.
    pub externals: Seq<External>,
}

/// A block of memory: its alignment, in bytes, and what it holds.
#[derive(Drop)]
pub struct InputBlock {
    pub align: u64,
    pub bytes: Seq<ShownByte>,
}

/// What an external global holds.
#[derive(Drop)]
pub struct External {
    pub name: Name,
    pub bytes: Seq<ShownByte>,
}

/// Where an input doesn't fit a module and a function of it. Places count from 0.
#[derive(Drop, Clone, Copy)]
pub enum InputPath {
    /// There isn't one argument for each parameter.
    Arguments,
    /// The argument is of another kind than its parameter, or past its width.
    Argument(usize),
    /// There is no name that the argument gives.
    ArgumentName(usize),
    /// There is no name that this byte of that block gives.
    BlockByte(usize, usize),
    /// There is no external global of that name, or it has another size.
    External(usize),
    /// There is no name that this byte of that external global gives.
    ExternalByte(usize, usize),
}
