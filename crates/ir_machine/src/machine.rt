use crate::registers::RegisterFile;
use crate::{InputPath, Item};
use block_memory::{Blocks, Names};
use contents::Seq;
use ir_core::{Block, BlockId, Function, Module};

/// Where a run stands: function and block of the module, and the line of the block's body, or its terminator
/// past the last line.
#[derive(Drop, Clone, Copy)]
pub struct Place {
    pub(crate) function: usize,
    pub(crate) block: usize,
    pub(crate) line: usize,
}

/// What all frames of a run share: memory, and the names that the outside knows its blocks by.
#[derive(Drop)]
pub struct KeptWorld {
    pub(crate) blocks: Blocks,
    pub(crate) names: Names,
}

/// An activation of a function: its place, its registers, and the blocks that its allocas made. One that waits stands behind its call.
#[derive(Drop)]
pub struct KeptFrame {
    pub(crate) place: Place,
    pub(crate) registers: RegisterFile,
    pub(crate) own: Vec<BlockId>,
}

/// The state of a run of a module: the frame on top, none once the run is over; those that wait below it, the last above the others;
/// whether the one on top waits too, for the outside; and the world.
#[derive(Drop)]
pub struct RunState {
    pub(crate) top: Option<KeptFrame>,
    pub(crate) below: Vec<KeptFrame>,
    pub(crate) waits: bool,
    pub(crate) world: KeptWorld,
}

/// How a run stands after a step.
#[derive(Drop, Clone, Copy)]
pub enum Progress {
    Goes,
    Ended,
    IsWrong,
}

/// A step that was made: the items that it shows, and how the run stands.
#[derive(Drop)]
pub struct Stepped {
    pub items: Seq<Item>,
    pub progress: Progress,
}

/// Why a step isn't made.
#[derive(Drop, Clone, Copy)]
pub enum StepEnd {
    /// A choice is due, and the chooser has none, or its next doesn't fit.
    NoChoice,
    Memory,
}

/// Why a run isn't started.
#[derive(Drop, Clone, Copy)]
pub enum StartEnd {
    NoFunction,
    /// The input doesn't fit, first at that place.
    InputUnfit(InputPath),
    Memory,
}

/// Where the frame on top stands: the module, a function of it, and a block of that.
pub(crate) struct Here<'a> {
    pub(crate) whole: &'a Module,
    pub(crate) function: &'a Function,
    pub(crate) block: &'a Block,
}

impl<'a> Drop for Here<'a> {
    fn drop(self) {
        let Here {
            whole: _,
            function: _,
            block: _,
        } = self;
    }
}
