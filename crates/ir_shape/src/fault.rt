ghost use Rattle.std.specs.Prelude.{◌≡◌};

use ir_core::{Limit, Name, Sigil};
use ir_typing::ShapeKind;
use std::alloc::AllocError;

/// A line of a function: its block, and its number among the block's phis, body lines and terminator, counted from 0.
#[derive(Drop)]
pub struct LinePlace {
    pub block: Name,
    pub line: usize,
}

/// What is wrong with a module, and where: in a line of the function of that name, or, where there is no line, in the own name or the
/// header of the function, the declaration or the global of that name. A local name is that of a named type.
#[derive(Drop)]
pub struct ShapeFault {
    pub sigil: Sigil,
    pub function: Name,
    pub place: Option<LinePlace>,
    pub kind: ShapeKind,
}

/// Why a module is not said to have shape. A limit comes before all faults.
#[derive(Drop)]
pub enum ShapeEnd {
    Fault(ShapeFault),
    Limit(Limit),
    Memory,
}

impl From<AllocError> for ShapeEnd {
    ghost use Rattle.ir_shape.specs.declared.fault.ShapeEnd.TheVariants as end;

    ghost from_gives = { λ _ e. e ≡ end.Memory };

    fn from(_error: AllocError) -> ShapeEnd {
        ShapeEnd::Memory
    }
}
