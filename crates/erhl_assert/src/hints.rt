ghost use Rattle.std.specs.Prelude.{◌≡◌};

use crate::{Assertion, HeldBlock, Schema, Side};
use contents::Seq;
use ir_core::{Expr0, Name, Reg};

/// A step that names a rule: what it concludes is added to the side's facts.
pub struct RuleStep {
    /// The rule's name.
    pub rule: Seq<u8>,
    pub side: Side,
    pub schema: Schema,
}

impl Drop for RuleStep {
    fn drop(self) {
        let RuleStep {
            rule: _,
            side: _,
            schema: _,
        } = self;
    }
}

/// A step that chooses a ghost register: from now on it is worth what the expression is worth (Crellvm's ghost registers).
#[derive(Drop)]
pub struct GhostStep {
    pub register: Reg,
    pub value: Expr0,
}

/// A step that takes a register out of those that may differ: the source's is less defined than the expression, and the
/// expression than the target's.
#[derive(Drop)]
pub struct SameStep {
    pub register: Reg,
    pub by: Expr0,
}

/// One step of a hint.
pub enum HintStep {
    Rule(RuleStep),
    Ghost(GhostStep),
    Same(SameStep),
}

impl Drop for HintStep {
    fn drop(self) {
        match self {
            HintStep::Rule(_) => {}
            HintStep::Ghost(_) => {}
            HintStep::Same(_) => {}
        }
    }
}

/// A step that is done before the aligned line of that number; at the number of aligned lines, before the terminator.
pub struct PlacedStep {
    pub at: u64,
    pub step: HintStep,
}

impl Drop for PlacedStep {
    fn drop(self) {
        let PlacedStep { at: _, step: _ } = self;
    }
}

/// The steps that are done on the edges to a block, behind its phis. Old registers are those before the edge.
pub struct HintEdge {
    pub to: Name,
    pub steps: Seq<HintStep>,
}

impl Drop for HintEdge {
    fn drop(self) {
        let HintEdge { to: _, steps: _ } = self;
    }
}

/// Which sides an aligned line stands on.
#[derive(Drop, Clone, Copy)]
pub enum Letter {
    Both,
    Source,
    Target,
}

/// The hint of one block.
pub struct HintBlock {
    pub at: Name,
    /// One letter for each aligned line. Without it all lines stand on both sides.
    pub lines: Option<Seq<Letter>>,
    /// What the hint claims at the block's start, behind its phis.
    pub entry: Assertion,
    pub steps: Seq<PlacedStep>,
    /// Of two entries for one block both count, in their order.
    pub edges: Seq<HintEdge>,
}

impl Drop for HintBlock {
    fn drop(self) {
        let HintBlock {
            at: _,
            lines: _,
            entry: _,
            steps: _,
            edges: _,
        } = self;
    }
}

impl HintBlock {
    pub(crate) fn into_name(self) -> Name
        ensures { result ≡ self.at }
    {
        let HintBlock {
            at,
            lines: _,
            entry: _,
            steps: _,
            edges: _,
        } = self;
        at
    }
}

/// The hint of one function. Of two entries for one block the first counts; a block without one has an empty hint.
pub struct Hint {
    pub blocks: Seq<HeldBlock>,
}

impl Drop for Hint {
    fn drop(self) {
        let Hint { blocks: _ } = self;
    }
}

/// A function's name with its hint.
pub struct FunctionHint {
    pub function: Name,
    pub hint: Hint,
}

impl Drop for FunctionHint {
    fn drop(self) {
        let FunctionHint {
            function: _,
            hint: _,
        } = self;
    }
}

/// The hints of a module. Of two for one function the first counts; a function without one has an empty hint.
pub struct Hints {
    pub functions: Seq<FunctionHint>,
}

impl Drop for Hints {
    fn drop(self) {
        let Hints { functions: _ } = self;
    }
}

/// A loop of a function: its header, the block before it, and the blocks of its body.
#[derive(Drop)]
pub struct Loop {
    pub header: Name,
    pub preheader: Name,
    pub body: Seq<Name>,
}

/// A function's name with its loops.
#[derive(Drop)]
pub struct FunctionLoops {
    pub function: Name,
    pub loops: Seq<Loop>,
}

/// The loops of a module's functions that a pass may use. None is read yet.
#[derive(Drop)]
pub struct LoopHints {
    pub functions: Seq<FunctionLoops>,
}
