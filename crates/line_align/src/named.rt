//! What has a name.
ghost use Rattle.std.specs.Prelude.{◌≡◌};

use erhl_assert::{FunctionHint, HeldBlock, HintEdge};
use ir_core::{Block, Entry, Name};

/// What has a name.
pub trait Named {
    ghost use Rattle.ir_types.specs.declared.names.Name.{Name};

    ghost named: { Self → Name };

    fn name(&self) -> &Name
        ensures { result.now ≡ named self.now };
}

impl Named for Block {
    ghost named = { λ block. block.name };

    fn name(&self) -> &Name {
        &self.name
    }
}

/// An entry of a phi is named after the block from which the phi is entered.
impl Named for Entry {
    ghost named = { λ entry. entry.from };

    fn name(&self) -> &Name {
        &self.from
    }
}

impl Named for HeldBlock {
    ghost named = { λ hint. hint.at };

    fn name(&self) -> &Name {
        self.name()
    }
}

/// An entry of a hint for an edge is named after the block that the edge enters.
impl Named for HintEdge {
    ghost named = { λ edge. edge.to };

    fn name(&self) -> &Name {
        &self.to
    }
}

impl Named for FunctionHint {
    ghost named = { λ hint. hint.function };

    fn name(&self) -> &Name {
        &self.function
    }
}
