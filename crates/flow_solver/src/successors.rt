ghost use Rattle.std.specs.Prelude.{◌≡◌, ◌++◌, [], ◌∷◌, IfOk, OnOk};

use smallvec::SmallVec;
use std::alloc::{AllocError, Global};
use std::marker::Model;

/// The nodes to which a node leads, in their order, up to two of them in place. Contracts see their list.
pub struct Successors {
    nodes: SmallVec<usize, 2>,
}

impl Drop for Successors {
    fn drop(self) {
        let Successors { nodes: _ } = self;
    }
}

impl Model for Successors {
    ghost use Rattle.std.specs.Prelude.{List, ℕ};

    ghost Value = { List ℕ };

    ghost view = { λ it. it.nodes.items };
}

impl Successors {
    /// None, with room for so many.
    pub fn with_room(alloc: Global, many: usize) -> Result<Successors, AllocError>
        ensures { IfOk result (λ nodes. nodes ≡ []) }
    {
        Ok(Successors {
            nodes: SmallVec::with_capacity(alloc, many)?,
        })
    }

    /// Puts a node behind the others.
    pub fn push(&mut self, node: usize) -> Result<(), AllocError>
        ensures { OnOk result (self.new ≡ self.old ++ node ∷ []) }
    {
        self.nodes.push(node)?;
        Ok(())
    }

    pub(crate) fn as_slice(&self) -> &[usize]
        ensures { result.now ≡ self.now }
    {
        self.nodes.as_slice()
    }
}
