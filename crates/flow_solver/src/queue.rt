//! The nodes that wait to be left.
ghost use Rattle.std.specs.Prelude.{◌≡◌, ℕ, ◌+◌, ◌<◌, ◌≤◌, length, slice_set, true, false, IfOk, OnOk, MatchOption};
ghost use Rattle.std.specs.BinaryHeap.{heap_len};
ghost use Rattle.flow_solver.specs.Solving.{IsQueue, StillWait, Waits};

use crate::Graph;
use crate::walk::ranks_of;
use std::alloc::{AllocError, Global};
use std::collections::BinaryHeap;

/// Marks of the nodes that wait, these nodes, the one with the greatest rank on top, and the ranks.
#[derive(Drop)]
pub(crate) struct Queue {
    pub(crate) waits: Vec<bool>,
    pub(crate) heap: BinaryHeap<(usize, usize)>,
    ranks: Vec<usize>,
}

fn rank_of(ranks: &[usize], node: usize) -> usize {
    match ranks.get(node) {
        Some(rank) => *rank,
        None => 0,
    }
}

impl Queue {
    /// A node waits from now on.
    pub(crate) fn wait(&mut self, node: usize) -> Result<(), AllocError>
        requires node { node < length self.old.waits.items }
        requires queue { IsQueue self.old }
        ensures queue { OnOk result (IsQueue self.new) }
        ensures waits { OnOk result (Waits self.new node) }
        ensures still { OnOk result (StillWait self.old self.new) }
        ensures one { OnOk result (heap_len self.new.heap ≤ heap_len self.old.heap + 1) }
    {
        if !self.waits[node] {
            self.waits[node] = true;
            self.heap
                .push((rank_of(self.ranks.as_slice(), node), node))?;
        }
        Ok(())
    }

    /// The next node, which doesn't wait any longer.
    pub(crate) fn next(&mut self) -> Option<usize>
        requires queue { IsQueue self.old }
        ensures none { MatchOption result ((n : ℕ) → Waits self.old n → ⊥) (λ node. node < length self.old.waits.items) }
        ensures queue { IsQueue self.new }
        ensures waits { MatchOption result (self.new.waits.items ≡ self.old.waits.items) (λ node. self.new.waits.items ≡ slice_set self.old.waits.items node false) }
        ensures one { MatchOption result (heap_len self.new.heap ≡ heap_len self.old.heap) (λ node. heap_len self.new.heap + 1 ≡ heap_len self.old.heap) }
    {
        let (_, node) = self.heap.pop()?;
        self.waits[node] = false;
        Some(node)
    }
}

/// All nodes of a graph, ranked by a walk.
pub(crate) fn all_nodes(alloc: Global, graph: &Graph) -> Result<Queue, AllocError>
    ensures many { IfOk result (λ queue. length queue.waits.items ≡ length graph.now) }
    ensures queue { IfOk result IsQueue }
    ensures waits { IfOk result (λ queue. (n : ℕ) → n < length graph.now → Waits queue n) }
{
    let mut queue = Queue {
        waits: vec![in alloc; false; graph.len()]?,
        heap: BinaryHeap::new(alloc),
        ranks: ranks_of(alloc, graph)?,
    };
    for node in 0..graph.len() {
        queue.wait(node)?;
    }
    Ok(queue)
}
