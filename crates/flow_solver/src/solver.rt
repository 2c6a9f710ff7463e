//! The greatest solution of a monotone framework over a graph, by a worklist.
ghost use Rattle.std.specs.Prelude.{◌≡◌, ℕ, ◌<◌, ◌≤◌, length, IfOk, OnOk};
ghost use Rattle.flow_solver.specs.Ways.{LeadsWithin};
ghost use Rattle.flow_solver.specs.Frameworks.{IsGreatestSolution, IsSafe, value_at};
ghost use Rattle.flow_solver.specs.Solving.{HasEntered, IsLeaving, IsQueue, IsSolving, weight};

use crate::queue::{Queue, all_nodes};
use crate::{Facts, Graph};
use std::alloc::{AllocError, Global};

/// The starts of so many nodes.
fn starts<F: Facts>(alloc: Global, facts: &F, nodes: usize) -> Result<Vec<F::Set>, AllocError>
    ensures many { IfOk result (λ sets. length sets.items ≡ nodes) }
    ensures starts { IfOk result (λ sets. (n : ℕ) → n < nodes → value_at (F.framework facts.now) sets.items n ≡ (F.framework facts.now).start n) }
{
    let mut sets = Vec::new(alloc);
    for node in 0..nodes {
        sets.push(facts.start(alloc, node)?)?;
    }
    Ok(sets)
}

/// A set enters a node, which waits if that changes its own.
fn enter<F: Facts>(
    alloc: Global,
    facts: &F,
    node: usize,
    set: &F::Set,
    sets: &mut Vec<F::Set>,
    queue: &mut Queue,
) -> Result<(), AllocError>
    requires node { node < length sets.old.items }
    requires marks { length queue.old.waits.items ≡ length sets.old.items }
    requires queue { IsQueue queue.old }
    requires own { (F.framework facts.now).IsValue (value_at (F.framework facts.now) sets.old.items node) }
    requires set { (F.framework facts.now).IsValue set.now }
    ensures { OnOk result (HasEntered (F.framework facts.now) node set.now sets.old.items queue.old sets.new.items queue.new) }
{
    let own = &sets[node];
    let met = facts.meet(alloc, own, set)?;
    if !facts.same(&met, own) {
        sets[node] = met;
        queue.wait(node)?;
    }
    Ok(())
}

/// What leaves a node enters those to which it leads.
fn leave<F: Facts>(
    alloc: Global,
    graph: &Graph,
    facts: &F,
    node: usize,
    sets: &mut Vec<F::Set>,
    queue: &mut Queue,
) -> Result<(), AllocError>
    requires within { LeadsWithin graph.now }
    requires node { node < length graph.now }
    requires leaving { IsLeaving (F.framework facts.now) graph.now node (value_at (F.framework facts.now) sets.old.items node) sets.old.items queue.old 0 }
    ensures solving { OnOk result (IsSolving (F.framework facts.now) graph.now sets.new.items queue.new) }
    ensures weight { OnOk result (weight (F.framework facts.now) sets.new.items queue.new ≤ weight (F.framework facts.now) sets.old.items queue.old) }
{
    let left = facts.transfer(alloc, node, &sets[node])?;
    for next in graph.led_to(node) {
        enter(alloc, facts, *next, &left, sets, queue)?;
    }
    Ok(())
}

/// The greatest solution of an analysis over a graph.
pub fn solve<F: Facts>(alloc: Global, graph: &Graph, facts: &F) -> Result<Vec<F::Set>, AllocError>
    ensures solution { IfOk result (λ sets. IsGreatestSolution (F.framework facts.now) graph.now sets.items) }
    ensures safe { IfOk result (λ sets. (others : _) → IsSafe (F.framework facts.now) graph.now others
        → (n : ℕ) → n < length graph.now → (F.framework facts.now).IsBelow (value_at (F.framework facts.now) others n) (value_at (F.framework facts.now) sets.items n)) }
{
    let mut sets = starts(alloc, facts, graph.len())?;
    let mut queue = all_nodes(alloc, graph)?;
    while let Some(node) = queue.next() {
        leave(alloc, graph, facts, node, &mut sets, &mut queue)?;
    }
    Ok(sets)
}
