ghost use Rattle.std.specs.Prelude.{◌≡◌, ◌<◌, ◌↔◌, ℕ, List, Bool, IsTrue, false, true, length, slice_index_or};
ghost use Rattle.flow_solver.specs.Examples.{NodesNear, NodesOfLoops, NodesPassed, WaysPart};
ghost use Rattle.flow_solver.specs.Near.{is_reached, reached_nodes};
ghost use Rattle.flow_solver.specs.Ways.{IsReached};
ghost use Rattle.flow_solver.specs.Frameworks.{IsGreatestSolution};

use crate::Facts;

/// Empty on purpose: its contract is the law.
///
/// Which nodes are reached, and by how many edges, which ways are first, and which nodes each way passes.
pub fn examples_of_ways()
    ensures reached { NodesOfLoops }
    ensures near { NodesNear }
    ensures first { WaysPart }
    ensures passed { NodesPassed }
{}

/// Empty on purpose: its contract is the law.
///
/// A test computes whether a path from the first node ends at a node, and the marks that say so of each node are the one list that is
/// computed.
pub fn reached_nodes_are_reached()
    ensures tested { (g : List (List ℕ)) (n : ℕ) → (is_reached g n ≡ true) ↔ IsReached g n }
    ensures marked { (g : List (List ℕ)) (marks : List Bool) → length marks ≡ length g
        → ((n : ℕ) → n < length g → IsTrue (slice_index_or marks n false) ↔ IsReached g n) → marks ≡ reached_nodes g }
{}

/// Empty on purpose: its contract is the law.
///
/// An analysis has one greatest solution over a graph.
pub fn one_greatest_solution<F: Facts>(facts: &F)
    ensures { (g : List (List ℕ)) (vs ws : _) → IsGreatestSolution (F.framework facts.now) g vs → IsGreatestSolution (F.framework facts.now) g ws → vs ≡ ws }
{}
