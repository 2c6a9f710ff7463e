//! Graphs of flow: which nodes a path reaches from the first one, the first way to a node, and the nodes that each way to it passes; and the
//! greatest solution of an analysis of one's own, an `impl Facts`.
#![tactic(auto)]

mod dominance;
mod facts;
mod graph;
mod laws;
mod queue;
mod reached;
mod search;
mod solver;
mod successors;
mod tree;
mod walk;

pub use dominance::{Dominators, dominators_of};
pub use facts::Facts;
pub use graph::Graph;
pub use laws::{examples_of_ways, one_greatest_solution, reached_nodes_are_reached};
pub use reached::{first_way, reachable};
pub use solver::solve;
pub use successors::Successors;
