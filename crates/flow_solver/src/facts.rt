ghost use Rattle.std.specs.Prelude.{◌≡◌, ℕ, ◌↔◌, IfOk, IsTrue};
ghost use Rattle.flow_solver.specs.Frameworks.{Framework, IsMonotone};

use std::alloc::{AllocError, Global};

/// An analysis of one's own: sets that stand in an order, and how they go through the nodes of a graph.
pub trait Facts {
    /// What is known where a node is entered.
    type Set: Drop;

    /// What contracts see of it all: the order, and what the functions give.
    ghost framework: { Self → Framework Self.Set };

    /// The greatest set.
    fn top(&self, alloc: Global) -> Result<Self::Set, AllocError>
        ensures { IfOk result (λ set. set ≡ (framework self.now).top) };

    /// What enters a node from outside; the top, where nothing does.
    fn start(&self, alloc: Global, node: usize) -> Result<Self::Set, AllocError>
        ensures { IfOk result (λ set. set ≡ (framework self.now).start node) };

    /// The greatest set below both.
    fn meet(&self, alloc: Global, a: &Self::Set, b: &Self::Set) -> Result<Self::Set, AllocError>
        requires a { (framework self.now).IsValue a.now }
        requires b { (framework self.now).IsValue b.now }
        ensures { IfOk result (λ set. set ≡ (framework self.now).meet a.now b.now) };

    /// What leaves a node, by what enters it.
    fn transfer(&self, alloc: Global, node: usize, set: &Self::Set) -> Result<Self::Set, AllocError>
        requires { (framework self.now).IsValue set.now }
        ensures { IfOk result (λ left. left ≡ (framework self.now).transfer node set.now) };

    fn same(&self, a: &Self::Set, b: &Self::Set) -> bool
        requires a { (framework self.now).IsValue a.now }
        requires b { (framework self.now).IsValue b.now }
        ensures { IsTrue result ↔ (a.now ≡ b.now) };

    ghost monotone: { (facts : Self) → IsMonotone (framework facts) };
}
