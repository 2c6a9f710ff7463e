//! Whether no path comes to a node from the first one: the plainest analysis, which counts its steps.
ghost use Rattle.test_support.specs.Analyses.Reached.{no_path, no_path_is_monotone};

use flow_solver::Facts;
use std::alloc::{AllocError, Global};
use std::cell::Cell;

/// How many times it has left a node.
#[derive(Drop)]
pub struct Reached {
    pub steps: Cell<u64>,
}

impl Facts for Reached {
    type Set = bool;

    ghost framework = { λ _. no_path };

    fn top(&self, _alloc: Global) -> Result<bool, AllocError> {
        Ok(true)
    }

    fn start(&self, _alloc: Global, node: usize) -> Result<bool, AllocError> {
        Ok(node != 0)
    }

    fn meet(&self, _alloc: Global, a: &bool, b: &bool) -> Result<bool, AllocError> {
        Ok(*a && *b)
    }

    fn transfer(&self, _alloc: Global, _node: usize, set: &bool) -> Result<bool, AllocError> {
        self.steps.set(self.steps.get().saturating_add(1));
        Ok(*set)
    }

    fn same(&self, a: &bool, b: &bool) -> bool {
        *a == *b
    }

    ghost monotone = { λ _. no_path_is_monotone };
}
