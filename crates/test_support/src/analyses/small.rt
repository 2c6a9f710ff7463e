//! Which of at most 64 things have come on every path to a node.
ghost use Rattle.flow_solver.specs.Frameworks.{Framework};
ghost use Rattle.test_support.specs.Analyses.Small.{small};
ghost use Rattle.test_support.specs.Analyses.SmallLaws.{small_is_monotone};

use flow_solver::Facts;
use std::alloc::{AllocError, Global};

/// Which of the things that have come a node keeps, and which it gives.
#[derive(Drop, Clone, Copy)]
pub struct Effect {
    pub keeps: u64,
    pub gives: u64,
}

/// All things, and the effect of each node; others have none.
#[derive(Drop)]
pub struct Small {
    pub all: u64,
    pub effects: Vec<Effect>,
}

impl Facts for Small {
    type Set = u64;

    ghost framework = { λ it. small it.all it.effects.items };

    fn top(&self, _alloc: Global) -> Result<u64, AllocError> {
        Ok(self.all)
    }

    fn start(&self, _alloc: Global, node: usize) -> Result<u64, AllocError> {
        Ok(if node == 0 { 0 } else { self.all })
    }

    fn meet(&self, _alloc: Global, a: &u64, b: &u64) -> Result<u64, AllocError> {
        Ok(*a & *b)
    }

    fn transfer(&self, _alloc: Global, node: usize, set: &u64) -> Result<u64, AllocError> {
        let effect = match self.effects.get(node) {
            Some(effect) => *effect,
            None => Effect { keeps: 0, gives: 0 },
        };
        Ok((*set & effect.keeps | effect.gives) & self.all)
    }

    fn same(&self, a: &u64, b: &u64) -> bool {
        *a == *b
    }

    ghost monotone = { λ it. small_is_monotone it.all it.effects.items };
}
