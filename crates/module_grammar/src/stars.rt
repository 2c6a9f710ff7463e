ghost use Rattle.std.specs.Prelude.{◌≡◌, ◌∷◌, [], MatchOption, OnOk};

use predictive::Stack;
use std::alloc::{AllocError, Global};
use std::marker::Model;

/// The places of stars that contracts see as a list, the one on top first. The lowest stands in place, as most types have one star at most.
#[derive(Drop)]
pub struct Stars {
    lowest: Option<u32>,
    others: Stack<u32>,
}

impl Model for Stars {
    ghost use Rattle.std.specs.Prelude.{ℕ, List, ◌++◌, option_to_list};

    ghost Value = { List ℕ };

    ghost view = { λ it. it.others ++ option_to_list it.lowest };
}

impl Stars {
    pub fn new(alloc: Global) -> Stars
        ensures { result ≡ [] }
    {
        Stars {
            lowest: None,
            others: Stack::new(alloc),
        }
    }

    pub fn push(&mut self, at: u32) -> Result<(), AllocError>
        ensures { OnOk result (self.new ≡ at ∷ self.old) }
    {
        if self.lowest.is_none() && self.others.len() == 0 {
            self.lowest = Some(at);
            Ok(())
        } else {
            self.others.push(at)
        }
    }

    pub fn pop(&mut self) -> Option<u32>
        ensures { MatchOption result ((self.old ≡ []) × (self.new ≡ [])) (λ top. self.old ≡ top ∷ self.new) }
    {
        match self.others.pop() {
            Some(at) => Some(at),
            None => self.lowest.take(),
        }
    }
}
