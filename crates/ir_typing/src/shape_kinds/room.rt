//! How much room the names of a function take.
use ir_core::{Block, Function};

/// As many as a function has names, or more: what it says decides nothing but where memory is taken.
pub(crate) fn names_at_most(function: &Function) -> usize {
    let mut count = function.params.len();
    for block in function.blocks.as_slice() {
        count = count.saturating_add(names_in(block));
    }
    count
}

fn names_in(block: &Block) -> usize {
    block
        .phis
        .len()
        .saturating_add(block.body.len())
        .saturating_add(1)
}
