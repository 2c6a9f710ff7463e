//! The graph of a function's blocks, and what each block defines, by places.
ghost use Rattle.std.specs.Prelude.{◌≡◌, map, IfOk};
ghost use Rattle.ir_core.specs.NameIndexes.Places.{ArePlaces};
ghost use Rattle.definedness.specs.Flow.{graph_by};
ghost use Rattle.definedness.specs.Graph.{graph_in, labels_in};
ghost use Rattle.definedness.specs.DefinitionLists.Solved.{given_in};

use crate::definition_lists::names::{labels_at, labels_of, set_in};
use crate::definition_lists::places::{index_of, places_of};
use flow_solver::Graph;
use ir_core::{Block, PlaceIndex};
use std::alloc::{AllocError, Global};

/// Of each block the places of the blocks to which it leads.
fn led_to(
    alloc: Global,
    blocks: &[Block],
    labels: &PlaceIndex,
) -> Result<Vec<Vec<usize>>, AllocError>
    ensures { IfOk result (λ rows. map (λ row. row.items) rows.items ≡ graph_by labels.now blocks.now) }
{
    let mut rows = Vec::with_capacity(alloc, blocks.len())?;
    for block in blocks {
        let names = labels_at(alloc, &block.term)?;
        rows.push(places_of(alloc, labels, names.as_slice())?)?;
    }
    Ok(rows)
}

/// The graph of the blocks.
pub(crate) fn graph_of(alloc: Global, blocks: &[Block]) -> Result<Graph, AllocError>
    ensures { IfOk result (λ graph. graph ≡ graph_in (labels_in blocks.now) blocks.now) }
{
    let names = labels_of(alloc, blocks)?;
    let labels = index_of(alloc, names.as_slice())?;
    let rows = led_to(alloc, blocks, &labels)?;
    Ok(Graph::new(rows))
}

/// Of each block the places of the registers that it sets.
pub(crate) fn given_in(
    alloc: Global,
    blocks: &[Block],
    registers: &PlaceIndex,
) -> Result<Vec<Vec<usize>>, AllocError>
    ensures { IfOk result (λ rows. map (λ row. row.items) rows.items ≡ given_in registers.now blocks.now) }
{
    let mut rows = Vec::with_capacity(alloc, blocks.len())?;
    for block in blocks {
        let names = set_in(alloc, block)?;
        rows.push(places_of(alloc, registers, names.as_slice())?)?;
    }
    Ok(rows)
}
