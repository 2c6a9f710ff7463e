//! The edges of a function, collected once for all blocks that have phis.
ghost use Rattle.std.specs.Prelude.{◌≡◌, [], map, IfOk, OnOk};
ghost use Rattle.std.specs.List.{AllByRecursion, list_any};
ghost use Rattle.std.specs.Option.{option_copied};
ghost use Rattle.ir_core.specs.declared.functions.Block.{Block};
ghost use Rattle.ir_core.specs.declared.functions.Case.{Case};
ghost use Rattle.ir_shape.specs.ShapeTests.Edges.{HasEdges, has_phis, no_rows, row_at, row_kept, rows_of, with_block, with_blocks, with_edge, with_edge_at, with_edges};
ghost use Rattle.ir_shape.specs.ShapeTests.Kinds.{with_names};

use crate::shape_tests::Row;
use crate::shape_tests::row::put_on;
use ir_core::{Block, Case, Name, Term};
use ir_typing::LentNames;
use std::alloc::{AllocError, Global};

/// Puts a name behind those at a place.
pub fn put_at<'a>(place: usize, from: &'a Name, into: &mut Vec<Row<'a>>) -> Result<(), AllocError>
    ensures { OnOk result (rows_of into.new.items ≡ with_edge_at (rows_of into.old.items) place from.now) }
{
    if place < into.len() {
        let alloc = *into.allocator();
        put_on(&mut into[place], alloc, from)?;
    }
    Ok(())
}

/// Puts the block from which an edge comes behind the others of the label to which it leads.
fn put_edge<'a>(
    labels: &LentNames,
    from: &'a Name,
    label: &Name,
    into: &mut Vec<Row<'a>>,
) -> Result<(), AllocError>
    ensures { OnOk result (rows_of into.new.items ≡ with_edge labels.now from.now (rows_of into.old.items) label.now) }
{
    if let Some(place) = labels.position(label) {
        put_at(place, from, into)?;
    }
    Ok(())
}

fn put_cases<'a>(
    labels: &LentNames,
    from: &'a Name,
    cases: &[Case],
    into: &mut Vec<Row<'a>>,
) -> Result<(), AllocError>
    ensures { OnOk result
        (rows_of into.new.items ≡ with_edges labels.now from.now (rows_of into.old.items) (map (λ (c : Case). c.label) cases.now)) }
{
    for case in cases {
        put_edge(labels, from, &case.label, into)?;
    }
    Ok(())
}

/// Puts those of a block's terminator.
fn put_block<'a>(
    labels: &LentNames,
    block: &'a Block,
    into: &mut Vec<Row<'a>>,
) -> Result<(), AllocError>
    ensures { OnOk result (rows_of into.new.items ≡ with_block labels.now (rows_of into.old.items) block.now) }
{
    match &block.term {
        Term::Br(label) => put_edge(labels, &block.name, label, into),
        Term::CondBr(branch) => {
            put_edge(labels, &block.name, &branch.on_true, into)?;
            put_edge(labels, &block.name, &branch.on_false, into)
        }
        Term::Switch(switch) => {
            put_edge(labels, &block.name, &switch.default, into)?;
            put_cases(labels, &block.name, switch.cases.as_slice(), into)
        }
        Term::Ret(_) | Term::RetVoid | Term::Unreachable => Ok(()),
    }
}

fn put_blocks<'a>(
    labels: &LentNames,
    blocks: &'a [Block],
    into: &mut Vec<Row<'a>>,
) -> Result<(), AllocError>
    ensures { OnOk result (rows_of into.new.items ≡ with_blocks labels.now (rows_of into.old.items) blocks.now) }
{
    for block in blocks {
        put_block(labels, block, into)?;
    }
    Ok(())
}

/// A row without names for each block.
fn no_edges<'a>(alloc: Global, blocks: &[Block]) -> Result<Vec<Row<'a>>, AllocError>
    ensures { IfOk result (λ into. rows_of into.items ≡ no_rows blocks.now) }
{
    let mut into = Vec::with_capacity(alloc, blocks.len())?;
    for _block in blocks {
        into.push(Row::Empty)?;
    }
    Ok(into)
}

pub fn have_phis(blocks: &[Block]) -> bool
    ensures { result ≡ list_any has_phis blocks.now }
{
    for block in blocks {
        if !block.phis.is_empty() {
            return true;
        }
    }
    false
}

/// Of each block that has phis the blocks from which an edge enters it, once for each edge, at the place of its name.
pub fn edges_of<'a>(
    alloc: Global,
    labels: &LentNames,
    blocks: &'a [Block],
) -> Result<Vec<Row<'a>>, AllocError>
    requires { labels.now ≡ with_names [] (map (λ (b : Block). b.name) blocks.now) }
    ensures { IfOk result (λ into. AllByRecursion (HasEdges labels.now (rows_of into.items) blocks.now) blocks.now) }
{
    if !have_phis(blocks) {
        return Ok(Vec::new(alloc));
    }
    let mut into = no_edges(alloc, blocks)?;
    put_blocks(labels, blocks, &mut into)?;
    Ok(into)
}

/// Those that enter the block of that name.
pub fn row_of<'b, 'a>(labels: &LentNames, into: &'b [Row<'a>], name: &Name) -> Option<&'b Row<'a>>
    ensures { row_kept (option_copied result) ≡ row_at labels.now (rows_of into.now) name.now }
{
    match labels.position(name) {
        None => None,
        Some(place) => into.get(place),
    }
}
