//! The edges of a function whose blocks have different names and whose labels are all known.
ghost use Rattle.std.specs.Prelude.{◌≡◌, ◌++◌, [], ◌∷◌, map, IfOk, IfSome, OnOk, true};
ghost use Rattle.std.specs.List.{AllByRecursion, Contains};
ghost use Rattle.ir_core.specs.declared.functions.Case.{Case};
ghost use Rattle.ir_core.specs.Functions.{successors_of};
ghost use Rattle.ir_core.specs.Order.{AreNew};
ghost use Rattle.definedness.specs.Graph.{graph_in, labels_in, places_in};
ghost use Rattle.ir_shape.specs.ShapeTests.Edges.{HasEdges, no_rows, rows_of, with_block, with_blocks, with_edge, with_edges};
ghost use Rattle.whole_shapes.specs.Whole.{AreLabels, LeadsToLabels};
ghost use Rattle.whole_functions.specs.Fine.{AreStartRows};

use crate::places::block_of;
use flow_solver::{Graph, Successors};
use ir_core::{Block, Case, Name, Switch, Term};
use ir_shape::{Row, have_phis, put_at};
use std::alloc::{AllocError, Global};
use whole_shapes::Sight;

/// Of each block that has phis the blocks from which an edge enters it, once for each edge, and the graph of all.
pub(crate) struct Edges<'a> {
    pub(crate) rows: Vec<Row<'a>>,
    pub(crate) graph: Graph,
}

impl<'a> Drop for Edges<'a> {
    fn drop(self) {
        let Edges { rows: _, graph: _ } = self;
    }
}

/// Puts the block from which an edge comes behind the others of the block to which it leads, and the place of that one behind the
/// others, if the label is a block's.
fn put_edge<'a>(
    blocks: &[Block],
    sight: &Sight,
    from: &'a Name,
    label: &Name,
    rows: &mut Vec<Row<'a>>,
    places: &mut Successors,
) -> Result<bool, AllocError>
    requires { AreNew [] (labels_in blocks.now) }
    ensures known { IfOk result (λ known. known ≡ true → Contains (labels_in blocks.now) label.now) }
    ensures rows { IfOk result
        (λ known. known ≡ true → rows_of rows.new.items ≡ with_edge (labels_in blocks.now) from.now (rows_of rows.old.items) label.now) }
    ensures places { IfOk result
        (λ known. known ≡ true → places.new ≡ places.old ++ places_in (labels_in blocks.now) (label.now ∷ [])) }
{
    match block_of(blocks, sight, label) {
        None => Ok(false),
        Some(place) => {
            put_at(place, from, rows)?;
            places.push(place)?;
            Ok(true)
        }
    }
}

fn put_cases<'a>(
    blocks: &[Block],
    sight: &Sight,
    from: &'a Name,
    cases: &[Case],
    rows: &mut Vec<Row<'a>>,
    places: &mut Successors,
) -> Result<bool, AllocError>
    requires { AreNew [] (labels_in blocks.now) }
    ensures known { IfOk result (λ known. known ≡ true → AreLabels blocks.now (map (λ (c : Case). c.label) cases.now)) }
    ensures rows { IfOk result
        (λ known. known ≡ true
        → rows_of rows.new.items ≡ with_edges (labels_in blocks.now) from.now (rows_of rows.old.items) (map (λ (c : Case). c.label) cases.now)) }
    ensures places { IfOk result
        (λ known. known ≡ true
        → places.new ≡ places.old ++ places_in (labels_in blocks.now) (map (λ (c : Case). c.label) cases.now)) }
{
    for case in cases {
        if !put_edge(blocks, sight, from, &case.label, rows, places)? {
            return Ok(false);
        }
    }
    Ok(true)
}

fn put_two<'a>(
    blocks: &[Block],
    sight: &Sight,
    from: &'a Name,
    one: &Name,
    two: &Name,
    rows: &mut Vec<Row<'a>>,
    places: &mut Successors,
) -> Result<bool, AllocError>
    requires { AreNew [] (labels_in blocks.now) }
    ensures known { IfOk result (λ known. known ≡ true → AreLabels blocks.now (one.now ∷ two.now ∷ [])) }
    ensures rows { IfOk result
        (λ known. known ≡ true
        → rows_of rows.new.items ≡ with_edges (labels_in blocks.now) from.now (rows_of rows.old.items) (one.now ∷ two.now ∷ [])) }
    ensures places { IfOk result
        (λ known. known ≡ true → places.new ≡ places.old ++ places_in (labels_in blocks.now) (one.now ∷ two.now ∷ [])) }
{
    if !put_edge(blocks, sight, from, one, rows, places)? {
        return Ok(false);
    }
    put_edge(blocks, sight, from, two, rows, places)
}

fn put_switch<'a>(
    blocks: &[Block],
    sight: &Sight,
    from: &'a Name,
    switch: &Switch,
    rows: &mut Vec<Row<'a>>,
    places: &mut Successors,
) -> Result<bool, AllocError>
    requires { AreNew [] (labels_in blocks.now) }
    ensures known { IfOk result (λ known. known ≡ true → AreLabels blocks.now (successors_of (Term.Switch switch.now))) }
    ensures rows { IfOk result
        (λ known. known ≡ true
        → rows_of rows.new.items ≡ with_edges (labels_in blocks.now) from.now (rows_of rows.old.items) (successors_of (Term.Switch switch.now))) }
    ensures places { IfOk result
        (λ known. known ≡ true
        → places.new ≡ places.old ++ places_in (labels_in blocks.now) (successors_of (Term.Switch switch.now))) }
{
    if !put_edge(blocks, sight, from, &switch.default, rows, places)? {
        return Ok(false);
    }
    if !put_cases(blocks, sight, from, switch.cases.as_slice(), rows, places)? {
        return Ok(false);
    }
    Ok(true)
}

/// Puts those of a block's terminator, if all its labels are known.
fn put_block<'a>(
    blocks: &[Block],
    sight: &Sight,
    block: &'a Block,
    rows: &mut Vec<Row<'a>>,
    places: &mut Successors,
) -> Result<bool, AllocError>
    requires { AreNew [] (labels_in blocks.now) }
    ensures known { IfOk result (λ known. known ≡ true → LeadsToLabels blocks.now block.now) }
    ensures rows { IfOk result
        (λ known. known ≡ true → rows_of rows.new.items ≡ with_block (labels_in blocks.now) (rows_of rows.old.items) block.now) }
    ensures places { IfOk result
        (λ known. known ≡ true → places.new ≡ places.old ++ places_in (labels_in blocks.now) (successors_of block.now.term)) }
{
    let from = &block.name;
    match &block.term {
        Term::Br(label) => put_edge(blocks, sight, from, label, rows, places),
        Term::CondBr(branch) => {
            put_two(
                blocks,
                sight,
                from,
                &branch.on_true,
                &branch.on_false,
                rows,
                places,
            )
        }
        Term::Switch(switch) => put_switch(blocks, sight, from, switch, rows, places),
        Term::Ret(_) | Term::RetVoid | Term::Unreachable => Ok(true),
    }
}

/// How many edges lead from a terminator.
fn successor_count(term: &Term) -> usize {
    match term {
        Term::Br(_) => 1,
        Term::CondBr(_) => 2,
        Term::Switch(switch) => switch.cases.len().saturating_add(1),
        Term::Ret(_) | Term::RetVoid | Term::Unreachable => 0,
    }
}

/// The places of the blocks to which a block leads, if all its labels are known.
fn places_of<'a>(
    alloc: Global,
    blocks: &[Block],
    sight: &Sight,
    block: &'a Block,
    rows: &mut Vec<Row<'a>>,
) -> Result<Option<Successors>, AllocError>
    requires { AreNew [] (labels_in blocks.now) }
    ensures known { IfOk result (λ found. IfSome found (λ _. LeadsToLabels blocks.now block.now)) }
    ensures rows { IfOk result
        (λ found. IfSome found (λ _. rows_of rows.new.items ≡ with_block (labels_in blocks.now) (rows_of rows.old.items) block.now)) }
    ensures places { IfOk result
        (λ found. IfSome found (λ places. places ≡ places_in (labels_in blocks.now) (successors_of block.now.term))) }
{
    let mut places = Successors::with_room(alloc, successor_count(&block.term))?;
    if put_block(blocks, sight, block, rows, &mut places)? {
        Ok(Some(places))
    } else {
        Ok(None)
    }
}

fn put_blocks<'a>(
    alloc: Global,
    blocks: &'a [Block],
    sight: &Sight,
    rows: &mut Vec<Row<'a>>,
) -> Result<Option<Graph>, AllocError>
    requires { AreNew [] (labels_in blocks.now) }
    ensures known { IfOk result (λ found. IfSome found (λ _. AllByRecursion (LeadsToLabels blocks.now) blocks.now)) }
    ensures rows { IfOk result
        (λ found. IfSome found (λ _. rows_of rows.new.items ≡ with_blocks (labels_in blocks.now) (rows_of rows.old.items) blocks.now)) }
    ensures graph { IfOk result (λ found. IfSome found (λ graph. graph ≡ graph_in (labels_in blocks.now) blocks.now)) }
{
    let mut successors = Vec::with_capacity(alloc, blocks.len())?;
    for block in blocks {
        match places_of(alloc, blocks, sight, block, rows)? {
            Some(places) => successors.push(places)?,
            None => return Ok(None),
        }
    }
    Ok(Some(Graph::of_short(successors)))
}

/// A row without names for each block.
fn no_edges<'a>(alloc: Global, blocks: &[Block]) -> Result<Vec<Row<'a>>, AllocError>
    ensures { IfOk result (λ rows. rows_of rows.items ≡ no_rows blocks.now) }
{
    let mut rows = Vec::with_capacity(alloc, blocks.len())?;
    for _block in blocks {
        rows.push(Row::Empty)?;
    }
    Ok(rows)
}

/// The rows to begin with. Where no block has phis, none are kept.
fn start_rows<'a>(alloc: Global, blocks: &[Block]) -> Result<Vec<Row<'a>>, AllocError>
    ensures { IfOk result (λ rows. AreStartRows blocks.now (rows_of rows.items)) }
{
    if have_phis(blocks) {
        no_edges(alloc, blocks)
    } else {
        Ok(Vec::new(alloc))
    }
}

/// The edges; none, where a label isn't known.
pub(crate) fn edges_of<'a>(
    alloc: Global,
    blocks: &'a [Block],
    sight: &Sight,
) -> Result<Option<Edges<'a>>, AllocError>
    requires { AreNew [] (labels_in blocks.now) }
    ensures known { IfOk result (λ found. IfSome found (λ _. AllByRecursion (LeadsToLabels blocks.now) blocks.now)) }
    ensures rows { IfOk result
        (λ found. IfSome found
        (λ edges. AllByRecursion (HasEdges (labels_in blocks.now) (rows_of edges.rows.items) blocks.now) blocks.now)) }
    ensures graph { IfOk result (λ found. IfSome found (λ edges. edges.graph ≡ graph_in (labels_in blocks.now) blocks.now)) }
{
    let mut rows = start_rows(alloc, blocks)?;
    match put_blocks(alloc, blocks, sight, &mut rows)? {
        Some(graph) => Ok(Some(Edges { rows, graph })),
        None => Ok(None),
    }
}
