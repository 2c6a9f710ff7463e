//! Functions of whose names none stands twice, as in most: whether a name is new isn't asked again at each line.
ghost use Rattle.std.specs.Prelude.{◌≡◌, ◌<◌, [], length, IfOk, IfErr};
ghost use Rattle.std.specs.List.{AllByRecursion};
ghost use Rattle.std.specs.Option.{option_copied};
ghost use Rattle.ir_core.specs.Functions as functions;
ghost use Rattle.ir_typing.specs.ShapeKinds.Kept.{type_in};
ghost use Rattle.ir_shape.specs.ShapeTests.Counted.{count_in, counts_of};
ghost use Rattle.ir_shape.specs.ShapeTests.Edges.{HasEdges, named, row_kept, rows_of};
ghost use Rattle.ir_shape.specs.Apart as apart;
ghost use Rattle.ir_shape.specs.Shape.{IsFirstOf};

use crate::ShapeEnd;
use crate::first::line_fits;
use crate::line_shapes::{Scope, end_kind, line_kind, phi_kind};
use crate::shape_tests::{Counts, Row, counts_of, row_of};
use ir_core::{Block, Function, Instr, Name, Phi};
use std::alloc::{AllocError, Global};

/// Whether phis have no fault, which edges enter, so many of each block.
fn counted_fit(
    alloc: Global,
    function: &Name,
    block: &Name,
    scope: &Scope,
    edges: &[&Name],
    counts: &Counts,
    phis: &[Phi],
) -> Result<(), ShapeEnd>
    requires counted { 8 < length edges.now → count_in counts.now ≡ counts_of (named edges.now) }
    ensures fits { IfOk result
        (λ _. apart.in_each function.now block.now 0
        (apart.new_phi_kinds scope.now.beside.now scope.now.labels (type_in scope.now.types) (named edges.now) phis.now)
        ≡ []) }
    ensures fault { IfErr result
        (IsFirstOf
        (apart.in_each function.now block.now 0
        (apart.new_phi_kinds scope.now.beside.now scope.now.labels (type_in scope.now.types) (named edges.now) phis.now))) }
{
    for line in 0..phis.len() {
        let kind = phi_kind(alloc, scope, edges, counts, true, &phis[line])?;
        line_fits(alloc, function, block, line, kind)?;
    }
    Ok(())
}

fn phis_fit(
    alloc: Global,
    function: &Name,
    block: &Name,
    scope: &Scope,
    edges: &[&Name],
    phis: &[Phi],
) -> Result<(), ShapeEnd>
    ensures fits { IfOk result
        (λ _. apart.in_each function.now block.now 0
        (apart.new_phi_kinds scope.now.beside.now scope.now.labels (type_in scope.now.types) (named edges.now) phis.now)
        ≡ []) }
    ensures fault { IfErr result
        (IsFirstOf
        (apart.in_each function.now block.now 0
        (apart.new_phi_kinds scope.now.beside.now scope.now.labels (type_in scope.now.types) (named edges.now) phis.now))) }
{
    let counts = counts_of(alloc, edges)?;
    counted_fit(alloc, function, block, scope, edges, &counts, phis)
}

/// The same, where the edges are those that are kept, or none.
fn kept_fit(
    alloc: Global,
    function: &Name,
    block: &Name,
    scope: &Scope,
    row: Option<&Row>,
    phis: &[Phi],
) -> Result<(), ShapeEnd>
    ensures fits { IfOk result
        (λ _. apart.in_each function.now block.now 0
        (apart.new_phi_kinds scope.now.beside.now scope.now.labels (type_in scope.now.types) (row_kept (option_copied row.entry)) phis.now)
        ≡ []) }
    ensures fault { IfErr result
        (IsFirstOf
        (apart.in_each function.now block.now 0
        (apart.new_phi_kinds scope.now.beside.now scope.now.labels (type_in scope.now.types) (row_kept (option_copied row.entry)) phis.now))) }
{
    match row {
        None => phis_fit(alloc, function, block, scope, &[], phis),
        Some(edges) => phis_fit(alloc, function, block, scope, edges.as_slice(), phis),
    }
}

/// Whether a block's phis have no fault.
fn block_phis_fit(
    alloc: Global,
    function: &Function,
    scope: &Scope,
    block: &Block,
) -> Result<(), ShapeEnd>
    requires edges { HasEdges scope.now.labels (rows_of scope.now.edges.items) «function».now.blocks block.now }
    ensures fits { IfOk result
        (λ _. apart.in_each «function».now.name block.now.name 0
        (apart.new_phi_kinds scope.now.beside.now scope.now.labels (type_in scope.now.types) (functions.edges_into «function».now block.now.name) block.now.phis)
        ≡ []) }
    ensures fault { IfErr result
        (IsFirstOf
        (apart.in_each «function».now.name block.now.name 0
        (apart.new_phi_kinds scope.now.beside.now scope.now.labels (type_in scope.now.types) (functions.edges_into «function».now block.now.name) block.now.phis))) }
{
    if block.phis.is_empty() {
        return Ok(());
    }
    let row = row_of(&scope.labels, scope.edges.as_slice(), &block.name);
    kept_fit(
        alloc,
        &function.name,
        &block.name,
        scope,
        row,
        block.phis.as_slice(),
    )
}

/// Whether a block's lines have no fault, the first of which has that number.
fn lines_fit(
    alloc: Global,
    function: &Name,
    block: &Name,
    scope: &Scope,
    first: usize,
    lines: &[Instr],
) -> Result<(), ShapeEnd>
    ensures fits { IfOk result
        (λ _. apart.in_each function.now block.now first (apart.new_line_kinds scope.now.beside.now (type_in scope.now.types) lines.now) ≡ []) }
    ensures fault { IfErr result
        (IsFirstOf (apart.in_each function.now block.now first (apart.new_line_kinds scope.now.beside.now (type_in scope.now.types) lines.now))) }
{
    let mut number = first;
    for line in lines {
        let kind = line_kind(scope.beside, &scope.types, true, line);
        line_fits(alloc, function, block, number, kind)?;
        // A block of so many lines stands in no memory.
        number = number.checked_add(1).ok_or(AllocError)?;
    }
    Ok(())
}

/// Whether a block's last line has no fault.
fn end_fits(
    alloc: Global,
    function: &Function,
    entry: &Name,
    scope: &Scope,
    block: &Block,
) -> Result<(), ShapeEnd>
    ensures fits { IfOk result
        (λ _. apart.in_end scope.now.beside.now «function».now scope.now.labels (type_in scope.now.types) entry.now block.now ≡ []) }
    ensures fault { IfErr result
        (IsFirstOf (apart.in_end scope.now.beside.now «function».now scope.now.labels (type_in scope.now.types) entry.now block.now)) }
{
    let line = block
        .phis
        .len()
        .checked_add(block.body.len())
        .ok_or(AllocError)?;
    let kind = end_kind(alloc, scope, entry, &function.result, &block.term)?;
    if kind.is_none() {
        return Ok(());
    }
    line_fits(alloc, &function.name, &block.name, line, kind)
}

/// Whether a block has no fault.
fn block_fits(
    alloc: Global,
    function: &Function,
    entry: &Name,
    scope: &Scope,
    block: &Block,
) -> Result<(), ShapeEnd>
    requires edges { HasEdges scope.now.labels (rows_of scope.now.edges.items) «function».now.blocks block.now }
    ensures fits { IfOk result
        (λ _. apart.in_new_block scope.now.beside.now «function».now scope.now.labels (type_in scope.now.types) entry.now block.now ≡ []) }
    ensures fault { IfErr result
        (IsFirstOf (apart.in_new_block scope.now.beside.now «function».now scope.now.labels (type_in scope.now.types) entry.now block.now)) }
{
    block_phis_fit(alloc, function, scope, block)?;
    let first = block.phis.len();
    lines_fit(
        alloc,
        &function.name,
        &block.name,
        scope,
        first,
        block.body.as_slice(),
    )?;
    end_fits(alloc, function, entry, scope, block)
}

fn blocks_fit(
    alloc: Global,
    function: &Function,
    entry: &Name,
    scope: &Scope,
    blocks: &[Block],
) -> Result<(), ShapeEnd>
    requires edges { AllByRecursion (HasEdges scope.now.labels (rows_of scope.now.edges.items) «function».now.blocks) blocks.now }
    ensures fits { IfOk result
        (λ _. apart.in_new_blocks scope.now.beside.now «function».now scope.now.labels (type_in scope.now.types) entry.now blocks.now ≡ []) }
    ensures fault { IfErr result
        (IsFirstOf (apart.in_new_blocks scope.now.beside.now «function».now scope.now.labels (type_in scope.now.types) entry.now blocks.now)) }
{
    for block in blocks {
        block_fits(alloc, function, entry, scope, block)?;
    }
    Ok(())
}

/// Whether the blocks of a function have no fault, of which all names are new.
pub(crate) fn new_body_fits(
    alloc: Global,
    function: &Function,
    scope: &Scope,
    blocks: &[Block],
) -> Result<(), ShapeEnd>
    requires edges { AllByRecursion (HasEdges scope.now.labels (rows_of scope.now.edges.items) «function».now.blocks) blocks.now }
    ensures fits { IfOk result
        (λ _. apart.in_new_body scope.now.beside.now «function».now scope.now.labels (type_in scope.now.types) blocks.now ≡ []) }
    ensures fault { IfErr result
        (IsFirstOf (apart.in_new_body scope.now.beside.now «function».now scope.now.labels (type_in scope.now.types) blocks.now)) }
{
    match blocks {
        [] => Ok(()),
        [first, ..] => blocks_fit(alloc, function, &first.name, scope, blocks),
    }
}
