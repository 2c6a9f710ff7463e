//! What is known of a function before its lines are judged.
ghost use Rattle.std.specs.Prelude.{◌≡◌, [], map, true, IfOk, OnOk};
ghost use Rattle.std.specs.List.{AllByRecursion};
ghost use Rattle.ir_core.specs.declared.functions.Block.{Block};
ghost use Rattle.ir_core.specs.Functions as functions;
ghost use Rattle.ir_typing.specs.ShapeKinds.Kept.{type_in};
ghost use Rattle.ir_typing.specs.ShapeKinds.Names.{are_new, with_names};
ghost use Rattle.ir_shape.specs.ShapeTests.Edges.{HasEdges, rows_of};
ghost use Rattle.ir_shape.specs.ShapeTests.Kinds as fitting;
ghost use Rattle.ir_shape.specs.LineShapes.Assumed.{types_by};

use crate::line_shapes::types::{both, have_own_names, put_blocks, put_params};
use crate::shape_tests::{Row, edges_of};
use ir_core::{BitType, Block, Function};
use ir_typing::{Beside, LentNames, LentTypes};
use std::alloc::{AllocError, Global};

/// What is known of a function before its blocks are read: the module beside it, the names of its blocks, the types of its registers, the
/// edges that enter the blocks that have phis, at the places of their names, whether its parameters' names differ, and whether it is seen
/// that all its names do.
pub struct Scope<'a> {
    pub beside: &'a Beside<'a>,
    pub labels: LentNames<'a>,
    pub types: LentTypes<'a>,
    pub edges: Vec<Row<'a>>,
    pub params_differ: bool,
    pub names_differ: bool,
}

impl<'a> Drop for Scope<'a> {
    fn drop(self) {
        let Scope {
            beside: _,
            labels: _,
            types: _,
            edges: _,
            params_differ: _,
            names_differ: _,
        } = self;
    }
}

/// Takes the names of blocks, and says whether each was new.
fn take_labels<'a>(labels: &mut LentNames<'a>, blocks: &'a [Block]) -> Result<bool, AllocError>
    ensures new { IfOk result (λ new. new ≡ are_new labels.old (map (λ (b : Block). b.name) blocks.now)) }
    ensures names { OnOk result (labels.new ≡ with_names labels.old (map (λ (b : Block). b.name) blocks.now)) }
{
    let mut new = true;
    for block in blocks {
        let taken = labels.take(&block.name)?;
        new = both(new, !taken);
    }
    Ok(new)
}

/// What is known of a function beside a module. Where it is assumed that each line gives its register a type, none is asked whether it
/// does.
#[inline(always)]
pub fn scope_of<'a>(
    alloc: Global,
    bit: &'a BitType,
    beside: &'a Beside<'a>,
    assumed: bool,
    function: &'a Function,
) -> Result<Scope<'a>, AllocError>
    ensures beside { IfOk result (λ scope. scope.beside.now ≡ beside.now) }
    ensures labels { IfOk result (λ scope. scope.labels ≡ fitting.labels_of «function».now) }
    ensures types { IfOk result (λ scope. type_in scope.types ≡ types_by assumed beside.now «function».now) }
    ensures edges { IfOk result
        (λ scope. AllByRecursion (HasEdges scope.labels (rows_of scope.edges.items) «function».now.blocks) «function».now.blocks) }
    ensures params { IfOk result
        (λ scope. scope.params_differ ≡ are_new [] (functions.names_in (functions.params_of «function».now))) }
    ensures names { IfOk result
        (λ scope. scope.names_differ ≡ true → are_new [] (functions.names_of «function».now) ≡ true) }
{
    let blocks = function.blocks.as_slice();
    let mut labels = LentNames::with_room(alloc, blocks.len())?;
    let labels_differ = take_labels(&mut labels, blocks)?;
    let edges = edges_of(alloc, &labels, blocks)?;
    let mut types = LentTypes::for_function(alloc, function)?;
    let params_differ = put_params(&mut types, function.params.as_slice())?;
    let registers_differ = put_blocks(&mut types, assumed, beside, bit, blocks)?;
    let told_once = both(params_differ, registers_differ);
    let labels_stand_once = both(labels_differ, have_own_names(&types, blocks));
    let names_differ = both(told_once, labels_stand_once);
    Ok(Scope {
        beside,
        labels,
        types,
        edges,
        params_differ,
        names_differ,
    })
}
