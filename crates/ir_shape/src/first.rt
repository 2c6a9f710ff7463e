ghost use Rattle.std.specs.Prelude.{◌≡◌, ◌<◌, ◌++◌, [], ◌∷◌, true, None, Some, IfOk, IfErr, OnOk, length};
ghost use Rattle.std.specs.List.{AllByRecursion};
ghost use Rattle.std.specs.Option.{option_copied};
ghost use Rattle.ir_core.specs.Functions as functions;
ghost use Rattle.ir_typing.specs.ShapeKinds.Kept.{type_in};
ghost use Rattle.ir_typing.specs.ShapeKinds.Names.{are_new, with_names};
ghost use Rattle.ir_core.specs.NameIndexes.Among.{is_among};
ghost use Rattle.ir_shape.specs.ShapeTests.Counted.{count_in, counts_of};
ghost use Rattle.ir_shape.specs.ShapeTests.Edges.{HasEdges, named, row_kept, rows_of};
ghost use Rattle.ir_shape.specs.ShapeTests.Kinds as fitting;
ghost use Rattle.ir_shape.specs.Shape as meaning;
ghost use Rattle.ir_shape.specs.Shape.{IsFirstOf};
ghost use Rattle.ir_shape.specs.LineShapes.Assumed.{types_by};
ghost use Rattle.ir_shape.specs.LineShapes.Told as told;

use crate::apart::new_body_fits;
use crate::line_shapes::{Scope, end_kind, header_kind, line_kind, phi_kind, scope_of};
use crate::shape_tests::{Counts, Row, block_kind, counts_of, name_kind, row_of};
use crate::{LinePlace, ShapeEnd, ShapeFault};
use contents::Exact;
use ir_core::{BitType, Block, Function, Instr, Name, Phi, Sigil};
use ir_typing::{Beside, LentNames, ShapeKind, least};
use std::alloc::{AllocError, Global};

fn fault_in_line(
    alloc: Global,
    function: &Name,
    block: &Name,
    line: usize,
    kind: ShapeKind,
) -> Result<ShapeFault, AllocError>
    ensures { IfOk result
        (λ f. f ≡ record { sigil = Sigil.Global; function = function.now; place = Some (record { block = block.now; line = line }); kind = kind }) }
{
    Ok(ShapeFault {
        sigil: Sigil::Global,
        function: function.copy(alloc)?,
        place: Some(LinePlace {
            block: block.copy(alloc)?,
            line,
        }),
        kind,
    })
}

/// Whether the line of that number has no fault.
#[inline(always)]
pub(crate) fn line_fits(
    alloc: Global,
    function: &Name,
    block: &Name,
    line: usize,
    found: Option<ShapeKind>,
) -> Result<(), ShapeEnd>
    ensures fits { IfOk result (λ _. meaning.in_line function.now block.now line found ≡ []) }
    ensures fault { IfErr result (IsFirstOf (meaning.in_line function.now block.now line found)) }
{
    match found {
        None => Ok(()),
        Some(kind) => Err(ShapeEnd::Fault(fault_in_line(alloc, function, block, line, kind)?)),
    }
}

/// Whether a function's name and parameters have no fault.
pub(crate) fn header_fits(
    alloc: Global,
    function: &Name,
    found: Option<ShapeKind>,
) -> Result<(), ShapeEnd>
    ensures fits { IfOk result (λ _. meaning.fault_at function.now None found ≡ []) }
    ensures fault { IfErr result (IsFirstOf (meaning.fault_at function.now None found)) }
{
    match found {
        None => Ok(()),
        Some(kind) => Err(ShapeEnd::Fault(ShapeFault {
            sigil: Sigil::Global,
            function: function.copy(alloc)?,
            place: None,
            kind,
        })),
    }
}

/// Whether no line of a block has a fault, where these are the kinds of its phis and lines, of its terminator and of its own name.
fn kinds_fit(
    alloc: Global,
    function: &Name,
    block: &Name,
    own: Option<ShapeKind>,
    kinds: &[Option<ShapeKind>],
    end: Option<ShapeKind>,
) -> Result<(), ShapeEnd>
    ensures fits { IfOk result (λ _. meaning.in_kinds function.now block.now 0 own kinds.now end ≡ []) }
    ensures fault { IfErr result (IsFirstOf (meaning.in_kinds function.now block.now 0 own kinds.now end)) }
{
    // The block's name stands in its first line.
    let mut pending = own;
    let mut line = 0;
    for kind in kinds {
        line_fits(alloc, function, block, line, least(pending, *kind))?;
        pending = None;
        // A block of so many lines stands in no memory.
        line = line.checked_add(1).ok_or(AllocError)?;
    }
    line_fits(alloc, function, block, line, least(pending, end))
}

/// Puts the kinds of phis behind the others, and takes their names, where these edges enter their block, so many of each block.
fn push_counted<'a>(
    alloc: Global,
    scope: &Scope,
    edges: &[&Name],
    counts: &Counts,
    names: &mut LentNames<'a>,
    phis: &'a [Phi],
    kinds: &mut Vec<Option<ShapeKind>>,
) -> Result<(), AllocError>
    requires counted { 8 < length edges.now → count_in counts.now ≡ counts_of (named edges.now) }
    ensures kinds { OnOk result
        (kinds.new.items
        ≡ kinds.old.items ++ meaning.phi_kinds scope.now.beside.now scope.now.labels (type_in scope.now.types) (named edges.now) names.old phis.now) }
    ensures names { OnOk result (names.new ≡ meaning.with_phis names.old phis.now) }
{
    for phi in phis {
        let taken = names.take(&phi.name)?;
        kinds.push(phi_kind(alloc, scope, edges, counts, !taken, phi)?)?;
    }
    Ok(())
}

fn push_phis<'a>(
    alloc: Global,
    scope: &Scope,
    edges: &[&Name],
    names: &mut LentNames<'a>,
    phis: &'a [Phi],
    kinds: &mut Vec<Option<ShapeKind>>,
) -> Result<(), AllocError>
    ensures kinds { OnOk result
        (kinds.new.items
        ≡ kinds.old.items ++ meaning.phi_kinds scope.now.beside.now scope.now.labels (type_in scope.now.types) (named edges.now) names.old phis.now) }
    ensures names { OnOk result (names.new ≡ meaning.with_phis names.old phis.now) }
{
    let counts = counts_of(alloc, edges)?;
    push_counted(alloc, scope, edges, &counts, names, phis, kinds)
}

/// The same, where the edges are those that are kept, or none.
fn push_with<'a>(
    alloc: Global,
    scope: &Scope,
    row: Option<&Row>,
    names: &mut LentNames<'a>,
    phis: &'a [Phi],
    kinds: &mut Vec<Option<ShapeKind>>,
) -> Result<(), AllocError>
    ensures kinds { OnOk result
        (kinds.new.items
        ≡ kinds.old.items
        ++ meaning.phi_kinds scope.now.beside.now scope.now.labels (type_in scope.now.types) (row_kept (option_copied row.entry)) names.old phis.now) }
    ensures names { OnOk result (names.new ≡ meaning.with_phis names.old phis.now) }
{
    match row {
        None => push_phis(alloc, scope, &[], names, phis, kinds),
        Some(edges) => push_phis(alloc, scope, edges.as_slice(), names, phis, kinds),
    }
}

/// Puts the kinds of a block's phis behind the others, and takes their names.
fn push_block_phis<'a>(
    alloc: Global,
    _function: &Function,
    scope: &Scope,
    names: &mut LentNames<'a>,
    block: &'a Block,
    kinds: &mut Vec<Option<ShapeKind>>,
) -> Result<(), AllocError>
    requires edges { HasEdges scope.now.labels (rows_of scope.now.edges.items) _function.now.blocks block.now }
    ensures kinds { OnOk result
        (kinds.new.items
        ≡ kinds.old.items
        ++ meaning.phi_kinds scope.now.beside.now scope.now.labels (type_in scope.now.types) (functions.edges_into _function.now block.now.name) names.old block.now.phis) }
    ensures names { OnOk result (names.new ≡ meaning.with_phis names.old block.now.phis) }
{
    if block.phis.is_empty() {
        return Ok(());
    }
    let row = row_of(&scope.labels, scope.edges.as_slice(), &block.name);
    push_with(alloc, scope, row, names, block.phis.as_slice(), kinds)
}

/// Takes the name of the register that a line sets, if it sets one, and says whether it was taken.
#[tactic(auto, using(ir_core::proofs::Lines::names_one, ir_core::proofs::Lines::names_none))]
fn take_line<'a>(names: &mut LentNames<'a>, line: &'a Instr) -> Result<bool, AllocError>
    ensures taken { IfOk result (λ taken. taken ≡ meaning.is_taken names.old line.now) }
    ensures names { OnOk result (names.new ≡ meaning.with_lines names.old (line.now ∷ [])) }
{
    match line.name() {
        Some(name) => names.take(name),
        None => Ok(false),
    }
}

/// Puts the kinds of lines behind the others, and takes their names.
#[tactic(auto, using(crate::proofs::Kept::lines_joined))]
fn push_lines<'a>(
    alloc: Global,
    scope: &Scope,
    names: &mut LentNames<'a>,
    lines: &'a [Instr],
    kinds: &mut Vec<Option<ShapeKind>>,
) -> Result<(), AllocError>
    ensures kinds { OnOk result
        (kinds.new.items ≡ kinds.old.items ++ meaning.line_kinds scope.now.beside.now (type_in scope.now.types) names.old lines.now) }
    ensures names { OnOk result (names.new ≡ meaning.with_lines names.old lines.now) }
{
    for line in lines {
        let taken = take_line(names, line)?;
        kinds.push(line_kind(scope.beside, &scope.types, !taken, line))?;
    }
    Ok(())
}

/// Takes a block's name among those of the blocks before it and among all; gives what is wrong with it.
fn own_kind<'a>(
    earlier: &mut LentNames<'a>,
    names: &mut LentNames<'a>,
    name: &'a Name,
) -> Result<Option<ShapeKind>, AllocError>
    ensures kind { IfOk result
        (λ kind. kind ≡ fitting.block_kind (is_among name.now earlier.old) (is_among name.now names.old)) }
    ensures earlier { OnOk result (earlier.new ≡ fitting.with_name earlier.old name.now) }
    ensures names { OnOk result (names.new ≡ fitting.with_name names.old name.now) }
{
    let doubled = earlier.take(name)?;
    Ok(block_kind(doubled, names.take(name)?))
}

/// The kinds of a block's phis and lines; takes their names.
fn kinds_of<'a>(
    alloc: Global,
    function: &Function,
    scope: &Scope,
    names: &mut LentNames<'a>,
    block: &'a Block,
) -> Result<Vec<Option<ShapeKind>>, AllocError>
    requires edges { HasEdges scope.now.labels (rows_of scope.now.edges.items) «function».now.blocks block.now }
    ensures kinds { IfOk result
        (λ kinds. kinds.items
        ≡ meaning.phi_kinds scope.now.beside.now scope.now.labels (type_in scope.now.types) (functions.edges_into «function».now block.now.name) names.old block.now.phis
        ++ meaning.line_kinds scope.now.beside.now (type_in scope.now.types) (meaning.with_phis names.old block.now.phis) block.now.body) }
    ensures names { OnOk result (names.new ≡ meaning.with_lines (meaning.with_phis names.old block.now.phis) block.now.body) }
{
    let mut kinds = Vec::with_capacity(alloc, block.body.len())?;
    push_block_phis(alloc, function, scope, names, block, &mut kinds)?;
    push_lines(alloc, scope, names, block.body.as_slice(), &mut kinds)?;
    Ok(kinds)
}

/// Whether a block has no fault, behind blocks whose names are given.
fn block_fits<'a>(
    alloc: Global,
    function: &Function,
    entry: &Name,
    scope: &Scope,
    earlier: &mut LentNames<'a>,
    names: &mut LentNames<'a>,
    block: &'a Block,
) -> Result<(), ShapeEnd>
    requires edges { HasEdges scope.now.labels (rows_of scope.now.edges.items) «function».now.blocks block.now }
    ensures fits { IfOk result
        (λ _. meaning.in_block scope.now.beside.now «function».now scope.now.labels (type_in scope.now.types) entry.now earlier.old names.old block.now ≡ []) }
    ensures earlier { IfOk result (λ _. earlier.new ≡ fitting.with_name earlier.old block.now.name) }
    ensures names { IfOk result (λ _. names.new ≡ meaning.with_block names.old block.now) }
    ensures fault { IfErr result
        (IsFirstOf (meaning.in_block scope.now.beside.now «function».now scope.now.labels (type_in scope.now.types) entry.now earlier.old names.old block.now)) }
{
    let own = own_kind(earlier, names, &block.name)?;
    let end = end_kind(alloc, scope, entry, &function.result, &block.term)?;
    let kinds = kinds_of(alloc, function, scope, names, block)?;
    kinds_fit(alloc, &function.name, &block.name, own, &kinds, end)
}

fn blocks_fit<'a>(
    alloc: Global,
    function: &Function,
    entry: &Name,
    scope: &Scope,
    params: LentNames<'a>,
    blocks: &'a [Block],
) -> Result<(), ShapeEnd>
    requires edges { AllByRecursion (HasEdges scope.now.labels (rows_of scope.now.edges.items) «function».now.blocks) blocks.now }
    ensures fits { IfOk result
        (λ _. meaning.in_blocks scope.now.beside.now «function».now scope.now.labels (type_in scope.now.types) entry.now [] params.entry blocks.now ≡ []) }
    ensures fault { IfErr result
        (IsFirstOf (meaning.in_blocks scope.now.beside.now «function».now scope.now.labels (type_in scope.now.types) entry.now [] params.entry blocks.now)) }
{
    let mut names = params;
    let mut earlier = LentNames::with_room(alloc, blocks.len())?;
    for block in blocks {
        block_fits(
            alloc,
            function,
            entry,
            scope,
            &mut earlier,
            &mut names,
            block,
        )?;
    }
    Ok(())
}

fn body_fits<'a>(
    alloc: Global,
    function: &'a Function,
    scope: &Scope,
    params: LentNames<'a>,
    blocks: &'a [Block],
) -> Result<(), ShapeEnd>
    requires edges { AllByRecursion (HasEdges scope.now.labels (rows_of scope.now.edges.items) «function».now.blocks) blocks.now }
    ensures fits { IfOk result
        (λ _. meaning.in_body scope.now.beside.now «function».now scope.now.labels (type_in scope.now.types) params.entry blocks.now ≡ []) }
    ensures fault { IfErr result
        (IsFirstOf (meaning.in_body scope.now.beside.now «function».now scope.now.labels (type_in scope.now.types) params.entry blocks.now)) }
{
    match blocks {
        [] => Ok(()),
        [first, ..] => blocks_fit(alloc, function, &first.name, scope, params, blocks),
    }
}

/// Whether a function's header has no fault, and it has a block.
fn params_fit(
    alloc: Global,
    beside: &Beside,
    params_differ: bool,
    function: &Function,
) -> Result<(), ShapeEnd>
    requires { params_differ ≡ are_new [] (functions.names_in (functions.params_of «function».now)) }
    ensures fits { IfOk result
        (λ _. meaning.fault_at «function».now.name None
        (told.header_kind beside.now (are_new [] (functions.names_in (functions.params_of «function».now))) «function».now)
        ≡ []) }
    ensures fault { IfErr result
        (IsFirstOf
        (meaning.fault_at «function».now.name None
        (told.header_kind beside.now (are_new [] (functions.names_in (functions.params_of «function».now))) «function».now))) }
{
    header_fits(
        alloc,
        &function.name,
        header_kind(beside, params_differ, function),
    )
}

/// The names of a function's parameters.
fn param_names<'a>(alloc: Global, function: &'a Function) -> Result<LentNames<'a>, AllocError>
    ensures { IfOk result (λ names. names ≡ with_names [] (functions.names_in (functions.params_of «function».now))) }
{
    let mut names = LentNames::for_function(alloc, function)?;
    for param in function.params.as_slice() {
        names.take(&param.name)?;
    }
    Ok(names)
}

/// Whether the blocks of a function have no fault, of which this is known.
fn all_blocks_fit<'a>(
    alloc: Global,
    beside: &Beside,
    scope: &Scope,
    function: &'a Function,
) -> Result<(), ShapeEnd>
    requires beside { scope.now.beside.now ≡ beside.now }
    requires labels { scope.now.labels ≡ fitting.labels_of «function».now }
    requires types { type_in scope.now.types ≡ fitting.types_of beside.now «function».now }
    requires edges { AllByRecursion (HasEdges scope.now.labels (rows_of scope.now.edges.items) «function».now.blocks) «function».now.blocks }
    requires names { scope.now.names_differ ≡ true → are_new [] (functions.names_of «function».now) ≡ true }
    ensures fits { IfOk result
        (λ _. meaning.in_body beside.now «function».now (fitting.labels_of «function».now) (fitting.types_of beside.now «function».now)
        (with_names [] (functions.names_in (functions.params_of «function».now))) «function».now.blocks ≡ []) }
    ensures fault { IfErr result
        (IsFirstOf
        (meaning.in_body beside.now «function».now (fitting.labels_of «function».now) (fitting.types_of beside.now «function».now)
        (with_names [] (functions.names_in (functions.params_of «function».now))) «function».now.blocks)) }
{
    let blocks = function.blocks.as_slice();
    if scope.names_differ {
        return new_body_fits(alloc, function, scope, blocks);
    }
    let names = param_names(alloc, function)?;
    body_fits(alloc, function, scope, names, blocks)
}

/// Whether a function's or a declaration's name has no fault, which may be taken.
pub(crate) fn name_fits(alloc: Global, taken: bool, name: &Name) -> Result<(), ShapeEnd>
    ensures fits { IfOk result (λ _. meaning.fault_at name.now None (fitting.name_kind taken name.now) ≡ []) }
    ensures fault { IfErr result (IsFirstOf (meaning.fault_at name.now None (fitting.name_kind taken name.now))) }
{
    header_fits(alloc, name, name_kind(taken, name))
}

/// Whether the blocks of a function have no fault, where each line is asked whether it gives its register a type.
fn told_blocks_fit(
    alloc: Global,
    bit: &BitType,
    beside: &Beside,
    function: &Function,
) -> Result<(), ShapeEnd>
    ensures fits { IfOk result
        (λ _. meaning.in_body beside.now «function».now (fitting.labels_of «function».now) (fitting.types_of beside.now «function».now)
        (with_names [] (functions.names_in (functions.params_of «function».now))) «function».now.blocks ≡ []) }
    ensures fault { IfErr result
        (IsFirstOf
        (meaning.in_body beside.now «function».now (fitting.labels_of «function».now) (fitting.types_of beside.now «function».now)
        (with_names [] (functions.names_in (functions.params_of «function».now))) «function».now.blocks)) }
{
    let scope = scope_of(alloc, bit, beside, false, function)?;
    all_blocks_fit(alloc, beside, &scope, function)
}

/// Whether it is seen that the blocks of a function have no fault, where it is assumed that each line gives its register a type: a line
/// without fault does.
fn fits_as_assumed(alloc: Global, beside: &Beside, scope: &Scope, function: &Function) -> bool
    requires beside { scope.now.beside.now ≡ beside.now }
    requires labels { scope.now.labels ≡ fitting.labels_of «function».now }
    requires types { type_in scope.now.types ≡ types_by true beside.now «function».now }
    requires edges { AllByRecursion (HasEdges scope.now.labels (rows_of scope.now.edges.items) «function».now.blocks) «function».now.blocks }
    requires names { scope.now.names_differ ≡ true → are_new [] (functions.names_of «function».now) ≡ true }
    ensures { result ≡ true
        → meaning.in_body beside.now «function».now (fitting.labels_of «function».now) (fitting.types_of beside.now «function».now)
        (with_names [] (functions.names_in (functions.params_of «function».now))) «function».now.blocks ≡ [] }
{
    if scope.names_differ {
        return new_body_fits(alloc, function, scope, function.blocks.as_slice()).is_ok();
    }
    false
}

/// Whether a function has no fault, whose name may be taken.
pub(crate) fn function_fits(
    alloc: Global,
    beside: &Beside,
    taken: bool,
    function: &Function,
) -> Result<(), ShapeEnd>
    ensures fits { IfOk result (λ _. meaning.in_function beside.now taken «function».now ≡ []) }
    ensures fault { IfErr result (IsFirstOf (meaning.in_function beside.now taken «function».now)) }
{
    name_fits(alloc, taken, &function.name)?;
    let bit = BitType::new();
    let assumed = scope_of(alloc, &bit, beside, true, function)?;
    params_fit(alloc, beside, assumed.params_differ, function)?;
    if fits_as_assumed(alloc, beside, &assumed, function) {
        return Ok(());
    }
    told_blocks_fit(alloc, &bit, beside, function)
}
