//! The types of a function's registers, and whether their names differ.
ghost use Rattle.std.specs.Prelude.{◌≡◌, ◌&&◌, ◌||◌, None, Some, cond, map, IfOk, OnOk};
ghost use Rattle.std.specs.List.{flat_map};
ghost use Rattle.std.specs.Option.{option_copied};
ghost use Rattle.ir_core.specs.declared.functions.Param.{Param};
ghost use Rattle.ir_core.specs.Functions as functions;
ghost use Rattle.ir_typing.specs.ShapeKinds.Kept.{type_in};
ghost use Rattle.ir_typing.specs.ShapeKinds.Typed.{with_types};
ghost use Rattle.ir_shape.specs.ShapeTests.Kinds as fitting;
ghost use Rattle.ir_shape.specs.LineShapes.Assumed.{told_by, told_in_by};
ghost use Rattle.ir_shape.specs.LineShapes.Untold.{are_untold, have_own_names};

use ir_core::{BitType, Block, Expr, Function, Instr, Name, Param, Phi, Ty};
use ir_typing::{Beside, LentTypes, leads_somewhere};
use std::alloc::{AllocError, Global};

/// Whether both hold.
#[inline(always)]
pub(crate) fn both(one: bool, other: bool) -> bool
    ensures { result ≡ (one && other) }
{
    one && other
}

/// Tells the types of parameters, and says whether each is told for the first time.
pub(crate) fn put_params<'a>(
    types: &mut LentTypes<'a>,
    params: &'a [Param],
) -> Result<bool, AllocError>
    ensures new { IfOk result
        (λ new. new ≡ are_untold (type_in types.old) (fitting.typed (map (λ (p : Param). (p.name, p.ty)) params.now))) }
    ensures types { OnOk result
        (type_in types.new ≡ with_types (type_in types.old) (fitting.typed (map (λ (p : Param). (p.name, p.ty)) params.now))) }
{
    let mut new = true;
    for param in params {
        let first = types.put_first(&param.name, Some(&param.ty))?;
        new = both(new, first);
    }
    Ok(new)
}

fn put_phis<'a>(types: &mut LentTypes<'a>, phis: &'a [Phi]) -> Result<bool, AllocError>
    ensures new { IfOk result
        (λ new. new ≡ are_untold (type_in types.old) (fitting.typed (functions.phi_registers phis.now))) }
    ensures types { OnOk result (type_in types.new ≡ with_types (type_in types.old) (fitting.typed (functions.phi_registers phis.now))) }
{
    let mut new = true;
    for phi in phis {
        let first = types.put_first(&phi.name, Some(&phi.ty))?;
        new = both(new, first);
    }
    Ok(new)
}

fn right_gives_type(beside: &Beside, right: &Expr<Name>) -> bool
    ensures { result ≡ fitting.right_gives_type beside.now.types right.now }
{
    match right {
        Expr::Element(element) => leads_somewhere(beside, element.get()),
        _ => true,
    }
}

/// Whether the line gives its register a type.
fn gives_type(beside: &Beside, line: &Instr) -> bool
    ensures { result ≡ fitting.gives_type beside.now.types line.now }
{
    match line {
        Instr::Calm(calm) => right_gives_type(beside, &calm.right),
        _ => true,
    }
}

/// The type of a line's register, where the line gives it or is assumed to.
fn told<'a>(assumed: bool, beside: &Beside, line: &Instr, ty: &'a Ty) -> Option<&'a Ty>
    ensures { option_copied result ≡ cond (assumed || fitting.gives_type beside.now.types line.now) (Some ty.now) None }
{
    if assumed || gives_type(beside, line) {
        Some(ty)
    } else {
        None
    }
}

#[tactic(auto, using(crate::proofs::LineShapes::Assumed::assumed_one, crate::proofs::LineShapes::Assumed::assumed_none))]
fn put_line<'a>(
    types: &mut LentTypes<'a>,
    assumed: bool,
    beside: &Beside,
    bit: &'a BitType,
    line: &'a Instr,
) -> Result<bool, AllocError>
    ensures new { IfOk result (λ new. new ≡ are_untold (type_in types.old) (told_by assumed beside.now.types line.now)) }
    ensures types { OnOk result (type_in types.new ≡ with_types (type_in types.old) (told_by assumed beside.now.types line.now)) }
{
    match line.register(bit) {
        Some((name, ty)) => types.put_first(name, told(assumed, beside, line, ty)),
        None => Ok(true),
    }
}

fn put_lines<'a>(
    types: &mut LentTypes<'a>,
    assumed: bool,
    beside: &Beside,
    bit: &'a BitType,
    lines: &'a [Instr],
) -> Result<bool, AllocError>
    ensures new { IfOk result
        (λ new. new ≡ are_untold (type_in types.old) (flat_map (told_by assumed beside.now.types) lines.now)) }
    ensures types { OnOk result (type_in types.new ≡ with_types (type_in types.old) (flat_map (told_by assumed beside.now.types) lines.now)) }
{
    let mut new = true;
    for line in lines {
        let first = put_line(types, assumed, beside, bit, line)?;
        new = both(new, first);
    }
    Ok(new)
}

#[tactic(auto, using(crate::proofs::ShapeTests::Typed::types_joined, crate::proofs::LineShapes::Untold::untold_joined))]
fn put_block<'a>(
    types: &mut LentTypes<'a>,
    assumed: bool,
    beside: &Beside,
    bit: &'a BitType,
    block: &'a Block,
) -> Result<bool, AllocError>
    ensures new { IfOk result (λ new. new ≡ are_untold (type_in types.old) (told_in_by assumed beside.now.types block.now)) }
    ensures types { OnOk result (type_in types.new ≡ with_types (type_in types.old) (told_in_by assumed beside.now.types block.now)) }
{
    let phis = put_phis(types, block.phis.as_slice())?;
    let lines = put_lines(types, assumed, beside, bit, block.body.as_slice())?;
    Ok(both(phis, lines))
}

/// Tells the types of the registers that blocks set, and says whether each is told for the first time. It may be assumed that each line
/// gives its register a type.
pub(crate) fn put_blocks<'a>(
    types: &mut LentTypes<'a>,
    assumed: bool,
    beside: &Beside,
    bit: &'a BitType,
    blocks: &'a [Block],
) -> Result<bool, AllocError>
    ensures new { IfOk result
        (λ new. new ≡ are_untold (type_in types.old) (flat_map (told_in_by assumed beside.now.types) blocks.now)) }
    ensures types { OnOk result (type_in types.new ≡ with_types (type_in types.old) (flat_map (told_in_by assumed beside.now.types) blocks.now)) }
{
    let mut new = true;
    for block in blocks {
        let first = put_block(types, assumed, beside, bit, block)?;
        new = both(new, first);
    }
    Ok(new)
}

/// Whether no block has the name of a register.
pub(crate) fn have_own_names(types: &LentTypes, blocks: &[Block]) -> bool
    ensures { result ≡ have_own_names (type_in types.now) blocks.now }
{
    for block in blocks {
        if types.get(&block.name).is_some() {
            return false;
        }
    }
    true
}
