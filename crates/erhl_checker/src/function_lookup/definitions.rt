//! The registers that a function defines, with their types.
ghost use Rattle.std.specs.Prelude.{◌≡◌, ◌++◌, [], ◌∷◌, map, IfOk, OnOk};
ghost use Rattle.std.specs.List.{flat_map, list_any};
ghost use Rattle.std.specs.Option.{option_eq};
ghost use Rattle.ir_core.specs.Functions.{phi_registers, set_by, registers_of, typed_of};
ghost use Rattle.ir_values.specs.Values.{same_kind};
ghost use Rattle.erhl_assert.specs.Steps.{is_other};
ghost use Rattle.ir_core.specs.Types.{kind_of};
ghost use Rattle.erhl_checker.specs.FunctionLookup.Defining.{some_other_kind};

use contents::Exact;
use ir_core::{BitType, Block, Call, Expr0, Function, Instr, Kind, Name, Param, Phi, Ty, kind_of};
use line_align::{ByName, Named};
use std::alloc::{AllocError, Global};
use std::marker::Model;

/// A register's definition: its name, lent, and its type.
pub(crate) struct Definition<'a> {
    name: &'a Name,
    ty: Ty,
}

impl<'a> Model for Definition<'a> {
    ghost use Rattle.ir_types.specs.declared.names.Name.{Name};
    ghost use Rattle.ir_types.specs.declared.ty.Ty.{Ty};
    ghost use Rattle.std.specs.Coded.{codes};
    ghost use Rattle.ir_types.specs.contracts.ty.Ty as types;

    ghost Value = { Name × Ty };

    ghost coded = { Prim.hlevel (codes, types.the_row.coded) };

    ghost view = { λ it. (it.name.now, it.ty) };
}

impl<'a> Drop for Definition<'a> {
    fn drop(self) {
        let Definition { name: _, ty: _ } = self;
    }
}

impl<'a> Named for Definition<'a> {
    ghost named = { λ definition. definition.0 };

    fn name(&self) -> &Name {
        self.name
    }
}

impl<'a> Definition<'a> {
    /// The kind of its type.
    fn kind(&self) -> Option<Kind>
        ensures { result ≡ kind_of self.now.1 }
    {
        kind_of(&self.ty)
    }
}

fn defined<'a>(alloc: Global, name: &'a Name, ty: &Ty) -> Result<Definition<'a>, AllocError>
    ensures { IfOk result (λ definition. definition ≡ (name.now, ty.now)) }
{
    Ok(Definition {
        name,
        ty: ty.copy(alloc)?,
    })
}

fn note_params<'a>(params: &'a [Param], found: &mut Vec<Definition<'a>>) -> Result<(), AllocError>
    ensures { OnOk result (found.new.items ≡ found.old.items ++ map (λ p. (p.name, p.ty)) params.now) }
{
    for param in params {
        found.push(defined(*found.allocator(), &param.name, &param.ty)?)?;
    }
    Ok(())
}

fn note_phis<'a>(phis: &'a [Phi], found: &mut Vec<Definition<'a>>) -> Result<(), AllocError>
    ensures { OnOk result (found.new.items ≡ found.old.items ++ phi_registers phis.now) }
{
    for phi in phis {
        found.push(defined(*found.allocator(), &phi.name, &phi.ty)?)?;
    }
    Ok(())
}

fn note_call<'a>(call: &'a Call, found: &mut Vec<Definition<'a>>) -> Result<(), AllocError>
    ensures { OnOk result (found.new.items ≡ found.old.items ++ set_by (Instr.Call call.now ∷ [])) }
{
    if let Some(name) = &call.name {
        found.push(defined(*found.allocator(), name, &call.result)?)?;
    }
    Ok(())
}

fn note_line<'a>(
    bit: &BitType,
    line: &'a Instr,
    found: &mut Vec<Definition<'a>>,
) -> Result<(), AllocError>
    ensures { OnOk result (found.new.items ≡ found.old.items ++ set_by (line.now ∷ [])) }
{
    match line {
        Instr::Calm(calm) => {
            found.push(defined(*found.allocator(), &calm.name, calm.right.ty(bit))?)?
        }
        Instr::Alloca(alloca) => {
            found.push(defined(*found.allocator(), &alloca.name, &alloca.to)?)?
        }
        Instr::Store(_) => {}
        Instr::Call(call) => note_call(call.get(), found)?,
    }
    Ok(())
}

#[tactic(auto, using(ir_core::proofs::Lines::set_more))]
fn note_lines<'a>(lines: &'a [Instr], found: &mut Vec<Definition<'a>>) -> Result<(), AllocError>
    ensures { OnOk result (found.new.items ≡ found.old.items ++ set_by lines.now) }
{
    let bit = BitType::new();
    for line in lines {
        note_line(&bit, line, found)?;
    }
    Ok(())
}

fn note_block<'a>(block: &'a Block, found: &mut Vec<Definition<'a>>) -> Result<(), AllocError>
    ensures { OnOk result (found.new.items ≡ found.old.items ++ registers_of block.now) }
{
    note_phis(block.phis.as_slice(), found)?;
    note_lines(block.body.as_slice(), found)
}

fn note_blocks<'a>(blocks: &'a [Block], found: &mut Vec<Definition<'a>>) -> Result<(), AllocError>
    ensures { OnOk result (found.new.items ≡ found.old.items ++ flat_map registers_of blocks.now) }
{
    for block in blocks {
        note_block(block, found)?;
    }
    Ok(())
}

/// All definitions of a function: its parameters, and then those of its blocks.
pub(crate) fn definitions_of(
    alloc: Global,
    function: &Function,
) -> Result<Vec<Definition<'_>>, AllocError>
    ensures { IfOk result (λ found. found.items ≡ typed_of «function».now) }
{
    let mut found = Vec::new(alloc);
    note_params(function.params.as_slice(), &mut found)?;
    note_blocks(function.blocks.as_slice(), &mut found)?;
    Ok(found)
}

fn same_kind(a: &Option<Kind>, b: &Option<Kind>) -> bool
    ensures { result ≡ option_eq same_kind a.now b.now }
{
    match (a, b) {
        (Some(Kind::Int(v)), Some(Kind::Int(w))) => *v == *w,
        (Some(Kind::Ptr), Some(Kind::Ptr)) => true,
        (None, None) => true,
        _ => false,
    }
}

/// Whether one of these is of another kind than the expression.
fn some_other_kind(definitions: &[&Definition<'_>], expr: &Expr0) -> bool
    ensures { result ≡ some_other_kind expr.now (map (λ d. d.now) definitions.now) }
{
    let bit = BitType::new();
    let kind = kind_of(expr.ty(&bit));
    for definition in definitions {
        if !same_kind(&definition.kind(), &kind) {
            return true;
        }
    }
    false
}

/// Whether one of those of the name is of another kind than the expression.
pub(crate) fn other_among(by_name: &ByName<'_, Definition<'_>>, name: &Name, expr: &Expr0) -> bool
    ensures { result ≡ list_any (is_other name.now expr.now) (by_name.now) }
{
    some_other_kind(by_name.all(name), expr)
}
