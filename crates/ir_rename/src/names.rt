//! The names of a function's parameters, blocks and registers, lent.
ghost use Rattle.std.specs.Prelude.{◌≡◌, ◌++◌, [], ◌∷◌, map, IfOk, OnOk};
ghost use Rattle.ir_core.specs.declared.functions.Param.{Param};
ghost use Rattle.ir_core.specs.Functions.{block_names, names_in, names_of, phi_registers, set_by};
ghost use Rattle.ir_rename.specs.Lent.{lent};

use ir_core::{Block, Function, Instr, Name, Param, Phi};
use std::alloc::{AllocError, Global};

fn add_params<'a>(params: &'a [Param], names: &mut Vec<&'a Name>) -> Result<(), AllocError>
    ensures { OnOk result
        (lent names.new.items ≡ lent names.old.items ++ names_in (map (λ (p : Param). (p.name, p.ty)) params.now)) }
{
    for param in params {
        names.push(&param.name)?;
    }
    Ok(())
}

fn add_phis<'a>(phis: &'a [Phi], names: &mut Vec<&'a Name>) -> Result<(), AllocError>
    ensures { OnOk result (lent names.new.items ≡ lent names.old.items ++ names_in (phi_registers phis.now)) }
{
    for phi in phis {
        names.push(&phi.name)?;
    }
    Ok(())
}

#[tactic(auto, using(ir_core::proofs::Lines::names_one, ir_core::proofs::Lines::names_none))]
fn add_line<'a>(line: &'a Instr, names: &mut Vec<&'a Name>) -> Result<(), AllocError>
    ensures { OnOk result (lent names.new.items ≡ lent names.old.items ++ names_in (set_by (line.now ∷ []))) }
{
    if let Some(name) = line.name() {
        names.push(name)?;
    }
    Ok(())
}

#[tactic(auto, using(ir_core::proofs::Lines::names_more))]
fn add_lines<'a>(lines: &'a [Instr], names: &mut Vec<&'a Name>) -> Result<(), AllocError>
    ensures { OnOk result (lent names.new.items ≡ lent names.old.items ++ names_in (set_by lines.now)) }
{
    for line in lines {
        add_line(line, names)?;
    }
    Ok(())
}

/// Puts a block's name and those of its registers behind the others.
fn add_block<'a>(block: &'a Block, names: &mut Vec<&'a Name>) -> Result<(), AllocError>
    ensures { OnOk result (lent names.new.items ≡ lent names.old.items ++ block_names block.now) }
{
    names.push(&block.name)?;
    add_phis(block.phis.as_slice(), names)?;
    add_lines(block.body.as_slice(), names)?;
    Ok(())
}

/// All names of a function, in order of appearance.
pub(crate) fn names_of<'a>(
    alloc: Global,
    function: &'a Function,
) -> Result<Vec<&'a Name>, AllocError>
    ensures { IfOk result (λ names. lent names.items ≡ names_of «function».now) }
{
    let mut names = Vec::new(alloc);
    add_params(function.params.as_slice(), &mut names)?;
    for block in function.blocks.as_slice() {
        add_block(block, &mut names)?;
    }
    Ok(names)
}
