//! The names of a function's registers, blocks and labels, lent.
ghost use Rattle.std.specs.Prelude.{◌≡◌, ◌++◌, [], ◌∷◌, map, IfOk, OnOk};
ghost use Rattle.ir_core.specs.declared.functions.Case.{Case};
ghost use Rattle.ir_core.specs.declared.functions.Param.{Param};
ghost use Rattle.ir_core.specs.Functions.{names_in, params_of, phi_registers, registers_of, set_by, successors_of};
ghost use Rattle.definedness.specs.Graph.{labels_in};
ghost use Rattle.definedness.specs.DefinitionLists.Definitions.{register_names};
ghost use Rattle.definedness.specs.DefinitionLists.Shown.{named};

use ir_core::{Block, Case, Function, Instr, Name, Param, Phi, Term};
use std::alloc::{AllocError, Global};

fn add_params<'a>(params: &'a [Param], names: &mut Vec<&'a Name>) -> Result<(), AllocError>
    ensures { OnOk result
        (named names.new.items ≡ named names.old.items ++ names_in (map (λ (p : Param). (p.name, p.ty)) params.now)) }
{
    for param in params {
        names.push(&param.name)?;
    }
    Ok(())
}

fn add_phis<'a>(phis: &'a [Phi], names: &mut Vec<&'a Name>) -> Result<(), AllocError>
    ensures { OnOk result (named names.new.items ≡ named names.old.items ++ names_in (phi_registers phis.now)) }
{
    for phi in phis {
        names.push(&phi.name)?;
    }
    Ok(())
}

#[tactic(auto, using(ir_core::proofs::Lines::names_one, ir_core::proofs::Lines::names_none))]
fn add_line<'a>(line: &'a Instr, names: &mut Vec<&'a Name>) -> Result<(), AllocError>
    ensures { OnOk result (named names.new.items ≡ named names.old.items ++ names_in (set_by (line.now ∷ []))) }
{
    if let Some(name) = line.name() {
        names.push(name)?;
    }
    Ok(())
}

#[tactic(auto, using(ir_core::proofs::Lines::names_more))]
fn add_lines<'a>(lines: &'a [Instr], names: &mut Vec<&'a Name>) -> Result<(), AllocError>
    ensures { OnOk result (named names.new.items ≡ named names.old.items ++ names_in (set_by lines.now)) }
{
    for line in lines {
        add_line(line, names)?;
    }
    Ok(())
}

/// Puts the registers that a block sets behind the others.
fn add_block<'a>(block: &'a Block, names: &mut Vec<&'a Name>) -> Result<(), AllocError>
    ensures { OnOk result (named names.new.items ≡ named names.old.items ++ names_in (registers_of block.now)) }
{
    add_phis(block.phis.as_slice(), names)?;
    add_lines(block.body.as_slice(), names)?;
    Ok(())
}

/// The registers that a block sets.
pub(crate) fn set_in<'a>(alloc: Global, block: &'a Block) -> Result<Vec<&'a Name>, AllocError>
    ensures { IfOk result (λ names. named names.items ≡ names_in (registers_of block.now)) }
{
    let mut names = Vec::new(alloc);
    add_block(block, &mut names)?;
    Ok(names)
}

/// The names of the parameters.
pub(crate) fn params_of<'a>(alloc: Global, params: &'a [Param]) -> Result<Vec<&'a Name>, AllocError>
    ensures { IfOk result (λ names. named names.items ≡ names_in (map (λ (p : Param). (p.name, p.ty)) params.now)) }
{
    let mut names = Vec::new(alloc);
    add_params(params, &mut names)?;
    Ok(names)
}

/// The registers of a function, in the order of the text.
pub(crate) fn registers_of<'a>(
    alloc: Global,
    function: &'a Function,
) -> Result<Vec<&'a Name>, AllocError>
    ensures { IfOk result (λ names. named names.items ≡ register_names «function».now) }
{
    let mut names = params_of(alloc, function.params.as_slice())?;
    for block in function.blocks.as_slice() {
        add_block(block, &mut names)?;
    }
    Ok(names)
}

/// The names of blocks.
pub(crate) fn labels_of<'a>(alloc: Global, blocks: &'a [Block]) -> Result<Vec<&'a Name>, AllocError>
    ensures { IfOk result (λ names. named names.items ≡ labels_in blocks.now) }
{
    let mut names = Vec::new(alloc);
    for block in blocks {
        names.push(&block.name)?;
    }
    Ok(names)
}

fn add_cases<'a>(cases: &'a [Case], names: &mut Vec<&'a Name>) -> Result<(), AllocError>
    ensures { OnOk result (named names.new.items ≡ named names.old.items ++ map (λ (c : Case). c.label) cases.now) }
{
    for case in cases {
        names.push(&case.label)?;
    }
    Ok(())
}

/// The labels to which a terminator leads.
pub(crate) fn labels_at<'a>(alloc: Global, term: &'a Term) -> Result<Vec<&'a Name>, AllocError>
    ensures { IfOk result (λ names. named names.items ≡ successors_of term.now) }
{
    let mut names = Vec::new(alloc);
    match term {
        Term::Br(label) => names.push(label)?,
        Term::CondBr(branch) => {
            names.push(&branch.on_true)?;
            names.push(&branch.on_false)?;
        }
        Term::Switch(switch) => {
            names.push(&switch.default)?;
            add_cases(switch.cases.as_slice(), &mut names)?;
        }
        Term::Ret(_) | Term::RetVoid | Term::Unreachable => {}
    }
    Ok(names)
}
