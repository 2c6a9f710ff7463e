ghost use Rattle.std.specs.Prelude.{◌≡◌, ◌++◌, ◌∷◌, length, IfOk, OnOk};
ghost use Rattle.definedness.specs.DefinitionLists.Shown.{list_named, lists_named, named};
ghost use Rattle.ir_printer.specs.ExpressionPrinter.Printed.{printed_name};
ghost use Rattle.crell_program.specs.DefinitionText.Lines.{AreLines, HasLines, list_text, registers_text, start_text, starts_text};

use definedness::defined_at_starts;
use ir_core::{Block, Function, Name, Sigil};
use ir_printer::print_name;
use std::alloc::{AllocError, Global};

/// The name behind its sigil.
fn push_name(alloc: Global, text: &mut Vec<u8>, sigil: Sigil, name: &Name) -> Result<(), AllocError>
    ensures { OnOk result (text.new.items ≡ text.old.items ++ printed_name sigil name.now) }
{
    let printed = print_name(alloc, sigil, name)?;
    text.extend_from_slice(printed.as_slice())
}

/// The name of a register or a block behind a blank.
fn push_local(alloc: Global, text: &mut Vec<u8>, name: &Name) -> Result<(), AllocError>
    ensures { OnOk result (text.new.items ≡ text.old.items ++ (32 ∷ printed_name Sigil.Local name.now)) }
{
    text.push(b' ')?;
    push_name(alloc, text, Sigil::Local, name)
}

fn push_registers(alloc: Global, text: &mut Vec<u8>, names: &[&Name]) -> Result<(), AllocError>
    ensures { OnOk result (text.new.items ≡ text.old.items ++ registers_text (named names.now)) }
{
    for name in names {
        push_local(alloc, text, name)?;
    }
    Ok(())
}

fn push_list(alloc: Global, text: &mut Vec<u8>, list: &Option<Vec<&Name>>) -> Result<(), AllocError>
    ensures { OnOk result (text.new.items ≡ text.old.items ++ list_text (list_named list.now)) }
{
    match list {
        None => text.extend_from_slice(b" unreachable"),
        Some(names) => push_registers(alloc, text, names.as_slice()),
    }
}

/// A block's line.
fn push_start(
    alloc: Global,
    text: &mut Vec<u8>,
    function: &Name,
    block: &Name,
    list: &Option<Vec<&Name>>,
) -> Result<(), AllocError>
    ensures { OnOk result
        (text.new.items ≡ text.old.items ++ start_text function.now block.now (list_named list.now)) }
{
    push_name(alloc, text, Sigil::Global, function)?;
    push_local(alloc, text, block)?;
    text.extend_from_slice(b":")?;
    push_list(alloc, text, list)?;
    text.push(b'\n')?;
    Ok(())
}

/// The lines of a function's blocks.
fn push_starts(
    alloc: Global,
    text: &mut Vec<u8>,
    function: &Name,
    blocks: &[Block],
    lists: &[Option<Vec<&Name>>],
) -> Result<(), AllocError>
    requires { length lists.now ≡ length blocks.now }
    ensures { OnOk result
        (text.new.items ≡ text.old.items ++ starts_text function.now blocks.now (lists_named lists.now)) }
{
    for at in 0..blocks.len() {
        push_start(alloc, text, function, &blocks[at].name, &lists[at])?;
    }
    Ok(())
}

/// The lines of a function.
fn push_function(alloc: Global, text: &mut Vec<u8>, function: &Function) -> Result<(), AllocError>
    ensures { OnOk result (HasLines «function».now text.old.items text.new.items) }
{
    let lists = defined_at_starts(alloc, function)?;
    push_starts(
        alloc,
        text,
        &function.name,
        function.blocks.as_slice(),
        lists.as_slice(),
    )
}

/// A line for each block of the functions, with the registers that are defined at its start.
pub fn definitions_text(alloc: Global, functions: &[Function]) -> Result<Vec<u8>, AllocError>
    ensures { IfOk result (λ text. AreLines functions.now text.items) }
{
    let mut text = Vec::new(alloc);
    for function in functions {
        push_function(alloc, &mut text, function)?;
    }
    Ok(text)
}
