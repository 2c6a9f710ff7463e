ghost use Rattle.std.specs.Prelude.{◌≡◌, map, IfOk};
ghost use Rattle.ir_rename.specs.Lent.{lent};
ghost use Rattle.ir_rename.specs.Numbered as meaning;

use crate::names::names_of;
use crate::rename::rename_function;
use crate::renaming::{Renaming, index_of};
use contents::{Exact, Seq};
use ir_core::{Function, Module, Name};
use std::alloc::{AllocError, Global};

fn number_due(due: usize) -> Name
    ensures { result ≡ meaning.number_due due }
{
    Name::Number(if due < 4_294_967_296 { due as u32 } else { 0 })
}

/// The names with their numbers in order.
fn counted(alloc: Global, names: &[&Name]) -> Result<Seq<Name>, AllocError>
    ensures { IfOk result (λ it. it ≡ meaning.counted 0 (lent names.now)) }
{
    let mut given = Vec::with_capacity(alloc, names.len())?;
    let mut due = 0;
    for name in names {
        match name {
            Name::Text(bytes) => given.push(Name::Text(bytes.copy(alloc)?))?,
            Name::Number(_) => {
                given.push(number_due(due))?;
                due += 1;
            }
        }
    }
    Ok(Seq::from_vec(given))
}

fn numbered_function(alloc: Global, function: &Function) -> Result<Function, AllocError>
    ensures { IfOk result (λ it. it ≡ meaning.numbered_function «function».now) }
{
    let names = names_of(alloc, function)?;
    let places = index_of(alloc, names.as_slice())?;
    let given = counted(alloc, names.as_slice())?;
    let renaming = Renaming { places, given };
    rename_function(alloc, &renaming, function)
}

fn numbered_functions(alloc: Global, functions: &[Function]) -> Result<Seq<Function>, AllocError>
    ensures { IfOk result (λ it. it ≡ map meaning.numbered_function functions.now) }
{
    let mut numbered = Vec::with_capacity(alloc, functions.len())?;
    for function in functions {
        numbered.push(numbered_function(alloc, function)?)?;
    }
    Ok(Seq::from_vec(numbered))
}

/// The module whose unnamed parameters, blocks and registers are numbered in order of appearance, from 0 in each function. Other
/// names stay. Takes time by what the module holds.
pub fn number_in_order(alloc: Global, module: &Module) -> Result<Module, AllocError>
    ensures { IfOk result (λ it. it ≡ meaning.numbered_in_order «module».now) }
{
    Ok(Module {
        types: module.types.copy(alloc)?,
        globals: module.globals.copy(alloc)?,
        functions: numbered_functions(alloc, module.functions.as_slice())?,
        declarations: module.declarations.copy(alloc)?,
    })
}
