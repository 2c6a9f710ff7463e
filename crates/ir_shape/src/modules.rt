//! Whether a module has shape, in the order of the file.
ghost use Rattle.std.specs.Prelude.{◌≡◌, ◌≤◌, ◌++◌, [], drop, false, length, map, None, IfOk, IfErr, take};
ghost use Rattle.ir_core.specs.Modules.{those_before, those_behind};
ghost use Rattle.ir_typing.specs.ShapeKinds.Names.{with_name};
ghost use Rattle.ir_typing.specs.ModuleLimits.Passed as limits;
ghost use Rattle.ir_shape.specs.Next.{in_next};
ghost use Rattle.ir_shape.specs.Shape as meaning;
ghost use Rattle.ir_shape.specs.Shape.{IsFirstOf};

use crate::ShapeEnd;
use crate::first::{function_fits, header_fits, name_fits};
use crate::line_shapes::declared_kind;
use crate::named::types_fit;
use ir_core::{Declaration, Function, GlobalVar, Module};
use ir_typing::{Beside, LentNames, first_limit, first_limit_of_function, global_var_kind};
use std::alloc::Global;

/// Whether none of a module's globals has a fault; puts their names behind the others.
fn globals_fit<'a>(
    alloc: Global,
    beside: &Beside,
    names: &mut LentNames<'a>,
    globals: &'a [GlobalVar],
) -> Result<(), ShapeEnd>
    ensures names { IfOk result (λ _. names.new ≡ meaning.with_globals names.old globals.now) }
    ensures fits { IfOk result (λ _. meaning.in_globals beside.now names.old globals.now ≡ []) }
    ensures fault { IfErr result (IsFirstOf (meaning.in_globals beside.now names.old globals.now)) }
{
    for global in globals {
        let taken = names.take(&global.name)?;
        header_fits(alloc, &global.name, global_var_kind(beside, !taken, global))?;
    }
    Ok(())
}

/// Whether a declaration has no fault, whose name may be taken.
fn declaration_fits(
    alloc: Global,
    beside: &Beside,
    taken: bool,
    declaration: &Declaration,
) -> Result<(), ShapeEnd>
    ensures fits { IfOk result (λ _. meaning.in_declaration beside.now taken declaration.now ≡ []) }
    ensures fault { IfErr result (IsFirstOf (meaning.in_declaration beside.now taken declaration.now)) }
{
    name_fits(alloc, taken, &declaration.name)?;
    header_fits(alloc, &declaration.name, declared_kind(beside, declaration))
}

fn declarations_fit<'a>(
    alloc: Global,
    beside: &Beside,
    names: &mut LentNames<'a>,
    declarations: &'a [Declaration],
) -> Result<(), ShapeEnd>
    ensures fits { IfOk result (λ _. meaning.in_declarations beside.now names.old declarations.now ≡ []) }
    ensures names { IfOk result (λ _. names.new ≡ meaning.with_declared names.old declarations.now) }
    ensures fault { IfErr result (IsFirstOf (meaning.in_declarations beside.now names.old declarations.now)) }
{
    for declaration in declarations {
        let taken = names.take(&declaration.name)?;
        declaration_fits(alloc, beside, taken, declaration)?;
    }
    Ok(())
}

/// How many of the declarations stand before so many definitions and one more, one after the other from the first on.
fn count_before(count: usize, declarations: &[Declaration]) -> usize
    ensures before { result ≤ length declarations.now }
    ensures them { take result declarations.now ≡ those_before count declarations.now }
    ensures rest { drop result declarations.now ≡ those_behind count declarations.now }
{
    for i in 0..declarations.len() {
        if declarations[i].before > count {
            return i;
        }
    }
    declarations.len()
}

/// The first declarations, which stand before so many definitions and one more, and then that one. Gives the declarations behind them.
fn next_fits<'a>(
    alloc: Global,
    beside: &Beside,
    names: &mut LentNames<'a>,
    count: usize,
    declarations: &'a [Declaration],
    function: &'a Function,
) -> Result<&'a [Declaration], ShapeEnd>
    ensures rest { IfOk result (λ rest. rest.now ≡ those_behind count declarations.now) }
    ensures names { IfOk result
        (λ _. names.new ≡ with_name (meaning.with_declared names.old (those_before count declarations.now)) «function».now.name) }
    ensures fits { IfOk result (λ _. in_next beside.now names.old (those_before count declarations.now) «function».now ≡ []) }
    ensures fault { IfErr result (IsFirstOf (in_next beside.now names.old (those_before count declarations.now) «function».now)) }
{
    let before = count_before(count, declarations);
    declarations_fit(alloc, beside, names, &declarations[..before])?;
    let taken = names.take(&function.name)?;
    function_fits(alloc, beside, taken, function)?;
    Ok(&declarations[before..])
}

/// Definitions and declarations in the order of the file.
fn functions_fit<'a>(
    alloc: Global,
    beside: &Beside,
    names: &mut LentNames<'a>,
    declarations: &'a [Declaration],
    functions: &'a [Function],
) -> Result<(), ShapeEnd>
    ensures fits { IfOk result (λ _. meaning.in_functions beside.now names.old 0 declarations.now functions.now ≡ []) }
    ensures fault { IfErr result (IsFirstOf (meaning.in_functions beside.now names.old 0 declarations.now functions.now)) }
{
    let mut rest = declarations;
    for i in 0..functions.len() {
        rest = next_fits(alloc, beside, names, i, rest, &functions[i])?;
    }
    declarations_fit(alloc, beside, names, rest)
}

/// How many globals and functions there are: what it says decides nothing but where memory is taken.
fn values_in(module: &Module) -> usize {
    let functions = module.functions.len();
    let declared = module.declarations.len();
    let globals = module.globals.len();
    globals.saturating_add(functions).saturating_add(declared)
}

/// Whether a module has no fault but in its named types: none in its globals, and none in its functions.
fn values_fit(alloc: Global, beside: &Beside, module: &Module) -> Result<(), ShapeEnd>
    ensures fits { IfOk result
        (λ _. meaning.in_globals beside.now [] «module».now.globals
        ++ meaning.in_functions beside.now (meaning.with_globals [] «module».now.globals) 0 «module».now.declarations «module».now.functions
        ≡ []) }
    ensures fault { IfErr result
        (IsFirstOf
        (meaning.in_globals beside.now [] «module».now.globals
        ++ meaning.in_functions beside.now (meaning.with_globals [] «module».now.globals) 0 «module».now.declarations «module».now.functions)) }
{
    let mut names = LentNames::with_room(alloc, values_in(module))?;
    globals_fit(alloc, beside, &mut names, module.globals.as_slice())?;
    functions_fit(
        alloc,
        beside,
        &mut names,
        module.declarations.as_slice(),
        module.functions.as_slice(),
    )
}

/// Whether a module has no fault: none in its named types, none in its globals, and none in its functions.
fn module_fits(alloc: Global, module: &Module) -> Result<(), ShapeEnd>
    ensures fits { IfOk result (λ _. meaning.faults_of «module».now ≡ []) }
    ensures fault { IfErr result (IsFirstOf (meaning.faults_of «module».now)) }
{
    let beside = Beside::new(alloc, module)?;
    types_fit(alloc, &beside, module.types.as_slice())?;
    values_fit(alloc, &beside, module)
}

/// Whether a module has shape and is within the limits; if not, which limit it passes first, or the first of its faults in the order of the
/// file, and at one place the one of the first kind. Takes memory for the names of the module and for the lines of a block.
pub fn shape(alloc: Global, module: &Module) -> Result<(), ShapeEnd>
    ensures fits { IfOk result (λ _. meaning.first_fault «module».now ≡ None) }
    ensures within { IfOk result (λ _. limits.IsWithin «module».now) }
    ensures fault { IfErr result (meaning.IsEndOf «module».now) }
{
    match first_limit(module) {
        Some(limit) => Err(ShapeEnd::Limit(limit)),
        None => module_fits(alloc, module),
    }
}

/// Whether a function beside a module has no fault.
fn function_alone_fits(alloc: Global, module: &Module, function: &Function) -> Result<(), ShapeEnd>
    ensures fits { IfOk result (λ _. meaning.in_function «module».now false «function».now ≡ []) }
    ensures fault { IfErr result (IsFirstOf (meaning.in_function «module».now false «function».now)) }
{
    let beside = Beside::new(alloc, module)?;
    function_fits(alloc, &beside, false, function)
}

/// Whether a function beside a module has shape and is within the limits; if not, the same. Of its own name it is asked alone that it
/// isn't one of debugging, and calls, also of itself, are judged by what the module has of the name. Goes once through the module.
pub fn shape_function(alloc: Global, module: &Module, function: &Function) -> Result<(), ShapeEnd>
    ensures fits { IfOk result (λ _. meaning.in_function «module».now false «function».now ≡ []) }
    ensures within { IfOk result (λ _. limits.IsFunctionWithin «module».now «function».now) }
    ensures fault { IfErr result (meaning.IsEndOfFunction «module».now «function».now) }
{
    match first_limit_of_function(module, function) {
        Some(limit) => Err(ShapeEnd::Limit(limit)),
        None => function_alone_fits(alloc, module, function),
    }
}
