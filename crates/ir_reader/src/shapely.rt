//! What is first at fault in a module, whatever text spells it.
ghost use Rattle.std.specs.Prelude.{◌≡◌, [], map, None, IfOk, IfErr, IsTrue, true};
ghost use Rattle.std.specs.List.{AllByRecursion};
ghost use Rattle.ir_core.specs.declared.modules.Module.{Module};
ghost use Rattle.ir_core.specs.WellFormed.{HasFunctionShape, IsFunctionDefined};
ghost use Rattle.ir_shape.specs.Shape.{first_fault};
ghost use Rattle.ir_typing.specs.ModuleLimits.Passed.{IsWithin};
ghost use Rattle.ir_typing.specs.ShapeKinds.Names.{are_new};
ghost use Rattle.ir_reader.specs.Found.{HasFault, ShapeAmong, UndefinedAmong, of_text};

use crate::ModuleFault;
use contents::Exact;
use definedness::{DefEnd, defined, shape_knows_labels, undefined_uses_are_faults};
use ir_core::{Function, Module};
use ir_lexer::TextFault;
use ir_shape::{ShapeEnd, faultless_modules_have_shape, shape};
use ir_typing::LentNames;
use std::alloc::{AllocError, Global};
use whole_functions::is_whole_and_defined;

/// Whether each of the functions is defined; if not, the first use that isn't, in the first that isn't.
fn all_defined(alloc: Global, _module: &Module, functions: &[Function]) -> Result<(), ModuleFault>
    requires { AllByRecursion (HasFunctionShape _module.now) functions.now }
    ensures defined { IfOk result (λ _. AllByRecursion IsFunctionDefined functions.now) }
    ensures undefined { IfErr result (UndefinedAmong functions.now) }
{
    shape_knows_labels();
    undefined_uses_are_faults();
    for function in functions {
        match defined(alloc, function) {
            Ok(()) => {}
            Err(DefEnd::Undefined(undefined)) => {
                return Err(ModuleFault::Undefined {
                    function: function.name.copy(alloc)?,
                    undefined,
                });
            }
            Err(DefEnd::Memory) => return Err(ModuleFault::Memory),
        }
    }
    Ok(())
}

/// Whether a module is without fault of shape; if not, the first.
fn shaped(alloc: Global, module: &Module) -> Result<(), ModuleFault>
    requires { IsWithin «module».now }
    ensures faultless { IfOk result (λ _. first_fault «module».now ≡ None) }
    ensures fault { IfErr result (ShapeAmong «module».now) }
{
    match shape(alloc, module) {
        Ok(()) => Ok(()),
        Err(ShapeEnd::Fault(fault)) => Err(ModuleFault::Shape(fault)),
        // A module that a text spells is within all.
        Err(ShapeEnd::Limit(limit)) => Err(ModuleFault::Text(TextFault::Limit(limit))),
        Err(ShapeEnd::Memory) => Err(ModuleFault::Memory),
    }
}

/// Whether functions of different names are all seen to be without fault and defined. No is no answer.
fn are_seen(alloc: Global, _module: &Module, functions: &[Function]) -> Result<bool, AllocError>
    ensures names { IfOk result (λ seen. seen ≡ true → are_new [] (map (λ (f : Function). f.name) functions.now) ≡ true) }
    ensures shape { IfOk result (λ seen. seen ≡ true → AllByRecursion (HasFunctionShape _module.now) functions.now) }
    ensures defined { IfOk result (λ seen. seen ≡ true → AllByRecursion IsFunctionDefined functions.now) }
{
    let mut names = LentNames::new(alloc);
    for function in functions {
        if names.take(&function.name)? {
            return Ok(false);
        }
        if !is_whole_and_defined(alloc, function)? {
            return Ok(false);
        }
    }
    Ok(true)
}

/// Whether a module names no types, has no globals and declares nothing.
fn holds_definitions_alone(module: &Module) -> bool
    ensures { IsTrue result
        → («module».now.types ≡ []) × («module».now.globals ≡ []) × («module».now.declarations ≡ []) }
{
    module.types.as_slice().is_empty()
        && module.globals.is_empty()
        && module.declarations.is_empty()
}

/// Whether a module of definitions alone is seen to be without fault and defined. No is no answer.
fn is_seen(alloc: Global, module: &Module) -> Result<bool, AllocError>
    ensures faultless { IfOk result (λ seen. seen ≡ true → first_fault «module».now ≡ None) }
    ensures defined { IfOk result (λ seen. seen ≡ true → AllByRecursion IsFunctionDefined «module».now.functions) }
{
    if !holds_definitions_alone(module) {
        return Ok(false);
    }
    are_seen(alloc, module, module.functions.as_slice())
}

/// Whether a module within the limits is without fault of shape, and all its functions are defined; if not, its first fault. Nearly all
/// are, which is seen at once.
pub fn fits(alloc: Global, module: &Module) -> Result<(), ModuleFault>
    requires { IsWithin «module».now }
    ensures faultless { IfOk result (λ _. first_fault «module».now ≡ None) }
    ensures defined { IfOk result (λ _. AllByRecursion IsFunctionDefined «module».now.functions) }
    ensures fault { IfErr result (HasFault «module».now) }
{
    if is_seen(alloc, module)? {
        return Ok(());
    }
    faultless_modules_have_shape();
    shaped(alloc, module)?;
    all_defined(alloc, module, module.functions.as_slice())
}

/// A text's fault, as a module's.
pub fn of_text(fault: TextFault) -> ModuleFault
    ensures { result ≡ of_text fault }
{
    match fault {
        TextFault::Memory => ModuleFault::Memory,
        _ => ModuleFault::Text(fault),
    }
}
