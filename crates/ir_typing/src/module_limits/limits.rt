//! Which limit a module passes first.
ghost use Rattle.std.specs.Prelude.{IfNone, IfSome};
ghost use Rattle.ir_typing.specs.ModuleLimits.Passed as meaning;

use crate::module_limits::depths::{is_function_shallow, is_shallow};
use crate::module_limits::lines::{are_short, is_short};
use crate::module_limits::sizes::{is_function_small, is_small};
use ir_core::{Function, Limit, Module};

/// The first limit that a module passes, if it passes one: `depth` before `lines`, and `lines` before `block`.
pub fn first_limit(module: &Module) -> Option<Limit>
    ensures none { IfNone result (meaning.IsWithin «module».now) }
    ensures some { IfSome result (meaning.IsPassed «module».now) }
{
    if !is_shallow(module) {
        return Some(Limit::Depth);
    }
    if !are_short(module.functions.as_slice()) {
        return Some(Limit::Lines);
    }
    if is_small(module) {
        None
    } else {
        Some(Limit::Block)
    }
}

/// The same of a function beside a module.
pub fn first_limit_of_function(module: &Module, function: &Function) -> Option<Limit>
    ensures none { IfNone result (meaning.IsFunctionWithin «module».now «function».now) }
    ensures some { IfSome result (meaning.IsPassedByFunction «module».now «function».now) }
{
    if !is_function_shallow(function) {
        return Some(Limit::Depth);
    }
    if !is_short(function) {
        return Some(Limit::Lines);
    }
    if is_function_small(module, function) {
        None
    } else {
        Some(Limit::Block)
    }
}
