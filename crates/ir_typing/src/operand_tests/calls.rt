//! What is wrong with a call.
ghost use Rattle.std.specs.Prelude.{◌≡◌, ◌&&◌, map};
ghost use Rattle.std.specs.List.{list_all};
ghost use Rattle.ir_core.specs.declared.functions.Argument.{Argument};
ghost use Rattle.ir_core.specs.Types as types;
ghost use Rattle.ir_core.specs.Typing as typing;
ghost use Rattle.ir_typing.specs.OperandTests.Calls as meaning;
ghost use Rattle.ir_typing.specs.OperandTests.Kept.{signature_of};

use crate::operand_tests::Beside;
use crate::operand_tests::callees::Callee;
use crate::shape_kinds::{ShapeKind, fault_unless, is_same_ty, least};
use ir_core::{
    Argument, Call, Declaration, DeclaredParam, Function, Name, Param, Ty, is_first_class,
};

/// A parameter of a definition or of a declaration.
trait Typed {
    ghost use Rattle.ir_types.specs.declared.ty.Ty.{Ty};

    ghost type_of: { Self → Ty };

    fn ty(&self) -> &Ty
        ensures { result.now ≡ type_of self.now };
}

impl Typed for Param {
    ghost type_of = { λ param. param.ty };

    fn ty(&self) -> &Ty {
        &self.ty
    }
}

impl Typed for DeclaredParam {
    ghost type_of = { λ param. param.ty };

    fn ty(&self) -> &Ty {
        &self.ty
    }
}

/// Whether further arguments may follow, and are values.
fn may_follow(variadic: bool, further: &[Argument]) -> bool
    ensures { result ≡ list_all (λ t. variadic && types.is_first_class t) (map (λ (a : Argument). a.operand.ty) further.now) }
{
    for argument in further {
        if !variadic || !is_first_class(&argument.operand.ty) {
            return false;
        }
    }
    true
}

/// Whether these are arguments of the parameters' types, and further ones, where they may follow.
fn are_arguments<P: Typed>(variadic: bool, params: &[P], arguments: &[Argument]) -> bool
    ensures { result ≡ typing.are_arguments variadic (map P.type_of params.now) (map (λ (a : Argument). a.operand.ty) arguments.now) }
{
    if arguments.len() < params.len() {
        return false;
    }
    for (at, param) in params.iter().enumerate() {
        if !is_same_ty(param.ty(), &arguments[at].operand.ty) {
            return false;
        }
    }
    may_follow(variadic, &arguments[params.len()..])
}

/// Whether the call is for the definition's result and of its arguments.
fn fits_definition(function: &Function, call: &Call) -> bool
    ensures { result ≡ meaning.fits_signature (typing.defined_signature «function».now) call.now }
{
    is_same_ty(&call.result, &function.result)
        && are_arguments(false, function.params.as_slice(), call.arguments.as_slice())
}

/// The same of a declaration.
fn fits_declaration(declaration: &Declaration, call: &Call) -> bool
    ensures { result ≡ meaning.fits_signature (typing.declared_signature declaration.now) call.now }
{
    is_same_ty(&call.result, &declaration.result)
        && are_arguments(
            declaration.variadic,
            declaration.params.as_slice(),
            call.arguments.as_slice(),
        )
}

fn fits_callee(callee: Callee, call: &Call) -> bool
    ensures { result ≡ meaning.fits_signature (signature_of callee.entry) call.now }
{
    match callee {
        Callee::Defined(function) => fits_definition(function, call),
        Callee::Declared(declaration) => fits_declaration(declaration, call),
    }
}

/// Whether the result has a name, unless it is `void`.
fn is_named_result(result_ty: &Ty, name: &Option<Name>) -> bool
    ensures { result ≡ meaning.is_named_result result_ty.now name.now }
{
    match result_ty {
        Ty::Void => name.is_none(),
        _ => is_first_class(result_ty) && name.is_some(),
    }
}

/// What is wrong with a call, if anything is, but for its operands.
pub fn call_kind(beside: &Beside, call: &Call) -> Option<ShapeKind>
    ensures { result ≡ meaning.call_kind beside.now call.now }
{
    match beside.callee(&call.callee) {
        Some(callee) => {
            let named = is_named_result(&call.result, &call.name);
            let fits = fits_callee(callee, call);
            least(
                fault_unless(named, ShapeKind::OperandType),
                fault_unless(fits, ShapeKind::CallType),
            )
        }
        None => Some(ShapeKind::Name),
    }
}
