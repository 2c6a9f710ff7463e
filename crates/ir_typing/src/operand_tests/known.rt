//! Whether each named type that stands in a type, a constant or an initialiser is one of the module's.
ghost use Rattle.std.specs.Prelude.{◌≡◌};
ghost use Rattle.ir_core.specs.StatedTypes.{stated_in};
ghost use Rattle.ir_typing.specs.OperandTests.Known as meaning;
ghost use Rattle.ir_typing.specs.OperandTests.Stated as told;

use crate::operand_tests::Beside;
use crate::operand_tests::numbers::is_number;
use ir_core::{Const, Init, Ty, TypedConst, TypedInit};

/// Whether each named type that stands in the type, also behind pointers, is one of the module's. Most types are integers, or point to
/// them.
#[inline(always)]
#[tactic(auto, using(crate::proofs::OperandTests::TypeNames::int_known, crate::proofs::OperandTests::TypeNames::ptr_known))]
pub fn is_type_known(beside: &Beside, ty: &Ty) -> bool
    ensures { result ≡ meaning.is_type_known beside.now ty.now }
{
    match ty {
        Ty::Int(_) => true,
        Ty::Ptr(target) => is_target_known(beside, target.get()),
        _ => has_known(beside, ty),
    }
}

#[inline(always)]
#[tactic(auto, using(crate::proofs::OperandTests::TypeNames::int_known))]
fn is_target_known(beside: &Beside, ty: &Ty) -> bool
    ensures { result ≡ meaning.is_type_known beside.now ty.now }
{
    match ty {
        Ty::Int(_) => true,
        _ => has_known(beside, ty),
    }
}

#[cycle(types)]
#[tactic(auto, using(crate::proofs::OperandTests::TypeNames::int_known, crate::proofs::OperandTests::TypeNames::ptr_known, crate::proofs::OperandTests::TypeNames::array_known, crate::proofs::OperandTests::TypeNames::struct_known, crate::proofs::OperandTests::TypeNames::name_known, crate::proofs::OperandTests::TypeNames::void_known))]
fn has_known(beside: &Beside, ty: &Ty) -> bool
    ensures { result ≡ meaning.is_type_known beside.now ty.now }
{
    match ty {
        Ty::Ptr(target) => has_known(beside, target.get()),
        Ty::Array(_, element) => has_known(beside, element.get()),
        Ty::Struct(fields) => are_types_known(beside, fields.get().as_slice()),
        Ty::Named(name) => beside.has_type(name.get()),
        Ty::Int(_) | Ty::Void => true,
    }
}

/// The same of several.
#[cycle(types)]
pub fn are_types_known(beside: &Beside, types: &[Ty]) -> bool
    ensures { result ≡ meaning.are_types_known beside.now types.now }
{
    for ty in types {
        if !has_known(beside, ty) {
            return false;
        }
    }
    true
}

/// Whether the types that a constant states are known. Most constants are numbers.
#[inline(always)]
#[tactic(auto, using(crate::proofs::OperandTests::Stated::number_known))]
pub fn is_constant_known(beside: &Beside, constant: &Const) -> bool
    ensures { result ≡ meaning.are_types_known beside.now (stated_in constant.now) }
{
    match constant {
        Const::Number(_) => true,
        _ => has_types_known(beside, constant),
    }
}

#[cycle(constants)]
#[tactic(auto, using(crate::proofs::OperandTests::Stated::number_known, crate::proofs::OperandTests::Stated::undef_known, crate::proofs::OperandTests::Stated::null_known, crate::proofs::OperandTests::Stated::global_known, crate::proofs::OperandTests::Measures::in_element, crate::proofs::OperandTests::Measures::in_cast))]
fn has_types_known(beside: &Beside, constant: &Const) -> bool
    ensures { result ≡ meaning.are_types_known beside.now (stated_in constant.now) }
{
    match constant {
        Const::Element(element) => {
            let element = element.get();
            is_type_known(beside, &element.1) && are_constants_known(beside, element.2.as_slice())
        }
        Const::Cast(cast) => {
            let cast = cast.get();
            are_constants_known(beside, cast.1.as_slice()) && is_type_known(beside, &cast.0)
        }
        Const::Number(_) | Const::Undef | Const::Null | Const::Global(_) => true,
    }
}

#[cycle(constants)]
#[tactic(auto, using(crate::proofs::OperandTests::Measures::in_constants))]
fn are_constants_known(beside: &Beside, constants: &[TypedConst]) -> bool
    ensures { result ≡ told.are_constants_known beside.now constants.now }
{
    for constant in constants {
        if !is_type_known(beside, &constant.0) || !has_types_known(beside, &constant.1) {
            return false;
        }
    }
    true
}

/// Whether the types that an initialiser states are known.
#[cycle(inits)]
#[tactic(auto, using(crate::proofs::OperandTests::Stated::const_known, crate::proofs::OperandTests::Stated::zero_known, crate::proofs::OperandTests::Stated::bytes_known, crate::proofs::OperandTests::Stated::elements_known, crate::proofs::OperandTests::Stated::fields_known, crate::proofs::OperandTests::Measures::in_array, crate::proofs::OperandTests::Measures::in_struct))]
fn is_init_known(beside: &Beside, init: &Init) -> bool
    ensures { result ≡ told.is_init_known beside.now init.now }
{
    match init {
        Init::Const(constant) => has_types_known(beside, constant),
        Init::Array(elements) => are_inits_known(beside, elements.get().as_slice()),
        Init::Struct(fields) => are_inits_known(beside, fields.get().as_slice()),
        Init::Zero | Init::Bytes(_) => true,
    }
}

#[cycle(inits)]
#[tactic(auto, using(crate::proofs::OperandTests::Measures::in_inits, crate::proofs::OperandTests::Plain::part_known))]
fn are_inits_known(beside: &Beside, inits: &[TypedInit]) -> bool
    ensures { result ≡ told.are_inits_known beside.now inits.now }
{
    for init in inits {
        if !is_number(init)
            && (!is_type_known(beside, &init.0) || !is_init_known(beside, &init.1))
        {
            return false;
        }
    }
    true
}

/// Whether the types that stand in what a global holds at the start are known.
pub(crate) fn is_start_known(beside: &Beside, init: &Option<Init>) -> bool
    ensures { result ≡ told.is_start_known beside.now init.now }
{
    match init {
        Some(init) => is_init_known(beside, init),
        None => true,
    }
}
