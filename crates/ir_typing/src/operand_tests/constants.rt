//! What is wrong with a constant.
ghost use Rattle.std.specs.Prelude.{◌≡◌};
ghost use Rattle.std.specs.Option.{option_copied, option_map};
ghost use Rattle.ir_core.specs.Typing as typing;
ghost use Rattle.ir_types.specs.declared.ty.Ty.{Ptr};
ghost use Rattle.ir_typing.specs.OperandTests.Constants as meaning;
ghost use Rattle.ir_typing.specs.OperandTests.Parts as told;

use crate::operand_tests::Beside;
use crate::operand_tests::addresses::address_kind;
use crate::shape_kinds::{ShapeKind, fault_unless, least, points_to};
use ir_core::{
    CastOp, Const, Name, Ty, TypedConst, converts, is_first_class, is_integer, is_pointer, same_ty,
};

/// Whether the type is that of pointers to these contents, where they are there.
pub fn is_due(contents: Option<&Ty>, ty: &Ty) -> bool
    ensures { result ≡ typing.is_due (option_map Ptr (option_copied contents.entry)) ty.now }
{
    match contents {
        Some(contents) => points_to(ty, contents),
        None => false,
    }
}

/// What is wrong with the address of a global of that name at that type, if anything is.
#[tactic(auto, using(crate::proofs::OperandTests::Lent::is_there, crate::proofs::OperandTests::Lent::is_called))]
fn global_kind(beside: &Beside, name: &Name, ty: &Ty) -> Option<ShapeKind>
    ensures { result ≡ meaning.global_kind beside.now name.now ty.now }
{
    let contents = beside.contents(name);
    let known = contents.is_some() || beside.callee(name).is_some();
    let due = is_due(contents, ty);
    least(
        fault_unless(known, ShapeKind::Name),
        fault_unless(due, ShapeKind::OperandType),
    )
}

/// What is wrong with a `bitcast` of these to that type, if anything is: there is one.
fn recast_kind(to: &Ty, parts: &[TypedConst]) -> Option<ShapeKind>
    ensures { result ≡ told.recast_kind to.now parts.now }
{
    match parts {
        [from] => fault_unless(converts(CastOp::BitCast, &from.0, to), ShapeKind::CastWidth),
        _ => Some(ShapeKind::OperandType),
    }
}

/// What is wrong with a constant of that type, or in it, if anything is. Most constants are numbers.
#[inline(always)]
#[tactic(auto, using(crate::proofs::OperandTests::Judged::of_number))]
pub fn constant_kind(beside: &Beside, ty: &Ty, constant: &Const) -> Option<ShapeKind>
    ensures { result ≡ meaning.constant_kind beside.now ty.now constant.now }
{
    match constant {
        Const::Number(_) => fault_unless(is_integer(ty), ShapeKind::OperandType),
        _ => whole_kind(beside, ty, constant),
    }
}

#[cycle(kinds)]
#[tactic(auto, using(crate::proofs::OperandTests::Judged::of_number, crate::proofs::OperandTests::Judged::of_undef, crate::proofs::OperandTests::Judged::of_null, crate::proofs::OperandTests::Judged::of_global, crate::proofs::OperandTests::Judged::of_element, crate::proofs::OperandTests::Judged::of_cast, crate::proofs::OperandTests::Measures::in_element, crate::proofs::OperandTests::Measures::in_cast))]
fn whole_kind(beside: &Beside, ty: &Ty, constant: &Const) -> Option<ShapeKind>
    ensures { result ≡ meaning.constant_kind beside.now ty.now constant.now }
{
    match constant {
        Const::Number(_) => fault_unless(is_integer(ty), ShapeKind::OperandType),
        Const::Undef => fault_unless(is_first_class(ty), ShapeKind::OperandType),
        Const::Null => fault_unless(is_pointer(ty), ShapeKind::OperandType),
        Const::Global(name) => global_kind(beside, name.get(), ty),
        Const::Element(element) => {
            let element = element.get();
            let parts = element.2.as_slice();
            let inside = parts_kind(beside, parts);
            least(inside, address_kind(beside, &element.1, parts, ty))
        }
        Const::Cast(cast) => {
            let cast = cast.get();
            let parts = cast.1.as_slice();
            let inside = parts_kind(beside, parts);
            let kept = fault_unless(same_ty(&cast.0, ty), ShapeKind::OperandType);
            least(inside, least(kept, recast_kind(&cast.0, parts)))
        }
    }
}

/// The least that is wrong with one of these at the type that is stated for it.
#[cycle(kinds)]
#[tactic(auto, using(crate::proofs::OperandTests::Least::least_none, crate::proofs::OperandTests::Measures::in_constants))]
fn parts_kind(beside: &Beside, parts: &[TypedConst]) -> Option<ShapeKind>
    ensures { result ≡ told.parts_kind beside.now parts.now }
{
    let mut kind = None;
    for part in parts {
        kind = least(kind, whole_kind(beside, &part.0, &part.1));
    }
    kind
}
