//! What is wrong with an address.
ghost use Rattle.std.specs.Prelude.{◌≡◌, true, List, map};
ghost use Rattle.std.specs.Option.{is_some, option_copied, option_map, option_and_then};
ghost use Rattle.std.specs.Prelude.{slice_get};
ghost use Rattle.ir_core.specs.Typing as typing;
ghost use Rattle.ir_core.specs.Typing.{Index, index_of, number_in};
ghost use Rattle.ir_types.specs.declared.ty.Ty.{Ptr};
ghost use Rattle.ir_typing.specs.OperandTests.Constants as meaning;
ghost use Rattle.ir_typing.specs.OperandTests.Addresses as told;

use crate::operand_tests::Beside;
use crate::shape_kinds::{ShapeKind, fault_unless, least, points_to};
use ir_core::{
    Atom, Const, Element, Name, NamedTypes, Operand, Ty, TypedConst, is_integer, same_ty,
};

/// The number that a constant is.
pub fn number_of(constant: &Const) -> Option<u64>
    ensures { result ≡ told.number_of constant.now }
{
    match constant {
        Const::Number(number) => Some(number.get()),
        _ => None,
    }
}

/// The number that an operand is.
pub fn number_in(atom: &Atom<Name>) -> Option<u64>
    ensures { result ≡ number_in atom.now }
{
    match atom {
        Atom::Constant(constant) => number_of(constant),
        Atom::Register(_) => None,
    }
}

/// The field that a number of `i32` tells.
fn field_at<'a>(fields: &'a [Ty], index: &Ty, number: Option<u64>) -> Option<&'a Ty>
    ensures { option_copied result ≡ typing.field_at fields.now (record { ty = index.now; number = number }) }
{
    if !same_ty(index, &Ty::Int(32)) {
        return None;
    }
    match number {
        Some(number) => fields.get(number as usize),
        None => None,
    }
}

fn named_field<'a>(
    types: &'a NamedTypes,
    name: &Name,
    index: &Ty,
    number: Option<u64>,
) -> Option<&'a Ty>
    ensures { option_copied result ≡ told.named_field types.now name.now (record { ty = index.now; number = number }) }
{
    match types.fields(name) {
        Some(fields) => field_at(fields.as_slice(), index, number),
        None => None,
    }
}

/// What an index of that type enters, which may be a number.
#[tactic(auto, using(crate::proofs::OperandTests::Enters::of_array, crate::proofs::OperandTests::Enters::of_struct, crate::proofs::OperandTests::Enters::of_named, crate::proofs::OperandTests::Enters::of_int, crate::proofs::OperandTests::Enters::of_ptr, crate::proofs::OperandTests::Enters::of_void))]
pub fn entered<'a>(
    types: &'a NamedTypes,
    ty: &'a Ty,
    index: &Ty,
    number: Option<u64>,
) -> Option<&'a Ty>
    ensures { option_copied result ≡ typing.entered types.now ty.now (record { ty = index.now; number = number }) }
{
    match ty {
        Ty::Array(_, element) => {
            if is_integer(index) {
                Some(element.get())
            } else {
                None
            }
        }
        Ty::Struct(fields) => field_at(fields.get().as_slice(), index, number),
        Ty::Named(name) => named_field(types, name.get(), index, number),
        Ty::Int(_) | Ty::Ptr(_) | Ty::Void => None,
    }
}

/// What operands lead to from a type on.
fn led_by_operands<'a>(
    types: &'a NamedTypes,
    of: &'a Ty,
    indices: &[Operand<Name>],
) -> Option<&'a Ty>
    ensures { option_copied result ≡ typing.led_to types.now of.now (map index_of indices.now) }
{
    let mut ty = of;
    for index in indices {
        match entered(types, ty, &index.ty, number_in(&index.atom)) {
            Some(further) => ty = further,
            None => return None,
        }
    }
    Some(ty)
}

/// What constants lead to from a type on.
fn led_by_constants<'a>(types: &'a NamedTypes, of: &'a Ty, indices: &[TypedConst]) -> Option<&'a Ty>
    ensures { option_copied result ≡ typing.led_to types.now of.now (map told.index_told indices.now) }
{
    let mut ty = of;
    for index in indices {
        match entered(types, ty, &index.0, number_of(&index.1)) {
            Some(further) => ty = further,
            None => return None,
        }
    }
    Some(ty)
}

/// What an address points to whose indices are operands.
pub fn pointed_by_operands<'a>(
    types: &'a NamedTypes,
    of: &'a Ty,
    indices: &[Operand<Name>],
) -> Option<&'a Ty>
    ensures { option_map Ptr (option_copied result) ≡ typing.element_type types.now of.now (map index_of indices.now) }
{
    match indices.split_first() {
        None => Some(of),
        Some((first, further)) => {
            if is_integer(&first.ty) {
                led_by_operands(types, of, further)
            } else {
                None
            }
        }
    }
}

/// Whether the indices lead somewhere, so that the address has a type.
#[tactic(auto, using(crate::proofs::OperandTests::Lent::is_pointed))]
pub fn leads_somewhere(beside: &Beside, element: &Element<Name>) -> bool
    ensures { result ≡ is_some (typing.element_type beside.now.types element.now.of (map index_of element.now.indices)) }
{
    pointed_by_operands(beside.types(), &element.of, element.indices.as_slice()).is_some()
}

/// What an address points to whose indices are constants.
pub fn pointed_by_constants<'a>(
    types: &'a NamedTypes,
    of: &'a Ty,
    indices: &[TypedConst],
) -> Option<&'a Ty>
    ensures { option_map Ptr (option_copied result) ≡ typing.element_type types.now of.now (map told.index_told indices.now) }
{
    match indices.split_first() {
        None => Some(of),
        Some((first, further)) => {
            if is_integer(&first.0) {
                led_by_constants(types, of, further)
            } else {
                None
            }
        }
    }
}

/// Whether the type points to this, where it is there.
fn may_be(pointed: Option<&Ty>, to: &Ty) -> bool
    ensures { result ≡ meaning.may_be (option_map Ptr (option_copied pointed.entry)) to.now }
{
    match pointed {
        Some(pointed) => points_to(to, pointed),
        None => true,
    }
}

/// What is wrong with an address of what it points to, if anything is.
#[tactic(auto, using(crate::proofs::OperandTests::Lent::is_pointed))]
fn pointing_kind(
    beside: &Beside,
    of: &Ty,
    base: &Ty,
    pointed: Option<&Ty>,
    to: &Ty,
) -> Option<ShapeKind>
    ensures { result ≡ told.pointing_kind beside.now.types of.now base.now (option_map Ptr (option_copied pointed.entry)) to.now }
{
    let based = fault_unless(points_to(base, of), ShapeKind::OperandType);
    let kept = fault_unless(may_be(pointed, to), ShapeKind::OperandType);
    let sized = fault_unless(beside.is_sized(of), ShapeKind::Unsized);
    let led = fault_unless(pointed.is_some(), ShapeKind::GepIndex);
    least(based, least(kept, least(sized, led)))
}

/// What is wrong with an address, if anything is, but for its operands.
pub fn element_kind(beside: &Beside, element: &Element<Name>) -> Option<ShapeKind>
    ensures { result ≡ meaning.element_kind beside.now element.now }
{
    let pointed = pointed_by_operands(beside.types(), &element.of, element.indices.as_slice());
    pointing_kind(beside, &element.of, &element.base.ty, pointed, &element.to)
}

/// Whether it is seen at once that nothing is wrong with an address, but for its operands, and that the types are known that are stated for
/// it and its base: it leads to a field of a named type.
pub fn element_fits(beside: &Beside, element: &Element<Name>) -> bool
    ensures { result ≡ true → told.FitsAtOnce beside.now element.now }
{
    match (&element.of, element.indices.as_slice()) {
        (Ty::Named(_), [_, _, ..]) => {
            match pointed_by_operands(beside.types(), &element.of, element.indices.as_slice()) {
                Some(pointed) => {
                    points_to(&element.to, pointed)
                        && points_to(&element.base.ty, &element.of)
                        && beside.names_sized()
                }
                None => false,
            }
        }
        _ => false,
    }
}

/// The same where its operands are constants, the first one the base.
pub(crate) fn address_kind(
    beside: &Beside,
    of: &Ty,
    parts: &[TypedConst],
    to: &Ty,
) -> Option<ShapeKind>
    ensures { result ≡ told.address_told beside.now.types of.now parts.now to.now }
{
    match parts.split_first() {
        None => Some(ShapeKind::OperandType),
        Some((base, indices)) => {
            let pointed = pointed_by_constants(beside.types(), of, indices);
            pointing_kind(beside, of, &base.0, pointed, to)
        }
    }
}
