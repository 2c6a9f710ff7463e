//! What is wrong with what a global holds at the start.
ghost use Rattle.std.specs.Prelude.{◌≡◌, length, map};
ghost use Rattle.std.specs.Option.{option_copied};
ghost use Rattle.ir_core.specs.Typing as typing;
ghost use Rattle.ir_types.specs.declared.ty.Ty.{out-Ty};
ghost use Rattle.ir_types.specs.Same as same;
ghost use Rattle.ir_typing.specs.OperandTests.Inits as meaning;
ghost use Rattle.ir_typing.specs.OperandTests.Starts as told;

use crate::operand_tests::Beside;
use crate::operand_tests::constants::constant_kind;
use crate::operand_tests::numbers::is_number;
use crate::shape_kinds::{ShapeKind, fault_unless, least};
use contents::Seq;
use ir_core::{Const, Init, NamedTypes, Ty, TypedInit, same_ty};

/// Whether the type is an array of so many `i8`.
fn is_bytes(ty: &Ty, count: usize) -> bool
    ensures { result ≡ typing.is_bytes count (out-Ty ty.now) }
{
    match ty {
        Ty::Array(size, element) => *size == count as u64 && same_ty(element.get(), &Ty::Int(8)),
        Ty::Int(_) | Ty::Ptr(_) | Ty::Struct(_) | Ty::Named(_) | Ty::Void => false,
    }
}

/// Whether this type is stated for each of these.
fn are_alike(ty: &Ty, parts: &[TypedInit]) -> bool
    ensures { result ≡ told.are_alike ty.now parts.now }
{
    for part in parts {
        if !same_ty(ty, &part.0) {
            return false;
        }
    }
    true
}

/// Whether these are elements of the array.
fn are_elements(ty: &Ty, parts: &[TypedInit]) -> bool
    ensures { result ≡ told.are_elements ty.now parts.now }
{
    match ty {
        Ty::Array(size, element) => {
            *size == parts.len() as u64 && are_alike(element.get(), parts)
        }
        Ty::Int(_) | Ty::Ptr(_) | Ty::Struct(_) | Ty::Named(_) | Ty::Void => false,
    }
}

/// The fields of a struct, or of a named one.
fn fields_of<'a>(types: &'a NamedTypes, ty: &'a Ty) -> Option<&'a Seq<Ty>>
    ensures { option_copied result ≡ typing.parts_of_struct types.now (out-Ty ty.now) }
{
    match ty {
        Ty::Struct(fields) => Some(fields.get()),
        Ty::Named(name) => types.fields(name.get()),
        Ty::Int(_) | Ty::Ptr(_) | Ty::Array(_, _) | Ty::Void => None,
    }
}

/// Whether these types are stated for the parts, one after the other.
fn are_stated(types: &[Ty], parts: &[TypedInit]) -> bool
    ensures { result ≡ same.same_list same.same_ty types.now (map told.stated parts.now) }
{
    if types.len() != parts.len() {
        return false;
    }
    for (at, ty) in types.iter().enumerate() {
        if !same_ty(ty, &parts[at].0) {
            return false;
        }
    }
    true
}

/// Whether these are the fields of the struct.
fn are_fields(beside: &Beside, ty: &Ty, parts: &[TypedInit]) -> bool
    ensures { result ≡ told.are_fields beside.now.types ty.now parts.now }
{
    match fields_of(beside.types(), ty) {
        Some(fields) => are_stated(fields.as_slice(), parts),
        None => false,
    }
}

/// What is wrong with a constant of that type, which may be undef.
fn start_kind(beside: &Beside, ty: &Ty, constant: &Const) -> Option<ShapeKind>
    ensures { result ≡ meaning.start_kind beside.now ty.now constant.now }
{
    match constant {
        Const::Undef => None,
        _ => constant_kind(beside, ty, constant),
    }
}

/// What is wrong with an initialiser of that type, or in it, if anything is.
#[cycle(starts)]
#[tactic(auto, using(crate::proofs::OperandTests::Measures::in_array, crate::proofs::OperandTests::Measures::in_struct))]
fn init_kind(beside: &Beside, ty: &Ty, init: &Init) -> Option<ShapeKind>
    ensures { result ≡ meaning.init_kind beside.now ty.now init.now }
{
    match init {
        Init::Const(constant) => start_kind(beside, ty, constant),
        Init::Zero => None,
        Init::Bytes(bytes) => fault_unless(
            is_bytes(ty, bytes.as_slice().len()),
            ShapeKind::OperandType,
        ),
        Init::Array(elements) => {
            let parts = elements.get().as_slice();
            let inside = parts_kind(beside, parts);
            let stated = are_elements(ty, parts);
            least(fault_unless(stated, ShapeKind::OperandType), inside)
        }
        Init::Struct(fields) => {
            let parts = fields.get().as_slice();
            let inside = parts_kind(beside, parts);
            let stated = are_fields(beside, ty, parts);
            least(fault_unless(stated, ShapeKind::OperandType), inside)
        }
    }
}

/// The least that is wrong with one of these at the type that is stated for it.
#[cycle(starts)]
#[tactic(auto, using(crate::proofs::OperandTests::Least::least_none, crate::proofs::OperandTests::Measures::in_inits))]
fn parts_kind(beside: &Beside, parts: &[TypedInit]) -> Option<ShapeKind>
    ensures { result ≡ told.parts_kind beside.now parts.now }
{
    let mut kind = None;
    for part in parts {
        if !is_number(part) {
            kind = least(kind, init_kind(beside, &part.0, &part.1));
        }
    }
    kind
}

/// What is wrong with what a global of that type holds, if it holds anything.
pub(crate) fn held_kind(beside: &Beside, ty: &Ty, init: &Option<Init>) -> Option<ShapeKind>
    ensures { result ≡ meaning.held_kind beside.now ty.now init.now }
{
    match init {
        Some(init) => init_kind(beside, ty, init),
        None => None,
    }
}
