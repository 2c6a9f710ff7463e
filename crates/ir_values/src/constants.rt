//! What constants are worth at the types that stand beside them. No call takes memory.
ghost use Rattle.std.specs.Prelude.{◌≡◌, true, cond, map};
ghost use Rattle.std.specs.Option.{option_copied, option_map};
ghost use Rattle.ir_types.specs.Named as named;
ghost use Rattle.ir_types.specs.declared.ty.Ty.{Ptr};
ghost use Rattle.ir_core.specs.Types.{kind_of};
ghost use Rattle.ir_core.specs.Typing as typing;
ghost use Rattle.ir_core.specs.declared.values.Kind.TheVariants as kind;
ghost use Rattle.ir_core.specs.declared.values.Value.TheVariants.{Poison};
ghost use Rattle.ir_typing.specs.OperandTests.Addresses.{index_told};
ghost use Rattle.ir_values.specs.Addresses as addresses;
ghost use Rattle.ir_values.specs.ConstantParts as told;
ghost use Rattle.ir_values.specs.Constants as meaning;
ghost use Rattle.ir_values.specs.Values.{IsInKind, IsInKindOf};

use crate::addresses::{address_of, is_small};
use crate::indices::Indices;
use ir_core::{
    CastOp, Const, GlobalVar, Module, Name, NamedTypes, Ty, TypedConst, Value, converts, fits,
    is_first_class, is_integer, is_pointer, same_name, same_ty,
};
use ir_types::{is_sized, size_of};
use ir_typing::{is_due, pointed_by_constants, points_to};

/// What a constant is worth at a type, beside a module. Numbers, undef and null are told without a look at the module.
pub fn constant_value(module: &Module, ty: &Ty, constant: &Const) -> Value
    ensures value { result ≡ meaning.constant_value (meaning.scope_of «module».now) ty.now constant.now }
    ensures kind { IsInKindOf (kind_of ty.now) result }
{
    match constant {
        Const::Number(number) => number_value(number.get(), ty),
        Const::Undef => poison_unless(is_first_class(ty), Value::Undef),
        Const::Null => poison_unless(is_pointer(ty), Value::Bare(0)),
        Const::Global(_) | Const::Element(_) | Const::Cast(_) => {
            if is_of_type(module, ty, constant) {
                worth(module, ty, constant)
            } else {
                Value::Poison
            }
        }
    }
}

fn poison_unless(fits: bool, value: Value) -> Value
    ensures { result ≡ cond fits value Poison }
{
    if fits { value } else { Value::Poison }
}

fn number_value(number: u64, ty: &Ty) -> Value
    ensures { result ≡ meaning.number_value number ty.now }
{
    match ty {
        Ty::Int(width) => poison_unless(fits(number, *width), Value::Num(number)),
        _ => Value::Poison,
    }
}

// ---- types

/// Whether the constant is one of the type.
#[cycle(types)]
#[tactic(auto, using(crate::proofs::ConstantWalks::of_number, crate::proofs::ConstantWalks::of_undef, crate::proofs::ConstantWalks::of_null, crate::proofs::ConstantWalks::of_global, ir_typing::proofs::OperandTests::Measures::in_element, ir_typing::proofs::OperandTests::Measures::in_cast))]
pub fn is_of_type(module: &Module, ty: &Ty, constant: &Const) -> bool
    ensures { result ≡ meaning.is_of_type (meaning.scope_of «module».now) ty.now constant.now }
{
    match constant {
        Const::Number(_) => is_integer(ty),
        Const::Undef => is_first_class(ty),
        Const::Null => is_pointer(ty),
        Const::Global(name) => is_due(contents_of(module.globals.as_slice(), name.get()), ty),
        Const::Element(element) => {
            let element = element.get();
            let parts = element.2.as_slice();
            are_of_types(module, parts) && leads_to(&module.types, &element.1, parts, ty)
        }
        Const::Cast(cast) => {
            let cast = cast.get();
            let parts = cast.1.as_slice();
            are_of_types(module, parts) && is_recast(&cast.0, parts, ty)
        }
    }
}

/// Whether each is of the type that is stated for it.
#[cycle(types)]
#[tactic(auto, using(ir_typing::proofs::OperandTests::Measures::in_constants))]
fn are_of_types(module: &Module, parts: &[TypedConst]) -> bool
    ensures { result ≡ told.are_of_types (meaning.scope_of «module».now) parts.now }
{
    for part in parts {
        if !is_of_type(module, &part.0, &part.1) {
            return false;
        }
    }
    true
}

/// The type of the contents of the first global of that name.
fn contents_of<'a>(globals: &'a [GlobalVar], name: &Name) -> Option<&'a Ty>
    ensures { option_copied result ≡ typing.contents_of globals.now name.now }
{
    for global in globals {
        if same_name(&global.name, name) {
            return Some(&global.ty);
        }
    }
    None
}

/// Whether a base and indices make an address of the type.
fn leads_to(types: &NamedTypes, of: &Ty, parts: &[TypedConst], ty: &Ty) -> bool
    ensures { result ≡ told.leads_to types.now of.now parts.now ty.now }
{
    match parts.split_first() {
        Some((base, indices)) => {
            points_to(&base.0, of)
                && is_sized(types, of)
                && is_due(pointed_by_constants(types, of, indices), ty)
        }
        None => false,
    }
}

/// Whether there is one operand, of a type from which `bitcast` leads to the first of these types, which are the same.
fn is_recast(to: &Ty, parts: &[TypedConst], ty: &Ty) -> bool
    ensures { result ≡ told.is_recast to.now parts.now ty.now }
{
    match parts {
        [from] => converts(CastOp::BitCast, &from.0, to) && same_ty(to, ty),
        _ => false,
    }
}

// ---- values

/// The address of the first global of that name: the block at its place among the globals.
fn global_at(globals: &[GlobalVar], name: &Name) -> Value
    ensures { result ≡ meaning.global_at 0 globals.now name.now }
{
    for place in 0..globals.len() {
        if same_name(&globals[place].name, name) {
            return Value::Ptr(place as u64, 0);
        }
    }
    Value::Poison
}

/// The bytes of a type that is small.
fn bytes_of(types: &NamedTypes, ty: &Ty) -> u64
    ensures { result ≡ cond (addresses.is_small types.now ty.now) (named.size_of types.now ty.now) 0 }
{
    if is_small(types, ty) {
        size_of(types, ty)
    } else {
        0
    }
}

/// The size of the global in which an address lies.
fn size_behind(module: &Module, base: &Value) -> u64
    ensures { result ≡ meaning.size_behind (meaning.scope_of «module».now) base.now }
{
    match base {
        Value::Ptr(block, _) => match module.globals.as_slice().get(*block as usize) {
            Some(global) => bytes_of(&module.types, &global.ty),
            None => 0,
        },
        Value::Num(_) | Value::Bare(_) | Value::Undef | Value::Poison => 0,
    }
}

/// The width of an integer type, in bits, and 0 of another.
pub fn width_of(ty: &Ty) -> u32
    ensures { result ≡ meaning.width_of ty.now }
{
    match ty {
        Ty::Int(width) => *width,
        _ => 0,
    }
}

/// What a constant of an integer type is worth, beside whatever module.
fn number_worth(ty: &Ty, constant: &Const) -> Value
    ensures { result ≡ told.number_worth constant.now ty.now }
{
    match constant {
        Const::Number(number) => number_value(number.get(), ty),
        Const::Undef => Value::Undef,
        Const::Cast(cast) => match cast.get().1.as_slice() {
            [part] => number_worth(ty, &part.1),
            _ => Value::Poison,
        },
        Const::Null | Const::Global(_) | Const::Element(_) => Value::Poison,
    }
}

/// The indices of a constant.
#[derive(Drop)]
struct TypedIndices<'a> {
    parts: &'a [TypedConst],
}

impl<'a> Indices for TypedIndices<'a> {
    ghost listed = { λ it. map told.told_part it.parts.now };

    fn count(&self) -> usize {
        self.parts.len()
    }

    fn at(&self, place: usize) -> (u32, Value) {
        let part = &self.parts[place];
        (width_of(&part.0), number_worth(&part.0, &part.1))
    }
}

/// The address of a part, from a base on.
fn part_address(
    module: &Module,
    inbounds: bool,
    of: &Ty,
    base: Value,
    indices: &[TypedConst],
) -> Value
    requires base { IsInKind kind.Ptr base }
    ensures { result ≡ addresses.gep_value inbounds «module».now.types of.now base (meaning.size_behind (meaning.scope_of «module».now) base) (map told.told_part indices.now) }
{
    let size = size_behind(module, &base);
    let indices = TypedIndices { parts: indices };
    address_of(&module.types, inbounds, of, &base, size, &indices)
}

/// What a constant is worth that is one of the type.
fn worth(module: &Module, ty: &Ty, constant: &Const) -> Value
    requires typed { meaning.is_of_type (meaning.scope_of «module».now) ty.now constant.now ≡ true }
    ensures { result ≡ meaning.worth (meaning.scope_of «module».now) constant.now ty.now }
{
    match constant {
        Const::Number(number) => number_value(number.get(), ty),
        Const::Undef => Value::Undef,
        Const::Null => Value::Bare(0),
        Const::Global(name) => global_at(module.globals.as_slice(), name.get()),
        Const::Element(element) => {
            let element = element.get();
            match element.2.as_slice().split_first() {
                Some((base, indices)) => {
                    let start = worth(module, &base.0, &base.1);
                    part_address(module, element.0, &element.1, start, indices)
                }
                None => Value::Poison,
            }
        }
        Const::Cast(cast) => match cast.get().1.as_slice() {
            [part] => worth(module, &part.0, &part.1),
            _ => Value::Poison,
        },
    }
}
