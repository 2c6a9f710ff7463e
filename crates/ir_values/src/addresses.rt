ghost use Rattle.std.specs.Prelude.{◌≡◌, ◌≤◌, ◌<◌, ◌^◌, ◌+ℤ◌, ◌&&◌, unsigned_abs, pos, true, false, Some, drop, map};
ghost use Rattle.std.specs.List.{AllByRecursion, list_all, list_any};
ghost use Rattle.std.specs.Option.{is_some, option_copied};
ghost use Rattle.ir_types.specs.declared.ty.Ty.{Int};
ghost use Rattle.ir_core.specs.Sizes.{entered_along, stepped as entered_from};
ghost use Rattle.ir_core.specs.Typing as typing;
ghost use Rattle.ir_core.specs.declared.values.Kind.TheVariants as kind;
ghost use Rattle.ir_values.specs.Addresses as meaning;
ghost use Rattle.ir_values.specs.Addresses.{told_index};
ghost use Rattle.ir_values.specs.Private as private;
ghost use Rattle.ir_values.specs.Values.{IsInKind, as_number as number_of, is_poison as poison_is};

use crate::indices::Indices;
use crate::numbers::{signed_at, word, word_of};
use crate::operations::{Outcome, as_number, is_poison};
use ir_core::{Module, NamedTypes, Ty, Value};
use ir_types::{field_offset, fits_block, size_of};

/// The outcome of `getelementptr ty, base, indices`, on a base with the size of the block that it is in, and each index with its width.
/// Takes no memory.
pub fn eval_gep(
    module: &Module,
    inbounds: bool,
    ty: &Ty,
    base: &Value,
    size: u64,
    indices: &[(u32, Value)],
) -> Outcome
    requires base { IsInKind kind.Ptr base.now }
    requires indices { AllByRecursion meaning.IsIndex indices.now }
    ensures { result ≡ meaning.gep_outcome inbounds «module».now.types ty.now base.now size indices.now }
{
    Outcome::Gives(address_of(&module.types, inbounds, ty, base, size, &indices))
}

/// The same of indices that are asked one by one, over the named types of a module: the address that it gives.
pub fn address_of<I: Indices>(
    types: &NamedTypes,
    inbounds: bool,
    ty: &Ty,
    base: &Value,
    size: u64,
    indices: &I,
) -> Value
    requires base { IsInKind kind.Ptr base.now }
    requires indices { AllByRecursion meaning.IsIndex (I.listed indices.now) }
    ensures { result ≡ meaning.gep_value inbounds types.now ty.now base.now size (I.listed indices.now) }
{
    if is_poison(base) || has_poison(indices) || !leads(types, ty, indices) {
        return Value::Poison;
    }
    if are_numbers(indices) {
        moved(types, inbounds, ty, base, size, indices)
    } else {
        undef_inside(inbounds)
    }
}

fn has_poison<I: Indices>(indices: &I) -> bool
    ensures { result ≡ list_any (λ (i : meaning.GivenIndex). poison_is i.1) (I.listed indices.now) }
{
    for place in 0..indices.count() {
        if is_poison(&indices.at(place).1) {
            return true;
        }
    }
    false
}

fn are_numbers<I: Indices>(indices: &I) -> bool
    ensures { result ≡ list_all (λ (i : meaning.GivenIndex). is_some (number_of i.1)) (I.listed indices.now) }
{
    for place in 0..indices.count() {
        if as_number(&indices.at(place).1).is_none() {
            return false;
        }
    }
    true
}

/// Whether the type has a size, within the limit on blocks.
pub fn is_small(types: &NamedTypes, ty: &Ty) -> bool
    ensures { result ≡ meaning.is_small types.now ty.now }
{
    fits_block(types, ty, 1).is_ok()
}

fn undef_inside(inbounds: bool) -> Value
    ensures { result ≡ meaning.undef_inside inbounds }
{
    if inbounds {
        Value::Poison
    } else {
        Value::Undef
    }
}

/// The field that a number of `i32` tells.
#[tactic(auto, using(crate::proofs::Entering::by_number, crate::proofs::Entering::no_number, crate::proofs::Entering::other_width))]
fn field_at<'a>(fields: &'a [Ty], index: &(u32, Value)) -> Option<&'a Ty>
    ensures { option_copied result ≡ typing.field_at fields.now (told_index index.now) }
{
    if index.0 != 32 {
        return None;
    }
    match as_number(&index.1) {
        Some(number) => fields.get(number as usize),
        None => None,
    }
}

/// What an index enters: an element of an array, or a field of a struct.
#[tactic(auto, using(crate::proofs::Entering::of_array, crate::proofs::Entering::of_struct, crate::proofs::Entering::of_named, crate::proofs::Entering::of_int, crate::proofs::Entering::of_ptr, crate::proofs::Entering::of_void))]
fn entered<'a>(types: &'a NamedTypes, ty: &'a Ty, index: &(u32, Value)) -> Option<&'a Ty>
    ensures { option_copied result ≡ typing.entered types.now ty.now (told_index index.now) }
{
    match ty {
        Ty::Array(_, element) => Some(element.get()),
        Ty::Struct(fields) => field_at(fields.get().as_slice(), index),
        Ty::Named(name) => match types.fields(name.get()) {
            Some(fields) => field_at(fields.as_slice(), index),
            None => None,
        },
        Ty::Int(_) | Ty::Ptr(_) | Ty::Void => None,
    }
}

/// Whether the indices from a place on enter small types, one inside the other.
fn leads_inside<I: Indices>(types: &NamedTypes, of: &Ty, indices: &I, start: usize) -> bool
    ensures { result ≡ private.leads_small types.now of.now (drop start (I.listed indices.now)) }
{
    let mut ty = of;
    for place in start..indices.count() {
        match entered(types, ty, &indices.at(place)) {
            Some(further) => {
                if !is_small(types, further) {
                    return false;
                }
                ty = further;
            }
            None => return false,
        }
    }
    true
}

/// Whether the indices enter what there is, and each type is small.
fn leads<I: Indices>(types: &NamedTypes, of: &Ty, indices: &I) -> bool
    ensures { result ≡ meaning.are_entered_small types.now of.now (I.listed indices.now) && is_some (meaning.distances types.now of.now (I.listed indices.now)) }
{
    is_small(types, of) && leads_inside(types, of, indices, 1)
}

/// Before the first byte of a block of that size, or behind its end.
fn is_past(size: u64, at: i128) -> bool
    ensures { result ≡ meaning.is_past size at }
{
    at < 0 || i128::from(size) < at
}

/// From a place, one distance further: nowhere, where it leaves the block.
fn stepped(inbounds: bool, size: u64, at: u64, by: i128) -> Option<u64>
    requires near { unsigned_abs by ≤ 2 ^ 96 }
    ensures { result ≡ private.stepped inbounds size (pos at +ℤ by) }
{
    let next = i128::from(at) + by;
    if inbounds && is_past(size, next) {
        return None;
    }
    Some(word_of(next))
}

/// So many of the type.
#[tactic(auto, using(crate::proofs::Going::over_is, crate::proofs::Going::over_near))]
fn over(types: &NamedTypes, ty: &Ty, index: &(u32, Value)) -> i128
    requires small { private.IsSmall types.now ty.now }
    requires index { meaning.IsIndex index.now }
    requires number { is_some (number_of index.now.1) ≡ true }
    ensures value { result ≡ meaning.over types.now ty.now index.now }
    ensures near { unsigned_abs result ≤ 2 ^ 96 }
{
    match as_number(&index.1) {
        Some(number) => i128::from(size_of(types, ty)) * signed_at(index.0, number),
        None => 0,
    }
}

/// How far an index goes that enters a type.
#[tactic(auto, using(crate::proofs::Going::over_array, crate::proofs::Going::to_field, crate::proofs::Going::field_there))]
fn distance(types: &NamedTypes, ty: &Ty, further: &Ty, index: &(u32, Value)) -> i128
    requires entered { typing.entered types.now ty.now (told_index index.now) ≡ Some further.now }
    requires small { private.IsSmall types.now ty.now }
    requires part { private.IsSmall types.now further.now }
    requires index { meaning.IsIndex index.now }
    requires number { is_some (number_of index.now.1) ≡ true }
    ensures value { result ≡ meaning.distance types.now ty.now index.now }
    ensures near { unsigned_abs result ≤ 2 ^ 96 }
{
    match ty {
        Ty::Array(_, _) => over(types, further, index),
        _ => match as_number(&index.1) {
            Some(number) => i128::from(field_offset(types, ty, number as u32)),
            None => 0,
        },
    }
}

/// Where the indices from a place on lead, as a word: nowhere, where they leave the block or enter nothing.
fn ended_inside<I: Indices>(
    types: &NamedTypes,
    inbounds: bool,
    of: &Ty,
    from: u64,
    size: u64,
    indices: &I,
    start: usize,
) -> Option<u64>
    requires of { private.IsSmall types.now of.now }
    requires types { AllByRecursion (private.IsSmall types.now) (entered_along types.now of.now (map told_index (drop start (I.listed indices.now)))) }
    requires indices { AllByRecursion meaning.IsIndex (drop start (I.listed indices.now)) }
    requires numbers { list_all (λ (i : meaning.GivenIndex). is_some (number_of i.1)) (drop start (I.listed indices.now)) ≡ true }
    requires inside { inbounds ≡ true → meaning.is_past size (pos from) ≡ false }
    ensures { result ≡ private.ended inbounds size (pos from) (meaning.distances_inside types.now of.now (drop start (I.listed indices.now))) }
{
    let mut ty = of;
    let mut at = from;
    for place in start..indices.count() {
        let index = indices.at(place);
        let Some(further) = entered(types, ty, &index) else {
            return None;
        };
        let Some(next) = stepped(inbounds, size, at, distance(types, ty, further, &index)) else {
            return None;
        };
        ty = further;
        at = next;
    }
    Some(at)
}

/// The same from a base: over many of the type first.
fn ended<I: Indices>(
    types: &NamedTypes,
    inbounds: bool,
    of: &Ty,
    from: u64,
    size: u64,
    indices: &I,
) -> Option<u64>
    requires types { AllByRecursion (private.IsSmall types.now) (entered_from types.now of.now (map told_index (I.listed indices.now))) }
    requires indices { AllByRecursion meaning.IsIndex (I.listed indices.now) }
    requires numbers { list_all (λ (i : meaning.GivenIndex). is_some (number_of i.1)) (I.listed indices.now) ≡ true }
    requires inside { inbounds ≡ true → meaning.is_past size (pos from) ≡ false }
    ensures { result ≡ private.ended inbounds size (pos from) (meaning.distances types.now of.now (I.listed indices.now)) }
{
    if indices.count() == 0 {
        return Some(from);
    }
    match stepped(inbounds, size, from, over(types, of, &indices.at(0))) {
        Some(next) => ended_inside(types, inbounds, of, next, size, indices, 1),
        None => None,
    }
}

/// What indices that are numbers make of a base.
#[tactic(auto, using(crate::proofs::Going::from_block, crate::proofs::Going::from_outside, crate::proofs::Going::from_bare))]
fn moved<I: Indices>(
    types: &NamedTypes,
    inbounds: bool,
    of: &Ty,
    base: &Value,
    size: u64,
    indices: &I,
) -> Value
    requires types { AllByRecursion (private.IsSmall types.now) (entered_from types.now of.now (map told_index (I.listed indices.now))) }
    requires leads { is_some (meaning.distances types.now of.now (I.listed indices.now)) ≡ true }
    requires base { IsInKind kind.Ptr base.now }
    requires indices { AllByRecursion meaning.IsIndex (I.listed indices.now) }
    requires numbers { list_all (λ (i : meaning.GivenIndex). is_some (number_of i.1)) (I.listed indices.now) ≡ true }
    ensures { result ≡ meaning.led_address inbounds base.now size (I.listed indices.now) (meaning.distances types.now of.now (I.listed indices.now)) }
{
    match base {
        Value::Ptr(block, offset) => {
            if inbounds && is_past(size, i128::from(*offset)) {
                return Value::Poison;
            }
            match ended(types, inbounds, of, word(*offset), size, indices) {
                Some(at) => Value::Ptr(*block, at.cast_signed()),
                None => Value::Poison,
            }
        }
        Value::Bare(address) => {
            if inbounds {
                return Value::Poison;
            }
            match ended(types, false, of, *address, size, indices) {
                Some(at) => Value::Bare(at),
                None => Value::Poison,
            }
        }
        Value::Num(_) | Value::Undef | Value::Poison => undef_inside(inbounds),
    }
}
