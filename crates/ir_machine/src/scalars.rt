//! The scalars of types, and the bytes that an initialiser makes of them.
ghost use Rattle.std.specs.Prelude.{◌≡◌, ℕ, ◌++◌, true, map, IfOk, OnOk};
ghost use Rattle.std.specs.List.{AllByRecursion, range_with_len, zip};
ghost use Rattle.ir_types.specs.Layout.{round_up};
ghost use Rattle.ir_types.specs.Named.{is_sized, size_of};
ghost use Rattle.ir_core.specs.declared.values.Value.TheVariants as value;
ghost use Rattle.ir_values.specs.Constants.{scope_of};
ghost use Rattle.ir_core.specs.declared.values.Byte.TheVariants.{Undef};
ghost use Rattle.ir_values.specs.Values.{HasWidth};
ghost use Rattle.ir_machine.specs.declared.scalars.Scalar.{Scalar};
ghost use Rattle.ir_machine.specs.Scalars as meaning;
ghost use Rattle.ir_machine.specs.Walks as walk;

use block_memory::{byte_at, byte_count};
use ir_core::{Byte, Const, Init, Kind, Module, NamedTypes, Ty, TypedInit, Value, kind_of};
use ir_types::{SizeFault, align_of, fits_block};
use ir_values::constant_value;
use std::alloc::{AllocError, Global};

/// An integer or a pointer in a type: how many bytes stand before it, and its kind.
#[derive(Drop, Clone, Copy)]
pub struct Scalar {
    pub(crate) at: u64,
    pub(crate) kind: Kind,
}

/// What is left to walk: so many of a type, the first at a place; or fields of a struct at a place, which begin at an offset or behind it.
#[derive(Drop)]
pub(crate) enum Stretch<'a> {
    Elements(u64, &'a Ty, u64),
    Fields(u64, u64, &'a [Ty]),
}

/// Where a field begins that is aligned so, behind what ends there.
fn start_of_field(end: u64, align: u64) -> Result<u64, AllocError>
    ensures { IfOk result (λ start. start ≡ round_up end align) }
{
    if align == 0 {
        return Err(AllocError);
    }
    let past = end.checked_add(align - 1).ok_or(AllocError)?;
    Ok(past / align * align)
}

/// The type at a place.
fn enter<'a>(
    types: &'a NamedTypes,
    at: u64,
    ty: &'a Ty,
    left: &mut Vec<Stretch<'a>>,
    found: &mut Vec<Scalar>,
) -> Result<(), AllocError>
    requires sized { is_sized types.now ty.now ≡ true }
    ensures { OnOk result (found.new.items ++ walk.all_in types.now left.new.items
        ≡ found.old.items ++ (meaning.behind at (meaning.part_at types.now ty.now).scalars ++ walk.all_in types.now left.old.items)) }
{
    match ty {
        Ty::Int(_) => {
            if let Some(kind) = kind_of(ty) {
                found.push(Scalar { at, kind })?;
            }
        }
        Ty::Ptr(_) => found.push(Scalar {
            at,
            kind: Kind::Ptr,
        })?,
        Ty::Array(count, element) => left.push(Stretch::Elements(at, element.get(), *count))?,
        Ty::Struct(fields) => left.push(Stretch::Fields(at, 0, fields.get().as_slice()))?,
        Ty::Named(name) => {
            if let Some(fields) = types.fields(name.get()) {
                left.push(Stretch::Fields(at, 0, fields.as_slice()))?;
            }
        }
        Ty::Void => {}
    }
    Ok(())
}

/// So many of a type from a place on. What has no bytes is passed over, however many there are.
fn enter_first<'a>(
    types: &'a NamedTypes,
    at: u64,
    ty: &'a Ty,
    count: u64,
    left: &mut Vec<Stretch<'a>>,
    found: &mut Vec<Scalar>,
) -> Result<(), AllocError>
    ensures { OnOk result (found.new.items ++ walk.all_in types.now left.new.items
        ≡ found.old.items ++ (walk.elements_in types.now at ty.now count ++ walk.all_in types.now left.old.items)) }
{
    let Ok(size) = fits_block(types, ty, 1) else {
        return Err(AllocError);
    };
    if count == 0 || size == 0 {
        return Ok(());
    }
    let next = at.checked_add(size).ok_or(AllocError)?;
    left.push(Stretch::Elements(next, ty, count - 1))?;
    enter(types, at, ty, left, found)
}

/// The first of these fields.
fn enter_field<'a>(
    types: &'a NamedTypes,
    at: u64,
    from: u64,
    fields: &'a [Ty],
    left: &mut Vec<Stretch<'a>>,
) -> Result<(), AllocError>
    ensures { OnOk result (walk.all_in types.now left.new.items ≡ walk.fields_in types.now at from fields.now ++ walk.all_in types.now left.old.items) }
{
    let Some((field, more)) = fields.split_first() else {
        return Ok(());
    };
    let Ok(size) = fits_block(types, field, 1) else {
        return Err(AllocError);
    };
    let start = start_of_field(from, align_of(types, field))?;
    let place = at.checked_add(start).ok_or(AllocError)?;
    let end = start.checked_add(size).ok_or(AllocError)?;
    left.push(Stretch::Fields(at, end, more))?;
    left.push(Stretch::Elements(place, field, 1))?;
    Ok(())
}

fn walk_on<'a>(
    types: &'a NamedTypes,
    next: Stretch<'a>,
    left: &mut Vec<Stretch<'a>>,
    found: &mut Vec<Scalar>,
) -> Result<(), AllocError>
    ensures { OnOk result (found.new.items ++ walk.all_in types.now left.new.items
        ≡ found.old.items ++ (walk.one_in types.now next.entry ++ walk.all_in types.now left.old.items)) }
{
    match next {
        Stretch::Elements(at, ty, count) => enter_first(types, at, ty, count, left, found),
        Stretch::Fields(at, from, fields) => enter_field(types, at, from, fields, left),
    }
}

/// The scalars of a type. One of more than 2^31 bytes counts as memory that is refused.
#[tactic(auto, using(crate::proofs::Walking::left_next, crate::proofs::Walking::all_left, crate::proofs::Walking::none_left))]
fn scalars_of(alloc: Global, types: &NamedTypes, ty: &Ty) -> Result<Vec<Scalar>, AllocError>
    ensures { IfOk result (λ found. found.items ≡ meaning.scalars_of types.now ty.now) }
{
    let mut found = Vec::new(alloc);
    match fits_block(types, ty, 1) {
        Ok(_) => {}
        Err(SizeFault::Unsized) => return Ok(found),
        Err(SizeFault::TooLarge) => return Err(AllocError),
    }
    let mut left = Vec::new(alloc);
    left.push(Stretch::Elements(0, ty, 1))?;
    for _ in 0..u64::MAX {
        match left.pop() {
            Some(next) => walk_on(types, next, &mut left, &mut found)?,
            None => return Ok(found),
        }
    }
    Err(AllocError)
}

// ---- the values of an initialiser

fn held_value(module: &Module, ty: &Ty, constant: &Const) -> Value
    ensures { result ≡ meaning.held_value (scope_of «module».now) ty.now constant.now }
{
    match constant {
        Const::Undef => Value::Undef,
        _ => constant_value(module, ty, constant),
    }
}

fn zero_of(kind: Kind) -> Value
    ensures { result ≡ meaning.zero_of kind }
{
    match kind {
        Kind::Int(_) => Value::Num(0),
        Kind::Ptr => Value::Bare(0),
    }
}

/// The same value for each scalar.
fn put_value(scalars: &[Scalar], value: Value, values: &mut Vec<Value>) -> Result<(), AllocError>
    ensures { OnOk result (values.new.items ≡ values.old.items ++ map (λ s. value) scalars.now) }
{
    for _ in scalars {
        values.push(value)?;
    }
    Ok(())
}

fn put_zeros(scalars: &[Scalar], values: &mut Vec<Value>) -> Result<(), AllocError>
    ensures { OnOk result (values.new.items ≡ values.old.items ++ map (λ (s : Scalar). meaning.zero_of s.kind) scalars.now) }
{
    for scalar in scalars {
        values.push(zero_of(scalar.kind))?;
    }
    Ok(())
}

fn put_numbers(bytes: &[u8], values: &mut Vec<Value>) -> Result<(), AllocError>
    ensures { OnOk result (values.new.items ≡ values.old.items ++ map value.Num bytes.now) }
{
    for byte in bytes {
        values.push(Value::Num(u64::from(*byte)))?;
    }
    Ok(())
}

/// Goes as deep as initialisers stand in one another.
#[cycle(inits)]
#[tactic(auto, using(ir_typing::proofs::OperandTests::Measures::in_array, ir_typing::proofs::OperandTests::Measures::in_struct, crate::proofs::Initials::of_const, crate::proofs::Initials::of_zero, crate::proofs::Initials::of_bytes, crate::proofs::Initials::of_array, crate::proofs::Initials::of_struct))]
fn put_init(
    alloc: Global,
    module: &Module,
    ty: &Ty,
    init: &Init,
    values: &mut Vec<Value>,
) -> Result<(), AllocError>
    ensures { OnOk result (values.new.items ≡ values.old.items ++ meaning.values_of (scope_of «module».now) init.now ty.now) }
{
    match init {
        Init::Const(constant) => {
            let scalars = scalars_of(alloc, &module.types, ty)?;
            put_value(&scalars, held_value(module, ty, constant), values)
        }
        Init::Zero => {
            let scalars = scalars_of(alloc, &module.types, ty)?;
            put_zeros(&scalars, values)
        }
        Init::Bytes(bytes) => put_numbers(bytes.as_slice(), values),
        Init::Array(parts) => put_parts(alloc, module, parts.get().as_slice(), values),
        Init::Struct(parts) => put_parts(alloc, module, parts.get().as_slice(), values),
    }
}

#[cycle(inits)]
#[tactic(auto, using(ir_typing::proofs::OperandTests::Measures::in_inits, crate::proofs::Initials::values_next))]
fn put_parts(
    alloc: Global,
    module: &Module,
    parts: &[TypedInit],
    values: &mut Vec<Value>,
) -> Result<(), AllocError>
    ensures { OnOk result (values.new.items ≡ values.old.items ++ walk.values_in (scope_of «module».now) parts.now) }
{
    for part in parts {
        put_init(alloc, module, &part.0, &part.1, values)?;
    }
    Ok(())
}

// ---- their bytes

/// The bytes of a scalar, over what stands there.
#[tactic(auto, using(crate::proofs::Laying::over_next, crate::proofs::Laying::over_past, crate::proofs::Laying::over_all, crate::proofs::Laying::none_over))]
fn put_scalar(bytes: &mut [Byte], scalar: Scalar, value: Value)
    requires { HasWidth scalar.kind }
    ensures { bytes.new ≡ walk.overlaid (scalar, value) 0 bytes.old }
{
    for place in 0..byte_count(scalar.kind) {
        if scalar.at < bytes.len() as u64 && place < bytes.len() - scalar.at as usize {
            bytes[scalar.at as usize + place] = byte_at(value, place);
        }
    }
}

fn undef_bytes(alloc: Global, size: usize) -> Result<Vec<Byte>, AllocError>
    ensures { IfOk result (λ bytes. bytes.items ≡ map (λ (place : ℕ). Undef) (range_with_len 0 size)) }
{
    let mut bytes = Vec::new(alloc);
    for _ in 0..size {
        bytes.push(Byte::Undef)?;
    }
    Ok(bytes)
}

/// Each value's bytes in its scalar, and undef between and behind them.
#[tactic(auto, using(crate::proofs::Laying::laid_next, crate::proofs::Laying::laid_past, crate::proofs::Laying::none_laid))]
fn laid(
    alloc: Global,
    size: usize,
    scalars: &[Scalar],
    values: &[Value],
) -> Result<Vec<Byte>, AllocError>
    requires wide { AllByRecursion walk.IsWide scalars.now }
    ensures { IfOk result (λ bytes. bytes.items ≡ map (meaning.byte_among (zip scalars.now values.now)) (range_with_len 0 size)) }
{
    let mut bytes = undef_bytes(alloc, size)?;
    for place in (0..scalars.len()).rev() {
        if place < values.len() {
            put_scalar(&mut bytes, scalars[place], values[place]);
        }
    }
    Ok(bytes)
}

/// How many bytes the type has: none, where it has no layout. One of more than 2^31 counts as memory that is refused.
pub(crate) fn size_told(types: &NamedTypes, ty: &Ty) -> Result<u64, AllocError>
    ensures { IfOk result (λ size. size ≡ size_of types.now ty.now) }
{
    match fits_block(types, ty, 1) {
        Ok(size) => Ok(size),
        Err(SizeFault::Unsized) => Ok(0),
        Err(SizeFault::TooLarge) => Err(AllocError),
    }
}

/// The bytes of a value of the type.
pub(crate) fn initial_bytes(
    alloc: Global,
    module: &Module,
    ty: &Ty,
    init: &Init,
) -> Result<Vec<Byte>, AllocError>
    ensures { IfOk result (λ bytes. bytes.items ≡ meaning.initial_bytes (scope_of «module».now) ty.now init.now) }
{
    let size = size_told(&module.types, ty)?;
    let scalars = scalars_of(alloc, &module.types, ty)?;
    let mut values = Vec::new(alloc);
    put_init(alloc, module, ty, init, &mut values)?;
    laid(alloc, size as usize, &scalars, &values)
}
