//! Types, names, numbers, constants, what globals hold at the start, and attributes of parameters, of which extensions alone are kept.
ghost use Rattle.std.specs.Prelude.{◌≡◌, ◌++◌, map, IfOk, OnOk, [], ◌∷◌};
ghost use Rattle.derivation_cursor.specs.At.{Passes, PassesAll, ahead_of};
ghost use Rattle.module_derivations.specs.FlatMarks.Flat.{behind, skip};
ghost use Rattle.ir_types.specs.declared.ty.Ty.{Ty as Stated};
ghost use Rattle.module_derivations.specs.Empty as empty;
ghost use Rattle.module_derivations.specs.Empty.{made, said};
ghost use Rattle.module_derivations.specs.Said.{name_of, number_of, place_of, bytes_of};
ghost use Rattle.module_derivations.specs.Types.{any_type};
ghost use Rattle.module_grammar.specs.declared.constants.ConstText as const_text;
ghost use Rattle.module_grammar.specs.declared.constants.InitText as init_text;
ghost use Rattle.module_grammar.specs.declared.types.TypeText as type_text;
ghost use Rattle.module_walk.specs.Attributes.{either_extension, extension_by, extensions_from, extensions_in};
ghost use Rattle.module_walk.specs.Stars.{pointers_from};
ghost use Rattle.named_modules.specs.Built as meaning;
ghost use Rattle.named_modules.specs.Built.{result_of};
ghost use Rattle.named_modules.specs.Constants as constants;
ghost use Rattle.named_modules.specs.Constants.{const_of, global_name, init_of};
ghost use Rattle.named_modules.specs.Parts.{part_of, parts_of, init_part_of, init_parts_of};
ghost use Rattle.named_modules.specs.Types as of_types;
ghost use Rattle.named_modules.specs.Types.{type_of};
ghost use Rattle.named_modules.specs.Values as of_values;

use contents::Seq;
use derivation_cursor::{
    Cursor, no_number, read_bytes, read_extension, read_inbounds, read_name, read_number,
    read_truth, read_width, skip_part,
};
use ir_core::{Bits, Const, Extensions, Init, Name, Shared, Ty, TypedConst, TypedInit};
use ir_lexer::Number;
use module_derivations::rule;
use module_grammar::{ExtensionWord, IntText, Placed};
use named_modules::{align_of, int_of};
use std::alloc::{AllocError, Global};

/// The type that is built where none stands.
#[tactic(auto, using(named_modules::proofs::BuiltTypes::of_int))]
fn no_type() -> Ty
    ensures { result ≡ type_of empty.no_type }
{
    Ty::Int(1)
}

/// The pointers to a type that stars behind it make.
fn read_pointers(alloc: Global, c: &mut Cursor, ty: Ty) -> Result<Ty, AllocError>
    ensures built { IfOk result (λ it. it ≡ pointers_from ty (made (ahead_of c.old)).stars) }
    ensures passes { OnOk result (Passes c.old c.new) }
{
    let mut ty = ty;
    loop {
        match c.rule() {
            Some(rule::STARS) => {
                skip_part(c);
                ty = Ty::Ptr(Shared::new(alloc, ty)?);
            }
            other => {
                c.pass(other);
                return Ok(ty);
            }
        }
    }
}

/// `base_type stars`
#[cycle(types)]
#[tactic(auto, using(crate::proofs::Pointers::of_pointers))]
pub fn read_type(alloc: Global, c: &mut Cursor) -> Result<Ty, AllocError>
    ensures built { IfOk result (λ it. it ≡ type_of (any_type (ahead_of c.old))) }
    ensures passes { OnOk result (PassesAll 2 c.old c.new) }
{
    let base = read_base_type(alloc, c)?;
    read_pointers(alloc, c, base)
}

/// How many elements an array has, or 0 where no array has as many.
fn count_built(number: &Number) -> u64
    ensures { result ≡ of_types.count_built number.now }
{
    let magnitude = number.magnitude.get();
    if magnitude < 18_446_744_073_709_551_616 && (!number.negative || magnitude == 0) {
        magnitude as u64
    } else {
        0
    }
}

fn read_count(alloc: Global, c: &mut Cursor) -> Result<u64, AllocError>
    ensures built { IfOk result (λ it. it ≡ of_types.count_built (number_of (said (ahead_of c.old))).what) }
    ensures passes { OnOk result (Passes c.old c.new) }
{
    let number = read_number(alloc, c)?;
    Ok(count_built(&number.what))
}

/// `[ NUMBER x T ]`
#[cycle(types)]
#[tactic(auto, using(named_modules::proofs::BuiltTypes::of_array))]
fn read_array(alloc: Global, c: &mut Cursor) -> Result<Ty, AllocError>
    ensures built { IfOk result (λ it. it ≡ type_of (type_text.Array (place_of (said (ahead_of c.old))) (number_of (said (behind (ahead_of c.old))), any_type (skip 2 (ahead_of c.old))))) }
    ensures passes { OnOk result (PassesAll 4 c.old c.new) }
{
    skip_part(c);
    let count = read_count(alloc, c)?;
    let element = read_type(alloc, c)?;
    Ok(Ty::Array(count, Shared::new(alloc, element)?))
}

/// `{ T, .. }`
#[cycle(types)]
#[tactic(auto, using(named_modules::proofs::BuiltTypes::of_struct))]
fn read_struct(alloc: Global, c: &mut Cursor) -> Result<Ty, AllocError>
    ensures built { IfOk result (λ it. it ≡ type_of (type_text.Struct (place_of (said (ahead_of c.old))) (made (behind (ahead_of c.old))).types)) }
    ensures passes { OnOk result (PassesAll 2 c.old c.new) }
{
    skip_part(c);
    let fields = read_types(alloc, c)?;
    Ok(Ty::Struct(Shared::new(alloc, fields)?))
}

/// `LOCAL`
#[tactic(auto, using(named_modules::proofs::BuiltTypes::of_named))]
fn read_named(alloc: Global, c: &mut Cursor) -> Result<Ty, AllocError>
    ensures built { IfOk result (λ it. it ≡ type_of (type_text.Named (name_of (said (ahead_of c.old))))) }
    ensures passes { OnOk result (Passes c.old c.new) }
{
    let name = read_said_name(alloc, c)?;
    Ok(Ty::Named(Shared::new(alloc, name)?))
}

/// `iN`, `LOCAL`, `[ NUMBER x T ]` or `{ T, .. }`
#[cycle(types)]
#[tactic(auto, using(crate::proofs::Differ::differ, named_modules::proofs::BuiltTypes::of_int))]
fn read_base_type(alloc: Global, c: &mut Cursor) -> Result<Ty, AllocError>
    ensures built { IfOk result (λ it. it ≡ type_of (made (ahead_of c.old)).base_type) }
    ensures passes { OnOk result (Passes c.old c.new) }
{
    match c.rule() {
        Some(rule::INT_TYPE) => Ok(Ty::Int(read_width(c).what)),
        Some(rule::NAMED_BASE) => read_named(alloc, c),
        Some(rule::ARRAY_TYPE) => read_array(alloc, c),
        Some(rule::STRUCT_TYPE) => read_struct(alloc, c),
        other => {
            c.pass(other);
            Ok(no_type())
        }
    }
}

/// `, T` and so on, behind these.
#[cycle(types)]
#[tactic(auto, using(crate::proofs::Differ::differ, crate::proofs::Ended::nothing_behind))]
fn read_more_types(alloc: Global, c: &mut Cursor, types: &mut Seq<Ty>) -> Result<(), AllocError>
    ensures built { OnOk result (types.new ≡ types.old ++ map type_of (made (ahead_of c.old)).more_types) }
    ensures passes { OnOk result (Passes c.old c.new) }
{
    loop {
        match c.rule() {
            Some(rule::MORE_TYPES) => types.push(read_type(alloc, c)?)?,
            other => {
                c.pass(other);
                return Ok(());
            }
        }
    }
}

/// `[T {, T}]`
#[cycle(types)]
pub fn read_types(alloc: Global, c: &mut Cursor) -> Result<Seq<Ty>, AllocError>
    ensures built { IfOk result (λ it. it ≡ map type_of (made (ahead_of c.old)).types) }
    ensures passes { OnOk result (Passes c.old c.new) }
{
    let mut types = Seq::new(alloc);
    match c.rule() {
        Some(rule::TYPES) => {
            types.push(read_type(alloc, c)?)?;
            read_more_types(alloc, c, &mut types)?;
            Ok(types)
        }
        other => {
            c.pass(other);
            Ok(types)
        }
    }
}

/// `void` or `T`
pub(crate) fn read_result_type(alloc: Global, c: &mut Cursor) -> Result<Ty, AllocError>
    ensures built { IfOk result (λ it. it ≡ result_of (made (ahead_of c.old)).result_type) }
    ensures passes { OnOk result (Passes c.old c.new) }
{
    match c.rule() {
        Some(rule::TYPED_RESULT) => read_type(alloc, c),
        other => {
            c.pass(other);
            Ok(Ty::Void)
        }
    }
}

/// A name without its place.
pub(crate) fn read_said_name(alloc: Global, c: &mut Cursor) -> Result<Name, AllocError>
    ensures built { IfOk result (λ it. it ≡ (name_of (said (ahead_of c.old))).what) }
    ensures passes { OnOk result (Passes c.old c.new) }
{
    let Placed {
        what,
        start: _,
        end: _,
    } = read_name(alloc, c)?;
    Ok(what)
}

/// The name of a global, of debugging or not.
pub(crate) fn read_global(alloc: Global, c: &mut Cursor) -> Result<Name, AllocError>
    ensures built { IfOk result (λ it. it ≡ (global_name (made (ahead_of c.old)).global_name).what) }
    ensures passes { OnOk result (Passes c.old c.new) }
{
    match c.rule() {
        Some(rule::PLAIN_NAME) => read_said_name(alloc, c),
        Some(rule::DEBUG_NAME) => read_said_name(alloc, c),
        other => {
            c.pass(other);
            Ok(Name::Number(0))
        }
    }
}

/// A number that is an alignment.
pub(crate) fn read_align_number(alloc: Global, c: &mut Cursor) -> Result<Option<u32>, AllocError>
    ensures built { IfOk result (λ it. it ≡ meaning.align_kept (number_of (said (ahead_of c.old))).what) }
    ensures passes { OnOk result (Passes c.old c.new) }
{
    let written = Some(read_number(alloc, c)?);
    Ok(align_of(&written))
}

/// `[, align NUMBER]`
pub(crate) fn read_align(alloc: Global, c: &mut Cursor) -> Result<Option<u32>, AllocError>
    ensures built { IfOk result (λ it. it ≡ meaning.align_of (made (ahead_of c.old)).align) }
    ensures passes { OnOk result (Passes c.old c.new) }
{
    match c.rule() {
        Some(rule::ALIGN) => read_align_number(alloc, c),
        other => {
            c.pass(other);
            Ok(None)
        }
    }
}

/// A number by its digits, `true` or `false`.
pub fn read_integer(alloc: Global, c: &mut Cursor) -> Result<IntText, AllocError>
    ensures tree { IfOk result (λ it. it ≡ (made (ahead_of c.old)).integer) }
    ensures passes { OnOk result (Passes c.old c.new) }
{
    match c.rule() {
        Some(rule::NUMBER) => Ok(IntText::Number(read_number(alloc, c)?)),
        Some(rule::TRUTH) => Ok(IntText::Truth(read_truth(c))),
        other => {
            c.pass(other);
            Ok(IntText::Number(no_number()))
        }
    }
}

/// A number by its digits, `true` or `false`, if it is one of the type.
pub(crate) fn read_int(alloc: Global, c: &mut Cursor, ty: &Ty) -> Result<Option<u64>, AllocError>
    ensures built { IfOk result (λ it. it ≡ of_types.int_of ty.now (made (ahead_of c.old)).integer) }
    ensures passes { OnOk result (Passes c.old c.new) }
{
    let int = read_integer(alloc, c)?;
    Ok(int_of(ty, &int))
}

/// The number, or `undef` where there is none.
fn number_or_undef(number: Option<u64>) -> Const
    ensures { result ≡ constants.number_or_undef number }
{
    match number {
        Some(number) => Const::Number(Bits::new(number)),
        None => Const::Undef,
    }
}

/// A number, or `undef` where it is none of the type.
#[tactic(auto, using(named_modules::proofs::BuiltConstants::of_int))]
fn read_number_const(alloc: Global, c: &mut Cursor, ty: &Ty) -> Result<Const, AllocError>
    ensures built { IfOk result (λ it. it ≡ const_of (const_text.Int (made (ahead_of c.old)).integer) ty.now) }
    ensures passes { OnOk result (Passes c.old c.new) }
{
    Ok(number_or_undef(read_int(alloc, c, ty)?))
}

/// The address of a global.
#[tactic(auto, using(named_modules::proofs::BuiltConstants::of_global))]
fn read_address(alloc: Global, c: &mut Cursor) -> Result<Const, AllocError>
    ensures built { IfOk result (λ it. (t : Stated) → it ≡ const_of (const_text.Global (made (ahead_of c.old)).global_name) t) }
    ensures passes { OnOk result (Passes c.old c.new) }
{
    let name = read_global(alloc, c)?;
    Ok(Const::Global(Shared::new(alloc, name)?))
}

/// `T CONST`
#[cycle(constants)]
fn read_part(alloc: Global, c: &mut Cursor) -> Result<TypedConst, AllocError>
    ensures built { IfOk result (λ it. it ≡ part_of (any_type (ahead_of c.old), (made (skip 2 (ahead_of c.old))).constant)) }
    ensures passes { OnOk result (PassesAll 3 c.old c.new) }
{
    let ty = read_type(alloc, c)?;
    let constant = read_const(alloc, c, &ty)?;
    Ok((ty, constant))
}

/// `T CONST`, a list of one.
#[cycle(constants)]
fn read_one(alloc: Global, c: &mut Cursor) -> Result<Seq<TypedConst>, AllocError>
    ensures built { IfOk result (λ it. it ≡ part_of (any_type (ahead_of c.old), (made (skip 2 (ahead_of c.old))).constant) ∷ []) }
    ensures passes { OnOk result (PassesAll 3 c.old c.new) }
{
    let mut parts = Seq::new(alloc);
    parts.push(read_part(alloc, c)?)?;
    Ok(parts)
}

/// `, T CONST` and so on, behind these.
#[cycle(constants)]
#[tactic(auto, using(crate::proofs::Differ::differ, crate::proofs::Ended::nothing_behind))]
fn read_more_parts(
    alloc: Global,
    c: &mut Cursor,
    parts: &mut Seq<TypedConst>,
) -> Result<(), AllocError>
    ensures built { OnOk result (parts.new ≡ parts.old ++ parts_of (made (ahead_of c.old)).more_consts) }
    ensures passes { OnOk result (Passes c.old c.new) }
{
    loop {
        match c.rule() {
            Some(rule::MORE_CONSTS) => parts.push(read_part(alloc, c)?)?,
            other => {
                c.pass(other);
                return Ok(());
            }
        }
    }
}

/// `T CONST {, T CONST}`
#[cycle(constants)]
fn read_parts(alloc: Global, c: &mut Cursor) -> Result<Seq<TypedConst>, AllocError>
    ensures built { IfOk result (λ it. it ≡ part_of (any_type (ahead_of c.old), (made (skip 2 (ahead_of c.old))).constant) ∷ parts_of (made (skip 3 (ahead_of c.old))).more_consts) }
    ensures passes { OnOk result (PassesAll 4 c.old c.new) }
{
    let mut parts = read_one(alloc, c)?;
    read_more_parts(alloc, c, &mut parts)?;
    Ok(parts)
}

/// `getelementptr inbounds (T, T CONST, T CONST ..)`
#[cycle(constants)]
#[tactic(auto, using(named_modules::proofs::BuiltConstants::of_element))]
fn read_element(alloc: Global, c: &mut Cursor) -> Result<Const, AllocError>
    ensures built { IfOk result (λ it. (t : Stated) → it ≡ const_of (const_text.Element (place_of (said (ahead_of c.old))) (made (behind (ahead_of c.old))).inbounds (any_type (skip 2 (ahead_of c.old)), any_type (skip 4 (ahead_of c.old)), (made (skip 6 (ahead_of c.old))).constant, (made (skip 7 (ahead_of c.old))).more_consts)) t) }
    ensures passes { OnOk result (PassesAll 8 c.old c.new) }
{
    skip_part(c);
    let inbounds = read_inbounds(c);
    let of = read_type(alloc, c)?;
    let parts = read_parts(alloc, c)?;
    Ok(Const::Element(Shared::new(alloc, (inbounds, of, parts))?))
}

/// `bitcast (T CONST to T)`
#[cycle(constants)]
#[tactic(auto, using(named_modules::proofs::BuiltConstants::of_cast))]
fn read_cast(alloc: Global, c: &mut Cursor) -> Result<Const, AllocError>
    ensures built { IfOk result (λ it. (t : Stated) → it ≡ const_of (const_text.Cast (place_of (said (ahead_of c.old))) (any_type (behind (ahead_of c.old)), (made (skip 3 (ahead_of c.old))).constant, any_type (skip 4 (ahead_of c.old)))) t) }
    ensures passes { OnOk result (PassesAll 6 c.old c.new) }
{
    skip_part(c);
    let from = read_one(alloc, c)?;
    let to = read_type(alloc, c)?;
    Ok(Const::Cast(Shared::new(alloc, (to, from))?))
}

/// A constant at its type.
#[cycle(constants)]
#[tactic(auto, using(crate::proofs::Differ::differ, named_modules::proofs::BuiltConstants::of_null, named_modules::proofs::BuiltConstants::of_undef))]
pub(crate) fn read_const(alloc: Global, c: &mut Cursor, ty: &Ty) -> Result<Const, AllocError>
    ensures built { IfOk result (λ it. it ≡ const_of (made (ahead_of c.old)).constant ty.now) }
    ensures passes { OnOk result (Passes c.old c.new) }
{
    match c.rule() {
        Some(rule::INT_CONST) => read_number_const(alloc, c, ty),
        Some(rule::NULL_CONST) => {
            skip_part(c);
            Ok(Const::Null)
        }
        Some(rule::UNDEF_CONST) => Ok(Const::Undef),
        Some(rule::GLOBAL_CONST) => read_address(alloc, c),
        Some(rule::ELEMENT_CONST) => read_element(alloc, c),
        Some(rule::CAST_CONST) => read_cast(alloc, c),
        other => {
            c.pass(other);
            Ok(Const::Undef)
        }
    }
}

/// `c BYTES`
#[tactic(auto, using(named_modules::proofs::InitKinds::of_bytes))]
fn read_bytes_init(alloc: Global, c: &mut Cursor) -> Result<Init, AllocError>
    ensures built { IfOk result (λ it. (t : Stated) → it ≡ init_of (init_text.Bytes (bytes_of (said (ahead_of c.old)))) t) }
    ensures passes { OnOk result (Passes c.old c.new) }
{
    let Placed {
        what,
        start: _,
        end: _,
    } = read_bytes(alloc, c)?;
    Ok(Init::Bytes(what))
}

/// `T INIT`
#[cycle(inits)]
fn read_init_part(alloc: Global, c: &mut Cursor) -> Result<TypedInit, AllocError>
    ensures built { IfOk result (λ it. it ≡ init_part_of (any_type (ahead_of c.old), (made (skip 2 (ahead_of c.old))).init)) }
    ensures passes { OnOk result (PassesAll 3 c.old c.new) }
{
    let ty = read_type(alloc, c)?;
    let init = read_init(alloc, c, &ty)?;
    Ok((ty, init))
}

/// `, T INIT` and so on, behind these.
#[cycle(inits)]
#[tactic(auto, using(crate::proofs::Differ::differ, crate::proofs::Ended::nothing_behind))]
fn read_more_inits(
    alloc: Global,
    c: &mut Cursor,
    inits: &mut Seq<TypedInit>,
) -> Result<(), AllocError>
    ensures built { OnOk result (inits.new ≡ inits.old ++ init_parts_of (made (ahead_of c.old)).more_inits) }
    ensures passes { OnOk result (Passes c.old c.new) }
{
    loop {
        match c.rule() {
            Some(rule::MORE_INITS) => inits.push(read_init_part(alloc, c)?)?,
            other => {
                c.pass(other);
                return Ok(());
            }
        }
    }
}

/// `[T INIT {, T INIT}]`
#[cycle(inits)]
fn read_inits(alloc: Global, c: &mut Cursor) -> Result<Seq<TypedInit>, AllocError>
    ensures built { IfOk result (λ it. it ≡ init_parts_of (made (ahead_of c.old)).inits) }
    ensures passes { OnOk result (Passes c.old c.new) }
{
    let mut inits = Seq::new(alloc);
    match c.rule() {
        Some(rule::INITS) => {
            inits.push(read_init_part(alloc, c)?)?;
            read_more_inits(alloc, c, &mut inits)?;
            Ok(inits)
        }
        other => {
            c.pass(other);
            Ok(inits)
        }
    }
}

/// `[ inits ]` or `{ inits }`: the list between the brackets, which is shared.
#[cycle(inits)]
fn read_held(alloc: Global, c: &mut Cursor) -> Result<Shared<Seq<TypedInit>>, AllocError>
    ensures built { IfOk result (λ it. it ≡ init_parts_of (made (behind (ahead_of c.old))).inits) }
    ensures passes { OnOk result (PassesAll 2 c.old c.new) }
{
    skip_part(c);
    let inits = read_inits(alloc, c)?;
    Shared::new(alloc, inits)
}

/// What a global of this type holds.
#[cycle(inits)]
#[tactic(auto, using(crate::proofs::Differ::differ, named_modules::proofs::InitKinds::of_const, named_modules::proofs::InitKinds::of_zero, named_modules::proofs::InitKinds::of_array, named_modules::proofs::InitKinds::of_struct))]
pub(crate) fn read_init(alloc: Global, c: &mut Cursor, ty: &Ty) -> Result<Init, AllocError>
    ensures built { IfOk result (λ it. it ≡ init_of (made (ahead_of c.old)).init ty.now) }
    ensures passes { OnOk result (Passes c.old c.new) }
{
    match c.rule() {
        Some(rule::CONST_INIT) => Ok(Init::Const(read_const(alloc, c, ty)?)),
        Some(rule::ZERO_INIT) => Ok(Init::Zero),
        Some(rule::BYTES_INIT) => read_bytes_init(alloc, c),
        Some(rule::ARRAY_INIT) => Ok(Init::Array(read_held(alloc, c)?)),
        Some(rule::STRUCT_INIT) => Ok(Init::Struct(read_held(alloc, c)?)),
        other => {
            c.pass(other);
            Ok(Init::Zero)
        }
    }
}

/// `signext` or `zeroext`
fn extension(word: ExtensionWord) -> Extensions
    ensures { result ≡ extension_by word }
{
    match word {
        ExtensionWord::Signed => Extensions {
            signed: true,
            zero: false,
        },
        ExtensionWord::Zero => Extensions {
            signed: false,
            zero: true,
        },
    }
}

/// Which extension an attribute is.
#[tactic(auto, using(crate::proofs::OtherAttributes::no_extension, crate::proofs::OtherAttributes::extended))]
pub(crate) fn read_attribute(c: &mut Cursor) -> Extensions
    ensures built { result ≡ extensions_in (made (ahead_of c.old)).param_attribute }
    ensures passes { Passes c.old c.new }
{
    match c.rule() {
        Some(rule::EXTENSION) => extension(read_extension(c)),
        other => {
            c.pass(other);
            Extensions::none()
        }
    }
}

fn either(one: Extensions, other: Extensions) -> Extensions
    ensures { result ≡ either_extension one other }
{
    Extensions {
        signed: one.signed || other.signed,
        zero: one.zero || other.zero,
    }
}

/// Which extensions stand among attributes, or were found before.
#[tactic(auto, using(crate::proofs::OtherAttributes::no_attributes))]
pub(crate) fn read_more_extensions(c: &mut Cursor, found: Extensions) -> Extensions
    ensures built { result ≡ extensions_from found (made (ahead_of c.old)).param_attributes }
    ensures passes { Passes c.old c.new }
{
    let mut found = found;
    loop {
        match c.rule() {
            Some(rule::PARAM_ATTRIBUTES) => {
                found = either(found, read_attribute(c));
            }
            other => {
                c.pass(other);
                return found;
            }
        }
    }
}

/// Which extensions stand among any number of attributes.
#[tactic(auto, using(crate::proofs::OtherAttributes::found_among))]
pub(crate) fn read_extensions(c: &mut Cursor) -> Extensions
    ensures built { result ≡ of_values.extensions_of (made (ahead_of c.old)).param_attributes }
    ensures passes { Passes c.old c.new }
{
    read_more_extensions(c, Extensions::none())
}
