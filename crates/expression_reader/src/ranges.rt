//! What is out of range in the type or expression ahead: counts of arrays, numbers and alignments.
ghost use Rattle.std.specs.Prelude.{◌≡◌, ◌∷◌, ◌++◌, [], None, IfOk, OnOk};
ghost use Rattle.std.specs.List.{flat_map};
ghost use Rattle.derivation_cursor.specs.At.{Passes, PassesAll, ahead_of};
ghost use Rattle.expression_reader.specs.Powers.{is_power};
ghost use Rattle.expression_reader.specs.Ranges as meaning;
ghost use Rattle.expression_reader.specs.Told as part;
ghost use Rattle.expression_reader.specs.Types.{count_faults};
ghost use Rattle.fault_walk.specs.Told.{noted, with_fault};
ghost use Rattle.module_derivations.specs.FlatMarks.Flat.{behind, skip};
ghost use Rattle.module_derivations.specs.Constants.{operand};
ghost use Rattle.module_derivations.specs.Empty.{made, said};
ghost use Rattle.module_derivations.specs.Said.{number_of, place_of};
ghost use Rattle.module_derivations.specs.Types.{any_type};
ghost use Rattle.module_grammar.specs.declared.constants.ConstText as constant;
ghost use Rattle.module_grammar.specs.declared.types.TypeText as text;
ghost use Rattle.name_claims.specs.declared.claims.Reason.TheVariants as claim;
ghost use Rattle.named_modules.specs.Faults as faults;
ghost use Rattle.named_modules.specs.Types as types;
ghost use Rattle.named_modules.specs.Types.{type_of};

use derivation_cursor::{Cursor, read_number, skip_part};
use ir_core::Ty;
use ir_lexer::Number;
use module_derivations::rule;
use module_grammar::{IntText, Placed};
use module_walk::{read_integer, read_type};
use name_claims::{Fault, Reason, before};
use named_modules::int_of;
use std::alloc::{AllocError, Global};

/// The counts are below it.
const COUNTS: u128 = 18_446_744_073_709_551_616;

/// The first of both.
fn sooner(first: Option<Fault>, fault: Fault) -> Option<Fault>
    ensures { result ≡ with_fault first fault }
{
    match first {
        None => Some(fault),
        Some(first) => Some(if before(fault, first) { fault } else { first }),
    }
}

/// What is out of range at what a token says, unless it fits.
fn note_unless<T>(told: &mut Option<Fault>, fits: bool, written: &Placed<T>)
    ensures { told.new ≡ noted (faults.unless fits (faults.at written.now claim.WrongType)) told.old }
{
    if !fits {
        let fault = Fault {
            start: written.start as usize,
            end: written.end as usize,
            reason: Reason::WrongType,
        };
        *told = sooner(*told, fault);
    }
}

// ---- types

/// Whether the number counts the elements of an array.
fn is_count(number: &Number) -> bool
    ensures { result ≡ types.is_count number.now }
{
    let magnitude = number.magnitude.get();
    magnitude < COUNTS && (!number.negative || magnitude == 0)
}

/// `base_type stars`
#[cycle(counts)]
#[tactic(auto, using(crate::proofs::TypeCases::of_pointers))]
fn note_counts(alloc: Global, c: &mut Cursor, told: &mut Option<Fault>) -> Result<(), AllocError>
    ensures told { OnOk result (told.new ≡ noted (count_faults (any_type (ahead_of c.old))) told.old) }
    ensures passes { OnOk result (PassesAll 2 c.old c.new) }
{
    note_base_type(alloc, c, told)?;
    skip_part(c);
    Ok(())
}

/// `[ NUMBER x T ]`
#[cycle(counts)]
#[tactic(auto, using(crate::proofs::TypeCases::of_array))]
fn note_array(alloc: Global, c: &mut Cursor, told: &mut Option<Fault>) -> Result<(), AllocError>
    ensures told { OnOk result (told.new ≡ noted (count_faults (text.Array (place_of (said (ahead_of c.old))) (number_of (said (behind (ahead_of c.old))), any_type (skip 2 (ahead_of c.old))))) told.old) }
    ensures passes { OnOk result (PassesAll 4 c.old c.new) }
{
    skip_part(c);
    let count = read_number(alloc, c)?;
    let fits = is_count(&count.what);
    note_unless(told, fits, &count);
    note_counts(alloc, c, told)
}

/// `{ T, .. }`
#[cycle(counts)]
#[tactic(auto, using(crate::proofs::TypeCases::of_struct))]
fn note_struct(alloc: Global, c: &mut Cursor, told: &mut Option<Fault>) -> Result<(), AllocError>
    ensures told { OnOk result (told.new ≡ noted (count_faults (text.Struct (place_of (said (ahead_of c.old))) (made (behind (ahead_of c.old))).types)) told.old) }
    ensures passes { OnOk result (PassesAll 2 c.old c.new) }
{
    skip_part(c);
    note_types(alloc, c, told)
}

/// `iN`, `LOCAL`, `[ NUMBER x T ]` or `{ T, .. }`
#[cycle(counts)]
#[tactic(auto, using(crate::proofs::Others::no_counts))]
fn note_base_type(alloc: Global, c: &mut Cursor, told: &mut Option<Fault>) -> Result<(), AllocError>
    ensures told { OnOk result (told.new ≡ noted (count_faults (made (ahead_of c.old)).base_type) told.old) }
    ensures passes { OnOk result (Passes c.old c.new) }
{
    match c.rule() {
        Some(rule::ARRAY_TYPE) => note_array(alloc, c, told),
        Some(rule::STRUCT_TYPE) => note_struct(alloc, c, told),
        other => {
            c.pass(other);
            Ok(())
        }
    }
}

/// `, T` and so on
#[cycle(counts)]
#[tactic(auto, using(crate::proofs::Others::no_more_types, crate::proofs::Joined::noted_joined))]
fn note_more_types(
    alloc: Global,
    c: &mut Cursor,
    told: &mut Option<Fault>,
) -> Result<(), AllocError>
    ensures told { OnOk result (told.new ≡ noted (flat_map count_faults (made (ahead_of c.old)).more_types) told.old) }
    ensures passes { OnOk result (Passes c.old c.new) }
{
    loop {
        match c.rule() {
            Some(rule::MORE_TYPES) => note_counts(alloc, c, told)?,
            other => {
                c.pass(other);
                return Ok(());
            }
        }
    }
}

/// `[T {, T}]`
#[cycle(counts)]
#[tactic(auto, using(crate::proofs::Others::no_types, crate::proofs::Joined::noted_joined))]
fn note_types(alloc: Global, c: &mut Cursor, told: &mut Option<Fault>) -> Result<(), AllocError>
    ensures told { OnOk result (told.new ≡ noted (flat_map count_faults (made (ahead_of c.old)).types) told.old) }
    ensures passes { OnOk result (Passes c.old c.new) }
{
    match c.rule() {
        Some(rule::TYPES) => {
            note_counts(alloc, c, told)?;
            note_more_types(alloc, c, told)
        }
        other => {
            c.pass(other);
            Ok(())
        }
    }
}

/// The type ahead, whose counts are noted.
fn read_counted(alloc: Global, c: &mut Cursor, told: &mut Option<Fault>) -> Result<Ty, AllocError>
    ensures built { IfOk result (λ it. it ≡ type_of (any_type (ahead_of c.old))) }
    ensures told { OnOk result (told.new ≡ noted (count_faults (any_type (ahead_of c.old))) told.old) }
    ensures passes { OnOk result (PassesAll 2 c.old c.new) }
{
    let mut same = c.fork();
    note_counts(alloc, &mut same, told)?;
    read_type(alloc, c)
}

// ---- constants

/// A number is one of its type.
fn note_int(
    alloc: Global,
    c: &mut Cursor,
    ty: &Ty,
    told: &mut Option<Fault>,
) -> Result<(), AllocError>
    ensures told { OnOk result (told.new ≡ noted (faults.int_faults ty.now (made (ahead_of c.old)).integer) told.old) }
    ensures passes { OnOk result (Passes c.old c.new) }
{
    let int = read_integer(alloc, c)?;
    let fits = int_of(ty, &int).is_some();
    match &int {
        IntText::Number(number) => note_unless(told, fits, number),
        IntText::Truth(word) => note_unless(told, fits, word),
    }
    Ok(())
}

/// `T CONST`
#[cycle(constants)]
#[tactic(auto, using(crate::proofs::Joined::noted_joined))]
fn note_part(alloc: Global, c: &mut Cursor, told: &mut Option<Fault>) -> Result<(), AllocError>
    ensures told { OnOk result (told.new ≡ noted (part.part_faults (any_type (ahead_of c.old), (made (skip 2 (ahead_of c.old))).constant)) told.old) }
    ensures passes { OnOk result (PassesAll 3 c.old c.new) }
{
    let ty = read_counted(alloc, c, told)?;
    note_const(alloc, c, &ty, told)
}

/// `, T CONST` and so on
#[cycle(constants)]
#[tactic(auto, using(crate::proofs::Others::no_more_consts, crate::proofs::Joined::noted_joined))]
fn note_more_parts(
    alloc: Global,
    c: &mut Cursor,
    told: &mut Option<Fault>,
) -> Result<(), AllocError>
    ensures told { OnOk result (told.new ≡ noted (flat_map part.part_faults (made (ahead_of c.old)).more_consts) told.old) }
    ensures passes { OnOk result (Passes c.old c.new) }
{
    loop {
        match c.rule() {
            Some(rule::MORE_CONSTS) => note_part(alloc, c, told)?,
            other => {
                c.pass(other);
                return Ok(());
            }
        }
    }
}

/// `getelementptr inbounds (T, T CONST, T CONST ..)`
#[cycle(constants)]
#[tactic(auto, using(crate::proofs::ConstCases::of_element))]
fn note_element(
    alloc: Global,
    c: &mut Cursor,
    ty: &Ty,
    told: &mut Option<Fault>,
) -> Result<(), AllocError>
    ensures told { OnOk result (told.new ≡ noted (meaning.const_faults (constant.Element (place_of (said (ahead_of c.old))) (made (behind (ahead_of c.old))).inbounds (any_type (skip 2 (ahead_of c.old)), any_type (skip 4 (ahead_of c.old)), (made (skip 6 (ahead_of c.old))).constant, (made (skip 7 (ahead_of c.old))).more_consts)) ty.now) told.old) }
    ensures passes { OnOk result (PassesAll 8 c.old c.new) }
{
    skip_part(c);
    skip_part(c);
    note_counts(alloc, c, told)?;
    note_part(alloc, c, told)?;
    note_more_parts(alloc, c, told)
}

/// `bitcast (T CONST to T)`
#[cycle(constants)]
#[tactic(auto, using(crate::proofs::ConstCases::of_cast))]
fn note_cast(
    alloc: Global,
    c: &mut Cursor,
    ty: &Ty,
    told: &mut Option<Fault>,
) -> Result<(), AllocError>
    ensures told { OnOk result (told.new ≡ noted (meaning.const_faults (constant.Cast (place_of (said (ahead_of c.old))) (any_type (behind (ahead_of c.old)), (made (skip 3 (ahead_of c.old))).constant, any_type (skip 4 (ahead_of c.old)))) ty.now) told.old) }
    ensures passes { OnOk result (PassesAll 6 c.old c.new) }
{
    skip_part(c);
    note_part(alloc, c, told)?;
    note_counts(alloc, c, told)
}

/// A constant at the type that is stated for it.
#[cycle(constants)]
#[tactic(auto, using(crate::proofs::ConstCases::of_int, crate::proofs::Others::no_const))]
fn note_const(
    alloc: Global,
    c: &mut Cursor,
    ty: &Ty,
    told: &mut Option<Fault>,
) -> Result<(), AllocError>
    ensures told { OnOk result (told.new ≡ noted (meaning.const_faults (made (ahead_of c.old)).constant ty.now) told.old) }
    ensures passes { OnOk result (Passes c.old c.new) }
{
    match c.rule() {
        Some(rule::INT_CONST) => note_int(alloc, c, ty, told),
        Some(rule::ELEMENT_CONST) => note_element(alloc, c, ty, told),
        Some(rule::CAST_CONST) => note_cast(alloc, c, ty, told),
        other => {
            c.pass(other);
            Ok(())
        }
    }
}

// ---- operands

/// A register is in no range.
#[tactic(auto, using(crate::proofs::Others::no_value))]
fn note_value(
    alloc: Global,
    c: &mut Cursor,
    ty: &Ty,
    told: &mut Option<Fault>,
) -> Result<(), AllocError>
    ensures told { OnOk result (told.new ≡ noted (meaning.value_faults ty.now (made (ahead_of c.old)).value) told.old) }
    ensures passes { OnOk result (Passes c.old c.new) }
{
    match c.rule() {
        Some(rule::CONST_VALUE) => note_const(alloc, c, ty, told),
        other => {
            c.pass(other);
            Ok(())
        }
    }
}

/// `T V`
#[tactic(auto, using(crate::proofs::Joined::noted_joined))]
fn note_operand(alloc: Global, c: &mut Cursor, told: &mut Option<Fault>) -> Result<(), AllocError>
    ensures told { OnOk result (told.new ≡ noted (meaning.operand_faults (operand (ahead_of c.old))) told.old) }
    ensures passes { OnOk result (PassesAll 3 c.old c.new) }
{
    let ty = read_counted(alloc, c, told)?;
    note_value(alloc, c, &ty, told)
}

/// `, operand` any number of times
#[tactic(auto, using(crate::proofs::Others::no_indices, crate::proofs::Joined::noted_joined))]
fn note_indices(alloc: Global, c: &mut Cursor, told: &mut Option<Fault>) -> Result<(), AllocError>
    ensures told { OnOk result (told.new ≡ noted (flat_map meaning.operand_faults (made (ahead_of c.old)).indices) told.old) }
    ensures passes { OnOk result (Passes c.old c.new) }
{
    loop {
        match c.rule() {
            Some(rule::INDICES) => note_operand(alloc, c, told)?,
            other => {
                c.pass(other);
                return Ok(());
            }
        }
    }
}

// ---- operations

/// A word, and `operand , value`: the second value is of the type of the first one.
#[tactic(auto, using(crate::proofs::Joined::noted_joined))]
fn note_pair(alloc: Global, c: &mut Cursor, told: &mut Option<Fault>) -> Result<(), AllocError>
    ensures told { OnOk result (told.new ≡ noted (part.pair_faults (operand (behind (ahead_of c.old))) (made (skip 4 (ahead_of c.old))).value) told.old) }
    ensures passes { OnOk result (PassesAll 5 c.old c.new) }
{
    skip_part(c);
    let ty = read_counted(alloc, c, told)?;
    note_value(alloc, c, &ty, told)?;
    note_value(alloc, c, &ty, told)
}

/// A word, and `operand to any_type`.
#[tactic(auto, using(crate::proofs::Joined::noted_joined))]
fn note_conversion(
    alloc: Global,
    c: &mut Cursor,
    told: &mut Option<Fault>,
) -> Result<(), AllocError>
    ensures told { OnOk result (told.new ≡ noted (meaning.operand_faults (operand (behind (ahead_of c.old))) ++ count_faults (any_type (skip 4 (ahead_of c.old)))) told.old) }
    ensures passes { OnOk result (PassesAll 6 c.old c.new) }
{
    skip_part(c);
    note_operand(alloc, c, told)?;
    note_counts(alloc, c, told)
}

/// `operand , operand , operand`
#[tactic(auto, using(crate::proofs::Joined::noted_joined))]
fn note_select(alloc: Global, c: &mut Cursor, told: &mut Option<Fault>) -> Result<(), AllocError>
    ensures told { OnOk result (told.new ≡ noted (meaning.operand_faults (operand (ahead_of c.old)) ++ (meaning.operand_faults (operand (skip 3 (ahead_of c.old))) ++ meaning.operand_faults (operand (skip 6 (ahead_of c.old))))) told.old) }
    ensures passes { OnOk result (PassesAll 9 c.old c.new) }
{
    note_operand(alloc, c, told)?;
    note_operand(alloc, c, told)?;
    note_operand(alloc, c, told)
}

/// A binary operation, a comparison, a conversion or a selection.
#[tactic(auto, using(crate::proofs::Others::another_operation))]
fn note_operation(alloc: Global, c: &mut Cursor, told: &mut Option<Fault>) -> Result<(), AllocError>
    ensures told { OnOk result (told.new ≡ noted (meaning.operation_faults (made (ahead_of c.old)).operation) told.old) }
    ensures passes { OnOk result (Passes c.old c.new) }
{
    match c.rule() {
        Some(rule::BINARY) => note_pair(alloc, c, told),
        Some(rule::COMPARE) => note_pair(alloc, c, told),
        Some(rule::RESIZE) => note_conversion(alloc, c, told),
        Some(rule::BITCAST) => note_conversion(alloc, c, told),
        Some(rule::SELECT) => note_select(alloc, c, told),
        other => {
            c.pass(other);
            Ok(())
        }
    }
}

// ---- expressions

/// Whether it is a power of two, 2^29 at most.
#[tactic(auto, using(crate::proofs::Powers::power_more))]
fn is_any_power(magnitude: u128) -> bool
    ensures { result ≡ is_power magnitude }
{
    let mut found = false;
    for exponent in 0..30_u32 {
        found = magnitude == 1 << exponent || found;
    }
    found
}

/// An alignment is a power of two, or 0.
fn is_align(number: &Number) -> bool
    ensures { result ≡ faults.is_align number.now }
{
    let magnitude = number.magnitude.get();
    magnitude == 0 || (!number.negative && is_any_power(magnitude))
}

/// `[, align NUMBER]`
#[tactic(auto, using(crate::proofs::Others::no_align))]
fn note_align(alloc: Global, c: &mut Cursor, told: &mut Option<Fault>) -> Result<(), AllocError>
    ensures told { OnOk result (told.new ≡ noted (faults.align_faults (made (ahead_of c.old)).align) told.old) }
    ensures passes { OnOk result (Passes c.old c.new) }
{
    match c.rule() {
        Some(rule::ALIGN) => {
            let number = read_number(alloc, c)?;
            let fits = is_align(&number.what);
            note_unless(told, fits, &number);
            Ok(())
        }
        other => {
            c.pass(other);
            Ok(())
        }
    }
}

/// `getelementptr inbounds any_type , operand indices`
#[tactic(auto, using(crate::proofs::Joined::noted_joined))]
fn note_address(alloc: Global, c: &mut Cursor, told: &mut Option<Fault>) -> Result<(), AllocError>
    ensures told { OnOk result (told.new ≡ noted (count_faults (any_type (skip 2 (ahead_of c.old))) ++ (meaning.operand_faults (operand (skip 4 (ahead_of c.old))) ++ flat_map meaning.operand_faults (made (skip 7 (ahead_of c.old))).indices)) told.old) }
    ensures passes { OnOk result (PassesAll 8 c.old c.new) }
{
    skip_part(c);
    skip_part(c);
    note_counts(alloc, c, told)?;
    note_operand(alloc, c, told)?;
    note_indices(alloc, c, told)
}

/// `load any_type , operand align`
#[tactic(auto, using(crate::proofs::Joined::noted_joined))]
fn note_load(alloc: Global, c: &mut Cursor, told: &mut Option<Fault>) -> Result<(), AllocError>
    ensures told { OnOk result (told.new ≡ noted (count_faults (any_type (ahead_of c.old)) ++ (meaning.operand_faults (operand (skip 2 (ahead_of c.old))) ++ faults.align_faults (made (skip 5 (ahead_of c.old))).align)) told.old) }
    ensures passes { OnOk result (PassesAll 6 c.old c.new) }
{
    note_counts(alloc, c, told)?;
    note_operand(alloc, c, told)?;
    note_align(alloc, c, told)
}

/// An operand, an operation, an address of an element or a load.
#[tactic(auto, using(crate::proofs::Others::no_expression))]
fn note_expression(
    alloc: Global,
    c: &mut Cursor,
    told: &mut Option<Fault>,
) -> Result<(), AllocError>
    ensures told { OnOk result (told.new ≡ noted (meaning.range_faults (made (ahead_of c.old)).expr) told.old) }
    ensures passes { OnOk result (Passes c.old c.new) }
{
    match c.rule() {
        Some(rule::EXPRESSION_OPERAND) => note_operand(alloc, c, told),
        Some(rule::EXPRESSION_OPERATION) => note_operation(alloc, c, told),
        Some(rule::EXPRESSION_ELEMENT) => note_address(alloc, c, told),
        Some(rule::EXPRESSION_LOAD) => note_load(alloc, c, told),
        other => {
            c.pass(other);
            Ok(())
        }
    }
}

// ---- what is first

/// The first fault of counts in the type ahead.
pub fn first_of_counts(alloc: Global, c: Cursor) -> Result<Option<Fault>, AllocError>
    ensures { IfOk result (λ told. told ≡ noted (count_faults (any_type (ahead_of c.entry))) None) }
{
    let mut c = c;
    let mut told = None;
    note_counts(alloc, &mut c, &mut told)?;
    Ok(told)
}

/// The first thing that is out of range in the expression ahead.
pub fn first_of_ranges(alloc: Global, c: Cursor) -> Result<Option<Fault>, AllocError>
    ensures { IfOk result (λ told. told ≡ noted (meaning.range_faults (made (ahead_of c.entry)).expr) None) }
{
    let mut c = c;
    let mut told = None;
    note_expression(alloc, &mut c, &mut told)?;
    Ok(told)
}
