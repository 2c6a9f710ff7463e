//! What globals hold at the start.
ghost use Rattle.std.specs.Prelude.{◌≡◌, length, IfOk, OnOk};
ghost use Rattle.std.specs.List.{flat_map};
ghost use Rattle.std.specs.Option.{option_copied, option_map};
ghost use Rattle.derivation_cursor.specs.At.{Passes, PassesAll, ahead_of};
ghost use Rattle.module_derivations.specs.FlatMarks.Flat.{behind, skip};
ghost use Rattle.ir_core.specs.Typing as typing;
ghost use Rattle.ir_types.specs.declared.ty.Ty.{out-Ty};
ghost use Rattle.module_derivations.specs.Empty.{made, said};
ghost use Rattle.module_derivations.specs.Said as says;
ghost use Rattle.module_derivations.specs.Types.{any_type};
ghost use Rattle.module_grammar.specs.declared.constants.InitText as init_text;
ghost use Rattle.module_spelling.specs.Blocks as wanted;
ghost use Rattle.named_modules.specs.Faults as faults;
ghost use Rattle.fault_walk.specs.Dues as meaning;
ghost use Rattle.fault_walk.specs.Told.{faults_more, told_more};

use crate::constants::{note_const, note_type_ahead};
use crate::sight::Sight;
use crate::told::{Told, from, note_unless};
use contents::Seq;
use derivation_cursor::{Cursor, read_bytes, read_place, skip_part};
use ir_core::{NamedTypes, Ty, same_ty};
use module_derivations::rule;
use module_walk::read_type;
use name_claims::Reason;
use std::alloc::{AllocError, Global};

/// The types that are due for the parts of an initialiser: each this one, or those of a struct's fields.
#[derive(Drop, Clone, Copy)]
enum Dues<'a> {
    Each(&'a Ty),
    Fields(&'a [Ty]),
}

/// What is due for the elements of an array of so many.
fn of_array<'a>(ty: &'a Ty, count: u64) -> Option<Dues<'a>>
    ensures { option_map meaning.seen result ≡ meaning.array_dues (out-Ty ty.now) count }
{
    match ty {
        Ty::Array(own, element) => {
            if *own == count {
                Some(Dues::Each(element.get()))
            } else {
                None
            }
        }
        Ty::Int(_) | Ty::Ptr(_) | Ty::Struct(_) | Ty::Named(_) | Ty::Void => None,
    }
}

fn of_fields<'a>(fields: Option<&'a Seq<Ty>>) -> Option<Dues<'a>>
    ensures { option_map meaning.seen result ≡ meaning.lent_fields fields.entry }
{
    match fields {
        Some(fields) => Some(Dues::Fields(fields.as_slice())),
        None => None,
    }
}

/// What is due for the fields of a struct, or of a named one.
fn of_struct<'a>(types: &'a NamedTypes, ty: &'a Ty) -> Option<Dues<'a>>
    ensures { option_map meaning.seen result ≡ meaning.struct_dues types.now (out-Ty ty.now) }
{
    match ty {
        Ty::Struct(fields) => Some(Dues::Fields(fields.get().as_slice())),
        Ty::Named(name) => of_fields(types.fields(name.get())),
        Ty::Int(_) | Ty::Ptr(_) | Ty::Array(_, _) | Ty::Void => None,
    }
}

/// Whether they are due for so many parts.
fn are_as_many(dues: Option<Dues>, count: u64) -> bool
    ensures { result ≡ meaning.are_as_many (option_map meaning.seen dues.entry) count }
{
    match dues {
        Some(Dues::Each(_)) => true,
        Some(Dues::Fields(types)) => types.len() as u64 == count,
        None => false,
    }
}

/// The one of the next part, if one is due, and those of the parts behind it.
fn next_due<'a>(dues: Option<Dues<'a>>) -> (Option<&'a Ty>, Option<Dues<'a>>)
    ensures first { option_copied result.0 ≡ meaning.first_due (meaning.or_none (option_map meaning.seen dues.entry)) }
    ensures others { meaning.or_none (option_map meaning.seen result.1) ≡ meaning.further_dues (meaning.or_none (option_map meaning.seen dues.entry)) }
{
    match dues {
        Some(Dues::Each(ty)) => (Some(ty), dues),
        Some(Dues::Fields(types)) => match types.split_first() {
            Some((first, others)) => (Some(first), Some(Dues::Fields(others))),
            None => (None, None),
        },
        None => (None, None),
    }
}

/// Whether the type is an array of so many `i8`.
fn is_bytes(ty: &Ty, count: usize) -> bool
    ensures { result ≡ typing.is_bytes count (out-Ty ty.now) }
{
    match ty {
        Ty::Array(own, element) => *own == count as u64 && same_ty(element.get(), &Ty::Int(8)),
        Ty::Int(_) | Ty::Ptr(_) | Ty::Struct(_) | Ty::Named(_) | Ty::Void => false,
    }
}

/// `c BYTES`
fn note_bytes(alloc: Global, c: &mut Cursor, ty: &Ty, told: &mut Told) -> Result<(), AllocError>
    ensures told { OnOk result (told.new ≡ faults_more (meaning.bytes_faults ty.now (says.bytes_of (said (ahead_of c.old)))) told.old) }
    ensures passes { OnOk result (Passes c.old c.new) }
{
    let bytes = read_bytes(alloc, c)?;
    let fits = is_bytes(ty, bytes.what.as_slice().len());
    let start = bytes.start.saturating_sub(1);
    note_unless(told, fits, from(start, 1, Reason::WrongType));
    Ok(())
}

/// `T INIT` is passed.
fn skip_part_of_list(c: &mut Cursor)
    ensures { PassesAll 3 c.old c.new }
{
    skip_part(c);
    skip_part(c);
    skip_part(c);
}

/// How many parts a list has.
fn count_parts(c: &Cursor) -> u64
    ensures { result ≡ length (made (ahead_of c.now)).inits }
{
    let mut ahead = c.fork();
    match ahead.rule() {
        Some(rule::INITS) => skip_part_of_list(&mut ahead),
        _ => return 0,
    }
    let mut count: u64 = 1;
    loop {
        match ahead.rule() {
            Some(rule::MORE_INITS) => {
                skip_part_of_list(&mut ahead);
                count += 1;
            }
            _ => return count,
        }
    }
}

/// Whether the type is the one that is due, where one is.
fn is_due(due: Option<&Ty>, ty: &Ty) -> bool
    ensures { result ≡ meaning.is_due (option_copied due.entry) ty.now }
{
    match due {
        Some(due) => same_ty(due, ty),
        None => true,
    }
}

/// `T INIT`, where this type is due, if one is.
#[cycle(inits)]
fn note_init_part(
    alloc: Global,
    sight: &Sight,
    c: &mut Cursor,
    due: Option<&Ty>,
    told: &mut Told,
) -> Result<(), AllocError>
    ensures told { OnOk result (told.new ≡ told_more sight.now (meaning.part_faults sight.now (option_copied due.entry) (any_type (ahead_of c.old), (made (skip 2 (ahead_of c.old))).init)) (wanted.wanted_by_init sight.now (made (skip 2 (ahead_of c.old))).init) told.old) }
    ensures passes { OnOk result (PassesAll 3 c.old c.new) }
{
    let place = note_type_ahead(alloc, sight, c, told)?;
    let ty = read_type(alloc, c)?;
    note_unless(told, is_due(due, &ty), from(place, 1, Reason::WrongType));
    note_init(alloc, sight, c, &ty, told)
}

/// `, T INIT` and so on, for which these are due.
#[cycle(inits)]
fn note_more_inits(
    alloc: Global,
    sight: &Sight,
    c: &mut Cursor,
    dues: Option<Dues>,
    told: &mut Told,
) -> Result<(), AllocError>
    ensures told { OnOk result (told.new ≡ told_more sight.now (meaning.rest_faults sight.now (meaning.or_none (option_map meaning.seen dues.entry)) (made (ahead_of c.old)).more_inits) (flat_map (meaning.wanted_by_part sight.now) (made (ahead_of c.old)).more_inits) told.old) }
    ensures passes { OnOk result (Passes c.old c.new) }
{
    let mut dues = dues;
    loop {
        match c.rule() {
            Some(rule::MORE_INITS) => {
                let (due, others) = next_due(dues);
                note_init_part(alloc, sight, c, due, told)?;
                dues = others;
            }
            other => {
                c.pass(other);
                return Ok(());
            }
        }
    }
}

/// `[T INIT {, T INIT}]`, for which these are due.
#[cycle(inits)]
fn note_inits(
    alloc: Global,
    sight: &Sight,
    c: &mut Cursor,
    dues: Option<Dues>,
    told: &mut Told,
) -> Result<(), AllocError>
    ensures told { OnOk result (told.new ≡ told_more sight.now (meaning.rest_faults sight.now (meaning.or_none (option_map meaning.seen dues.entry)) (made (ahead_of c.old)).inits) (flat_map (meaning.wanted_by_part sight.now) (made (ahead_of c.old)).inits) told.old) }
    ensures passes { OnOk result (Passes c.old c.new) }
{
    match c.rule() {
        Some(rule::INITS) => {
            let (due, others) = next_due(dues);
            note_init_part(alloc, sight, c, due, told)?;
            note_more_inits(alloc, sight, c, others, told)
        }
        other => {
            c.pass(other);
            Ok(())
        }
    }
}

/// A list of so many parts, for which these are due, behind its bracket.
#[cycle(inits)]
fn note_list(
    alloc: Global,
    sight: &Sight,
    c: &mut Cursor,
    place: u32,
    dues: Option<Dues>,
    count: u64,
    told: &mut Told,
) -> Result<(), AllocError>
    ensures told { OnOk result (told.new ≡ told_more sight.now (meaning.list_faults sight.now place (option_map meaning.seen dues.entry) count (made (ahead_of c.old)).inits) (flat_map (meaning.wanted_by_part sight.now) (made (ahead_of c.old)).inits) told.old) }
    ensures passes { OnOk result (Passes c.old c.new) }
{
    note_unless(
        told,
        are_as_many(dues, count),
        from(place, 1, Reason::WrongType),
    );
    note_inits(alloc, sight, c, dues, told)
}

/// `[ inits ]`
#[cycle(inits)]
fn note_array_init(
    alloc: Global,
    sight: &Sight,
    c: &mut Cursor,
    ty: &Ty,
    told: &mut Told,
) -> Result<(), AllocError>
    ensures told { OnOk result (told.new ≡ told_more sight.now (faults.init_faults sight.now (init_text.Array (says.place_of (said (ahead_of c.old))) (made (behind (ahead_of c.old))).inits) ty.now) (wanted.wanted_by_init sight.now (init_text.Array (says.place_of (said (ahead_of c.old))) (made (behind (ahead_of c.old))).inits)) told.old) }
    ensures passes { OnOk result (PassesAll 2 c.old c.new) }
{
    let place = read_place(c);
    let count = count_parts(c);
    note_list(alloc, sight, c, place, of_array(ty, count), count, told)
}

/// `{ inits }`
#[cycle(inits)]
fn note_struct_init(
    alloc: Global,
    sight: &Sight,
    c: &mut Cursor,
    ty: &Ty,
    told: &mut Told,
) -> Result<(), AllocError>
    ensures told { OnOk result (told.new ≡ told_more sight.now (faults.init_faults sight.now (init_text.Struct (says.place_of (said (ahead_of c.old))) (made (behind (ahead_of c.old))).inits) ty.now) (wanted.wanted_by_init sight.now (init_text.Struct (says.place_of (said (ahead_of c.old))) (made (behind (ahead_of c.old))).inits)) told.old) }
    ensures passes { OnOk result (PassesAll 2 c.old c.new) }
{
    let place = read_place(c);
    let count = count_parts(c);
    note_list(
        alloc,
        sight,
        c,
        place,
        of_struct(sight.types(), ty),
        count,
        told,
    )
}

/// What a global of this type holds at the start.
#[cycle(inits)]
pub(crate) fn note_init(
    alloc: Global,
    sight: &Sight,
    c: &mut Cursor,
    ty: &Ty,
    told: &mut Told,
) -> Result<(), AllocError>
    ensures told { OnOk result (told.new ≡ told_more sight.now (faults.init_faults sight.now (made (ahead_of c.old)).init ty.now) (wanted.wanted_by_init sight.now (made (ahead_of c.old)).init) told.old) }
    ensures passes { OnOk result (Passes c.old c.new) }
{
    match c.rule() {
        Some(rule::CONST_INIT) => {
            note_const(alloc, sight, c, ty, told)?;
            Ok(())
        }
        Some(rule::ZERO_INIT) => Ok(()),
        Some(rule::BYTES_INIT) => note_bytes(alloc, c, ty, told),
        Some(rule::ARRAY_INIT) => note_array_init(alloc, sight, c, ty, told),
        Some(rule::STRUCT_INIT) => note_struct_init(alloc, sight, c, ty, told),
        other => {
            c.pass(other);
            Ok(())
        }
    }
}
