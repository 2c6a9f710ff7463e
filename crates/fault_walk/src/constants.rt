//! Types, numbers and constants.
ghost use Rattle.std.specs.Prelude.{◌≡◌, ◌++◌, ◌∷◌, ◌&&◌, ◌||◌, List, [], map, not, Some, IfOk, OnOk};
ghost use Rattle.std.specs.List.{flat_map};
ghost use Rattle.std.specs.Option.{option_copied, option_map};
ghost use Rattle.derivation_cursor.specs.At.{Passes, PassesAll, ahead_of};
ghost use Rattle.module_derivations.specs.FlatMarks.Flat.{behind, skip};
ghost use Rattle.ir_core.specs.Typing as typing;
ghost use Rattle.ir_core.specs.Typing.{Index};
ghost use Rattle.ir_types.specs.declared.named.NamedTy.{NamedTy as NamedTyOf};
ghost use Rattle.ir_types.specs.declared.ty.Ty.{Ptr, Ty as TyOf};
ghost use Rattle.ir_types.specs.Same as same;
ghost use Rattle.module_derivations.specs.Empty.{made, said};
ghost use Rattle.module_derivations.specs.Said as says;
ghost use Rattle.module_derivations.specs.Types.{any_type};
ghost use Rattle.module_grammar.specs.declared.types.TypeText as type_text;
ghost use Rattle.module_grammar.specs.declared.types.TypeText.{TypeText};
ghost use Rattle.module_spelling.specs.Blocks as wanted;
ghost use Rattle.named_modules.specs.Addresses.{address_type};
ghost use Rattle.named_modules.specs.Constants.{global_name, may_be};
ghost use Rattle.named_modules.specs.Faults as faults;
ghost use Rattle.named_modules.specs.Types as typed;
ghost use Rattle.named_modules.specs.Types.{type_of};
ghost use Rattle.fault_walk.specs.Indices as meaning;
ghost use Rattle.fault_walk.specs.Indices.{IsPath, const_index};
ghost use Rattle.fault_walk.specs.Parts as parts;
ghost use Rattle.fault_walk.specs.Stated.{stated};
ghost use Rattle.fault_walk.specs.Told.{faults_more, is_stepped_large, told_more};

use crate::sight::Sight;
use crate::told::{Told, at, from, note, note_other, note_place, note_unless};
use derivation_cursor::{
    Cursor, no_name, read_name, read_number, read_place, read_width, skip_part,
};
use ir_core::{Name, Ty, is_first_class, is_integer, is_pointer, same_ty};
use ir_lexer::Number;
use ir_typing::{entered, points_to};
use module_derivations::rule;
use module_grammar::{IntText, Placed};
use module_walk::{read_integer, read_type};
use name_claims::{Fault, Reason};
use named_modules::int_of;
use std::alloc::{AllocError, Global};

/// The counts are below it.
const COUNTS: u128 = 18_446_744_073_709_551_616;

// ---- types

/// Whether the number counts the elements of an array.
fn is_count(number: &Number) -> bool
    ensures { result ≡ typed.is_count number.now }
{
    let magnitude = number.magnitude.get();
    magnitude < COUNTS && (!number.negative || magnitude == 0)
}

/// `LOCAL`
fn note_named(
    alloc: Global,
    sight: &Sight,
    c: &mut Cursor,
    told: &mut Told,
) -> Result<u32, AllocError>
    ensures place { IfOk result (λ it. it ≡ faults.first_of (type_text.Named (says.name_of (said (ahead_of c.old))))) }
    ensures told { OnOk result (told.new ≡ told_more sight.now (faults.type_faults sight.now (type_text.Named (says.name_of (said (ahead_of c.old))))) [] told.old) }
    ensures passes { OnOk result (Passes c.old c.new) }
{
    let name = read_name(alloc, c)?;
    let known = sight.has_type(&name.what);
    note_unless(told, known, at(&name, Reason::Unknown));
    Ok(name.start)
}

/// `[ NUMBER x T ]`
#[cycle(types)]
fn note_array(
    alloc: Global,
    sight: &Sight,
    c: &mut Cursor,
    told: &mut Told,
) -> Result<u32, AllocError>
    ensures place { IfOk result (λ it. it ≡ says.place_of (said (ahead_of c.old))) }
    ensures told { OnOk result (told.new ≡ told_more sight.now (faults.type_faults sight.now (type_text.Array (says.place_of (said (ahead_of c.old))) (says.number_of (said (behind (ahead_of c.old))), any_type (skip 2 (ahead_of c.old))))) [] told.old) }
    ensures passes { OnOk result (PassesAll 4 c.old c.new) }
{
    let place = read_place(c);
    let count = read_number(alloc, c)?;
    note_unless(told, is_count(&count.what), at(&count, Reason::WrongType));
    note_type(alloc, sight, c, told)?;
    Ok(place)
}

/// `{ T, .. }`
#[cycle(types)]
fn note_struct(
    alloc: Global,
    sight: &Sight,
    c: &mut Cursor,
    told: &mut Told,
) -> Result<u32, AllocError>
    ensures place { IfOk result (λ it. it ≡ says.place_of (said (ahead_of c.old))) }
    ensures told { OnOk result (told.new ≡ told_more sight.now (faults.type_faults sight.now (type_text.Struct (says.place_of (said (ahead_of c.old))) (made (behind (ahead_of c.old))).types)) [] told.old) }
    ensures passes { OnOk result (PassesAll 2 c.old c.new) }
{
    let place = read_place(c);
    note_types(alloc, sight, c, told)?;
    Ok(place)
}

/// `iN`, `LOCAL`, `[ NUMBER x T ]` or `{ T, .. }`
#[cycle(types)]
#[tactic(auto, using(crate::proofs::Differ::differ, crate::proofs::TypeCases::first_int, crate::proofs::TypeCases::first_array, crate::proofs::TypeCases::first_struct, crate::proofs::TypeCases::first_nothing))]
fn note_base_type(
    alloc: Global,
    sight: &Sight,
    c: &mut Cursor,
    told: &mut Told,
) -> Result<u32, AllocError>
    ensures place { IfOk result (λ it. it ≡ faults.first_of (made (ahead_of c.old)).base_type) }
    ensures told { OnOk result (told.new ≡ told_more sight.now (faults.type_faults sight.now (made (ahead_of c.old)).base_type) [] told.old) }
    ensures passes { OnOk result (Passes c.old c.new) }
{
    match c.rule() {
        Some(rule::INT_TYPE) => Ok(read_width(c).start),
        Some(rule::NAMED_BASE) => note_named(alloc, sight, c, told),
        Some(rule::ARRAY_TYPE) => note_array(alloc, sight, c, told),
        Some(rule::STRUCT_TYPE) => note_struct(alloc, sight, c, told),
        other => {
            c.pass(other);
            Ok(0)
        }
    }
}

/// What is at fault in a type, and where its first token stands.
#[cycle(types)]
#[tactic(auto, using(crate::proofs::TypeCases::first_pointers))]
pub(crate) fn note_type(
    alloc: Global,
    sight: &Sight,
    c: &mut Cursor,
    told: &mut Told,
) -> Result<u32, AllocError>
    ensures place { IfOk result (λ it. it ≡ faults.first_of (any_type (ahead_of c.old))) }
    ensures told { OnOk result (told.new ≡ told_more sight.now (faults.type_faults sight.now (any_type (ahead_of c.old))) [] told.old) }
    ensures passes { OnOk result (PassesAll 2 c.old c.new) }
{
    let place = note_base_type(alloc, sight, c, told)?;
    skip_part(c);
    Ok(place)
}

/// `, T` and so on.
#[cycle(types)]
#[tactic(auto, using(crate::proofs::Differ::differ, crate::proofs::Joined::noted_joined))]
fn note_more_types(
    alloc: Global,
    sight: &Sight,
    c: &mut Cursor,
    told: &mut Told,
) -> Result<(), AllocError>
    ensures told { OnOk result (told.new ≡ told_more sight.now (flat_map (faults.type_faults sight.now) (made (ahead_of c.old)).more_types) [] told.old) }
    ensures passes { OnOk result (Passes c.old c.new) }
{
    loop {
        match c.rule() {
            Some(rule::MORE_TYPES) => {
                note_type(alloc, sight, c, told)?;
            }
            other => {
                c.pass(other);
                return Ok(());
            }
        }
    }
}

/// What is at fault in `[T {, T}]`.
#[cycle(types)]
#[tactic(auto, using(crate::proofs::Differ::differ, crate::proofs::Joined::noted_joined))]
pub(crate) fn note_types(
    alloc: Global,
    sight: &Sight,
    c: &mut Cursor,
    told: &mut Told,
) -> Result<(), AllocError>
    ensures told { OnOk result (told.new ≡ told_more sight.now (flat_map (faults.type_faults sight.now) (made (ahead_of c.old)).types) [] told.old) }
    ensures passes { OnOk result (Passes c.old c.new) }
{
    match c.rule() {
        Some(rule::TYPES) => {
            note_type(alloc, sight, c, told)?;
            note_more_types(alloc, sight, c, told)
        }
        other => {
            c.pass(other);
            Ok(())
        }
    }
}

/// What is at fault in the type in front, which isn't passed, and where its first token stands.
pub(crate) fn note_type_ahead(
    alloc: Global,
    sight: &Sight,
    c: &Cursor,
    told: &mut Told,
) -> Result<u32, AllocError>
    ensures place { IfOk result (λ it. it ≡ faults.first_of (any_type (ahead_of c.now))) }
    ensures told { OnOk result (told.new ≡ told_more sight.now (faults.type_faults sight.now (any_type (ahead_of c.now))) [] told.old) }
{
    let mut ahead = c.fork();
    note_type(alloc, sight, &mut ahead, told)
}

// ---- types that are read

/// A type, where its first token stands, and whether nothing is at fault in it.
pub(crate) struct Stated {
    pub ty: Ty,
    pub place: u32,
    pub is_faultless: bool,
}

impl Drop for Stated {
    fn drop(self) {
        let Stated {
            ty: _,
            place: _,
            is_faultless: _,
        } = self;
    }
}

/// A type, and whether something is at fault in it.
#[tactic(auto, using(crate::proofs::Joined::noted_apart))]
pub(crate) fn read_stated(
    alloc: Global,
    sight: &Sight,
    c: &mut Cursor,
    told: &mut Told,
) -> Result<Stated, AllocError>
    ensures stated { IfOk result (λ it. it ≡ stated sight.now (any_type (ahead_of c.old))) }
    ensures told { OnOk result (told.new ≡ told_more sight.now (faults.type_faults sight.now (any_type (ahead_of c.old))) [] told.old) }
    ensures passes { OnOk result (PassesAll 2 c.old c.new) }
{
    let mut own = Told {
        fault: None,
        large: None,
    };
    let place = note_type_ahead(alloc, sight, c, &mut own)?;
    let ty = read_type(alloc, c)?;
    note_other(told, own.fault);
    Ok(Stated {
        ty,
        place,
        is_faultless: own.fault.is_none(),
    })
}

/// A type.
pub(crate) fn read_known(
    alloc: Global,
    sight: &Sight,
    c: &mut Cursor,
    told: &mut Told,
) -> Result<Ty, AllocError>
    ensures known { IfOk result (λ it. it ≡ type_of (any_type (ahead_of c.old))) }
    ensures told { OnOk result (told.new ≡ told_more sight.now (faults.type_faults sight.now (any_type (ahead_of c.old))) [] told.old) }
    ensures passes { OnOk result (PassesAll 2 c.old c.new) }
{
    note_type_ahead(alloc, sight, c, told)?;
    read_type(alloc, c)
}

/// A type of values.
#[tactic(auto, using(crate::proofs::Joined::noted_joined))]
pub(crate) fn read_valued(
    alloc: Global,
    sight: &Sight,
    c: &mut Cursor,
    told: &mut Told,
) -> Result<Ty, AllocError>
    ensures valued { IfOk result (λ it. it ≡ type_of (any_type (ahead_of c.old))) }
    ensures told { OnOk result (told.new ≡ told_more sight.now (faults.value_type_faults sight.now (any_type (ahead_of c.old))) [] told.old) }
    ensures passes { OnOk result (PassesAll 2 c.old c.new) }
{
    let place = note_type_ahead(alloc, sight, c, told)?;
    let ty = read_type(alloc, c)?;
    note_unless(told, is_first_class(&ty), from(place, 1, Reason::WrongType));
    Ok(ty)
}

/// So many of a type.
pub(crate) fn note_block(sight: &Sight, of: &Stated, count: u64, told: &mut Told)
    ensures { (w : TypeText) → of.now ≡ stated sight.now w → told.new ≡ told_more sight.now [] (wanted.so_many sight.now w (Some count)) told.old }
{
    note_place(
        told,
        of.is_faultless && sight.is_large(&of.ty, count),
        of.place,
    );
}

// ---- names and numbers

/// The name of a global, of debugging or not.
pub(crate) fn read_global_name(alloc: Global, c: &mut Cursor) -> Result<Placed<Name>, AllocError>
    ensures name { IfOk result (λ it. it ≡ global_name (made (ahead_of c.old)).global_name) }
    ensures passes { OnOk result (Passes c.old c.new) }
{
    match c.rule() {
        Some(rule::PLAIN_NAME) => read_name(alloc, c),
        Some(rule::DEBUG_NAME) => read_name(alloc, c),
        other => {
            c.pass(other);
            Ok(no_name())
        }
    }
}

/// The place of a number that is written.
fn int_fault(int: &IntText) -> Fault
    ensures { result ≡ faults.int_fault int.now }
{
    match int {
        IntText::Number(number) => at(number, Reason::WrongType),
        IntText::Truth(word) => at(word, Reason::WrongType),
    }
}

/// A number is one of its type.
pub(crate) fn note_int(
    alloc: Global,
    c: &mut Cursor,
    ty: &Ty,
    told: &mut Told,
) -> Result<Option<u64>, AllocError>
    ensures number { IfOk result (λ it. it ≡ typed.int_of ty.now (made (ahead_of c.old)).integer) }
    ensures told { OnOk result (told.new ≡ faults_more (faults.int_faults ty.now (made (ahead_of c.old)).integer) told.old) }
    ensures passes { OnOk result (Passes c.old c.new) }
{
    let int = read_integer(alloc, c)?;
    let number = int_of(ty, &int);
    note_unless(told, number.is_some(), int_fault(&int));
    Ok(number)
}

/// Whether it is a power of two, 2^29 at most.
#[tactic(auto, using(crate::proofs::Powers::power_more))]
fn is_any_power(magnitude: u128) -> bool
    ensures { result ≡ parts.is_power magnitude }
{
    let mut found = false;
    for exponent in 0..30_u32 {
        found = magnitude == 1 << exponent || found;
    }
    found
}

/// The same. Most alignments are one of the first few.
#[tactic(auto, using(crate::proofs::Powers::small_power))]
fn is_power(magnitude: u128) -> bool
    ensures { result ≡ parts.is_power magnitude }
{
    if magnitude == 4 || magnitude == 8 || magnitude == 1 || magnitude == 16 {
        return true;
    }
    is_any_power(magnitude)
}

fn is_align(number: &Number) -> bool
    ensures { result ≡ faults.is_align number.now }
{
    let magnitude = number.magnitude.get();
    magnitude == 0 || (!number.negative && is_power(magnitude))
}

/// An alignment is a power of two, or 0.
pub(crate) fn note_align_number(
    alloc: Global,
    c: &mut Cursor,
    told: &mut Told,
) -> Result<(), AllocError>
    ensures told { OnOk result (told.new ≡ faults_more (faults.align_faults (Some (says.number_of (said (ahead_of c.old))))) told.old) }
    ensures passes { OnOk result (Passes c.old c.new) }
{
    let number = read_number(alloc, c)?;
    note_unless(told, is_align(&number.what), at(&number, Reason::WrongType));
    Ok(())
}

/// `[, align NUMBER]`
pub(crate) fn note_align(alloc: Global, c: &mut Cursor, told: &mut Told) -> Result<(), AllocError>
    ensures told { OnOk result (told.new ≡ faults_more (faults.align_faults (made (ahead_of c.old)).align) told.old) }
    ensures passes { OnOk result (Passes c.old c.new) }
{
    match c.rule() {
        Some(rule::ALIGN) => note_align_number(alloc, c, told),
        other => {
            c.pass(other);
            Ok(())
        }
    }
}

// ---- paths

/// Whether the type is large, where there is one.
fn is_any_large(sight: &Sight, ty: Option<&Ty>) -> bool
    ensures { result ≡ meaning.is_any_large sight.now.types (option_copied ty.entry) }
{
    match ty {
        Some(ty) => sight.is_large(ty, 1),
        None => false,
    }
}

/// The types that indices enter, one inside the other: whether a first index has come, and is an integer, what those behind it have led to,
/// and whether one of the types is large.
#[derive(Drop, Clone, Copy)]
pub(crate) struct Path<'a> {
    begun: bool,
    over: bool,
    led: Option<&'a Ty>,
    large: bool,
    clear: bool,
}

impl<'a> Path<'a> {
    /// No index has come.
    pub(crate) fn new(sight: &Sight, of: &'a Ty) -> Path<'a>
        ensures { IsPath sight.now.types of.now [] result }
    {
        let clear = sight.is_stepped_clear(of);
        Path {
            begun: false,
            over: true,
            led: Some(of),
            large: !clear && sight.is_large(of, 1),
            clear,
        }
    }

    /// What an index leads on to, if those before it have led anywhere.
    fn entered(&self, sight: &'a Sight, ty: &Ty, number: Option<u64>) -> Option<&'a Ty>
        ensures { option_copied result ≡ meaning.entered_from sight.now.types (option_copied self.now.led) (meaning.index_at ty.now number) }
    {
        match self.led {
            Some(of) => entered(sight.types(), of, ty, number),
            None => None,
        }
    }

    /// An index behind the first one.
    fn enter(&mut self, sight: &'a Sight, ty: &Ty, number: Option<u64>)
        ensures begun { self.new.begun ≡ self.old.begun }
        ensures over { self.new.over ≡ self.old.over }
        ensures led { option_copied self.new.led ≡ meaning.entered_from sight.now.types (option_copied self.old.led) (meaning.index_at ty.now number) }
        ensures large { self.new.large ≡ (self.old.large || (not self.old.clear && meaning.is_any_large sight.now.types (option_copied self.new.led))) }
        ensures clear { self.new.clear ≡ self.old.clear }
    {
        let led = self.entered(sight, ty, number);
        self.large = self.large || (!self.clear && is_any_large(sight, led));
        self.led = led;
    }

    /// An index more, which may be a number.
    #[tactic(auto, using(crate::proofs::Paths::begins))]
    pub(crate) fn step(&mut self, sight: &'a Sight, ty: &Ty, number: Option<u64>)
        ensures { (of : TyOf) (indices : List Index) → IsPath sight.now.types of indices self.old
            → IsPath sight.now.types of (indices ++ meaning.index_at ty.now number ∷ []) self.new }
    {
        if self.begun {
            self.enter(sight, ty, number);
        } else {
            self.begun = true;
            self.over = is_integer(ty);
        }
    }

    /// Whether one of the types is large.
    pub(crate) fn is_large(&self) -> bool
        ensures { (types : List NamedTyOf) (of : TyOf) (indices : List Index) → IsPath types of indices self.now → result ≡ is_stepped_large types of indices }
    {
        self.large
    }

    /// What the indices lead to, if they lead anywhere.
    pub(crate) fn pointed(&self) -> Option<&'a Ty>
        ensures { (types : List NamedTyOf) (of : TyOf) (indices : List Index) → IsPath types of indices self.now
            → option_map Ptr (option_copied result) ≡ typing.element_type types of indices }
    {
        if self.over { self.led } else { None }
    }
}

/// The first type of an address, and those that its indices enter.
pub(crate) fn note_path(sight: &Sight, of: &Stated, path: &Path, told: &mut Told)
    ensures { (w : TypeText) (indices : List Index) → of.now ≡ stated sight.now w → IsPath sight.now.types of.now.ty indices path.now
        → told.new ≡ told_more sight.now [] (wanted.wants_along sight.now w indices) told.old }
{
    let _ = sight;
    note_place(told, of.is_faultless && path.is_large(), of.place);
}

// ---- constants

/// Whether it is a pointer to this type.
#[tactic(auto, using(ir_typing::proofs::OperandTests::Lent::turned))]
fn is_address_of(pointed: &Ty, ty: &Ty) -> bool
    ensures { result ≡ same.same_ty (Ptr pointed.now) ty.now }
{
    points_to(ty, pointed)
}

/// Whether it is the name of a function.
pub(crate) fn is_function(sight: &Sight, name: &Name) -> bool
    ensures { result ≡ faults.is_function sight.now name.now }
{
    sight.callee(name).is_some()
}

/// Why a name that is no global's isn't one's.
fn why_missing(sight: &Sight, name: &Name) -> Reason
    ensures { result ≡ parts.why_missing sight.now name.now }
{
    if is_function(sight, name) {
        Reason::LeftOut
    } else {
        Reason::Unknown
    }
}

/// The name of a global at the type.
fn note_global(
    alloc: Global,
    sight: &Sight,
    c: &mut Cursor,
    ty: &Ty,
    told: &mut Told,
) -> Result<(), AllocError>
    ensures told { OnOk result (told.new ≡ told_more sight.now (parts.named_faults sight.now ty.now (global_name (made (ahead_of c.old)).global_name)) [] told.old) }
    ensures passes { OnOk result (Passes c.old c.new) }
{
    let name = read_global_name(alloc, c)?;
    match sight.contents(&name.what) {
        Some(contents) => {
            let fits = is_address_of(contents, ty);
            note_unless(told, fits, at(&name, Reason::WrongType));
        }
        None => note(told, at(&name, why_missing(sight, &name.what))),
    }
    Ok(())
}

/// Whether the address may be of the type: without index it is of its base's, and where the indices lead nowhere it is of each.
fn leads_to(path: &Path, base: &Ty, ty: &Ty) -> bool
    ensures { (types : List NamedTyOf) (of : TyOf) (indices : List Index) → IsPath types of indices path.now
        → result ≡ may_be (address_type types base.now of indices) ty.now }
{
    if !path.begun {
        return same_ty(base, ty);
    }
    match path.pointed() {
        Some(pointed) => is_address_of(pointed, ty),
        None => true,
    }
}

/// `T CONST`
#[cycle(constants)]
#[tactic(auto, using(crate::proofs::Joined::noted_joined))]
fn note_part(
    alloc: Global,
    sight: &Sight,
    c: &mut Cursor,
    told: &mut Told,
) -> Result<(Ty, Option<u64>), AllocError>
    ensures index { IfOk result (λ it. meaning.index_at it.0 it.1 ≡ const_index (any_type (ahead_of c.old), (made (skip 2 (ahead_of c.old))).constant)) }
    ensures told { OnOk result (told.new ≡ told_more sight.now (parts.part_faults sight.now (any_type (ahead_of c.old), (made (skip 2 (ahead_of c.old))).constant)) (wanted.wanted_by_const sight.now (made (skip 2 (ahead_of c.old))).constant) told.old) }
    ensures passes { OnOk result (PassesAll 3 c.old c.new) }
{
    let ty = read_valued(alloc, sight, c, told)?;
    let number = note_const(alloc, sight, c, &ty, told)?;
    Ok((ty, number))
}

/// `, T CONST` and so on: indices from this type on.
#[cycle(constants)]
#[tactic(auto, using(crate::proofs::Differ::differ, crate::proofs::Joined::noted_joined, crate::proofs::Joined::large_joined))]
fn note_indices<'a>(
    alloc: Global,
    sight: &'a Sight,
    c: &mut Cursor,
    of: &'a Ty,
    told: &mut Told,
) -> Result<Path<'a>, AllocError>
    ensures path { IfOk result (λ it. IsPath sight.now.types of.now (map const_index (made (ahead_of c.old)).more_consts) it) }
    ensures told { OnOk result (told.new ≡ told_more sight.now (flat_map (parts.part_faults sight.now) (made (ahead_of c.old)).more_consts) (flat_map (parts.wanted_by_part sight.now) (made (ahead_of c.old)).more_consts) told.old) }
    ensures passes { OnOk result (Passes c.old c.new) }
{
    let mut path = Path::new(sight, of);
    loop {
        match c.rule() {
            Some(rule::MORE_CONSTS) => {
                let (ty, number) = note_part(alloc, sight, c, told)?;
                path.step(sight, &ty, number);
            }
            other => {
                c.pass(other);
                return Ok(path);
            }
        }
    }
}

/// `getelementptr inbounds (T, T CONST, T CONST ..)`
#[cycle(constants)]
fn note_element(
    alloc: Global,
    sight: &Sight,
    c: &mut Cursor,
    ty: &Ty,
    told: &mut Told,
) -> Result<(), AllocError>
    ensures told { OnOk result (told.new ≡ told_more sight.now (faults.const_faults sight.now (parts.element_ahead (ahead_of c.old)) ty.now) (wanted.wanted_by_const sight.now (parts.element_ahead (ahead_of c.old))) told.old) }
    ensures passes { OnOk result (PassesAll 8 c.old c.new) }
{
    let place = read_place(c);
    skip_part(c);
    let of = read_stated(alloc, sight, c, told)?;
    let base = note_part(alloc, sight, c, told)?;
    let path = note_indices(alloc, &*sight, c, &of.ty, told)?;
    note_path(sight, &of, &path, told);
    note_unless(
        told,
        leads_to(&path, &base.0, ty),
        from(place, 13, Reason::WrongType),
    );
    Ok(())
}

/// `bitcast (T CONST to T)`
#[cycle(constants)]
fn note_cast(
    alloc: Global,
    sight: &Sight,
    c: &mut Cursor,
    ty: &Ty,
    told: &mut Told,
) -> Result<(), AllocError>
    ensures told { OnOk result (told.new ≡ told_more sight.now (faults.const_faults sight.now (parts.cast_ahead (ahead_of c.old)) ty.now) (wanted.wanted_by_const sight.now (parts.cast_ahead (ahead_of c.old))) told.old) }
    ensures passes { OnOk result (PassesAll 6 c.old c.new) }
{
    let place = read_place(c);
    note_part(alloc, sight, c, told)?;
    let target = read_known(alloc, sight, c, told)?;
    note_unless(
        told,
        same_ty(&target, ty),
        from(place, 7, Reason::WrongType),
    );
    Ok(())
}

/// A constant at the type that is stated for it, and its number there, if it is one.
#[cycle(constants)]
#[tactic(auto, using(crate::proofs::Differ::differ, crate::proofs::NumberedKinds::of_int, crate::proofs::NumberedKinds::of_null, crate::proofs::NumberedKinds::of_undef, crate::proofs::NumberedKinds::of_global, crate::proofs::NumberedKinds::of_element, crate::proofs::NumberedKinds::of_cast))]
pub(crate) fn note_const(
    alloc: Global,
    sight: &Sight,
    c: &mut Cursor,
    ty: &Ty,
    told: &mut Told,
) -> Result<Option<u64>, AllocError>
    ensures number { IfOk result (λ it. it ≡ meaning.number_at (made (ahead_of c.old)).constant ty.now) }
    ensures told { OnOk result (told.new ≡ told_more sight.now (faults.const_faults sight.now (made (ahead_of c.old)).constant ty.now) (wanted.wanted_by_const sight.now (made (ahead_of c.old)).constant) told.old) }
    ensures passes { OnOk result (Passes c.old c.new) }
{
    match c.rule() {
        Some(rule::INT_CONST) => note_int(alloc, c, ty, told),
        Some(rule::NULL_CONST) => {
            let place = read_place(c);
            note_unless(told, is_pointer(ty), from(place, 4, Reason::WrongType));
            Ok(None)
        }
        Some(rule::UNDEF_CONST) => Ok(None),
        Some(rule::GLOBAL_CONST) => {
            note_global(alloc, sight, c, ty, told)?;
            Ok(None)
        }
        Some(rule::ELEMENT_CONST) => {
            note_element(alloc, sight, c, ty, told)?;
            Ok(None)
        }
        Some(rule::CAST_CONST) => {
            note_cast(alloc, sight, c, ty, told)?;
            Ok(None)
        }
        other => {
            c.pass(other);
            Ok(None)
        }
    }
}
