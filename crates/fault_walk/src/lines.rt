//! What is at fault in labels, values, operations and calls, and what they want (LangRef 3.7, Identifiers, Instruction Reference).
#![tactic(auto, using(crate::proofs::Differ::differ))]

ghost use Rattle.std.specs.Prelude.{◌≡◌, ◌∷◌, [], map, Some, None, IfOk, OnOk, length, slice_get};
ghost use Rattle.std.specs.List.{flat_map};
ghost use Rattle.std.specs.Option.{option_copied, option_map};
ghost use Rattle.derivation_cursor.specs.At.{Closes, Passes, PassesAll, ahead_of};
ghost use Rattle.module_derivations.specs.FlatMarks.Flat.{behind, skip};
ghost use Rattle.ir_core.specs.Typing.{index_of, number_in};
ghost use Rattle.ir_types.specs.Same as same;
ghost use Rattle.ir_typing.specs.OperandTests.Kept.{signature_of};
ghost use Rattle.module_derivations.specs.Constants.{operand};
ghost use Rattle.module_derivations.specs.Empty.{made, said};
ghost use Rattle.module_derivations.specs.Lines as see;
ghost use Rattle.module_derivations.specs.Said.{name_of};
ghost use Rattle.module_derivations.specs.Types.{any_type};
ghost use Rattle.module_derivations.specs.declared.rule.TheConstants as rules;
ghost use Rattle.module_grammar.specs.Joined.{called_from};
ghost use Rattle.module_spelling.specs.Blocks as wanted;
ghost use Rattle.name_claims.specs.declared.claims.Reason.TheVariants as reason;
ghost use Rattle.named_modules.specs.Built.{operand_of, value_at};
ghost use Rattle.named_modules.specs.Constants.{global_name};
ghost use Rattle.named_modules.specs.Faults as meaning;
ghost use Rattle.named_modules.specs.Types.{type_of};
ghost use Rattle.fault_walk.specs.Lines as part;
ghost use Rattle.fault_walk.specs.Names.{thing_seen};
ghost use Rattle.fault_walk.specs.Told.{faults_more, told_more};

use crate::constants::{note_const, read_global_name, read_known, read_valued};
use crate::names::{Thing, Within};
use crate::sight::Sight;
use crate::told::{Told, at, note, note_unless};
use contents::Seq;
use derivation_cursor::{Cursor, Gaps, read_name, skip_part};
use ir_core::{DeclaredParam, Name, Param, Ty};
use ir_typing::{Callee, is_same_ty};
use module_derivations::rule;
use module_grammar::Placed;
use name_claims::Reason;
use std::alloc::{AllocError, Global};

// ---- names of the function

/// A name is a block's.
pub(crate) fn note_block_name(name: &Placed<Name>, thing: Option<Thing>, told: &mut Told)
    ensures { told.new ≡ faults_more (meaning.block_faults_of name.now (option_map thing_seen thing.entry)) told.old }
{
    match thing {
        None => note(told, at(name, Reason::Unknown)),
        Some(Thing::Block) => {}
        Some(Thing::Register(_)) => note(told, at(name, Reason::WrongType)),
    }
}

/// `LOCAL`, as the label of a block.
pub(crate) fn note_label(
    alloc: Global,
    within: &Within,
    c: &mut Cursor,
    told: &mut Told,
) -> Result<(), AllocError>
    ensures told { OnOk result (told.new ≡ faults_more (meaning.label_faults within.now.things (name_of (said (ahead_of c.old)))) told.old) }
    ensures passes { OnOk result (Passes c.old c.new) }
{
    let name = read_name(alloc, c)?;
    note_block_name(&name, within.get(&name.what), told);
    Ok(())
}

fn note_own(ty: &Ty, name: &Placed<Name>, own: Option<&Ty>, told: &mut Told)
    ensures { told.new ≡ faults_more (meaning.own_faults ty.now name.now (option_copied own.entry)) told.old }
{
    match own {
        None => {}
        Some(own) => {
            let fits = is_same_ty(own, ty);
            note_unless(told, fits, at(name, Reason::WrongType));
        }
    }
}

/// A name is a register's of this type.
fn note_register(ty: &Ty, name: &Placed<Name>, thing: Option<Thing>, told: &mut Told)
    ensures { told.new ≡ faults_more (meaning.register_faults ty.now name.now (option_map thing_seen thing.entry)) told.old }
{
    match thing {
        None => note(told, at(name, Reason::Unknown)),
        Some(Thing::Block) => note(told, at(name, Reason::WrongType)),
        Some(Thing::Register(own)) => note_own(ty, name, own, told),
    }
}

// ---- values and operands

/// `LOCAL`, as a register.
fn note_local(
    alloc: Global,
    within: &Within,
    c: &mut Cursor,
    ty: &Ty,
    told: &mut Told,
) -> Result<Option<u64>, AllocError>
    ensures number { IfOk result (λ it. it ≡ None) }
    ensures told { OnOk result (told.new ≡ faults_more (meaning.register_faults ty.now (name_of (said (ahead_of c.old))) (meaning.thing_of within.now.things (name_of (said (ahead_of c.old))).what)) told.old) }
    ensures passes { OnOk result (Passes c.old c.new) }
{
    let name = read_name(alloc, c)?;
    note_register(ty, &name, within.get(&name.what), told);
    Ok(None)
}

/// `old LOCAL` or `ghost LOCAL`, which no line names.
fn note_tagged(alloc: Global, c: &mut Cursor, told: &mut Told) -> Result<Option<u64>, AllocError>
    ensures number { IfOk result (λ it. it ≡ None) }
    ensures told { OnOk result (told.new ≡ faults_more (meaning.at (name_of (said (ahead_of c.old))) reason.WrongType ∷ []) told.old) }
    ensures passes { OnOk result (Passes c.old c.new) }
{
    let name = read_name(alloc, c)?;
    note(told, at(&name, Reason::WrongType));
    Ok(None)
}

/// A value of this type, and the number that it is, if it is one.
pub(crate) fn note_value(
    alloc: Global,
    within: &Within,
    c: &mut Cursor,
    ty: &Ty,
    told: &mut Told,
) -> Result<Option<u64>, AllocError>
    ensures number { IfOk result (λ it. it ≡ number_in (value_at ty.now (made (ahead_of c.old)).value)) }
    ensures told { OnOk result (told.new ≡ told_more within.now.heads (meaning.value_faults within.now.heads within.now.things ty.now (made (ahead_of c.old)).value) (wanted.wanted_by_value within.now.heads (made (ahead_of c.old)).value) told.old) }
    ensures passes { OnOk result (Passes c.old c.new) }
{
    match c.rule() {
        Some(rule::CONST_VALUE) => note_const(alloc, within.sight(), c, ty, told),
        Some(rule::LOCAL) => note_local(alloc, within, c, ty, told),
        Some(rule::OLD_REGISTER) => note_tagged(alloc, c, told),
        Some(rule::GHOST_REGISTER) => note_tagged(alloc, c, told),
        other => {
            c.pass(other);
            Ok(None)
        }
    }
}

/// `T V`: its type, and the number that it is, if it is one.
pub(crate) fn note_operand(
    alloc: Global,
    within: &Within,
    c: &mut Cursor,
    told: &mut Told,
) -> Result<(Ty, Option<u64>), AllocError>
    ensures index { IfOk result (λ it. record { ty = it.0; number = it.1 } ≡ index_of (operand_of (operand (ahead_of c.old)))) }
    ensures told { OnOk result (told.new ≡ told_more within.now.heads (meaning.operand_faults within.now.heads within.now.things (operand (ahead_of c.old))) (wanted.wanted_by_operand within.now.heads (operand (ahead_of c.old))) told.old) }
    ensures passes { OnOk result (PassesAll 3 c.old c.new) }
{
    let ty = read_valued(alloc, within.sight(), c, told)?;
    let number = note_value(alloc, within, c, &ty, told)?;
    Ok((ty, number))
}

// ---- operations

/// `operand , value` behind an operator.
fn note_pair(
    alloc: Global,
    within: &Within,
    c: &mut Cursor,
    told: &mut Told,
) -> Result<(), AllocError>
    ensures told { OnOk result (told.new ≡ told_more within.now.heads (part.pair_faults within.now.heads within.now.things (operand (behind (ahead_of c.old))) (made (skip 4 (ahead_of c.old))).value) (part.wanted_by_pair within.now.heads (operand (behind (ahead_of c.old))) (made (skip 4 (ahead_of c.old))).value) told.old) }
    ensures passes { OnOk result (PassesAll 5 c.old c.new) }
{
    skip_part(c);
    let left = note_operand(alloc, within, c, told)?;
    note_value(alloc, within, c, &left.0, told)?;
    Ok(())
}

/// `operand to any_type` behind an operator.
fn note_cast(
    alloc: Global,
    within: &Within,
    c: &mut Cursor,
    told: &mut Told,
) -> Result<(), AllocError>
    ensures told { OnOk result (told.new ≡ told_more within.now.heads (part.cast_faults within.now.heads within.now.things (operand (behind (ahead_of c.old))) (any_type (skip 4 (ahead_of c.old)))) (wanted.wanted_by_operand within.now.heads (operand (behind (ahead_of c.old)))) told.old) }
    ensures passes { OnOk result (PassesAll 6 c.old c.new) }
{
    skip_part(c);
    note_operand(alloc, within, c, told)?;
    read_valued(alloc, within.sight(), c, told)?;
    Ok(())
}

/// `select operand , operand , operand`
fn note_select(
    alloc: Global,
    within: &Within,
    c: &mut Cursor,
    told: &mut Told,
) -> Result<(), AllocError>
    ensures told { OnOk result (told.new ≡ told_more within.now.heads (meaning.operation_faults within.now.heads within.now.things (see.operation_by (Some rules.SELECT) (ahead_of c.old))) (wanted.wanted_by_operation within.now.heads (see.operation_by (Some rules.SELECT) (ahead_of c.old))) told.old) }
    ensures closes { OnOk result (Closes (Some rules.SELECT) c.old c.new) }
{
    note_operand(alloc, within, c, told)?;
    note_operand(alloc, within, c, told)?;
    note_operand(alloc, within, c, told)?;
    Ok(())
}

/// A binary operation, a comparison, a conversion or a selection.
pub(crate) fn note_operation(
    alloc: Global,
    within: &Within,
    c: &mut Cursor,
    told: &mut Told,
) -> Result<(), AllocError>
    ensures told { OnOk result (told.new ≡ told_more within.now.heads (meaning.operation_faults within.now.heads within.now.things (made (ahead_of c.old)).operation) (wanted.wanted_by_operation within.now.heads (made (ahead_of c.old)).operation) told.old) }
    ensures passes { OnOk result (Passes c.old c.new) }
{
    match c.rule() {
        Some(rule::BINARY) => note_pair(alloc, within, c, told),
        Some(rule::COMPARE) => note_pair(alloc, within, c, told),
        Some(rule::RESIZE) => note_cast(alloc, within, c, told),
        Some(rule::BITCAST) => note_cast(alloc, within, c, told),
        Some(rule::SELECT) => note_select(alloc, within, c, told),
        other => {
            c.pass(other);
            Ok(())
        }
    }
}

// ---- types of parameters that are stated

/// Types of parameters, and whether further arguments may follow.
type Called = (Seq<Ty>, bool);

/// The types of parameters from one of them on, or from `...` on.
#[tactic(auto, using(crate::proofs::Differ::differ, crate::proofs::Other::no_next_called, crate::proofs::Other::no_more_called, module_walk::proofs::Onto::mapped_behind))]
fn read_next_called(
    alloc: Global,
    sight: &Sight,
    c: &mut Cursor,
    told: &mut Told,
) -> Result<Called, AllocError>
    ensures types { IfOk result (λ it. it.0 ≡ map type_of (called_from (made (ahead_of c.old)).next_called).types) }
    ensures is_open { IfOk result (λ it. it.1 ≡ (called_from (made (ahead_of c.old)).next_called).is_open) }
    ensures told { OnOk result (told.new ≡ faults_more (flat_map (meaning.type_faults sight.now) (called_from (made (ahead_of c.old)).next_called).types) told.old) }
    ensures passes { OnOk result (Passes c.old c.new) }
{
    let mut types = Seq::new(alloc);
    loop {
        match c.rule() {
            Some(rule::CALLED_TYPE) => {
                types.push(read_known(alloc, sight, c, told)?)?;
                match c.rule() {
                    Some(rule::MORE_CALLED) => {}
                    other => {
                        c.pass(other);
                        return Ok((types, false));
                    }
                }
            }
            other => {
                c.pass(other);
                return Ok((types, true));
            }
        }
    }
}

/// The types of parameters, and whether `...` stands behind them.
#[tactic(auto, using(crate::proofs::Differ::differ, crate::proofs::Other::no_called))]
fn read_called(
    alloc: Global,
    sight: &Sight,
    c: &mut Cursor,
    told: &mut Told,
) -> Result<Called, AllocError>
    ensures types { IfOk result (λ it. it.0 ≡ map type_of (made (ahead_of c.old)).called.types) }
    ensures is_open { IfOk result (λ it. it.1 ≡ (made (ahead_of c.old)).called.is_open) }
    ensures told { OnOk result (told.new ≡ faults_more (flat_map (meaning.type_faults sight.now) (made (ahead_of c.old)).called.types) told.old) }
    ensures passes { OnOk result (Passes c.old c.new) }
{
    match c.rule() {
        Some(rule::CALLED) => read_next_called(alloc, sight, c, told),
        other => {
            c.pass(other);
            Ok((Seq::new(alloc), false))
        }
    }
}

/// `( called )`, or nothing
#[tactic(auto, using(crate::proofs::Differ::differ, crate::proofs::Other::no_function_type))]
fn read_function_type(
    alloc: Global,
    sight: &Sight,
    c: &mut Cursor,
    told: &mut Told,
) -> Result<Option<Called>, AllocError>
    ensures called { IfOk result (λ it. it ≡ option_map part.called_built (made (ahead_of c.old)).function_type) }
    ensures told { OnOk result (told.new ≡ faults_more (meaning.stated_faults sight.now (made (ahead_of c.old)).function_type) told.old) }
    ensures passes { OnOk result (Passes c.old c.new) }
{
    match c.rule() {
        Some(rule::FUNCTION_TYPE) => Ok(Some(read_called(alloc, sight, c, told)?)),
        other => {
            c.pass(other);
            Ok(None)
        }
    }
}

/// What stands between the parentheses before a name, where something stands there.
fn read_stated_before<S: Gaps>(
    alloc: Global,
    sight: &Sight,
    around: &S,
    is_stated: bool,
    name: &Placed<Name>,
    told: &mut Told,
) -> Result<Option<Called>, AllocError>
    ensures called { IfOk result (λ it. it ≡ option_map part.called_built (meaning.stated_before (S.called around.now) is_stated name.now)) }
    ensures told { OnOk result (told.new ≡ faults_more (meaning.stated_faults sight.now (meaning.stated_before (S.called around.now) is_stated name.now)) told.old) }
{
    if is_stated {
        let mut c = around.called(name);
        Ok(Some(read_called(alloc, sight, &mut c, told)?))
    } else {
        Ok(None)
    }
}

// ---- functions that are called

/// How many parameters it has.
fn param_count(callee: Callee) -> usize
    ensures { result ≡ length (signature_of callee.entry).params }
{
    match callee {
        Callee::Defined(function) => function.params.len(),
        Callee::Declared(declaration) => declaration.params.len(),
    }
}

fn defined_param(param: Option<&Param>) -> Option<&Ty>
    ensures { option_copied result ≡ option_map part.type_defined (option_copied param.entry) }
{
    match param {
        Some(param) => Some(&param.ty),
        None => None,
    }
}

fn declared_param(param: Option<&DeclaredParam>) -> Option<&Ty>
    ensures { option_copied result ≡ option_map part.type_declared (option_copied param.entry) }
{
    match param {
        Some(param) => Some(&param.ty),
        None => None,
    }
}

/// The type of the parameter of that number.
#[tactic(auto, using(crate::proofs::Called::of_defined, crate::proofs::Called::of_declared))]
fn param_at<'a>(callee: Callee<'a>, number: usize) -> Option<&'a Ty>
    ensures { option_copied result ≡ slice_get (signature_of callee.entry).params number }
{
    match callee {
        Callee::Defined(function) => defined_param(function.params.get(number)),
        Callee::Declared(declaration) => declared_param(declaration.params.get(number)),
    }
}

/// Whether further arguments may follow.
fn is_variadic(callee: Callee) -> bool
    ensures { result ≡ (signature_of callee.entry).variadic }
{
    match callee {
        Callee::Defined(_) => false,
        Callee::Declared(declaration) => declaration.variadic,
    }
}

/// Whether both are there and the same, or neither is.
fn is_there(ty: Option<&Ty>, due: Option<&Ty>) -> bool
    ensures { result ≡ part.is_there (option_copied ty.entry) (option_copied due.entry) }
{
    match (ty, due) {
        (Some(ty), Some(due)) => is_same_ty(ty, due),
        (None, None) => true,
        _ => false,
    }
}

/// Whether these are the types of the parameters.
#[tactic(auto, using(crate::proofs::Called::params_more))]
fn are_params(callee: Callee, types: &Seq<Ty>) -> bool
    ensures { result ≡ same.same_list same.same_ty (signature_of callee.entry).params types.now }
{
    let count = types.len();
    if param_count(callee) != count {
        return false;
    }
    for number in 0..count {
        if !is_there(param_at(callee, number), types.get(number)) {
            return false;
        }
    }
    true
}

/// Whether the function is called so.
fn is_called(callee: Callee, called: &Option<Called>) -> bool
    ensures { result ≡ part.is_called_by (signature_of callee.entry) called.now }
{
    match called {
        Some(called) => are_params(callee, &called.0) && is_variadic(callee) == called.1,
        None => !is_variadic(callee),
    }
}

/// Why a name that is no function's isn't one's.
fn why_missing(sight: &Sight, name: &Name) -> Reason
    ensures { result ≡ part.why_missing sight.now name.now }
{
    if sight.contents(name).is_some() {
        Reason::WrongType
    } else {
        Reason::Unknown
    }
}

/// A name that is called is a function's, which is called so.
fn note_callee(sight: &Sight, name: &Placed<Name>, called: &Option<Called>, told: &mut Told)
    ensures { told.new ≡ faults_more (part.name_faults sight.now name.now called.now) told.old }
{
    match sight.callee(&name.what) {
        Some(callee) => {
            let fits = is_called(callee, called);
            note_unless(told, fits, at(name, Reason::WrongType));
        }
        None => {
            let why = why_missing(sight, &name.what);
            note(told, at(name, why));
        }
    }
}

// ---- calls

/// `any_type param_attributes value`
fn note_argument(
    alloc: Global,
    within: &Within,
    c: &mut Cursor,
    told: &mut Told,
) -> Result<(), AllocError>
    ensures told { OnOk result (told.new ≡ told_more within.now.heads (meaning.argument_faults within.now.heads within.now.things (see.argument (ahead_of c.old))) (part.wanted_by_argument within.now.heads (see.argument (ahead_of c.old))) told.old) }
    ensures passes { OnOk result (PassesAll 4 c.old c.new) }
{
    let ty = read_valued(alloc, within.sight(), c, told)?;
    skip_part(c);
    note_value(alloc, within, c, &ty, told)?;
    Ok(())
}

/// `, argument` any number of times
#[tactic(auto, using(crate::proofs::Differ::differ, module_walk::proofs::OtherCalls::no_more_arguments))]
fn note_more_arguments(
    alloc: Global,
    within: &Within,
    c: &mut Cursor,
    told: &mut Told,
) -> Result<(), AllocError>
    ensures told { OnOk result (told.new ≡ told_more within.now.heads (flat_map (meaning.argument_faults within.now.heads within.now.things) (made (ahead_of c.old)).more_arguments) (flat_map (part.wanted_by_argument within.now.heads) (made (ahead_of c.old)).more_arguments) told.old) }
    ensures passes { OnOk result (Passes c.old c.new) }
{
    loop {
        match c.rule() {
            Some(rule::MORE_ARGUMENTS) => note_argument(alloc, within, c, told)?,
            other => {
                c.pass(other);
                return Ok(());
            }
        }
    }
}

/// Any number of arguments, with commas between them.
#[tactic(auto, using(crate::proofs::Differ::differ, module_walk::proofs::OtherCalls::no_arguments))]
fn note_arguments(
    alloc: Global,
    within: &Within,
    c: &mut Cursor,
    told: &mut Told,
) -> Result<(), AllocError>
    ensures told { OnOk result (told.new ≡ told_more within.now.heads (flat_map (meaning.argument_faults within.now.heads within.now.things) (made (ahead_of c.old)).arguments) (flat_map (part.wanted_by_argument within.now.heads) (made (ahead_of c.old)).arguments) told.old) }
    ensures passes { OnOk result (Passes c.old c.new) }
{
    match c.rule() {
        Some(rule::ARGUMENTS) => {
            note_argument(alloc, within, c, told)?;
            note_more_arguments(alloc, within, c, told)
        }
        other => {
            c.pass(other);
            Ok(())
        }
    }
}

/// `( arguments ) function_attributes`
fn note_call_end(
    alloc: Global,
    within: &Within,
    c: &mut Cursor,
    told: &mut Told,
) -> Result<(), AllocError>
    ensures told { OnOk result (told.new ≡ told_more within.now.heads (flat_map (meaning.argument_faults within.now.heads within.now.things) (see.call_end (ahead_of c.old)).arguments) (wanted.wanted_by_end within.now.heads (see.call_end (ahead_of c.old))) told.old) }
    ensures passes { OnOk result (PassesAll 2 c.old c.new) }
{
    note_arguments(alloc, within, c, told)?;
    skip_part(c);
    Ok(())
}

/// `function_type global_name call_end`, behind the type of the result
fn note_called(
    alloc: Global,
    within: &Within,
    c: &mut Cursor,
    told: &mut Told,
) -> Result<(), AllocError>
    ensures told { OnOk result (told.new ≡ told_more within.now.heads (meaning.called_faults within.now.heads within.now.things None (made (ahead_of c.old)).function_type (global_name (made (behind (ahead_of c.old))).global_name) (see.call_end (skip 2 (ahead_of c.old)))) (wanted.wanted_by_end within.now.heads (see.call_end (skip 2 (ahead_of c.old)))) told.old) }
    ensures passes { OnOk result (PassesAll 4 c.old c.new) }
{
    let called = read_function_type(alloc, within.sight(), c, told)?;
    let name = read_global_name(alloc, c)?;
    note_callee(within.sight(), &name, &called, told);
    note_call_end(alloc, within, c, told)
}

/// `void` or `T`
#[tactic(auto, using(crate::proofs::Differ::differ, crate::proofs::Other::no_result))]
fn note_result(
    alloc: Global,
    sight: &Sight,
    c: &mut Cursor,
    told: &mut Told,
) -> Result<(), AllocError>
    ensures told { OnOk result (told.new ≡ faults_more (meaning.result_faults sight.now (made (ahead_of c.old)).result_type) told.old) }
    ensures passes { OnOk result (Passes c.old c.new) }
{
    match c.rule() {
        Some(rule::TYPED_RESULT) => {
            read_valued(alloc, sight, c, told)?;
            Ok(())
        }
        other => {
            c.pass(other);
            Ok(())
        }
    }
}

/// `callee call_end`
fn note_callee_call(
    alloc: Global,
    within: &Within,
    c: &mut Cursor,
    told: &mut Told,
) -> Result<(), AllocError>
    ensures told { OnOk result (told.new ≡ told_more within.now.heads (meaning.called_faults within.now.heads within.now.things (see.callee (ahead_of c.old)).result (see.callee (ahead_of c.old)).called (global_name (see.callee (ahead_of c.old)).name) (see.call_end (skip 3 (ahead_of c.old)))) (wanted.wanted_by_end within.now.heads (see.call_end (skip 3 (ahead_of c.old)))) told.old) }
    ensures passes { OnOk result (PassesAll 5 c.old c.new) }
{
    note_result(alloc, within.sight(), c, told)?;
    note_called(alloc, within, c, told)
}

/// `any_type function_type global_name call_end`
fn note_typed_call(
    alloc: Global,
    within: &Within,
    c: &mut Cursor,
    told: &mut Told,
) -> Result<(), AllocError>
    ensures told { OnOk result (told.new ≡ told_more within.now.heads (meaning.called_faults within.now.heads within.now.things (Some (any_type (ahead_of c.old))) (made (skip 2 (ahead_of c.old))).function_type (global_name (made (skip 3 (ahead_of c.old))).global_name) (see.call_end (skip 4 (ahead_of c.old)))) (wanted.wanted_by_end within.now.heads (see.call_end (skip 4 (ahead_of c.old)))) told.old) }
    ensures passes { OnOk result (PassesAll 6 c.old c.new) }
{
    read_valued(alloc, within.sight(), c, told)?;
    note_called(alloc, within, c, told)
}

/// `GLOBAL call_end`, or a call that debugging alone wants
#[tactic(auto, using(crate::proofs::Differ::differ, crate::proofs::Other::no_void_faults))]
fn note_void_call<S: Gaps>(
    alloc: Global,
    within: &Within,
    around: &S,
    c: &mut Cursor,
    is_stated: bool,
    told: &mut Told,
) -> Result<(), AllocError>
    ensures told { OnOk result (told.new ≡ told_more within.now.heads (meaning.void_faults within.now.heads (S.called around.now) within.now.things is_stated (made (ahead_of c.old)).void_call) (wanted.wanted_by_void within.now.heads (made (ahead_of c.old)).void_call) told.old) }
    ensures passes { OnOk result (Passes c.old c.new) }
{
    match c.rule() {
        Some(rule::PLAIN_CALL) => {
            let name = read_name(alloc, c)?;
            let sight = within.sight();
            let called = read_stated_before(alloc, sight, around, is_stated, &name, told)?;
            note_callee(sight, &name, &called, told);
            note_call_end(alloc, within, c, told)
        }
        other => {
            c.pass(other);
            Ok(())
        }
    }
}

/// `void_call`, or `( balanced ) void_call`
#[tactic(auto, using(crate::proofs::Differ::differ, crate::proofs::Other::no_void_callee))]
fn note_void_callee<S: Gaps>(
    alloc: Global,
    within: &Within,
    around: &S,
    c: &mut Cursor,
    told: &mut Told,
) -> Result<(), AllocError>
    ensures told { OnOk result (told.new ≡ told_more within.now.heads (meaning.void_faults within.now.heads (S.called around.now) within.now.things (made (ahead_of c.old)).void_callee.is_stated (made (ahead_of c.old)).void_callee.call) (wanted.wanted_by_void within.now.heads (made (ahead_of c.old)).void_callee.call) told.old) }
    ensures passes { OnOk result (Passes c.old c.new) }
{
    match c.rule() {
        Some(rule::VOID_CALLEE) => note_void_call(alloc, within, around, c, false, told),
        Some(rule::STATED_CALLEE) => {
            skip_part(c);
            note_void_call(alloc, within, around, c, true, told)
        }
        other => {
            c.pass(other);
            Ok(())
        }
    }
}

/// A call behind `call`.
#[tactic(auto, using(crate::proofs::Differ::differ, crate::proofs::Other::no_call))]
pub(crate) fn note_call_body<S: Gaps>(
    alloc: Global,
    within: &Within,
    around: &S,
    c: &mut Cursor,
    told: &mut Told,
) -> Result<(), AllocError>
    ensures told { OnOk result (told.new ≡ told_more within.now.heads (meaning.call_faults within.now.heads (S.called around.now) within.now.things (made (ahead_of c.old)).call_body) (wanted.wanted_by_call within.now.heads (made (ahead_of c.old)).call_body) told.old) }
    ensures passes { OnOk result (Passes c.old c.new) }
{
    match c.rule() {
        Some(rule::CONVENTION_CALL) => {
            skip_part(c);
            note_callee_call(alloc, within, c, told)
        }
        Some(rule::ATTRIBUTES_CALL) => {
            skip_part(c);
            skip_part(c);
            note_callee_call(alloc, within, c, told)
        }
        Some(rule::TYPED_CALL) => note_typed_call(alloc, within, c, told),
        Some(rule::CALL_OF_VOID) => note_void_callee(alloc, within, around, c, told),
        other => {
            c.pass(other);
            Ok(())
        }
    }
}
