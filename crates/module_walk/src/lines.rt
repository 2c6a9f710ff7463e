//! Lines: the numbers that are due where no name is written, what stands behind commas, calls, and lines as a whole.
ghost use Rattle.std.specs.List.{filter};
ghost use Rattle.std.specs.Option.{option_map};
ghost use Rattle.std.specs.Prelude.{◌≡◌, ◌^◌, cond, nat_lt, map, unwrap_or, Some, IfOk, OnOk, ◌++◌, [], ◌∷◌};
ghost use Rattle.derivation_cursor.specs.At.{Closes, Passes, ahead_of, PassesAll};
ghost use Rattle.module_derivations.specs.FlatMarks.Flat.{behind, skip};
ghost use Rattle.ir_core.specs.Functions.{name_set};
ghost use Rattle.ir_core.specs.declared.expressions.Expr.TheVariants as expr;
ghost use Rattle.module_derivations.specs.Constants.{operand};
ghost use Rattle.module_derivations.specs.Empty.{made};
ghost use Rattle.module_derivations.specs.Lines.{next_count_by, argument, call_body_by, call_end, callee, attach_by, line};
ghost use Rattle.module_derivations.specs.Types.{any_type};
ghost use Rattle.module_derivations.specs.declared.rule.TheConstants as rules;
ghost use Rattle.module_grammar.specs.Joined.{align_from, count_from};
ghost use Rattle.module_walk.specs.Commas.{count_built};
ghost use Rattle.module_walk.specs.Counted.{capped, due_or};
ghost use Rattle.module_walk.specs.Lines.{argument_by, call_with, kept_call, kept_of_void, alloca_at, call_named, calm_named, first_kept, line_named, set_by_call, store_by};
ghost use Rattle.module_walk.specs.Operations.{element_at};
ghost use Rattle.module_walk.specs.Values.{names, operand_by};
ghost use Rattle.named_modules.specs.Built as meaning;
ghost use Rattle.named_modules.specs.Built.{align_of, count_kept, result_of};
ghost use Rattle.named_modules.specs.Constants.{global_name};
ghost use Rattle.named_modules.specs.Lines.{is_kept};
ghost use Rattle.named_modules.specs.Types.{type_of};

use crate::constants::{
    read_align_number, read_attribute, read_extensions, read_global, read_int,
    read_more_extensions, read_result_type, read_type,
};
use crate::operations::{element_of, no_operation, read_operand, read_operation, read_value};
use contents::{Boxed, Exact, Seq};
use derivation_cursor::{Cursor, read_inbounds, read_name, skip_part};
use ir_core::{
    Alloca, Argument, Bits, Call, Calm, Expr, Extensions, Instr, Load, Name, NamedTypes, Operand,
    Shared, Store, Ty,
};
use module_derivations::rule;
use module_grammar::Placed;
use std::alloc::{AllocError, Global};

/// The number, or 0 where no name has it.
fn number_due(due: u64) -> u32
    ensures { result ≡ cond (nat_lt due (2 ^ 32)) due 0 }
{
    if due < 4_294_967_296 { due as u32 } else { 0 }
}

/// The name that is written, or the number that is due.
fn name_due(due: u64, written: Option<Placed<Name>>) -> Name
    ensures { result ≡ meaning.name_due due written }
{
    match written {
        None => Name::Number(number_due(due)),
        Some(placed) => placed.what,
    }
}

#[tactic(auto, using(crate::proofs::Counted::capped_is))]
fn due_after(due: u64, name: &Name) -> u64
    ensures { result ≡ capped (meaning.due_after due name.now) }
{
    match name {
        Name::Text(_) => due,
        Name::Number(_) => due.saturating_add(1),
    }
}

/// The number that is due behind what is written, or left out. Counting ends at the greatest number, which no name has.
fn due_behind(due: u64, written: &Option<Placed<Name>>) -> u64
    ensures { result ≡ capped (meaning.due_behind due written.now) }
{
    match written {
        None => due.saturating_add(1),
        Some(placed) => due_after(due, &placed.what),
    }
}

/// The name that is written, or the number that is due, and the number that is due behind it.
pub(crate) fn counted(due: u64, written: Option<Placed<Name>>) -> (Name, u64)
    ensures name { result.0 ≡ meaning.name_due due written }
    ensures due { result.1 ≡ capped (meaning.due_behind due written) }
{
    let behind = due_behind(due, &written);
    (name_due(due, written), behind)
}

/// `align NUMBER attachments`, or an attachment and those behind it
#[tactic(auto, using(crate::proofs::OtherCommas::no_align))]
fn read_next_align(alloc: Global, c: &mut Cursor) -> Result<Option<u32>, AllocError>
    ensures built { IfOk result (λ it. it ≡ align_of (align_from (made (ahead_of c.old)).next_align).align) }
    ensures passes { OnOk result (Passes c.old c.new) }
{
    match c.rule() {
        Some(rule::ALIGN_NEXT) => {
            let align = read_align_number(alloc, c)?;
            skip_part(c);
            Ok(align)
        }
        other => {
            c.pass(other);
            Ok(None)
        }
    }
}

/// `, next_align`, or nothing
#[tactic(auto, using(crate::proofs::OtherCommas::no_align_behind))]
fn read_align_behind(alloc: Global, c: &mut Cursor) -> Result<Option<u32>, AllocError>
    ensures built { IfOk result (λ it. it ≡ align_of (made (ahead_of c.old)).align_behind.align) }
    ensures passes { OnOk result (Passes c.old c.new) }
{
    match c.rule() {
        Some(rule::ALIGN_BEHIND) => read_next_align(alloc, c),
        other => {
            c.pass(other);
            Ok(None)
        }
    }
}

/// The count behind its type, unless it is 1; a number that the type doesn't have is built as 0.
fn count_of(ty: Ty, number: Option<u64>) -> Option<(Ty, Bits)>
    ensures { result ≡ count_kept ty (unwrap_or number 0) }
{
    let number = number.unwrap_or(0);
    if number == 1 {
        None
    } else {
        Some((ty, Bits::new(number)))
    }
}

/// What is kept of what stands behind the type of an `alloca`: a count and an alignment.
type Counted = (Option<(Ty, Bits)>, Option<u32>);

/// `any_type integer align_behind`
fn read_count(alloc: Global, c: &mut Cursor) -> Result<Counted, AllocError>
    ensures built { IfOk result (λ it. it ≡ count_built (count_from (next_count_by (Some rules.COUNT_NEXT) (ahead_of c.old)))) }
    ensures closes { OnOk result (Closes (Some rules.COUNT_NEXT) c.old c.new) }
{
    let ty = read_type(alloc, c)?;
    let number = read_int(alloc, c, &ty)?;
    let align = read_align_behind(alloc, c)?;
    Ok((count_of(ty, number), align))
}

/// `any_type integer align_behind`, or what stands there without a count
#[tactic(auto, using(crate::proofs::OtherCommas::no_count))]
fn read_next_count(alloc: Global, c: &mut Cursor) -> Result<Counted, AllocError>
    ensures built { IfOk result (λ it. it ≡ count_built (count_from (made (ahead_of c.old)).next_count)) }
    ensures passes { OnOk result (Passes c.old c.new) }
{
    match c.rule() {
        Some(rule::COUNT_NEXT) => read_count(alloc, c),
        Some(rule::NO_NEXT_COUNT) => Ok((None, read_next_align(alloc, c)?)),
        other => {
            c.pass(other);
            Ok((None, None))
        }
    }
}

/// `, next_count`, or nothing
#[tactic(auto, using(crate::proofs::OtherCommas::no_count_behind))]
fn read_count_behind(alloc: Global, c: &mut Cursor) -> Result<Counted, AllocError>
    ensures built { IfOk result (λ it. it ≡ count_built (made (ahead_of c.old)).count_behind) }
    ensures passes { OnOk result (Passes c.old c.new) }
{
    match c.rule() {
        Some(rule::COUNT_BEHIND) => read_next_count(alloc, c),
        other => {
            c.pass(other);
            Ok((None, None))
        }
    }
}

/// `, operand` any number of times, and behind them an attachment and those behind it, or nothing
#[tactic(auto, using(crate::proofs::Differ::differ, crate::proofs::Ended::nothing_behind, crate::proofs::OtherCommas::no_indices_behind, crate::proofs::OtherCommas::no_index))]
fn read_indices_behind(alloc: Global, c: &mut Cursor) -> Result<Seq<Operand<Name>>, AllocError>
    ensures built { IfOk result (λ it. it ≡ map (operand_by names) (made (ahead_of c.old)).indices_behind.indices) }
    ensures passes { OnOk result (Passes c.old c.new) }
{
    let mut indices = Seq::new(alloc);
    loop {
        match c.rule() {
            Some(rule::INDICES_BEHIND) => match c.rule() {
                Some(rule::INDEX_NEXT) => indices.push(read_operand(alloc, c)?)?,
                other => {
                    c.pass(other);
                    return Ok(indices);
                }
            },
            other => {
                c.pass(other);
                return Ok(indices);
            }
        }
    }
}

/// `any_type param_attributes value`
fn read_argument(alloc: Global, c: &mut Cursor) -> Result<Argument, AllocError>
    ensures built { IfOk result (λ it. it ≡ argument_by (argument (ahead_of c.old))) }
    ensures passes { OnOk result (PassesAll 4 c.old c.new) }
{
    let ty = read_type(alloc, c)?;
    let extensions = read_extensions(c);
    let atom = read_value(alloc, c, &ty)?;
    Ok(Argument {
        operand: Operand { ty, atom },
        extensions,
    })
}

/// `, argument` any number of times, behind these
#[tactic(auto, using(crate::proofs::Differ::differ, crate::proofs::Ended::nothing_behind, crate::proofs::OtherCalls::no_more_arguments))]
fn read_more_arguments(
    alloc: Global,
    c: &mut Cursor,
    arguments: &mut Seq<Argument>,
) -> Result<(), AllocError>
    ensures built { OnOk result (arguments.new ≡ arguments.old ++ map argument_by (made (ahead_of c.old)).more_arguments) }
    ensures passes { OnOk result (Passes c.old c.new) }
{
    loop {
        match c.rule() {
            Some(rule::MORE_ARGUMENTS) => arguments.push(read_argument(alloc, c)?)?,
            other => {
                c.pass(other);
                return Ok(());
            }
        }
    }
}

/// Any number of arguments, with commas between them.
#[tactic(auto, using(crate::proofs::Differ::differ, crate::proofs::OtherCalls::no_arguments))]
fn read_arguments(alloc: Global, c: &mut Cursor) -> Result<Seq<Argument>, AllocError>
    ensures built { IfOk result (λ it. it ≡ map argument_by (made (ahead_of c.old)).arguments) }
    ensures passes { OnOk result (Passes c.old c.new) }
{
    let mut arguments = Seq::new(alloc);
    match c.rule() {
        Some(rule::ARGUMENTS) => {
            arguments.push(read_argument(alloc, c)?)?;
            read_more_arguments(alloc, c, &mut arguments)?;
            Ok(arguments)
        }
        other => {
            c.pass(other);
            Ok(arguments)
        }
    }
}

/// `( arguments ) function_attributes`
fn read_call_end(alloc: Global, c: &mut Cursor) -> Result<Seq<Argument>, AllocError>
    ensures built { IfOk result (λ it. it ≡ map argument_by (call_end (ahead_of c.old)).arguments) }
    ensures passes { OnOk result (PassesAll 2 c.old c.new) }
{
    let arguments = read_arguments(alloc, c)?;
    skip_part(c);
    Ok(arguments)
}

/// `function_type global_name call_end`, behind the type of the result
fn read_callee(
    alloc: Global,
    c: &mut Cursor,
    extensions: Extensions,
    ty: Ty,
) -> Result<Option<Call>, AllocError>
    ensures built { IfOk result (λ it. it ≡ Some (call_with extensions ty (global_name (made (behind (ahead_of c.old))).global_name).what (call_end (skip 2 (ahead_of c.old))).arguments)) }
    ensures passes { OnOk result (PassesAll 4 c.old c.new) }
{
    skip_part(c);
    let callee = read_global(alloc, c)?;
    let arguments = read_call_end(alloc, c)?;
    Ok(Some(Call {
        name: None,
        result: ty,
        result_extensions: extensions,
        callee,
        arguments,
    }))
}

/// `callee call_end`
fn read_called(
    alloc: Global,
    c: &mut Cursor,
    extensions: Extensions,
) -> Result<Option<Call>, AllocError>
    ensures built { IfOk result (λ it. it ≡ Some (call_with extensions (result_of (callee (ahead_of c.old)).result) (global_name (callee (ahead_of c.old)).name).what (call_end (skip 3 (ahead_of c.old))).arguments)) }
    ensures passes { OnOk result (PassesAll 5 c.old c.new) }
{
    let ty = read_result_type(alloc, c)?;
    read_callee(alloc, c, extensions, ty)
}

/// `GLOBAL call_end`, or a call that debugging alone wants
#[tactic(auto, using(crate::proofs::OtherCalls::no_void_call))]
fn read_void_call(alloc: Global, c: &mut Cursor) -> Result<Option<Call>, AllocError>
    ensures built { IfOk result (λ it. it ≡ kept_of_void (made (ahead_of c.old)).void_call) }
    ensures passes { OnOk result (Passes c.old c.new) }
{
    match c.rule() {
        Some(rule::PLAIN_CALL) => {
            let callee = read_name(alloc, c)?.what;
            let arguments = read_call_end(alloc, c)?;
            Ok(Some(Call {
                name: None,
                result: Ty::Void,
                result_extensions: Extensions::none(),
                callee,
                arguments,
            }))
        }
        other => {
            c.pass(other);
            Ok(None)
        }
    }
}

/// `void_call`, or `( balanced ) void_call`
#[tactic(auto, using(crate::proofs::OtherCalls::no_void_callee))]
fn read_void_callee(alloc: Global, c: &mut Cursor) -> Result<Option<Call>, AllocError>
    ensures built { IfOk result (λ it. it ≡ kept_of_void (made (ahead_of c.old)).void_callee.call) }
    ensures passes { OnOk result (Passes c.old c.new) }
{
    match c.rule() {
        Some(rule::VOID_CALLEE) => read_void_call(alloc, c),
        Some(rule::STATED_CALLEE) => {
            skip_part(c);
            read_void_call(alloc, c)
        }
        other => {
            c.pass(other);
            Ok(None)
        }
    }
}

/// `ccc param_attributes callee call_end`
fn read_convention_call(alloc: Global, c: &mut Cursor) -> Result<Option<Call>, AllocError>
    ensures built { IfOk result (λ it. it ≡ kept_call (call_body_by (Some rules.CONVENTION_CALL) (ahead_of c.old))) }
    ensures closes { OnOk result (Closes (Some rules.CONVENTION_CALL) c.old c.new) }
{
    let extensions = read_extensions(c);
    read_called(alloc, c, extensions)
}

/// `param_attribute param_attributes callee call_end`
#[tactic(auto, using(crate::proofs::OtherAttributes::found_behind))]
fn read_attributes_call(alloc: Global, c: &mut Cursor) -> Result<Option<Call>, AllocError>
    ensures built { IfOk result (λ it. it ≡ kept_call (call_body_by (Some rules.ATTRIBUTES_CALL) (ahead_of c.old))) }
    ensures closes { OnOk result (Closes (Some rules.ATTRIBUTES_CALL) c.old c.new) }
{
    let first = read_attribute(c);
    let extensions = read_more_extensions(c, first);
    read_called(alloc, c, extensions)
}

/// `any_type function_type global_name call_end`
fn read_typed_call(alloc: Global, c: &mut Cursor) -> Result<Option<Call>, AllocError>
    ensures built { IfOk result (λ it. it ≡ kept_call (call_body_by (Some rules.TYPED_CALL) (ahead_of c.old))) }
    ensures closes { OnOk result (Closes (Some rules.TYPED_CALL) c.old c.new) }
{
    let ty = read_type(alloc, c)?;
    read_callee(alloc, c, Extensions::none(), ty)
}

/// The call behind `call`, unless debugging alone wants it.
#[tactic(auto, using(crate::proofs::OtherCalls::no_call))]
fn read_call_body(alloc: Global, c: &mut Cursor) -> Result<Option<Call>, AllocError>
    ensures built { IfOk result (λ it. it ≡ kept_call (made (ahead_of c.old)).call_body) }
    ensures passes { OnOk result (Passes c.old c.new) }
{
    match c.rule() {
        Some(rule::CONVENTION_CALL) => read_convention_call(alloc, c),
        Some(rule::ATTRIBUTES_CALL) => read_attributes_call(alloc, c),
        Some(rule::TYPED_CALL) => read_typed_call(alloc, c),
        Some(rule::CALL_OF_VOID) => read_void_callee(alloc, c),
        other => {
            c.pass(other);
            Ok(None)
        }
    }
}

/// A line that sets a register and does nothing else.
fn calm(name: Name, right: Expr<Name>) -> Instr
    ensures { result ≡ calm_named name right }
{
    Instr::Calm(Calm { name, right })
}

/// `operation attachments`
fn read_calm(alloc: Global, c: &mut Cursor, name: Name) -> Result<Option<Instr>, AllocError>
    ensures built { IfOk result (λ it. it ≡ line_named [] name (attach_by (Some rules.OPERATION) (ahead_of c.old)).instruction) }
    ensures closes { OnOk result (Closes (Some rules.OPERATION) c.old c.new) }
{
    let right = read_operation(alloc, c)?;
    skip_part(c);
    Ok(Some(calm(name, right)))
}

/// `getelementptr inbounds any_type , operand indices_behind`
fn read_address(alloc: Global, c: &mut Cursor, types: &NamedTypes) -> Result<Expr<Name>, AllocError>
    ensures built { IfOk result (λ it. it ≡ expr.Element (element_at types.now (made (behind (ahead_of c.old))).inbounds (type_of (any_type (skip 2 (ahead_of c.old)))) (operand_by names (operand (skip 4 (ahead_of c.old)))) (map (operand_by names) (made (skip 7 (ahead_of c.old))).indices_behind.indices))) }
    ensures passes { OnOk result (PassesAll 8 c.old c.new) }
{
    skip_part(c);
    let inbounds = read_inbounds(c);
    let of = read_type(alloc, c)?;
    let base = read_operand(alloc, c)?;
    let indices = read_indices_behind(alloc, c)?;
    element_of(alloc, types, inbounds, of, base, indices)
}

/// `getelementptr inbounds any_type , operand indices_behind`, as a line of this name
fn read_element(
    alloc: Global,
    c: &mut Cursor,
    types: &NamedTypes,
    name: Name,
) -> Result<Option<Instr>, AllocError>
    ensures built { IfOk result (λ it. it ≡ line_named types.now name (attach_by (Some rules.ELEMENT) (ahead_of c.old)).instruction) }
    ensures closes { OnOk result (Closes (Some rules.ELEMENT) c.old c.new) }
{
    let right = read_address(alloc, c, types)?;
    Ok(Some(calm(name, right)))
}

fn alloca(
    alloc: Global,
    name: Name,
    of: Ty,
    count: Option<(Ty, Bits)>,
    align: Option<u32>,
) -> Result<Instr, AllocError>
    ensures { IfOk result (λ it. it ≡ alloca_at name of count align) }
{
    let to = Ty::Ptr(Shared::new(alloc, of.copy(alloc)?)?);
    Ok(Instr::Alloca(Alloca {
        name,
        of,
        to,
        count,
        align,
    }))
}

/// `alloca any_type count_behind`
fn read_alloca(alloc: Global, c: &mut Cursor, name: Name) -> Result<Option<Instr>, AllocError>
    ensures built { IfOk result (λ it. it ≡ line_named [] name (attach_by (Some rules.ALLOCA) (ahead_of c.old)).instruction) }
    ensures closes { OnOk result (Closes (Some rules.ALLOCA) c.old c.new) }
{
    let of = read_type(alloc, c)?;
    let (count, align) = read_count_behind(alloc, c)?;
    Ok(Some(alloca(alloc, name, of, count, align)?))
}

/// `load any_type , operand align_behind`
fn read_load(alloc: Global, c: &mut Cursor, name: Name) -> Result<Option<Instr>, AllocError>
    ensures built { IfOk result (λ it. it ≡ line_named [] name (attach_by (Some rules.LOAD) (ahead_of c.old)).instruction) }
    ensures closes { OnOk result (Closes (Some rules.LOAD) c.old c.new) }
{
    let of = read_type(alloc, c)?;
    let pointer = read_operand(alloc, c)?;
    let align = read_align_behind(alloc, c)?;
    let load = Expr::Load(Load { of, pointer, align });
    Ok(Some(calm(name, load)))
}

/// `store operand , operand align_behind`
fn read_store(alloc: Global, c: &mut Cursor) -> Result<Option<Instr>, AllocError>
    ensures built { IfOk result (λ it. it ≡ Some (store_by (operand (ahead_of c.old)) (operand (skip 3 (ahead_of c.old))) (made (skip 6 (ahead_of c.old))).align_behind.align)) }
    ensures closes { OnOk result (Closes (Some rules.STORE) c.old c.new) }
{
    let value = read_operand(alloc, c)?;
    let pointer = read_operand(alloc, c)?;
    let align = read_align_behind(alloc, c)?;
    let store = Store {
        value,
        pointer,
        align,
    };
    Ok(Some(Instr::Store(store)))
}

/// What a call of this type sets, if its name is this one: of `void` nothing.
#[tactic(auto, using(crate::proofs::SetByCalls::by_int, crate::proofs::SetByCalls::by_ptr, crate::proofs::SetByCalls::by_array, crate::proofs::SetByCalls::by_struct, crate::proofs::SetByCalls::by_named, crate::proofs::SetByCalls::by_void))]
fn set_by_call(name: Name, of: &Ty) -> Option<Name>
    ensures { result ≡ set_by_call name of.now }
{
    match of {
        Ty::Void => None,
        Ty::Int(_) | Ty::Ptr(_) | Ty::Array(_, _) | Ty::Struct(_) | Ty::Named(_) => Some(name),
    }
}

/// The call as a line of this name.
fn call_line(alloc: Global, name: Name, call: Call) -> Result<Instr, AllocError>
    ensures { IfOk result (λ it. it ≡ call_named name call) }
{
    let mut call = call;
    call.name = set_by_call(name, &call.result);
    Ok(Instr::Call(Boxed::new(alloc, call)?))
}

/// `call_body attachments`, behind `call`
fn read_call(alloc: Global, c: &mut Cursor, name: Name) -> Result<Option<Instr>, AllocError>
    ensures built { IfOk result (λ it. it ≡ option_map (call_named name) (kept_call (made (ahead_of c.old)).call_body)) }
    ensures passes { OnOk result (PassesAll 2 c.old c.new) }
{
    let call = read_call_body(alloc, c)?;
    skip_part(c);
    match call {
        None => Ok(None),
        Some(call) => Ok(Some(call_line(alloc, name, call)?)),
    }
}

/// An instruction as a line of this name, unless it is dropped; its attachments are passed.
#[tactic(auto, using(crate::proofs::OtherLines::another_attach))]
fn read_attach(
    alloc: Global,
    c: &mut Cursor,
    types: &NamedTypes,
    name: Name,
) -> Result<Option<Instr>, AllocError>
    ensures built { IfOk result (λ it. it ≡ line_named types.now name (made (ahead_of c.old)).attach.instruction) }
    ensures passes { OnOk result (Passes c.old c.new) }
{
    match c.rule() {
        Some(rule::OPERATION) => read_calm(alloc, c, name),
        Some(rule::ELEMENT) => read_element(alloc, c, types, name),
        Some(rule::ALLOCA) => read_alloca(alloc, c, name),
        Some(rule::LOAD) => read_load(alloc, c, name),
        Some(rule::STORE) => read_store(alloc, c),
        Some(rule::TAIL_CALL) => read_call(alloc, c, name),
        Some(rule::CALL) => read_call(alloc, c, name),
        other => {
            c.pass(other);
            Ok(Some(calm(name, no_operation())))
        }
    }
}

/// `LOCAL =`, or nothing
pub fn read_register(alloc: Global, c: &mut Cursor) -> Result<Option<Placed<Name>>, AllocError>
    ensures built { IfOk result (λ it. it ≡ (made (ahead_of c.old)).register) }
    ensures passes { OnOk result (Passes c.old c.new) }
{
    match c.rule() {
        Some(rule::REGISTER) => Ok(Some(read_name(alloc, c)?)),
        other => {
            c.pass(other);
            Ok(None)
        }
    }
}

/// The number that is due behind a line, where this one is due behind its register.
fn due_after_line(due: u64, behind: u64, line: &Instr) -> u64
    ensures { result ≡ due_or due behind (name_set line.now) }
{
    match line.name() {
        None => due,
        Some(_) => behind,
    }
}

/// A line behind its register is put behind the others, unless it is dropped. Gives the number that is due behind it.
#[tactic(auto, using(crate::proofs::Kept::dropped_lines, crate::proofs::Kept::dropped_due))]
fn read_line_behind(
    alloc: Global,
    c: &mut Cursor,
    types: &NamedTypes,
    due: u64,
    register: Option<Placed<Name>>,
    lines: &mut Seq<Instr>,
) -> Result<u64, AllocError>
    ensures lines { OnOk result (lines.new ≡ lines.old ++ meaning.lines_from types.now due (first_kept register (made (ahead_of c.old)).attach)) }
    ensures due { IfOk result (λ it. it ≡ capped (meaning.due_behind_lines types.now due (first_kept register (made (ahead_of c.old)).attach))) }
    ensures passes { OnOk result (Passes c.old c.new) }
{
    let (name, behind) = counted(due, register);
    match read_attach(alloc, c, types, name)? {
        None => Ok(due),
        Some(line) => {
            let next = due_after_line(due, behind, &line);
            lines.push(line)?;
            Ok(next)
        }
    }
}

/// `register attach`
fn read_line(
    alloc: Global,
    c: &mut Cursor,
    types: &NamedTypes,
    due: u64,
    lines: &mut Seq<Instr>,
) -> Result<u64, AllocError>
    ensures lines { OnOk result (lines.new ≡ lines.old ++ meaning.lines_from types.now due (filter is_kept (line (ahead_of c.old) ∷ []))) }
    ensures due { IfOk result (λ it. it ≡ capped (meaning.due_behind_lines types.now due (filter is_kept (line (ahead_of c.old) ∷ [])))) }
    ensures passes { OnOk result (PassesAll 2 c.old c.new) }
{
    let register = read_register(alloc, c)?;
    read_line_behind(alloc, c, types, due, register, lines)
}

/// Any number of lines, but for those that are dropped, are put behind the others. Gives the number that is due behind them.
#[tactic(auto, using(crate::proofs::Differ::differ, crate::proofs::Ended::nothing_behind, crate::proofs::OtherLines::no_lines, crate::proofs::Counted::capped_is))]
fn read_lines(
    alloc: Global,
    c: &mut Cursor,
    types: &NamedTypes,
    due: u64,
    lines: &mut Seq<Instr>,
) -> Result<u64, AllocError>
    ensures lines { OnOk result (lines.new ≡ lines.old ++ meaning.lines_from types.now due (filter is_kept (made (ahead_of c.old)).lines)) }
    ensures due { IfOk result (λ it. it ≡ capped (meaning.due_behind_lines types.now due (filter is_kept (made (ahead_of c.old)).lines))) }
    ensures passes { OnOk result (Passes c.old c.new) }
{
    let mut due = due;
    loop {
        match c.rule() {
            Some(rule::LINES) => due = read_line(alloc, c, types, due, lines)?,
            other => {
                c.pass(other);
                return Ok(due);
            }
        }
    }
}

/// A line behind its register, and the lines behind it, and the number that is due behind these.
#[tactic(auto, using(crate::proofs::Kept::lines_behind, crate::proofs::Kept::due_behind_more))]
pub(crate) fn read_lines_behind(
    alloc: Global,
    c: &mut Cursor,
    types: &NamedTypes,
    due: u64,
    register: Option<Placed<Name>>,
) -> Result<(Seq<Instr>, u64), AllocError>
    ensures lines { IfOk result (λ it. it.0 ≡ meaning.lines_from types.now due (filter is_kept (record { register = register; attached = (made (ahead_of c.old)).attach } ∷ (made (behind (ahead_of c.old))).lines))) }
    ensures due { IfOk result (λ it. it.1 ≡ capped (meaning.due_behind_lines types.now due (filter is_kept (record { register = register; attached = (made (ahead_of c.old)).attach } ∷ (made (behind (ahead_of c.old))).lines)))) }
    ensures passes { OnOk result (PassesAll 2 c.old c.new) }
{
    let mut lines = Seq::new(alloc);
    let due = read_line_behind(alloc, c, types, due, register, &mut lines)?;
    let due = read_lines(alloc, c, types, due, &mut lines)?;
    Ok((lines, due))
}
