//! What is at fault in instructions on memory, lines, phi nodes, terminators and blocks, and what they want (LangRef 3.7, Functions,
//! Instruction Reference).
#![tactic(auto, using(crate::proofs::Differ::differ))]

ghost use Rattle.std.specs.Prelude.{◌≡◌, ◌∷◌, ◌++◌, [], map, Some, IfOk, OnOk};
ghost use Rattle.std.specs.List.{flat_map};
ghost use Rattle.derivation_cursor.specs.At.{Closes, Passes, PassesAll, ahead_of};
ghost use Rattle.module_derivations.specs.FlatMarks.Flat.{behind, skip};
ghost use Rattle.module_derivations.specs.Blocks as see;
ghost use Rattle.module_derivations.specs.Constants.{operand};
ghost use Rattle.module_derivations.specs.Empty as empty;
ghost use Rattle.module_derivations.specs.Empty.{made};
ghost use Rattle.module_derivations.specs.Lines as lines;
ghost use Rattle.module_derivations.specs.Types.{any_type};
ghost use Rattle.module_derivations.specs.declared.rule.TheConstants as rules;
ghost use Rattle.module_grammar.specs.Joined.{align_from, count_from};
ghost use Rattle.module_grammar.specs.declared.types.TypeText.{TypeText};
ghost use Rattle.module_spelling.specs.Blocks as wanted;
ghost use Rattle.named_modules.specs.Faults as meaning;
ghost use Rattle.fault_walk.specs.Flow as flow;
ghost use Rattle.fault_walk.specs.Lines as part;
ghost use Rattle.fault_walk.specs.Stated.{stated};
ghost use Rattle.fault_walk.specs.Told.{faults_more, told_more};

use crate::constants::{
    Path, Stated, note_align_number, note_block as note_block_of, note_int, note_path, read_known,
    read_stated, read_valued,
};
use crate::lines::{
    note_block_name, note_call_body, note_label, note_operand, note_operation, note_value,
};
use crate::names::Within;
use crate::sight::Sight;
use crate::told::Told;
use derivation_cursor::{Cursor, Gaps, no_name, skip_part};
use ir_core::Ty;
use module_derivations::rule;
use std::alloc::{AllocError, Global};

// ---- memory

/// `align NUMBER attachments`, or an attachment and those behind it
#[tactic(auto, using(crate::proofs::Differ::differ, module_walk::proofs::OtherCommas::no_align))]
fn note_next_align(alloc: Global, c: &mut Cursor, told: &mut Told) -> Result<(), AllocError>
    ensures told { OnOk result (told.new ≡ faults_more (meaning.align_faults (align_from (made (ahead_of c.old)).next_align).align) told.old) }
    ensures passes { OnOk result (Passes c.old c.new) }
{
    match c.rule() {
        Some(rule::ALIGN_NEXT) => {
            note_align_number(alloc, c, told)?;
            skip_part(c);
            Ok(())
        }
        other => {
            c.pass(other);
            Ok(())
        }
    }
}

/// `, next_align`, or nothing
#[tactic(auto, using(crate::proofs::Differ::differ, module_walk::proofs::OtherCommas::no_align_behind))]
fn note_align_behind(alloc: Global, c: &mut Cursor, told: &mut Told) -> Result<(), AllocError>
    ensures told { OnOk result (told.new ≡ faults_more (meaning.align_faults (made (ahead_of c.old)).align_behind.align) told.old) }
    ensures passes { OnOk result (Passes c.old c.new) }
{
    match c.rule() {
        Some(rule::ALIGN_BEHIND) => note_next_align(alloc, c, told),
        other => {
            c.pass(other);
            Ok(())
        }
    }
}

/// `any_type integer align_behind`: how many there are, if it is a number of its type.
fn note_count(
    alloc: Global,
    sight: &Sight,
    c: &mut Cursor,
    told: &mut Told,
) -> Result<Option<u64>, AllocError>
    ensures count { IfOk result (λ it. it ≡ part.counted (count_from (lines.next_count_by (Some rules.COUNT_NEXT) (ahead_of c.old))).count) }
    ensures told { OnOk result (told.new ≡ faults_more (part.counted_faults sight.now (count_from (lines.next_count_by (Some rules.COUNT_NEXT) (ahead_of c.old)))) told.old) }
    ensures closes { OnOk result (Closes (Some rules.COUNT_NEXT) c.old c.new) }
{
    let ty = read_known(alloc, sight, c, told)?;
    let count = note_int(alloc, c, &ty, told)?;
    note_align_behind(alloc, c, told)?;
    Ok(count)
}

/// `any_type integer align_behind`, or what stands there without a count
#[tactic(auto, using(crate::proofs::Differ::differ, crate::proofs::Other::no_count, crate::proofs::Other::no_count_faults))]
fn note_next_count(
    alloc: Global,
    sight: &Sight,
    c: &mut Cursor,
    told: &mut Told,
) -> Result<Option<u64>, AllocError>
    ensures count { IfOk result (λ it. it ≡ part.counted (count_from (made (ahead_of c.old)).next_count).count) }
    ensures told { OnOk result (told.new ≡ faults_more (part.counted_faults sight.now (count_from (made (ahead_of c.old)).next_count)) told.old) }
    ensures passes { OnOk result (Passes c.old c.new) }
{
    match c.rule() {
        Some(rule::COUNT_NEXT) => note_count(alloc, sight, c, told),
        Some(rule::NO_NEXT_COUNT) => {
            note_next_align(alloc, c, told)?;
            Ok(Some(1))
        }
        other => {
            c.pass(other);
            Ok(Some(1))
        }
    }
}

/// `, next_count`, or nothing
#[tactic(auto, using(crate::proofs::Differ::differ, crate::proofs::Other::no_count_behind))]
fn note_count_behind(
    alloc: Global,
    sight: &Sight,
    c: &mut Cursor,
    told: &mut Told,
) -> Result<Option<u64>, AllocError>
    ensures count { IfOk result (λ it. it ≡ part.counted (made (ahead_of c.old)).count_behind.count) }
    ensures told { OnOk result (told.new ≡ faults_more (part.counted_faults sight.now (made (ahead_of c.old)).count_behind) told.old) }
    ensures passes { OnOk result (Passes c.old c.new) }
{
    match c.rule() {
        Some(rule::COUNT_BEHIND) => note_next_count(alloc, sight, c, told),
        other => {
            c.pass(other);
            Ok(Some(1))
        }
    }
}

/// So many of a type, if there are any.
fn note_counted(sight: &Sight, of: &Stated, count: Option<u64>, told: &mut Told)
    ensures { (w : TypeText) → of.now ≡ stated sight.now w → told.new ≡ told_more sight.now [] (wanted.so_many sight.now w count) told.old }
{
    match count {
        Some(count) => note_block_of(sight, of, count, told),
        None => {}
    }
}

/// `alloca any_type count_behind`
fn note_alloca(
    alloc: Global,
    sight: &Sight,
    c: &mut Cursor,
    told: &mut Told,
) -> Result<(), AllocError>
    ensures told { OnOk result (told.new ≡ told_more sight.now (part.alloca_faults sight.now (any_type (ahead_of c.old)) (made (skip 2 (ahead_of c.old))).count_behind) (wanted.wanted_by_count sight.now (any_type (ahead_of c.old)) (made (skip 2 (ahead_of c.old))).count_behind.count) told.old) }
    ensures passes { OnOk result (PassesAll 3 c.old c.new) }
{
    let of = read_stated(alloc, sight, c, told)?;
    let count = note_count_behind(alloc, sight, c, told)?;
    note_counted(sight, &of, count, told);
    Ok(())
}

/// `, operand` any number of times, as indices into this type
#[tactic(auto, using(crate::proofs::Differ::differ, module_walk::proofs::OtherCommas::no_indices_behind, module_walk::proofs::OtherCommas::no_index))]
fn note_indices(
    alloc: Global,
    within: &Within,
    c: &mut Cursor,
    of: &Stated,
    told: &mut Told,
) -> Result<(), AllocError>
    ensures told { OnOk result ((w : TypeText) → of.now ≡ stated within.now.heads w → told.new ≡ told_more within.now.heads (flat_map (meaning.operand_faults within.now.heads within.now.things) (made (ahead_of c.old)).indices_behind.indices) (flat_map (wanted.wanted_by_operand within.now.heads) (made (ahead_of c.old)).indices_behind.indices ++ wanted.wants_along within.now.heads w (map part.built_index (made (ahead_of c.old)).indices_behind.indices)) told.old) }
    ensures passes { OnOk result (Passes c.old c.new) }
{
    let sight = within.sight();
    let mut path = Path::new(sight, &of.ty);
    loop {
        match c.rule() {
            Some(rule::INDICES_BEHIND) => match c.rule() {
                Some(rule::INDEX_NEXT) => {
                    let (ty, number) = note_operand(alloc, within, c, told)?;
                    path.step(sight, &ty, number);
                }
                other => {
                    c.pass(other);
                    note_path(sight, of, &path, told);
                    return Ok(());
                }
            },
            other => {
                c.pass(other);
                note_path(sight, of, &path, told);
                return Ok(());
            }
        }
    }
}

/// `getelementptr inbounds any_type , operand indices_behind`
fn note_element(
    alloc: Global,
    within: &Within,
    c: &mut Cursor,
    told: &mut Told,
) -> Result<(), AllocError>
    ensures told { OnOk result (told.new ≡ told_more within.now.heads (part.element_faults within.now.heads within.now.things (any_type (skip 2 (ahead_of c.old))) (operand (skip 4 (ahead_of c.old))) (made (skip 7 (ahead_of c.old))).indices_behind.indices) (part.wanted_by_element within.now.heads (any_type (skip 2 (ahead_of c.old))) (operand (skip 4 (ahead_of c.old))) (made (skip 7 (ahead_of c.old))).indices_behind.indices) told.old) }
    ensures passes { OnOk result (PassesAll 8 c.old c.new) }
{
    skip_part(c);
    skip_part(c);
    let of = read_stated(alloc, within.sight(), c, told)?;
    note_operand(alloc, within, c, told)?;
    note_indices(alloc, within, c, &of, told)
}

/// `load any_type , operand align_behind`
fn note_load(
    alloc: Global,
    within: &Within,
    c: &mut Cursor,
    told: &mut Told,
) -> Result<(), AllocError>
    ensures told { OnOk result (told.new ≡ told_more within.now.heads (part.load_faults within.now.heads within.now.things (any_type (ahead_of c.old)) (operand (skip 2 (ahead_of c.old))) (made (skip 5 (ahead_of c.old))).align_behind.align) (wanted.wanted_by_operand within.now.heads (operand (skip 2 (ahead_of c.old)))) told.old) }
    ensures passes { OnOk result (PassesAll 6 c.old c.new) }
{
    read_valued(alloc, within.sight(), c, told)?;
    note_operand(alloc, within, c, told)?;
    note_align_behind(alloc, c, told)
}

/// `store operand , operand align_behind`
fn note_store(
    alloc: Global,
    within: &Within,
    c: &mut Cursor,
    told: &mut Told,
) -> Result<(), AllocError>
    ensures told { OnOk result (told.new ≡ told_more within.now.heads (part.store_faults within.now.heads within.now.things (operand (ahead_of c.old)) (operand (skip 3 (ahead_of c.old))) (made (skip 6 (ahead_of c.old))).align_behind.align) (part.wanted_by_store within.now.heads (operand (ahead_of c.old)) (operand (skip 3 (ahead_of c.old)))) told.old) }
    ensures passes { OnOk result (PassesAll 7 c.old c.new) }
{
    note_operand(alloc, within, c, told)?;
    note_operand(alloc, within, c, told)?;
    note_align_behind(alloc, c, told)
}

// ---- lines

/// `call_body attachments`, behind `call`
fn note_call<S: Gaps>(
    alloc: Global,
    within: &Within,
    around: &S,
    c: &mut Cursor,
    told: &mut Told,
) -> Result<(), AllocError>
    ensures told { OnOk result (told.new ≡ told_more within.now.heads (meaning.call_faults within.now.heads (S.called around.now) within.now.things (made (ahead_of c.old)).call_body) (wanted.wanted_by_call within.now.heads (made (ahead_of c.old)).call_body) told.old) }
    ensures passes { OnOk result (PassesAll 2 c.old c.new) }
{
    note_call_body(alloc, within, around, c, told)?;
    skip_part(c);
    Ok(())
}

/// `operation attachments`
fn note_calm(
    alloc: Global,
    within: &Within,
    c: &mut Cursor,
    told: &mut Told,
) -> Result<(), AllocError>
    ensures told { OnOk result (told.new ≡ told_more within.now.heads (meaning.operation_faults within.now.heads within.now.things (made (ahead_of c.old)).operation) (wanted.wanted_by_operation within.now.heads (made (ahead_of c.old)).operation) told.old) }
    ensures passes { OnOk result (PassesAll 2 c.old c.new) }
{
    note_operation(alloc, within, c, told)?;
    skip_part(c);
    Ok(())
}

/// An instruction and its attachments.
fn note_attach<S: Gaps>(
    alloc: Global,
    within: &Within,
    around: &S,
    c: &mut Cursor,
    told: &mut Told,
) -> Result<(), AllocError>
    ensures told { OnOk result (told.new ≡ told_more within.now.heads (meaning.instruction_faults within.now.heads (S.called around.now) within.now.things (made (ahead_of c.old)).attach.instruction) (wanted.wanted_by_instruction within.now.heads (made (ahead_of c.old)).attach.instruction) told.old) }
    ensures passes { OnOk result (Passes c.old c.new) }
{
    match c.rule() {
        Some(rule::OPERATION) => note_calm(alloc, within, c, told),
        Some(rule::ELEMENT) => note_element(alloc, within, c, told),
        Some(rule::ALLOCA) => note_alloca(alloc, within.sight(), c, told),
        Some(rule::LOAD) => note_load(alloc, within, c, told),
        Some(rule::STORE) => note_store(alloc, within, c, told),
        Some(rule::TAIL_CALL) => note_call(alloc, within, around, c, told),
        Some(rule::CALL) => note_call(alloc, within, around, c, told),
        other => {
            c.pass(other);
            Ok(())
        }
    }
}

/// `register attach`
fn note_line<S: Gaps>(
    alloc: Global,
    within: &Within,
    around: &S,
    c: &mut Cursor,
    told: &mut Told,
) -> Result<(), AllocError>
    ensures told { OnOk result (told.new ≡ told_more within.now.heads (meaning.line_faults within.now.heads (S.called around.now) within.now.things (lines.line (ahead_of c.old))) (wanted.wanted_by_line within.now.heads (lines.line (ahead_of c.old))) told.old) }
    ensures passes { OnOk result (PassesAll 2 c.old c.new) }
{
    skip_part(c);
    note_attach(alloc, within, around, c, told)
}

/// Any number of lines.
#[tactic(auto, using(crate::proofs::Differ::differ, module_walk::proofs::OtherLines::no_lines))]
fn note_lines<S: Gaps>(
    alloc: Global,
    within: &Within,
    around: &S,
    c: &mut Cursor,
    told: &mut Told,
) -> Result<(), AllocError>
    ensures told { OnOk result (told.new ≡ told_more within.now.heads (flat_map (meaning.line_faults within.now.heads (S.called around.now) within.now.things) (made (ahead_of c.old)).lines) (flat_map (wanted.wanted_by_line within.now.heads) (made (ahead_of c.old)).lines) told.old) }
    ensures passes { OnOk result (Passes c.old c.new) }
{
    loop {
        match c.rule() {
            Some(rule::LINES) => note_line(alloc, within, around, c, told)?,
            other => {
                c.pass(other);
                return Ok(());
            }
        }
    }
}

// ---- phi nodes

/// `[ V, LOCAL ]` of a phi node of this type
fn note_entry(
    alloc: Global,
    within: &Within,
    c: &mut Cursor,
    ty: &Ty,
    told: &mut Told,
) -> Result<(), AllocError>
    ensures told { OnOk result (told.new ≡ told_more within.now.heads (meaning.entry_faults within.now.heads within.now.things ty.now (see.entry (ahead_of c.old))) (flow.wanted_by_entry within.now.heads (see.entry (ahead_of c.old))) told.old) }
    ensures passes { OnOk result (PassesAll 3 c.old c.new) }
{
    skip_part(c);
    note_value(alloc, within, c, ty, told)?;
    note_label(alloc, within, c, told)
}

/// The entries of a phi node behind the first one.
#[tactic(auto, using(crate::proofs::Differ::differ, module_walk::proofs::Others::no_entries, module_walk::proofs::Others::no_next_entry))]
fn note_entries(
    alloc: Global,
    within: &Within,
    c: &mut Cursor,
    ty: &Ty,
    told: &mut Told,
) -> Result<(), AllocError>
    ensures told { OnOk result (told.new ≡ told_more within.now.heads (flat_map (meaning.entry_faults within.now.heads within.now.things ty.now) (made (ahead_of c.old)).entries_behind.entries) (flat_map (flow.wanted_by_entry within.now.heads) (made (ahead_of c.old)).entries_behind.entries) told.old) }
    ensures passes { OnOk result (Passes c.old c.new) }
{
    loop {
        match c.rule() {
            Some(rule::ENTRIES_BEHIND) => match c.rule() {
                Some(rule::ENTRY_NEXT) => note_entry(alloc, within, c, ty, told)?,
                other => {
                    c.pass(other);
                    return Ok(());
                }
            },
            other => {
                c.pass(other);
                return Ok(());
            }
        }
    }
}

/// `phi T [ V, LOCAL ], ..` and metadata
fn note_node(
    alloc: Global,
    within: &Within,
    c: &mut Cursor,
    told: &mut Told,
) -> Result<(), AllocError>
    ensures told { OnOk result (told.new ≡ told_more within.now.heads (flow.node_faults within.now.heads within.now.things (see.node (ahead_of c.old))) (flow.wanted_by_node within.now.heads (see.node (ahead_of c.old))) told.old) }
    ensures passes { OnOk result (PassesAll 6 c.old c.new) }
{
    let ty = read_valued(alloc, within.sight(), c, told)?;
    note_entry(alloc, within, c, &ty, told)?;
    note_entries(alloc, within, c, &ty, told)
}

// ---- terminators

/// `void` or `T V`
#[tactic(auto, using(crate::proofs::Differ::differ, module_walk::proofs::Others::no_returned))]
fn note_returned(
    alloc: Global,
    within: &Within,
    c: &mut Cursor,
    told: &mut Told,
) -> Result<(), AllocError>
    ensures told { OnOk result (told.new ≡ told_more within.now.heads (meaning.returned_faults within.now.heads within.now.things (made (ahead_of c.old)).returned) (wanted.wanted_by_return within.now.heads (made (ahead_of c.old)).returned) told.old) }
    ensures passes { OnOk result (Passes c.old c.new) }
{
    match c.rule() {
        Some(rule::RETURNED) => {
            note_operand(alloc, within, c, told)?;
            Ok(())
        }
        other => {
            c.pass(other);
            Ok(())
        }
    }
}

/// `T V, label LOCAL, label LOCAL`
fn note_condition(
    alloc: Global,
    within: &Within,
    c: &mut Cursor,
    told: &mut Told,
) -> Result<(), AllocError>
    ensures told { OnOk result (told.new ≡ told_more within.now.heads (meaning.branch_faults within.now.heads within.now.things (see.branch_by (Some rules.CONDITION) (ahead_of c.old))) (wanted.wanted_by_branch within.now.heads (see.branch_by (Some rules.CONDITION) (ahead_of c.old))) told.old) }
    ensures closes { OnOk result (Closes (Some rules.CONDITION) c.old c.new) }
{
    note_operand(alloc, within, c, told)?;
    note_label(alloc, within, c, told)?;
    note_label(alloc, within, c, told)
}

/// The label that is seen where none stands.
fn note_no_label(within: &Within, told: &mut Told)
    ensures { told.new ≡ faults_more (meaning.label_faults within.now.things empty.no_name) told.old }
{
    let name = no_name();
    note_block_name(&name, within.get(&name.what), told);
}

/// `label LOCAL`, or `T V, label LOCAL, label LOCAL`
#[tactic(auto, using(crate::proofs::Differ::differ, crate::proofs::Other::no_branch))]
fn note_branch(
    alloc: Global,
    within: &Within,
    c: &mut Cursor,
    told: &mut Told,
) -> Result<(), AllocError>
    ensures told { OnOk result (told.new ≡ told_more within.now.heads (meaning.branch_faults within.now.heads within.now.things (made (ahead_of c.old)).branch) (wanted.wanted_by_branch within.now.heads (made (ahead_of c.old)).branch) told.old) }
    ensures passes { OnOk result (Passes c.old c.new) }
{
    match c.rule() {
        Some(rule::ALWAYS) => note_label(alloc, within, c, told),
        Some(rule::CONDITION) => note_condition(alloc, within, c, told),
        other => {
            c.pass(other);
            note_no_label(within, told);
            Ok(())
        }
    }
}

/// `T INT, label LOCAL`
fn note_case(
    alloc: Global,
    within: &Within,
    c: &mut Cursor,
    told: &mut Told,
) -> Result<(), AllocError>
    ensures told { OnOk result (told.new ≡ faults_more (meaning.case_faults within.now.heads within.now.things (see.case (ahead_of c.old))) told.old) }
    ensures passes { OnOk result (PassesAll 4 c.old c.new) }
{
    let ty = read_known(alloc, within.sight(), c, told)?;
    note_int(alloc, c, &ty, told)?;
    note_label(alloc, within, c, told)
}

/// Any number of cases.
#[tactic(auto, using(crate::proofs::Differ::differ, crate::proofs::Other::no_cases))]
fn note_cases(
    alloc: Global,
    within: &Within,
    c: &mut Cursor,
    told: &mut Told,
) -> Result<(), AllocError>
    ensures told { OnOk result (told.new ≡ faults_more (flat_map (meaning.case_faults within.now.heads within.now.things) (made (ahead_of c.old)).cases) told.old) }
    ensures passes { OnOk result (Passes c.old c.new) }
{
    loop {
        match c.rule() {
            Some(rule::CASES) => note_case(alloc, within, c, told)?,
            other => {
                c.pass(other);
                return Ok(());
            }
        }
    }
}

/// `T V, label LOCAL [ cases ]`
fn note_switch(
    alloc: Global,
    within: &Within,
    c: &mut Cursor,
    told: &mut Told,
) -> Result<(), AllocError>
    ensures told { OnOk result (told.new ≡ told_more within.now.heads (meaning.term_faults within.now.heads within.now.things (see.term_by (Some rules.SWITCH) (ahead_of c.old))) (wanted.wanted_by_term within.now.heads (see.term_by (Some rules.SWITCH) (ahead_of c.old))) told.old) }
    ensures closes { OnOk result (Closes (Some rules.SWITCH) c.old c.new) }
{
    note_operand(alloc, within, c, told)?;
    note_label(alloc, within, c, told)?;
    skip_part(c);
    note_cases(alloc, within, c, told)
}

/// A terminator.
#[tactic(auto, using(crate::proofs::Differ::differ, module_walk::proofs::Others::no_term))]
fn note_term(
    alloc: Global,
    within: &Within,
    c: &mut Cursor,
    told: &mut Told,
) -> Result<(), AllocError>
    ensures told { OnOk result (told.new ≡ told_more within.now.heads (meaning.term_faults within.now.heads within.now.things (made (ahead_of c.old)).term) (wanted.wanted_by_term within.now.heads (made (ahead_of c.old)).term) told.old) }
    ensures passes { OnOk result (Passes c.old c.new) }
{
    match c.rule() {
        Some(rule::RET) => note_returned(alloc, within, c, told),
        Some(rule::BR) => note_branch(alloc, within, c, told),
        Some(rule::SWITCH) => note_switch(alloc, within, c, told),
        other => {
            c.pass(other);
            Ok(())
        }
    }
}

// ---- blocks

/// What stands in a block before its terminator: phi nodes and lines.
#[tactic(auto, using(crate::proofs::Differ::differ, module_walk::proofs::Others::no_body, module_walk::proofs::Others::no_behind_register))]
fn note_body<S: Gaps>(
    alloc: Global,
    within: &Within,
    around: &S,
    c: &mut Cursor,
    told: &mut Told,
) -> Result<(), AllocError>
    ensures told { OnOk result (told.new ≡ told_more within.now.heads (flow.body_faults within.now.heads (S.called around.now) within.now.things (made (ahead_of c.old)).body) (flow.wanted_by_body within.now.heads (made (ahead_of c.old)).body) told.old) }
    ensures passes { OnOk result (Passes c.old c.new) }
{
    loop {
        match c.rule() {
            Some(rule::BODY) => {
                skip_part(c);
                match c.rule() {
                    Some(rule::BEHIND_PHI) => note_node(alloc, within, c, told)?,
                    Some(rule::BEHIND_LINE) => {
                        note_attach(alloc, within, around, c, told)?;
                        return note_lines(alloc, within, around, c, told);
                    }
                    other => {
                        c.pass(other);
                        return Ok(());
                    }
                }
            }
            other => {
                c.pass(other);
                return Ok(());
            }
        }
    }
}

/// `[LABEL] body term` and metadata
fn note_block<S: Gaps>(
    alloc: Global,
    within: &Within,
    around: &S,
    c: &mut Cursor,
    told: &mut Told,
) -> Result<(), AllocError>
    ensures told { OnOk result (told.new ≡ told_more within.now.heads (meaning.block_faults within.now.heads (S.called around.now) within.now.things (see.block (ahead_of c.old))) (wanted.wanted_by_block within.now.heads (see.block (ahead_of c.old))) told.old) }
    ensures passes { OnOk result (PassesAll 4 c.old c.new) }
{
    skip_part(c);
    note_body(alloc, within, around, c, told)?;
    note_term(alloc, within, c, told)?;
    skip_part(c);
    Ok(())
}

/// The blocks of a function.
#[tactic(auto, using(crate::proofs::Differ::differ, module_walk::proofs::Others::no_blocks))]
pub(crate) fn note_blocks<S: Gaps>(
    alloc: Global,
    within: &Within,
    around: &S,
    c: &mut Cursor,
    told: &mut Told,
) -> Result<(), AllocError>
    ensures told { OnOk result (told.new ≡ told_more within.now.heads (flat_map (meaning.block_faults within.now.heads (S.called around.now) within.now.things) (see.block (ahead_of c.old) ∷ (made (skip 4 (ahead_of c.old))).blocks)) (flat_map (wanted.wanted_by_block within.now.heads) (see.block (ahead_of c.old) ∷ (made (skip 4 (ahead_of c.old))).blocks)) told.old) }
    ensures passes { OnOk result (PassesAll 5 c.old c.new) }
{
    note_block(alloc, within, around, c, told)?;
    loop {
        match c.rule() {
            Some(rule::BLOCKS) => note_block(alloc, within, around, c, told)?,
            other => {
                c.pass(other);
                return Ok(());
            }
        }
    }
}
