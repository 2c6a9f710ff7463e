//! Functions: their blocks and their heads.
ghost use Rattle.std.specs.List.{filter};
ghost use Rattle.std.specs.Prelude.{◌≡◌, ◌∷◌, ◌++◌, [], map, IfOk, OnOk};
ghost use Rattle.derivation_cursor.specs.At.{Passes, PassesAll, ahead_of};
ghost use Rattle.module_derivations.specs.FlatMarks.Flat.{skip};
ghost use Rattle.module_derivations.specs.Blocks as see;
ghost use Rattle.module_derivations.specs.Empty.{made, no_operation};
ghost use Rattle.module_derivations.specs.Functions as heads;
ghost use Rattle.module_walk.specs.Counted.{capped, registers_of, names_of_params, param_at};
ghost use Rattle.module_walk.specs.Flow as part;
ghost use Rattle.module_walk.specs.Functions.{headed};
ghost use Rattle.named_modules.specs.Built as meaning;
ghost use Rattle.named_modules.specs.Functions.{linkage_said};
ghost use Rattle.named_modules.specs.Lines.{is_kept};
ghost use Rattle.named_modules.specs.Values.{extensions_of};

use crate::constants::{
    read_extensions, read_global, read_int, read_result_type, read_said_name, read_type,
};
use crate::lines::{counted, read_lines_behind, read_register};
use crate::operations::{no_operation, read_operand, read_value};
use contents::Seq;
use derivation_cursor::{Cursor, read_name, skip_part};
use ir_core::{
    Block, Calm, Case, CondBr, Entry, Extensions, Function, Instr, Linkage, Name, NamedTypes,
    Param, Phi, Switch, Term, Ty,
};
use module_derivations::rule;
use module_grammar::Placed;
use named_modules::built;
use std::alloc::{AllocError, Global};

/// `[LABEL]`: the name of a block where this number is due, and the number that is due behind it.
#[tactic(auto, using(crate::proofs::Labels::named, crate::proofs::Labels::counted))]
fn read_block_label(alloc: Global, c: &mut Cursor, due: u64) -> Result<(Name, u64), AllocError>
    ensures name { IfOk result (λ it. it.0 ≡ meaning.name_due due (meaning.label_name (made (ahead_of c.old)).block_label)) }
    ensures due { IfOk result (λ it. it.1 ≡ capped (meaning.due_behind due (meaning.label_name (made (ahead_of c.old)).block_label))) }
    ensures passes { OnOk result (Passes c.old c.new) }
{
    match c.rule() {
        Some(rule::LABEL) => Ok(counted(due, Some(read_name(alloc, c)?))),
        other => {
            c.pass(other);
            Ok(counted(due, None))
        }
    }
}

/// `[ V, LOCAL ]`
fn read_entry(alloc: Global, c: &mut Cursor, ty: &Ty) -> Result<Entry, AllocError>
    ensures built { IfOk result (λ it. it ≡ meaning.entry_of ty.now (see.entry (ahead_of c.old))) }
    ensures passes { OnOk result (PassesAll 3 c.old c.new) }
{
    skip_part(c);
    let value = read_value(alloc, c, ty)?;
    let from = read_said_name(alloc, c)?;
    Ok(Entry { value, from })
}

/// The entries of a phi node from behind the first one on.
#[tactic(auto, using(crate::proofs::Others::no_entries, crate::proofs::Others::no_next_entry, crate::proofs::Onto::mapped_behind))]
fn read_entries(
    alloc: Global,
    c: &mut Cursor,
    ty: &Ty,
    first: Entry,
) -> Result<Seq<Entry>, AllocError>
    ensures built { IfOk result (λ it. it ≡ first ∷ map (meaning.entry_of ty.now) (made (ahead_of c.old)).entries_behind.entries) }
    ensures passes { OnOk result (Passes c.old c.new) }
{
    let mut entries = Seq::new(alloc);
    entries.push(first)?;
    loop {
        match c.rule() {
            Some(rule::ENTRIES_BEHIND) => match c.rule() {
                Some(rule::ENTRY_NEXT) => entries.push(read_entry(alloc, c, ty)?)?,
                other => {
                    c.pass(other);
                    return Ok(entries);
                }
            },
            other => {
                c.pass(other);
                return Ok(entries);
            }
        }
    }
}

/// `phi T [ V, LOCAL ], ..` and metadata
fn read_phi(alloc: Global, c: &mut Cursor, name: Name) -> Result<Phi, AllocError>
    ensures built { IfOk result (λ it. it ≡ part.phi_named name (see.node (ahead_of c.old))) }
    ensures passes { OnOk result (PassesAll 6 c.old c.new) }
{
    let ty = read_type(alloc, c)?;
    let first = read_entry(alloc, c, &ty)?;
    let entries = read_entries(alloc, c, &ty, first)?;
    Ok(Phi { name, ty, entries })
}

/// `T INT, label LOCAL`
fn read_case(alloc: Global, c: &mut Cursor) -> Result<Case, AllocError>
    ensures built { IfOk result (λ it. it ≡ meaning.case_of (see.case (ahead_of c.old))) }
    ensures passes { OnOk result (PassesAll 4 c.old c.new) }
{
    let ty = read_type(alloc, c)?;
    let number = built(read_int(alloc, c, &ty)?);
    let label = read_said_name(alloc, c)?;
    Ok(Case { ty, number, label })
}

#[tactic(auto, using(crate::proofs::Differ::differ, crate::proofs::Onto::mapped_behind))]
fn read_cases(alloc: Global, c: &mut Cursor) -> Result<Seq<Case>, AllocError>
    ensures built { IfOk result (λ it. it ≡ map meaning.case_of (made (ahead_of c.old)).cases) }
    ensures passes { OnOk result (Passes c.old c.new) }
{
    let mut cases = Seq::new(alloc);
    loop {
        match c.rule() {
            Some(rule::CASES) => cases.push(read_case(alloc, c)?)?,
            other => {
                c.pass(other);
                return Ok(cases);
            }
        }
    }
}

/// `void` or `T V`
#[tactic(auto, using(crate::proofs::Others::no_returned))]
fn read_returned(alloc: Global, c: &mut Cursor) -> Result<Term, AllocError>
    ensures built { IfOk result (λ it. it ≡ meaning.return_of (made (ahead_of c.old)).returned) }
    ensures passes { OnOk result (Passes c.old c.new) }
{
    match c.rule() {
        Some(rule::RETURNED) => Ok(Term::Ret(read_operand(alloc, c)?)),
        other => {
            c.pass(other);
            Ok(Term::RetVoid)
        }
    }
}

/// `label LOCAL`, or `T V, label LOCAL, label LOCAL`
fn read_branch(alloc: Global, c: &mut Cursor) -> Result<Term, AllocError>
    ensures built { IfOk result (λ it. it ≡ meaning.branch_of (made (ahead_of c.old)).branch) }
    ensures passes { OnOk result (Passes c.old c.new) }
{
    match c.rule() {
        Some(rule::ALWAYS) => Ok(Term::Br(read_said_name(alloc, c)?)),
        Some(rule::CONDITION) => {
            let condition = read_operand(alloc, c)?;
            let on_true = read_said_name(alloc, c)?;
            let on_false = read_said_name(alloc, c)?;
            Ok(Term::CondBr(CondBr {
                condition,
                on_true,
                on_false,
            }))
        }
        other => {
            c.pass(other);
            Ok(Term::Br(Name::Number(0)))
        }
    }
}

/// `T V, label LOCAL [ cases ]`
fn read_switch(alloc: Global, c: &mut Cursor) -> Result<Switch, AllocError>
    ensures built { IfOk result (λ it. it ≡ part.switch_of (part.switch (ahead_of c.old))) }
    ensures passes { OnOk result (PassesAll 6 c.old c.new) }
{
    let value = read_operand(alloc, c)?;
    let default = read_said_name(alloc, c)?;
    skip_part(c);
    let cases = read_cases(alloc, c)?;
    Ok(Switch {
        value,
        default,
        cases,
    })
}

/// A terminator.
#[tactic(auto, using(crate::proofs::Others::no_term))]
fn read_term(alloc: Global, c: &mut Cursor) -> Result<Term, AllocError>
    ensures built { IfOk result (λ it. it ≡ meaning.term_of (made (ahead_of c.old)).term) }
    ensures passes { OnOk result (Passes c.old c.new) }
{
    match c.rule() {
        Some(rule::RET) => read_returned(alloc, c),
        Some(rule::BR) => read_branch(alloc, c),
        Some(rule::SWITCH) => Ok(Term::Switch(read_switch(alloc, c)?)),
        other => {
            c.pass(other);
            Ok(Term::Unreachable)
        }
    }
}

/// The line that stands where none is read, and the number that is due behind it.
fn no_lines(
    alloc: Global,
    due: u64,
    register: Option<Placed<Name>>,
) -> Result<(Seq<Instr>, u64), AllocError>
    ensures lines { IfOk result (λ it. it.0 ≡ meaning.calm due register (meaning.operation_of no_operation) ∷ []) }
    ensures due { IfOk result (λ it. it.1 ≡ capped (meaning.due_behind due register)) }
{
    let (name, behind) = counted(due, register);
    let right = no_operation();
    let mut lines = Seq::new(alloc);
    lines.push(Instr::Calm(Calm { name, right }))?;
    Ok((lines, behind))
}

/// What stands in a block before its terminator: phi nodes, lines, and the number that is due behind these.
#[tactic(auto, using(crate::proofs::Others::no_body, crate::proofs::Others::no_behind_register, crate::proofs::Onto::phis_are, crate::proofs::Onto::lines_counted, crate::proofs::Onto::behind_counted, crate::proofs::Counted::capped_is, crate::proofs::Due::small))]
fn read_body(
    alloc: Global,
    c: &mut Cursor,
    types: &NamedTypes,
    due: u64,
) -> Result<(Seq<Phi>, Seq<Instr>, u64), AllocError>
    ensures phis { IfOk result (λ it. it.0 ≡ meaning.phis_from due (made (ahead_of c.old)).body.phis) }
    ensures lines { IfOk result (λ it. it.1 ≡ meaning.lines_from types.now (meaning.due_from due (registers_of (made (ahead_of c.old)).body.phis)) (filter is_kept (made (ahead_of c.old)).body.lines)) }
    ensures due { IfOk result (λ it. it.2 ≡ capped (meaning.due_behind_lines types.now (meaning.due_from due (registers_of (made (ahead_of c.old)).body.phis)) (filter is_kept (made (ahead_of c.old)).body.lines))) }
    ensures passes { OnOk result (Passes c.old c.new) }
{
    let mut behind = due;
    let mut phis = Seq::new(alloc);
    loop {
        match c.rule() {
            Some(rule::BODY) => {
                let register = read_register(alloc, c)?;
                match c.rule() {
                    Some(rule::BEHIND_PHI) => {
                        let (name, next) = counted(behind, register);
                        phis.push(read_phi(alloc, c, name)?)?;
                        behind = next;
                    }
                    Some(rule::BEHIND_LINE) => {
                        let (lines, next) = read_lines_behind(alloc, c, types, behind, register)?;
                        return Ok((phis, lines, next));
                    }
                    other => {
                        c.pass(other);
                        let (lines, next) = no_lines(alloc, behind, register)?;
                        return Ok((phis, lines, next));
                    }
                }
            }
            other => {
                c.pass(other);
                return Ok((phis, Seq::new(alloc), behind));
            }
        }
    }
}

/// A block, and the number that is due behind it.
#[tactic(auto, using(crate::proofs::Due::phis_capped, crate::proofs::Due::lines_behind, crate::proofs::Due::behind_phis))]
fn read_block(
    alloc: Global,
    c: &mut Cursor,
    types: &NamedTypes,
    due: u64,
) -> Result<(Block, u64), AllocError>
    ensures built { IfOk result (λ it. it.0 ≡ meaning.block_from types.now due (see.block (ahead_of c.old))) }
    ensures due { IfOk result (λ it. it.1 ≡ part.due_behind_block types.now due (see.block (ahead_of c.old))) }
    ensures passes { OnOk result (PassesAll 4 c.old c.new) }
{
    let (name, behind) = read_block_label(alloc, c, due)?;
    let (phis, body, behind) = read_body(alloc, c, types, behind)?;
    let term = read_term(alloc, c)?;
    skip_part(c);
    let block = Block {
        name,
        phis,
        body,
        term,
    };
    Ok((block, behind))
}

/// Puts a block, and gives the number that is due behind it.
fn put_block(
    alloc: Global,
    c: &mut Cursor,
    types: &NamedTypes,
    due: u64,
    blocks: &mut Seq<Block>,
) -> Result<u64, AllocError>
    ensures put { OnOk result (blocks.new ≡ blocks.old ++ meaning.block_from types.now due (see.block (ahead_of c.old)) ∷ []) }
    ensures due { IfOk result (λ it. it ≡ part.due_behind_block types.now due (see.block (ahead_of c.old))) }
    ensures passes { OnOk result (PassesAll 4 c.old c.new) }
{
    let (block, behind) = read_block(alloc, c, types, due)?;
    blocks.push(block)?;
    Ok(behind)
}

/// The blocks of a function.
#[tactic(auto, using(crate::proofs::Others::no_blocks))]
pub(crate) fn read_blocks(
    alloc: Global,
    c: &mut Cursor,
    types: &NamedTypes,
    due: u64,
) -> Result<Seq<Block>, AllocError>
    ensures built { IfOk result (λ it. it ≡ meaning.blocks_from types.now due (see.block (ahead_of c.old) ∷ (made (skip 4 (ahead_of c.old))).blocks)) }
    ensures passes { OnOk result (PassesAll 5 c.old c.new) }
{
    let mut blocks = Seq::new(alloc);
    let mut behind = put_block(alloc, c, types, due, &mut blocks)?;
    loop {
        match c.rule() {
            Some(rule::BLOCKS) => behind = put_block(alloc, c, types, behind, &mut blocks)?,
            other => {
                c.pass(other);
                return Ok(blocks);
            }
        }
    }
}

/// A word of linkage, `external`, or nothing.
pub(crate) fn read_linkage(c: &mut Cursor) -> Linkage
    ensures built { result ≡ linkage_said (made (ahead_of c.old)).linkage }
    ensures passes { Passes c.old c.new }
{
    match c.rule() {
        Some(rule::WORD_LINKAGE) => derivation_cursor::read_linkage(c).linkage(),
        Some(rule::EXTERNAL_LINKAGE) => Linkage::External,
        other => {
            c.pass(other);
            Linkage::External
        }
    }
}

/// What stands in a head before the function's name.
pub(crate) fn read_result(alloc: Global, c: &mut Cursor) -> Result<(Extensions, Ty), AllocError>
    ensures extensions { IfOk result (λ it. it.0 ≡ extensions_of (heads.result (ahead_of c.old)).attributes) }
    ensures ty { IfOk result (λ it. it.1 ≡ meaning.result_of (heads.result (ahead_of c.old)).ty) }
    ensures passes { OnOk result (PassesAll 3 c.old c.new) }
{
    skip_part(c);
    let extensions = read_extensions(c);
    let ty = read_result_type(alloc, c)?;
    Ok((extensions, ty))
}

/// `[LOCAL]`: the name of a parameter where this number is due, and the number that is due behind it.
fn read_param_name(alloc: Global, c: &mut Cursor, due: u64) -> Result<(Name, u64), AllocError>
    ensures name { IfOk result (λ it. it.0 ≡ meaning.name_due due (made (ahead_of c.old)).param_name) }
    ensures due { IfOk result (λ it. it.1 ≡ capped (meaning.due_behind due (made (ahead_of c.old)).param_name)) }
    ensures passes { OnOk result (Passes c.old c.new) }
{
    match c.rule() {
        Some(rule::NAMED) => Ok(counted(due, Some(read_name(alloc, c)?))),
        other => {
            c.pass(other);
            Ok(counted(due, None))
        }
    }
}

/// `T attributes [LOCAL]`, put where this number is due, and the number that is due behind it.
fn put_param(
    alloc: Global,
    c: &mut Cursor,
    due: u64,
    params: &mut Seq<Param>,
) -> Result<u64, AllocError>
    ensures put { OnOk result (params.new ≡ params.old ++ param_at due (heads.param (ahead_of c.old)) ∷ []) }
    ensures due { IfOk result (λ it. it ≡ capped (meaning.due_behind due (heads.param (ahead_of c.old)).name)) }
    ensures passes { OnOk result (PassesAll 4 c.old c.new) }
{
    let ty = read_type(alloc, c)?;
    let extensions = read_extensions(c);
    let (name, behind) = read_param_name(alloc, c, due)?;
    params.push(Param {
        name,
        ty,
        extensions,
    })?;
    Ok(behind)
}

/// The parameters of a definition, and the number that is due behind them.
#[tactic(auto, using(crate::proofs::Others::no_params, crate::proofs::Others::no_more_params, crate::proofs::Onto::params_are, crate::proofs::Due::small))]
fn read_params(alloc: Global, c: &mut Cursor) -> Result<(Seq<Param>, u64), AllocError>
    ensures params { IfOk result (λ it. it.0 ≡ meaning.params_from 0 (made (ahead_of c.old)).params) }
    ensures due { IfOk result (λ it. it.1 ≡ capped (meaning.due_from 0 (names_of_params (made (ahead_of c.old)).params))) }
    ensures passes { OnOk result (Passes c.old c.new) }
{
    let mut params = Seq::new(alloc);
    let mut due = match c.rule() {
        Some(rule::PARAMS) => put_param(alloc, c, 0, &mut params)?,
        other => {
            c.pass(other);
            return Ok((params, 0));
        }
    };
    loop {
        match c.rule() {
            Some(rule::MORE_PARAMS) => due = put_param(alloc, c, due, &mut params)?,
            other => {
                c.pass(other);
                return Ok((params, due));
            }
        }
    }
}

/// `result NAME ( params )` and a head's end: the function without its blocks, and the number that is due behind its parameters.
pub(crate) fn read_head(
    alloc: Global,
    c: &mut Cursor,
    linkage: Linkage,
) -> Result<(Function, u64), AllocError>
    ensures built { IfOk result (λ it. it.0 ≡ headed linkage (heads.head (ahead_of c.old))) }
    ensures due { IfOk result (λ it. it.1 ≡ capped (meaning.due_from 0 (names_of_params (heads.head (ahead_of c.old)).params))) }
    ensures passes { OnOk result (PassesAll 7 c.old c.new) }
{
    let (result_extensions, result) = read_result(alloc, c)?;
    let name = read_global(alloc, c)?;
    let (params, due) = read_params(alloc, c)?;
    skip_part(c);
    skip_part(c);
    let function = Function {
        linkage,
        result_extensions,
        result,
        name,
        params,
        blocks: Seq::new(alloc),
    };
    Ok((function, due))
}
