//! What is at fault in a module, and where it wants a block that is too large.
ghost use Rattle.std.specs.Prelude.{◌≡◌, ◌↔◌, ◌∷◌, ◌++◌, List, [], None, false, IfOk, IfSome, OnOk};
ghost use Rattle.std.specs.List.{filter_map, flat_map};
ghost use Rattle.derivation_cursor.specs.At.{Passes, PassesAll, ahead_of};
ghost use Rattle.module_derivations.specs.FlatMarks.Flat.{behind, skip};
ghost use Rattle.module_derivations.specs.Blocks.{block};
ghost use Rattle.module_derivations.specs.Empty.{made};
ghost use Rattle.module_derivations.specs.Functions as see;
ghost use Rattle.module_grammar.specs.Joined.{declared_from};
ghost use Rattle.module_grammar.specs.declared.items.ItemText.{ItemText};
ghost use Rattle.module_spelling.specs.Blocks as wanted;
ghost use Rattle.module_walk.specs.Functions.{declaration};
ghost use Rattle.module_walk.specs.Items.{definition};
ghost use Rattle.named_modules.specs.Built as built;
ghost use Rattle.named_modules.specs.Constants.{global_name};
ghost use Rattle.named_modules.specs.Faults as meaning;
ghost use Rattle.named_modules.specs.Functions.{is_dropped_name};
ghost use Rattle.fault_walk.specs.First.{IsFirst, IsFirstOf};
ghost use Rattle.fault_walk.specs.Items as part;
ghost use Rattle.fault_walk.specs.Items.{names_in};
ghost use Rattle.fault_walk.specs.Told.{faults_more, noted, noted_large, told_more};

use crate::blocks::note_blocks;
use crate::constants::{
    note_align, note_block, note_types, read_global_name, read_stated, read_valued,
};
use crate::inits::note_init;
use crate::names::{Within, due_after, note_names, note_number, skip_four};
use crate::sight::Sight;
use crate::told::{Told, at, note_other, note_unless};
use contents::Seq;
use derivation_cursor::{Cursor, Gaps, read_name, skip_part};
use ir_core::{BitType, Function, Module, Name};
use ir_typing::LentNames;
use module_derivations::rule;
use module_grammar::Placed;
use name_claims::Reason;
use std::alloc::{AllocError, Global};

// ---- heads

/// `void`, or a type of values.
#[tactic(auto, using(crate::proofs::ItemCases::no_result_type))]
fn note_result_type(
    alloc: Global,
    sight: &Sight,
    c: &mut Cursor,
    told: &mut Told,
) -> Result<(), AllocError>
    ensures told { OnOk result (told.new ≡ told_more sight.now (meaning.result_faults sight.now (made (ahead_of c.old)).result_type) [] told.old) }
    ensures passes { OnOk result (Passes c.old c.new) }
{
    match c.rule() {
        Some(rule::TYPED_RESULT) => {
            read_valued(alloc, sight, c, told)?;
            Ok(())
        }
        other => {
            c.pass(other);
            Ok(())
        }
    }
}

/// What stands in a head before the function's name.
fn note_result(
    alloc: Global,
    sight: &Sight,
    c: &mut Cursor,
    told: &mut Told,
) -> Result<(), AllocError>
    ensures told { OnOk result (told.new ≡ told_more sight.now (meaning.result_faults sight.now (see.result (ahead_of c.old)).ty) [] told.old) }
    ensures passes { OnOk result (PassesAll 3 c.old c.new) }
{
    skip_part(c);
    skip_part(c);
    note_result_type(alloc, sight, c, told)
}

/// `T attributes [LOCAL]`, of a type of values.
fn note_param(
    alloc: Global,
    sight: &Sight,
    c: &mut Cursor,
    told: &mut Told,
) -> Result<(), AllocError>
    ensures told { OnOk result (told.new ≡ told_more sight.now (meaning.param_faults sight.now (see.param (ahead_of c.old))) [] told.old) }
    ensures passes { OnOk result (PassesAll 4 c.old c.new) }
{
    read_valued(alloc, sight, c, told)?;
    skip_part(c);
    skip_part(c);
    Ok(())
}

#[tactic(auto, using(crate::proofs::Differ::differ, crate::proofs::Joined::noted_joined, crate::proofs::Written::no_params, crate::proofs::Written::no_more_params))]
fn note_params(
    alloc: Global,
    sight: &Sight,
    c: &mut Cursor,
    told: &mut Told,
) -> Result<(), AllocError>
    ensures told { OnOk result (told.new ≡ told_more sight.now (flat_map (meaning.param_faults sight.now) (made (ahead_of c.old)).params) [] told.old) }
    ensures passes { OnOk result (Passes c.old c.new) }
{
    match c.rule() {
        Some(rule::PARAMS) => note_param(alloc, sight, c, told)?,
        other => {
            c.pass(other);
            return Ok(());
        }
    }
    loop {
        match c.rule() {
            Some(rule::MORE_PARAMS) => note_param(alloc, sight, c, told)?,
            other => {
                c.pass(other);
                return Ok(());
            }
        }
    }
}

// ---- declarations

/// The parameters of a declaration from one of them on, or from `...` on.
#[tactic(auto, using(crate::proofs::Differ::differ, crate::proofs::Joined::noted_joined, crate::proofs::ItemCases::no_next_declared, crate::proofs::ItemCases::no_more_declared))]
fn note_next_declared(
    alloc: Global,
    sight: &Sight,
    c: &mut Cursor,
    told: &mut Told,
) -> Result<(), AllocError>
    ensures told { OnOk result (told.new ≡ told_more sight.now (flat_map (meaning.param_faults sight.now) (declared_from (made (ahead_of c.old)).next_declared).params) [] told.old) }
    ensures passes { OnOk result (Passes c.old c.new) }
{
    loop {
        match c.rule() {
            Some(rule::DECLARED_PARAM) => {
                note_param(alloc, sight, c, told)?;
                match c.rule() {
                    Some(rule::MORE_DECLARED) => {}
                    other => {
                        c.pass(other);
                        return Ok(());
                    }
                }
            }
            other => {
                c.pass(other);
                return Ok(());
            }
        }
    }
}

/// The parameters of a declaration.
fn note_declared_params(
    alloc: Global,
    sight: &Sight,
    c: &mut Cursor,
    told: &mut Told,
) -> Result<(), AllocError>
    ensures told { OnOk result (told.new ≡ told_more sight.now (flat_map (meaning.param_faults sight.now) (made (ahead_of c.old)).declared_params.params) [] told.old) }
    ensures passes { OnOk result (Passes c.old c.new) }
{
    match c.rule() {
        Some(rule::DECLARED_PARAMS) => note_next_declared(alloc, sight, c, told),
        other => {
            c.pass(other);
            Ok(())
        }
    }
}

/// `[unnamed_addr]`
fn is_unnamed_addr(c: &mut Cursor) -> bool
    ensures said { result ≡ (made (ahead_of c.old)).unnamed_addr }
    ensures passes { Passes c.old c.new }
{
    match c.rule() {
        Some(rule::UNNAMED_ADDR) => true,
        other => {
            c.pass(other);
            false
        }
    }
}

/// `GLOBAL ( params )` or `DEBUG ( .. )`, and a head's end: whether it is dropped.
#[tactic(auto, using(crate::proofs::ItemCases::dropped_else))]
fn read_is_dropped(c: &mut Cursor) -> bool
    ensures { result ≡ is_dropped_name (made (ahead_of c.old)).declared_name }
{
    match c.rule() {
        Some(rule::DECLARED) => false,
        Some(rule::DECLARED_DEBUG) => {
            skip_part(c);
            skip_part(c);
            !is_unnamed_addr(c)
        }
        other => {
            c.pass(other);
            true
        }
    }
}

/// Whether the declaration in front is dropped, from its result on.
fn is_dropped_ahead(c: &Cursor) -> bool
    ensures { result ≡ is_dropped_name (declaration (ahead_of c.now)).declared }
{
    let mut ahead = c.fork();
    skip_part(&mut ahead);
    skip_part(&mut ahead);
    skip_part(&mut ahead);
    read_is_dropped(&mut ahead)
}

/// `GLOBAL ( params )` or `DEBUG ( .. )`, and a head's end, which isn't dropped.
#[tactic(auto, using(crate::proofs::ItemCases::dropped_else))]
fn note_declared<S: Gaps>(
    alloc: Global,
    sight: &Sight,
    around: &S,
    c: &mut Cursor,
    told: &mut Told,
) -> Result<(), AllocError>
    ensures told { OnOk result (is_dropped_name (made (ahead_of c.old)).declared_name ≡ false
        → told.new ≡ told_more sight.now (flat_map (meaning.param_faults sight.now) (built.declared_params (S.declared around.now) (made (ahead_of c.old)).declared_name).params) [] told.old) }
    ensures passes { OnOk result (Passes c.old c.new) }
{
    match c.rule() {
        Some(rule::DECLARED) => {
            skip_part(c);
            note_declared_params(alloc, sight, c, told)?;
            skip_part(c);
            skip_part(c);
            Ok(())
        }
        Some(rule::DECLARED_DEBUG) => {
            let name = read_name(alloc, c)?;
            let mut stated = around.declared(&name);
            note_declared_params(alloc, sight, &mut stated, told)?;
            skip_part(c);
            skip_part(c);
            skip_part(c);
            Ok(())
        }
        other => {
            c.pass(other);
            Ok(())
        }
    }
}

/// `declare result declared_name`, from behind that word on.
#[tactic(auto, using(crate::proofs::Joined::noted_joined))]
fn note_declaration<S: Gaps>(
    alloc: Global,
    sight: &Sight,
    around: &S,
    c: &mut Cursor,
    told: &mut Told,
) -> Result<(), AllocError>
    ensures told { OnOk result (told.new ≡ told_more sight.now (meaning.declaration_faults sight.now (S.declared around.now) (declaration (ahead_of c.old))) [] told.old) }
    ensures passes { OnOk result (PassesAll 4 c.old c.new) }
{
    if is_dropped_ahead(c) {
        skip_four(c);
        return Ok(());
    }
    note_result(alloc, sight, c, told)?;
    note_declared(alloc, sight, around, c, told)
}

// ---- definitions

/// Blocks within the function that is built of them.
fn note_body<'a, S: Gaps>(
    alloc: Global,
    sight: &'a Sight<'a>,
    around: &S,
    function: &'a Function,
    bit: &'a BitType,
    c: &mut Cursor,
    told: &mut Told,
) -> Result<(), AllocError>
    ensures told { OnOk result (told.new ≡ told_more sight.now
        (flat_map (meaning.block_faults sight.now (S.called around.now) (meaning.things_of sight.now.types «function».now)) (block (ahead_of c.old) ∷ (made (skip 4 (ahead_of c.old))).blocks))
        (flat_map (wanted.wanted_by_block sight.now) (block (ahead_of c.old) ∷ (made (skip 4 (ahead_of c.old))).blocks)) told.old) }
    ensures passes { OnOk result (PassesAll 5 c.old c.new) }
{
    let within = Within::new(alloc, sight, function, bit)?;
    note_blocks(alloc, &within, around, c, told)
}

/// `define linkage head attached { block blocks }`, from behind that word on, of which this function is built.
fn note_definition<'a, S: Gaps>(
    alloc: Global,
    sight: &'a Sight<'a>,
    around: &S,
    function: &'a Function,
    bit: &'a BitType,
    c: &mut Cursor,
    told: &mut Told,
) -> Result<(), AllocError>
    ensures told { OnOk result («function».now ≡ built.function_of sight.now.types (definition (ahead_of c.old))
        → told.new ≡ told_more sight.now (meaning.function_faults sight.now (S.called around.now) (definition (ahead_of c.old))) (part.wanted_by_definition sight.now (definition (ahead_of c.old))) told.old) }
    ensures passes { OnOk result (PassesAll 15 c.old c.new) }
{
    let mut names = c.fork();
    let other = note_names(alloc, &mut names)?;
    skip_part(c);
    note_result(alloc, sight, c, told)?;
    skip_part(c);
    note_params(alloc, sight, c, told)?;
    skip_four(c);
    note_body(alloc, sight, around, function, bit, c, told)?;
    note_other(told, other);
    Ok(())
}

// ---- named types and globals

/// `LOCAL = type opaque` or `LOCAL = type { types }`
#[tactic(auto, using(crate::proofs::ItemCases::no_type_body))]
fn note_named_type(
    alloc: Global,
    sight: &Sight,
    c: &mut Cursor,
    told: &mut Told,
) -> Result<(), AllocError>
    ensures told { OnOk result (told.new ≡ told_more sight.now (flat_map (meaning.type_faults sight.now) (meaning.fields_of_type (made (behind (ahead_of c.old))).type_body)) [] told.old) }
    ensures passes { OnOk result (PassesAll 2 c.old c.new) }
{
    skip_part(c);
    match c.rule() {
        Some(rule::STRUCT_BODY) => {
            skip_part(c);
            note_types(alloc, sight, c, told)
        }
        other => {
            c.pass(other);
            Ok(())
        }
    }
}

/// `[LINKAGE] [unnamed_addr] HOLDING T INIT [, align N]`
fn note_held_global(
    alloc: Global,
    sight: &Sight,
    c: &mut Cursor,
    told: &mut Told,
) -> Result<(), AllocError>
    ensures told { OnOk result (told.new ≡ told_more sight.now (meaning.global_var_faults sight.now (part.held_global (ahead_of c.old))) (wanted.wanted_by_global sight.now (part.held_global (ahead_of c.old))) told.old) }
    ensures passes { OnOk result (PassesAll 7 c.old c.new) }
{
    skip_part(c);
    skip_part(c);
    skip_part(c);
    let of = read_stated(alloc, sight, c, told)?;
    note_block(sight, &of, 1, told);
    note_init(alloc, sight, c, &of.ty, told)?;
    note_align(alloc, c, told)?;
    Ok(())
}

/// `external [unnamed_addr] HOLDING T [, align N]`
fn note_external_global(
    alloc: Global,
    sight: &Sight,
    c: &mut Cursor,
    told: &mut Told,
) -> Result<(), AllocError>
    ensures told { OnOk result (told.new ≡ told_more sight.now (meaning.global_var_faults sight.now (part.external_global (ahead_of c.old))) (wanted.wanted_by_global sight.now (part.external_global (ahead_of c.old))) told.old) }
    ensures passes { OnOk result (PassesAll 5 c.old c.new) }
{
    skip_part(c);
    skip_part(c);
    let of = read_stated(alloc, sight, c, told)?;
    note_block(sight, &of, 1, told);
    note_align(alloc, c, told)?;
    Ok(())
}

/// `global_name = global_body`
fn note_global(
    alloc: Global,
    sight: &Sight,
    c: &mut Cursor,
    told: &mut Told,
) -> Result<(), AllocError>
    ensures told { OnOk result (told.new ≡ told_more sight.now (meaning.global_var_faults sight.now (made (behind (ahead_of c.old))).global_body) (wanted.wanted_by_global sight.now (made (behind (ahead_of c.old))).global_body) told.old) }
    ensures passes { OnOk result (PassesAll 2 c.old c.new) }
{
    skip_part(c);
    match c.rule() {
        Some(rule::EXTERNAL_GLOBAL) => note_external_global(alloc, sight, c, told),
        Some(rule::HELD_GLOBAL) => note_held_global(alloc, sight, c, told),
        other => {
            c.pass(other);
            Ok(())
        }
    }
}

// ---- items

/// An item, where the functions of the definitions from it on are these. Gives those that are left behind it.
#[tactic(auto, using(crate::proofs::ItemCases::builds_nothing, crate::proofs::ItemCases::faultless_item, crate::proofs::ItemCases::wants_nothing))]
fn note_item<'a, S: Gaps>(
    alloc: Global,
    sight: &'a Sight<'a>,
    around: &S,
    functions: &'a [Function],
    bit: &'a BitType,
    c: &mut Cursor,
    told: &mut Told,
) -> Result<&'a [Function], AllocError>
    ensures left { IfOk result (λ it. (more : List ItemText) → «functions».now ≡ part.functions_in sight.now.types ((made (ahead_of c.old)).item ∷ more) → it.now ≡ part.functions_in sight.now.types more) }
    ensures told { OnOk result ((more : List ItemText) → «functions».now ≡ part.functions_in sight.now.types ((made (ahead_of c.old)).item ∷ more)
        → told.new ≡ told_more sight.now (meaning.item_faults sight.now (S.called around.now) (S.declared around.now) (made (ahead_of c.old)).item) (wanted.wanted_by_item sight.now (made (ahead_of c.old)).item) told.old) }
    ensures passes { OnOk result (Passes c.old c.new) }
{
    match c.rule() {
        Some(rule::NAMED_TYPE) => {
            note_named_type(alloc, sight, c, told)?;
            Ok(functions)
        }
        Some(rule::GLOBAL) => {
            note_global(alloc, sight, c, told)?;
            Ok(functions)
        }
        Some(rule::DECLARATION) => {
            note_declaration(alloc, sight, around, c, told)?;
            Ok(functions)
        }
        Some(rule::DEFINITION) => match functions.split_first() {
            Some((function, more)) => {
                note_definition(alloc, sight, around, function, bit, c, told)?;
                Ok(more)
            }
            None => Err(AllocError),
        },
        other => {
            c.pass(other);
            Ok(functions)
        }
    }
}

/// Items one by one, where the functions of their definitions are these.
#[tactic(auto, using(crate::proofs::Differ::differ, crate::proofs::ItemCases::no_items))]
fn note_items<'a, S: Gaps>(
    alloc: Global,
    sight: &'a Sight<'a>,
    around: &S,
    functions: &'a [Function],
    bit: &'a BitType,
    c: &mut Cursor,
    told: &mut Told,
) -> Result<(), AllocError>
    requires { «functions».now ≡ part.functions_in sight.now.types (made (ahead_of c.now)).whole.items }
    ensures { OnOk result (told.new ≡ told_more sight.now
        (flat_map (meaning.item_faults sight.now (S.called around.now) (S.declared around.now)) (made (ahead_of c.old)).whole.items)
        (flat_map (wanted.wanted_by_item sight.now) (made (ahead_of c.old)).whole.items) told.old) }
{
    let mut left = functions;
    loop {
        match c.rule() {
            Some(rule::ITEMS) => left = note_item(alloc, sight, around, left, bit, c, told)?,
            other => {
                c.pass(other);
                return Ok(());
            }
        }
    }
}

// ---- names of items

/// The name that an item defines: of a type, of a global, or of a function.
struct Listed {
    name: Placed<Name>,
    is_type: bool,
    is_global: bool,
}

impl Drop for Listed {
    fn drop(self) {
        let Listed {
            name: _,
            is_type: _,
            is_global: _,
        } = self;
    }
}

/// Which names are asked for: of globals and functions, of either, or of types.
#[derive(Clone, Copy)]
enum Pick {
    Named,
    Globals,
    Functions,
    Types,
}

fn is_picked(pick: Pick, listed: &Listed) -> bool
    ensures { result ≡ part.is_picked pick listed.now }
{
    match pick {
        Pick::Named => !listed.is_type,
        Pick::Globals => listed.is_global,
        Pick::Functions => !(listed.is_type || listed.is_global),
        Pick::Types => listed.is_type,
    }
}

/// `GLOBAL ( params )` or `DEBUG ( .. )`, and a head's end: its name, unless it is dropped.
#[tactic(auto, using(crate::proofs::ItemCases::lists_no_name))]
fn read_declared_name(alloc: Global, c: &mut Cursor) -> Result<Option<Placed<Name>>, AllocError>
    ensures said { IfOk result (λ it. it ≡ part.name_kept (made (ahead_of c.old)).declared_name) }
    ensures passes { OnOk result (Passes c.old c.new) }
{
    match c.rule() {
        Some(rule::DECLARED) => {
            let name = read_name(alloc, c)?;
            skip_part(c);
            skip_part(c);
            skip_part(c);
            Ok(Some(name))
        }
        Some(rule::DECLARED_DEBUG) => {
            let name = read_name(alloc, c)?;
            skip_part(c);
            let is_kept = is_unnamed_addr(c);
            skip_part(c);
            if is_kept { Ok(Some(name)) } else { Ok(None) }
        }
        other => {
            c.pass(other);
            Ok(None)
        }
    }
}

/// The name of a definition, from behind its word on.
fn read_defined_name(alloc: Global, c: &mut Cursor) -> Result<Placed<Name>, AllocError>
    ensures said { IfOk result (λ it. it ≡ global_name (definition (ahead_of c.old)).head.name) }
    ensures passes { OnOk result (PassesAll 15 c.old c.new) }
{
    skip_four(c);
    let name = read_global_name(alloc, c)?;
    skip_four(c);
    skip_four(c);
    skip_part(c);
    skip_part(c);
    Ok(name)
}

/// The name of a declaration, from behind its word on, unless it is dropped.
fn read_kept_name(alloc: Global, c: &mut Cursor) -> Result<Option<Placed<Name>>, AllocError>
    ensures said { IfOk result (λ it. it ≡ part.name_kept (declaration (ahead_of c.old)).declared) }
    ensures passes { OnOk result (PassesAll 4 c.old c.new) }
{
    skip_part(c);
    skip_part(c);
    skip_part(c);
    read_declared_name(alloc, c)
}

fn as_function(name: Option<Placed<Name>>) -> Option<Listed>
    ensures { result ≡ part.as_function name }
{
    match name {
        Some(name) => Some(Listed {
            name,
            is_type: false,
            is_global: false,
        }),
        None => None,
    }
}

/// The name that the item in front defines, if it does.
#[tactic(auto, using(crate::proofs::ItemCases::lists_nothing))]
fn read_listed(alloc: Global, c: &mut Cursor) -> Result<Option<Listed>, AllocError>
    ensures listed { IfOk result (λ it. it ≡ part.listed (made (ahead_of c.old)).item) }
    ensures passes { OnOk result (Passes c.old c.new) }
{
    match c.rule() {
        Some(rule::NAMED_TYPE) => {
            let name = read_name(alloc, c)?;
            skip_part(c);
            Ok(Some(Listed {
                name,
                is_type: true,
                is_global: false,
            }))
        }
        Some(rule::GLOBAL) => {
            let name = read_global_name(alloc, c)?;
            skip_part(c);
            Ok(Some(Listed {
                name,
                is_type: false,
                is_global: true,
            }))
        }
        Some(rule::DECLARATION) => Ok(as_function(read_kept_name(alloc, c)?)),
        Some(rule::DEFINITION) => Ok(as_function(Some(read_defined_name(alloc, c)?))),
        other => {
            c.pass(other);
            Ok(None)
        }
    }
}

/// The names that items define.
#[tactic(auto, using(crate::proofs::Differ::differ, crate::proofs::ItemCases::no_items))]
fn read_list(alloc: Global, c: &mut Cursor) -> Result<Seq<Listed>, AllocError>
    ensures { IfOk result (λ it. it ≡ filter_map part.listed (made (ahead_of c.old)).whole.items) }
{
    let mut list = Seq::new(alloc);
    loop {
        match c.rule() {
            Some(rule::ITEMS) => {
                if let Some(listed) = read_listed(alloc, c)? {
                    list.push(listed)?;
                }
            }
            other => {
                c.pass(other);
                return Ok(list);
            }
        }
    }
}

/// A name more, which is none of those that are taken.
fn take<'a>(
    pick: Pick,
    listed: &'a Listed,
    taken: &mut LentNames<'a>,
    told: &mut Told,
) -> Result<(), AllocError>
    ensures names { OnOk result (taken.new ≡ part.taken_with taken.old (part.picked pick listed.now)) }
    ensures told { OnOk result (told.new ≡ faults_more (part.taken_faults taken.old (part.picked pick listed.now)) told.old) }
{
    if is_picked(pick, listed) {
        let is_taken = taken.take(&listed.name.what)?;
        note_unless(told, !is_taken, at(&listed.name, Reason::Twice));
    }
    Ok(())
}

/// Each name is none of those before it.
fn note_twice<'a>(
    alloc: Global,
    pick: Pick,
    list: &'a [Listed],
    told: &mut Told,
) -> Result<(), AllocError>
    ensures { OnOk result (told.new ≡ faults_more (meaning.twice_faults [] (names_in pick list.now)) told.old) }
{
    let mut taken = LentNames::with_room(alloc, list.len())?;
    for listed in list {
        take(pick, listed, &mut taken, told)?;
    }
    Ok(())
}

/// A name more, where this number is due, and the number that is due behind it.
fn note_due(pick: Pick, listed: &Listed, due: u64, told: &mut Told) -> Result<u64, AllocError>
    ensures due { IfOk result (λ next. next ≡ part.due_with due (part.picked pick listed.now)) }
    ensures told { OnOk result (told.new ≡ faults_more (part.due_told due (part.picked pick listed.now)) told.old) }
{
    if is_picked(pick, listed) {
        note_number(due, &listed.name, told);
        match due_after(due, &listed.name.what) {
            Some(next) => Ok(next),
            None => Err(AllocError),
        }
    } else {
        Ok(due)
    }
}

/// The numbers of these names, where this one is due first, and the one that is due behind them.
fn note_dues(pick: Pick, list: &[Listed], due: u64, told: &mut Told) -> Result<u64, AllocError>
    ensures due { IfOk result (λ next. next ≡ part.due_over due (names_in pick list.now)) }
    ensures told { OnOk result (told.new ≡ faults_more (meaning.due_faults due (names_in pick list.now)) told.old) }
{
    let mut next = due;
    for listed in list {
        next = note_due(pick, listed, next, told)?;
    }
    Ok(next)
}

/// Names of globals and functions are new, and numbers are counted through the globals and then through the functions; the same of types.
fn note_list(alloc: Global, list: &[Listed], told: &mut Told) -> Result<(), AllocError>
    ensures { OnOk result ((items : List ItemText) → list.now ≡ filter_map part.listed items
        → told.new ≡ faults_more (meaning.global_name_faults items ++ meaning.type_name_faults items) told.old) }
{
    note_twice(alloc, Pick::Named, list, told)?;
    let due = note_dues(Pick::Globals, list, 0, told)?;
    note_dues(Pick::Functions, list, due, told)?;
    note_twice(alloc, Pick::Types, list, told)?;
    note_dues(Pick::Types, list, 0, told)?;
    Ok(())
}

// ---- modules

/// What is told of a module.
fn told_of<'a, S: Gaps>(
    alloc: Global,
    sight: &'a Sight<'a>,
    module: &'a Module,
    around: &S,
    c: &mut Cursor,
) -> Result<Told, AllocError>
    requires sight { sight.now ≡ meaning.heads_of «module».now }
    requires module { «module».now ≡ built.module_of (S.declared around.now) (made (ahead_of c.now)).whole }
    ensures fault { IfOk result (λ it. it.fault ≡ noted (meaning.faults_of (S.called around.now) (S.declared around.now) (made (ahead_of c.old)).whole) None) }
    ensures large { IfOk result (λ it. it.large ≡ noted_large sight.now (flat_map (wanted.wanted_by_item sight.now) (made (ahead_of c.old)).whole.items) None) }
{
    let bit = BitType::new();
    let mut told = Told {
        fault: None,
        large: None,
    };
    let list = read_list(alloc, &mut c.fork())?;
    let functions = module.functions.as_slice();
    note_items(alloc, sight, around, functions, &bit, c, &mut told)?;
    note_list(alloc, list.as_slice(), &mut told)?;
    Ok(told)
}

/// The first fault of a module, and the first place where it passes the limit on blocks, where the module is built of what stands in front,
/// and the heads are its own. The first by place counts, and at one place the first by the order of reasons.
///
/// # Errors
///
/// Where memory runs out.
pub fn note_module<'a, S: Gaps>(
    alloc: Global,
    sight: &'a Sight<'a>,
    module: &'a Module,
    around: &S,
    c: Cursor,
) -> Result<Told, AllocError>
    requires sight { sight.now ≡ meaning.heads_of «module».now }
    requires module { «module».now ≡ built.module_of (S.declared around.now) (made (ahead_of c)).whole }
    ensures none { IfOk result (λ it. (it.fault ≡ None) ↔ (meaning.faults_of (S.called around.now) (S.declared around.now) (made (ahead_of c.entry)).whole ≡ [])) }
    ensures first { IfOk result (λ it. IfSome it.fault (IsFirstOf (meaning.faults_of (S.called around.now) (S.declared around.now) (made (ahead_of c.entry)).whole))) }
    ensures large { IfOk result (λ it. IsFirst (wanted.large_places sight.now (made (ahead_of c.entry)).whole) it.large) }
{
    let mut c = c;
    told_of(alloc, sight, module, around, &mut c)
}
