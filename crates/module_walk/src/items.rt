//! Declarations, and items of modules.
ghost use Rattle.std.specs.Prelude.{◌≡◌, ◌++◌, map, Some, IfOk, OnOk, ◌∷◌, []};
ghost use Rattle.derivation_cursor.specs.At.{Passes, PassesAll, ahead_of};
ghost use Rattle.module_derivations.specs.Empty as empty;
ghost use Rattle.module_derivations.specs.Empty.{made};
ghost use Rattle.module_derivations.specs.Functions as see;
ghost use Rattle.module_derivations.specs.Functions.{declared_name_by};
ghost use Rattle.module_derivations.specs.Items.{global_body_by};
ghost use Rattle.module_derivations.specs.declared.rule.TheConstants as number;
ghost use Rattle.module_grammar.specs.Joined.{declared_from};
ghost use Rattle.module_walk.specs.Functions.{declared_at, declaration};
ghost use Rattle.module_walk.specs.Items as part;
ghost use Rattle.named_modules.specs.Built as meaning;
ghost use Rattle.named_modules.specs.Modules as modules;
ghost use Rattle.named_modules.specs.Modules.{declarations_at};

use crate::constants::{
    read_align, read_extensions, read_global, read_init, read_said_name, read_type, read_types,
};
use crate::functions::{read_blocks, read_head, read_linkage, read_result};
use contents::Seq;
use derivation_cursor::{Cursor, Gaps, read_holding, read_name, skip_part};
use ir_core::{
    Declaration, DeclaredParam, Extensions, Function, GlobalVar, Linkage, Module, Name, NamedTy,
    NamedTypes, Shared, Ty,
};
use module_derivations::rule;
use module_grammar::{HoldingWord, Placed};
use std::alloc::{AllocError, Global};

/// `[unnamed_addr]`
fn read_unnamed_addr(c: &mut Cursor) -> bool
    ensures built { result ≡ (made (ahead_of c.old)).unnamed_addr }
    ensures passes { Passes c.old c.new }
{
    match c.rule() {
        Some(rule::UNNAMED_ADDR) => true,
        other => {
            c.pass(other);
            false
        }
    }
}

/// `T attributes [LOCAL]` of a declaration.
fn read_declared_param(alloc: Global, c: &mut Cursor) -> Result<DeclaredParam, AllocError>
    ensures built { IfOk result (λ it. it ≡ meaning.declared_param (see.param (ahead_of c.old))) }
    ensures passes { OnOk result (PassesAll 4 c.old c.new) }
{
    let ty = read_type(alloc, c)?;
    let extensions = read_extensions(c);
    skip_part(c);
    Ok(DeclaredParam { ty, extensions })
}

/// The parameters of a declaration from one of them on, or from `...` on.
#[tactic(auto, using(crate::proofs::Others::no_next_declared, crate::proofs::Others::no_more_declared, crate::proofs::Onto::mapped_behind))]
fn read_next_declared(
    alloc: Global,
    c: &mut Cursor,
) -> Result<(Seq<DeclaredParam>, bool), AllocError>
    ensures params { IfOk result (λ it. it.0 ≡ map meaning.declared_param (declared_from (made (ahead_of c.old)).next_declared).params) }
    ensures variadic { IfOk result (λ it. it.1 ≡ (declared_from (made (ahead_of c.old)).next_declared).is_open) }
    ensures passes { OnOk result (Passes c.old c.new) }
{
    let mut params = Seq::new(alloc);
    loop {
        match c.rule() {
            Some(rule::DECLARED_PARAM) => {
                params.push(read_declared_param(alloc, c)?)?;
                match c.rule() {
                    Some(rule::MORE_DECLARED) => {}
                    other => {
                        c.pass(other);
                        return Ok((params, false));
                    }
                }
            }
            other => {
                c.pass(other);
                return Ok((params, true));
            }
        }
    }
}

/// The parameters of a declaration, and whether `...` stands behind them.
fn read_declared_params(
    alloc: Global,
    c: &mut Cursor,
) -> Result<(Seq<DeclaredParam>, bool), AllocError>
    ensures params { IfOk result (λ it. it.0 ≡ map meaning.declared_param (made (ahead_of c.old)).declared_params.params) }
    ensures variadic { IfOk result (λ it. it.1 ≡ (made (ahead_of c.old)).declared_params.is_open) }
    ensures passes { OnOk result (Passes c.old c.new) }
{
    match c.rule() {
        Some(rule::DECLARED_PARAMS) => read_next_declared(alloc, c),
        other => {
            c.pass(other);
            Ok((Seq::new(alloc), false))
        }
    }
}

/// The parameters that stand behind a name of debugging, which no derivation keeps.
fn params_around<S: Gaps>(
    alloc: Global,
    around: &S,
    name: &Placed<Name>,
) -> Result<(Seq<DeclaredParam>, bool), AllocError>
    ensures params { IfOk result (λ it. it.0 ≡ map meaning.declared_param (S.declared around.now name.now).params) }
    ensures variadic { IfOk result (λ it. it.1 ≡ (S.declared around.now name.now).is_open) }
{
    let mut c = around.declared(name);
    read_declared_params(alloc, &mut c)
}

/// `DEBUG ( .. )` and a head's end: puts the declaration of this result, unless it is dropped.
fn put_debug<S: Gaps>(
    alloc: Global,
    c: &mut Cursor,
    around: &S,
    before: usize,
    result_extensions: Extensions,
    returned: Ty,
    declarations: &mut Seq<Declaration>,
) -> Result<(), AllocError>
    ensures put { OnOk result (declarations.new ≡ declarations.old ++ declared_at (S.declared around.now) before result_extensions returned (declared_name_by (Some number.DECLARED_DEBUG) (ahead_of c.old))) }
    ensures passes { OnOk result (PassesAll 4 c.old c.new) }
{
    let name = read_name(alloc, c)?;
    skip_part(c);
    let is_kept = read_unnamed_addr(c);
    skip_part(c);
    if !is_kept {
        return Ok(());
    }
    let (params, variadic) = params_around(alloc, around, &name)?;
    declarations.push(Declaration {
        result_extensions,
        result: returned,
        name: name.what,
        params,
        variadic,
        before,
    })
}

/// `GLOBAL ( params )` or `DEBUG ( .. )`, and a head's end: puts the declaration of this result, unless it is dropped.
#[tactic(auto, using(crate::proofs::Others::no_declared_name))]
fn put_declared<S: Gaps>(
    alloc: Global,
    c: &mut Cursor,
    around: &S,
    before: usize,
    result_extensions: Extensions,
    returned: Ty,
    declarations: &mut Seq<Declaration>,
) -> Result<(), AllocError>
    ensures put { OnOk result (declarations.new ≡ declarations.old ++ declared_at (S.declared around.now) before result_extensions returned (made (ahead_of c.old)).declared_name) }
    ensures passes { OnOk result (Passes c.old c.new) }
{
    match c.rule() {
        Some(rule::DECLARED) => {
            let name = read_said_name(alloc, c)?;
            let (params, variadic) = read_declared_params(alloc, c)?;
            skip_part(c);
            skip_part(c);
            declarations.push(Declaration {
                result_extensions,
                result: returned,
                name,
                params,
                variadic,
                before,
            })
        }
        Some(rule::DECLARED_DEBUG) => put_debug(
            alloc,
            c,
            around,
            before,
            result_extensions,
            returned,
            declarations,
        ),
        other => {
            c.pass(other);
            Ok(())
        }
    }
}

/// `declare result declared_name`, from behind that word on, behind so many definitions: puts it, unless it is dropped.
#[tactic(auto, using(crate::proofs::Parts::declared))]
fn put_declaration<S: Gaps>(
    alloc: Global,
    c: &mut Cursor,
    around: &S,
    before: usize,
    declarations: &mut Seq<Declaration>,
) -> Result<(), AllocError>
    ensures put { OnOk result (declarations.new ≡ declarations.old ++ map (meaning.declaration_of (S.declared around.now)) (declarations_at before (declaration (ahead_of c.old)))) }
    ensures passes { OnOk result (PassesAll 4 c.old c.new) }
{
    let (result_extensions, returned) = read_result(alloc, c)?;
    put_declared(
        alloc,
        c,
        around,
        before,
        result_extensions,
        returned,
        declarations,
    )
}

/// `opaque` or `{ types }`: the type of that name.
#[tactic(auto, using(crate::proofs::Others::no_type_body))]
fn read_type_body(alloc: Global, c: &mut Cursor, name: Name) -> Result<NamedTy, AllocError>
    ensures built { IfOk result (λ it. it ≡ part.type_with name (made (ahead_of c.old)).type_body) }
    ensures passes { OnOk result (Passes c.old c.new) }
{
    match c.rule() {
        Some(rule::STRUCT_BODY) => {
            skip_part(c);
            let fields = Some(Shared::new(alloc, read_types(alloc, c)?)?);
            Ok(NamedTy { name, fields })
        }
        other => {
            c.pass(other);
            Ok(NamedTy { name, fields: None })
        }
    }
}

/// Puts the type that the item in front names, if it names one.
#[tactic(auto, using(crate::proofs::Others::names_no_type))]
fn put_type(alloc: Global, c: &mut Cursor, types: &mut Seq<NamedTy>) -> Result<(), AllocError>
    ensures put { OnOk result (types.new ≡ types.old ++ part.types_in ((made (ahead_of c.old)).item ∷ [])) }
    ensures passes { OnOk result (Passes c.old c.new) }
{
    match c.rule() {
        Some(rule::NAMED_TYPE) => {
            let name = read_said_name(alloc, c)?;
            types.push(read_type_body(alloc, c, name)?)
        }
        other => {
            c.pass(other);
            Ok(())
        }
    }
}

/// The types that a module names.
///
/// # Errors
///
/// Where memory runs out.
#[tactic(auto, using(crate::proofs::Differ::differ, crate::proofs::Whole::types_are))]
pub fn read_named_types(alloc: Global, c: &mut Cursor) -> Result<Seq<NamedTy>, AllocError>
    ensures built { IfOk result (λ it. it ≡ meaning.types_of (made (ahead_of c.old)).whole) }
    ensures passes { OnOk result (Passes c.old c.new) }
{
    let mut types = Seq::new(alloc);
    loop {
        match c.rule() {
            Some(rule::ITEMS) => put_type(alloc, c, &mut types)?,
            other => {
                c.pass(other);
                return Ok(types);
            }
        }
    }
}

/// `[LINKAGE]`
fn read_global_linkage(c: &mut Cursor) -> Linkage
    ensures built { result ≡ modules.linkage_or_none (made (ahead_of c.old)).global_linkage }
    ensures passes { Passes c.old c.new }
{
    match c.rule() {
        Some(rule::GLOBAL_LINKAGE) => derivation_cursor::read_linkage(c).linkage(),
        other => {
            c.pass(other);
            Linkage::External
        }
    }
}

fn is_constant(word: HoldingWord) -> bool
    ensures { result ≡ modules.is_constant word }
{
    match word {
        HoldingWord::Global => false,
        HoldingWord::Constant => true,
    }
}

/// The global that stands where none is read.
fn no_global(name: Name) -> GlobalVar
    ensures { result ≡ part.global_with name empty.no_global_body }
{
    GlobalVar {
        name,
        linkage: Linkage::External,
        constant: true,
        ty: Ty::Int(1),
        init: None,
        align: None,
    }
}

/// `[LINKAGE] [unnamed_addr] HOLDING T INIT [, align N]`: the global of that name.
fn read_held_global(alloc: Global, c: &mut Cursor, name: Name) -> Result<GlobalVar, AllocError>
    ensures built { IfOk result (λ it. it ≡ part.global_with name (global_body_by (Some number.HELD_GLOBAL) (ahead_of c.old))) }
    ensures passes { OnOk result (PassesAll 7 c.old c.new) }
{
    let linkage = read_global_linkage(c);
    skip_part(c);
    let constant = is_constant(read_holding(c));
    let ty = read_type(alloc, c)?;
    let init = Some(read_init(alloc, c, &ty)?);
    let align = read_align(alloc, c)?;
    Ok(GlobalVar {
        name,
        linkage,
        constant,
        ty,
        init,
        align,
    })
}

/// `external [unnamed_addr] HOLDING T [, align N]` or `[LINKAGE] [unnamed_addr] HOLDING T INIT [, align N]`: the global of that name.
fn read_global_body(alloc: Global, c: &mut Cursor, name: Name) -> Result<GlobalVar, AllocError>
    ensures built { IfOk result (λ it. it ≡ part.global_with name (made (ahead_of c.old)).global_body) }
    ensures passes { OnOk result (Passes c.old c.new) }
{
    match c.rule() {
        Some(rule::EXTERNAL_GLOBAL) => {
            skip_part(c);
            let constant = is_constant(read_holding(c));
            let ty = read_type(alloc, c)?;
            let align = read_align(alloc, c)?;
            Ok(GlobalVar {
                name,
                linkage: Linkage::External,
                constant,
                ty,
                init: None,
                align,
            })
        }
        Some(rule::HELD_GLOBAL) => read_held_global(alloc, c, name),
        other => {
            c.pass(other);
            Ok(no_global(name))
        }
    }
}

/// `global_name = global_body`
fn read_global_var(alloc: Global, c: &mut Cursor) -> Result<GlobalVar, AllocError>
    ensures built { IfOk result (λ it. it ≡ meaning.global_of (part.global (ahead_of c.old))) }
    ensures passes { OnOk result (PassesAll 2 c.old c.new) }
{
    let name = read_global(alloc, c)?;
    read_global_body(alloc, c, name)
}

/// `define linkage head attached { block blocks }`, from behind that word on.
fn read_definition(
    alloc: Global,
    c: &mut Cursor,
    types: &NamedTypes,
) -> Result<Function, AllocError>
    ensures built { IfOk result (λ it. it ≡ meaning.function_of types.now (part.definition (ahead_of c.old))) }
    ensures passes { OnOk result (PassesAll 15 c.old c.new) }
{
    let linkage = read_linkage(c);
    let (mut function, due) = read_head(alloc, c, linkage)?;
    skip_part(c);
    skip_part(c);
    function.blocks = read_blocks(alloc, c, types, due)?;
    Ok(function)
}

/// Puts what the item in front is, but for a named type, which stands there already.
#[tactic(auto, using(crate::proofs::Others::puts_nothing))]
fn put_item<S: Gaps>(
    alloc: Global,
    c: &mut Cursor,
    around: &S,
    module: &mut Module,
) -> Result<(), AllocError>
    ensures put { OnOk result (module.new ≡ part.with_item (S.declared around.now) module.old (made (ahead_of c.old)).item) }
    ensures passes { OnOk result (Passes c.old c.new) }
{
    match c.rule() {
        Some(rule::DECLARATION) => {
            let before = module.functions.len();
            put_declaration(alloc, c, around, before, &mut module.declarations)
        }
        Some(rule::GLOBAL) => module.globals.push(read_global_var(alloc, c)?),
        Some(rule::DEFINITION) => {
            let function = read_definition(alloc, c, &module.types)?;
            module.functions.push(function)
        }
        other => {
            c.pass(other);
            Ok(())
        }
    }
}

/// A module, where its named types are these.
///
/// # Errors
///
/// Where memory runs out.
pub fn read_module_of<S: Gaps>(
    alloc: Global,
    c: &mut Cursor,
    types: NamedTypes,
    around: &S,
) -> Result<Module, AllocError>
    ensures built { IfOk result (λ it. types ≡ meaning.types_of (made (ahead_of c.old)).whole → it ≡ meaning.module_of (S.declared around.now) (made (ahead_of c.old)).whole) }
    ensures passes { OnOk result (Passes c.old c.new) }
{
    let mut whole = Module {
        types,
        globals: Seq::new(alloc),
        functions: Seq::new(alloc),
        declarations: Seq::new(alloc),
    };
    loop {
        match c.rule() {
            Some(rule::ITEMS) => put_item(alloc, c, around, &mut whole)?,
            other => {
                c.pass(other);
                return Ok(whole);
            }
        }
    }
}
