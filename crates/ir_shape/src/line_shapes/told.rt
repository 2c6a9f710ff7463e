//! What is wrong with a line, a terminator, a phi or a header, beside a module and in a function whose registers' types are known.
ghost use Rattle.std.specs.Prelude.{◌≡◌, ◌<◌, ◌&&◌, ◌∷◌, length, map, IfOk};
ghost use Rattle.std.specs.List.{list_all};
ghost use Rattle.ir_core.specs.declared.functions.Param.{Param};
ghost use Rattle.ir_core.specs.declared.modules.DeclaredParam.{DeclaredParam};
ghost use Rattle.ir_core.specs.StatedTypes.{stated_by_phi};
ghost use Rattle.ir_core.specs.Types.{is_first_class};
ghost use Rattle.ir_typing.specs.OperandTests.Known.{are_types_known};
ghost use Rattle.ir_typing.specs.ShapeKinds.Kept.{type_in};
ghost use Rattle.ir_shape.specs.ShapeTests.Counted.{count_in, counts_of};
ghost use Rattle.ir_shape.specs.ShapeTests.Edges.{named};
ghost use Rattle.ir_shape.specs.ShapeTests.Kinds as fitting;
ghost use Rattle.ir_shape.specs.LineShapes.Told as meaning;

use crate::line_shapes::addressed::{address_in, fitting_kind};
use crate::line_shapes::operands::{end_operands_kind, entries_kind, line_operands_kind};
use crate::line_shapes::scope::Scope;
use crate::line_shapes::stated::{
    is_declaration_known, is_end_known, is_header_known, is_line_known, is_phi_known,
};
use crate::shape_tests::{
    Counts, branch_fits, cases_fit, entries_are_labels, fits_edges, is_result, leads_to,
    leads_to_labels, return_fits, right_kind,
};
use ir_core::{
    Alloca, BitType, Bits, Calm, Declaration, DeclaredParam, Expr, Function, Instr, Name, Param,
    Phi, Store, Term, Ty, is_first_class, is_integer,
};
use ir_typing::{
    Beside, LentTypes, ShapeKind, call_kind, element_fits, element_kind, fault_unless, least,
    points_to,
};
use std::alloc::{AllocError, Global};

fn addressed_kind(beside: &Beside, right: &Expr<Name>) -> Option<ShapeKind>
    ensures { result ≡ meaning.addressed_kind beside.now right.now }
{
    match right {
        Expr::Element(element) => element_kind(beside, element.get()),
        _ => None,
    }
}

fn calm_kind(beside: &Beside, calm: &Calm) -> Option<ShapeKind>
    ensures { result ≡ meaning.rest_kind beside.now (Instr.Calm calm.now) }
{
    let bit = BitType::new();
    let value = fault_unless(is_first_class(calm.right.ty(&bit)), ShapeKind::OperandType);
    least(
        value,
        least(right_kind(&calm.right), addressed_kind(beside, &calm.right)),
    )
}

fn has_count(count: &Option<(Ty, Bits)>) -> bool
    ensures { result ≡ meaning.has_count count.now }
{
    match count {
        None => true,
        Some(count) => is_integer(&count.0),
    }
}

fn alloca_kind(beside: &Beside, alloca: &Alloca) -> Option<ShapeKind>
    ensures { result ≡ meaning.rest_kind beside.now (Instr.Alloca alloca.now) }
{
    let typed = points_to(&alloca.to, &alloca.of) && has_count(&alloca.count);
    least(
        fault_unless(typed, ShapeKind::OperandType),
        fault_unless(beside.is_sized(&alloca.of), ShapeKind::Unsized),
    )
}

/// Whether a value is stored through a pointer to its type.
fn is_stored(store: &Store) -> bool
    ensures { result ≡ meaning.is_stored store.now }
{
    points_to(&store.pointer.ty, &store.value.ty) && is_first_class(&store.value.ty)
}

/// What is wrong with a line, but for its operands.
#[inline(always)]
fn rest_kind(beside: &Beside, line: &Instr) -> Option<ShapeKind>
    ensures { result ≡ meaning.rest_kind beside.now line.now }
{
    match line {
        Instr::Calm(calm) => calm_kind(beside, calm),
        Instr::Alloca(alloca) => alloca_kind(beside, alloca),
        Instr::Store(store) => fault_unless(is_stored(store), ShapeKind::OperandType),
        Instr::Call(call) => call_kind(beside, call.get()),
    }
}

/// What is wrong with a line whose register's name is new or not, if anything is.
pub fn line_kind(beside: &Beside, types: &LentTypes, new: bool, line: &Instr) -> Option<ShapeKind>
    ensures { result ≡ meaning.line_kind beside.now (type_in types.now) new line.now }
{
    match address_in(line) {
        Some(element) => {
            if element_fits(beside, element) {
                fitting_kind(beside, types, new, element)
            } else {
                any_kind(beside, types, new, line)
            }
        }
        None => any_kind(beside, types, new, line),
    }
}

fn any_kind(beside: &Beside, types: &LentTypes, new: bool, line: &Instr) -> Option<ShapeKind>
    ensures { result ≡ meaning.line_kind beside.now (type_in types.now) new line.now }
{
    let known = is_line_known(beside, line);
    let operands = line_operands_kind(beside, types, line);
    least(
        fault_unless(new && known, ShapeKind::Name),
        least(operands, rest_kind(beside, line)),
    )
}

/// What is wrong with a terminator of a function with those labels and registers, that entry and that result, if anything is.
pub fn end_kind(
    alloc: Global,
    scope: &Scope,
    entry: &Name,
    due: &Ty,
    end: &Term,
) -> Result<Option<ShapeKind>, AllocError>
    ensures { IfOk result
        (λ kind. kind ≡ meaning.end_kind scope.now.beside.now scope.now.labels (type_in scope.now.types) entry.now due.now end.now) }
{
    let cases = fault_unless(cases_fit(alloc, end)?, ShapeKind::CaseTwice);
    let returns = least(
        fault_unless(return_fits(due, end), ShapeKind::ReturnType),
        cases,
    );
    let branches = least(
        fault_unless(branch_fits(end), ShapeKind::OperandType),
        returns,
    );
    let operands = least(end_operands_kind(scope.beside, &scope.types, end), branches);
    let entered = least(
        fault_unless(!leads_to(entry, end), ShapeKind::EntryEntered),
        operands,
    );
    let labels = least(
        fault_unless(leads_to_labels(&scope.labels, end), ShapeKind::Label),
        entered,
    );
    Ok(least(
        fault_unless(is_end_known(scope.beside, end), ShapeKind::Name),
        labels,
    ))
}

/// Whether a phi's register has a new name, and the named types that it states are the module's.
fn is_phi_named(beside: &Beside, new: bool, phi: &Phi) -> bool
    ensures { result ≡ (new && are_types_known beside.now (stated_by_phi phi.now)) }
{
    new && is_phi_known(beside, phi)
}

/// What is wrong with a phi of a block that these edges enter, so many of each block where they are many, if anything is. Its register's
/// name is new or not.
pub fn phi_kind(
    alloc: Global,
    scope: &Scope,
    edges: &[&Name],
    counts: &Counts,
    new: bool,
    phi: &Phi,
) -> Result<Option<ShapeKind>, AllocError>
    requires { 8 < length edges.now → count_in counts.now ≡ counts_of (named edges.now) }
    ensures { IfOk result
        (λ kind. kind ≡ meaning.phi_kind scope.now.beside.now scope.now.labels (type_in scope.now.types) (named edges.now) new phi.now) }
{
    let entries = phi.entries.as_slice();
    let values = least(
        fault_unless(is_first_class(&phi.ty), ShapeKind::OperandType),
        entries_kind(scope.beside, &scope.types, &phi.ty, entries),
    );
    let fits = fault_unless(
        fits_edges(alloc, edges, counts, entries)?,
        ShapeKind::PhiEntries,
    );
    let labels = fault_unless(entries_are_labels(&scope.labels, entries), ShapeKind::Label);
    let named = fault_unless(is_phi_named(scope.beside, new, phi), ShapeKind::Name);
    Ok(least(named, least(labels, least(fits, values))))
}

fn are_values(params: &[Param]) -> bool
    ensures { result ≡ list_all (λ (p : Param). is_first_class p.ty) params.now }
{
    for param in params {
        if !is_first_class(&param.ty) {
            return false;
        }
    }
    true
}

/// Whether a function's result is a value or `void`, and its parameters are values.
fn is_header_typed(function: &Function) -> bool
    ensures { result
        ≡ (fitting.is_result «function».now.result && list_all (λ (p : Param). is_first_class p.ty) «function».now.params) }
{
    is_result(&function.result) && are_values(function.params.as_slice())
}

/// Whether its parameters have new names, and the named types that it states are the module's.
fn is_header_named(beside: &Beside, new: bool, function: &Function) -> bool
    ensures { result
        ≡ (new && are_types_known beside.now («function».now.result ∷ map (λ (p : Param). p.ty) «function».now.params)) }
{
    new && is_header_known(beside, function)
}

/// What is wrong with a function's header, whose parameters have new names or not, and with there being no block.
pub fn header_kind(beside: &Beside, new: bool, function: &Function) -> Option<ShapeKind>
    ensures { result ≡ meaning.header_kind beside.now new «function».now }
{
    let named = fault_unless(is_header_named(beside, new, function), ShapeKind::Name);
    let blocks = fault_unless(!function.blocks.is_empty(), ShapeKind::Label);
    let typed = fault_unless(is_header_typed(function), ShapeKind::OperandType);
    least(named, least(blocks, typed))
}

fn are_declared_values(params: &[DeclaredParam]) -> bool
    ensures { result ≡ list_all (λ (p : DeclaredParam). is_first_class p.ty) params.now }
{
    for param in params {
        if !is_first_class(&param.ty) {
            return false;
        }
    }
    true
}

/// What is wrong with a declaration's header.
pub fn declared_kind(beside: &Beside, declaration: &Declaration) -> Option<ShapeKind>
    ensures { result ≡ meaning.declared_kind beside.now declaration.now }
{
    let typed = is_result(&declaration.result)
        && are_declared_values(declaration.params.as_slice());
    least(
        fault_unless(is_declaration_known(beside, declaration), ShapeKind::Name),
        fault_unless(typed, ShapeKind::OperandType),
    )
}
