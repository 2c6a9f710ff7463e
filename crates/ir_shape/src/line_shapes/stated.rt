//! Whether the named types that lines, phis, terminators and headers state are the module's.
ghost use Rattle.std.specs.Prelude.{◌≡◌, ◌++◌, [], ◌∷◌, map, true};
ghost use Rattle.std.specs.List.{flat_map};
ghost use Rattle.ir_core.specs.declared.functions.Argument.{Argument};
ghost use Rattle.ir_core.specs.declared.functions.Case.{Case};
ghost use Rattle.ir_core.specs.declared.functions.Param.{Param};
ghost use Rattle.ir_core.specs.declared.modules.DeclaredParam.{DeclaredParam};
ghost use Rattle.ir_core.specs.Expressions as expressions;
ghost use Rattle.ir_core.specs.StatedTypes as stated;
ghost use Rattle.ir_typing.specs.OperandTests.Known.{are_types_known};
ghost use Rattle.ir_shape.specs.ShapeTests.Typed.{operands_at};
ghost use Rattle.ir_shape.specs.LineShapes.Told as meaning;

use ir_core::{
    Argument, Atom, Bits, Call, Case, Declaration, DeclaredParam, Element, Entry, Expr, Function,
    Instr, Name, Operand, Param, Phi, Term, Ty,
};
use ir_typing::{Beside, is_constant_known, is_type_known};

fn is_atom_known(beside: &Beside, atom: &Atom<Name>) -> bool
    ensures { result ≡ are_types_known beside.now (stated.stated_by_atom atom.now) }
{
    match atom {
        Atom::Constant(constant) => is_constant_known(beside, constant),
        Atom::Register(_) => true,
    }
}

fn is_operand_known(beside: &Beside, operand: &Operand<Name>) -> bool
    ensures { result ≡ are_types_known beside.now (stated.stated_by_operand operand.now) }
{
    is_type_known(beside, &operand.ty) && is_atom_known(beside, &operand.atom)
}

/// The same of two atoms of one type.
fn are_both_known(beside: &Beside, ty: &Ty, left: &Atom<Name>, right: &Atom<Name>) -> bool
    ensures { result
        ≡ are_types_known beside.now
        (flat_map stated.stated_by_operand (record { ty = ty.now; atom = left.now } ∷ record { ty = ty.now; atom = right.now } ∷ [])) }
{
    is_type_known(beside, ty) && is_atom_known(beside, left) && is_atom_known(beside, right)
}

fn are_operands_known(beside: &Beside, operands: &[Operand<Name>]) -> bool
    ensures { result ≡ are_types_known beside.now (flat_map stated.stated_by_operand operands.now) }
{
    for operand in operands {
        if !is_operand_known(beside, operand) {
            return false;
        }
    }
    true
}

/// Of the operands of an address, but for the base's type.
pub(crate) fn are_parts_known(beside: &Beside, element: &Element<Name>) -> bool
    ensures { result
        ≡ are_types_known beside.now (stated.stated_by_atom element.now.base.atom ++ flat_map stated.stated_by_operand element.now.indices) }
{
    is_atom_known(beside, &element.base.atom)
        && are_operands_known(beside, element.indices.as_slice())
}

/// Of the operands of a line's right side.
fn are_right_operands_known(beside: &Beside, right: &Expr<Name>) -> bool
    ensures { result ≡ are_types_known beside.now (flat_map stated.stated_by_operand (expressions.operands_in right.now)) }
{
    match right {
        Expr::Plain(operand) => is_operand_known(beside, operand),
        Expr::Binary(binary) => are_both_known(beside, &binary.ty, &binary.left, &binary.right),
        Expr::Icmp(icmp) => are_both_known(beside, &icmp.ty, &icmp.left, &icmp.right),
        Expr::Cast(cast) => is_operand_known(beside, &cast.operand),
        Expr::Select(select) => {
            let select = select.get();
            is_operand_known(beside, &select.condition)
                && is_operand_known(beside, &select.left)
                && is_operand_known(beside, &select.right)
        }
        Expr::Element(element) => {
            let element = element.get();
            is_operand_known(beside, &element.base)
                && are_operands_known(beside, element.indices.as_slice())
        }
        Expr::Load(load) => is_operand_known(beside, &load.pointer),
    }
}

/// Of the type that stands apart from the operands.
fn is_apart_known(beside: &Beside, right: &Expr<Name>) -> bool
    ensures { result ≡ are_types_known beside.now (stated.stated_apart right.now) }
{
    match right {
        Expr::Cast(cast) => is_type_known(beside, &cast.to),
        Expr::Element(element) => is_type_known(beside, &element.get().of),
        Expr::Load(load) => is_type_known(beside, &load.of),
        Expr::Plain(_) | Expr::Binary(_) | Expr::Icmp(_) | Expr::Select(_) => true,
    }
}

fn is_count_known(beside: &Beside, count: &Option<(Ty, Bits)>) -> bool
    ensures { result ≡ are_types_known beside.now (stated.stated_by_count count.now) }
{
    match count {
        None => true,
        Some(count) => is_type_known(beside, &count.0),
    }
}

fn are_arguments_known(beside: &Beside, arguments: &[Argument]) -> bool
    ensures { result
        ≡ are_types_known beside.now (flat_map (λ (a : Argument). stated.stated_by_operand a.operand) arguments.now) }
{
    for argument in arguments {
        if !is_operand_known(beside, &argument.operand) {
            return false;
        }
    }
    true
}

fn is_call_known(beside: &Beside, call: &Call) -> bool
    ensures { result ≡ are_types_known beside.now (stated.stated_by_line (Instr.Call call.now)) }
{
    is_type_known(beside, &call.result) && are_arguments_known(beside, call.arguments.as_slice())
}

/// Whether the named types that a line states are the module's.
#[inline(always)]
pub(crate) fn is_line_known(beside: &Beside, line: &Instr) -> bool
    ensures { result ≡ are_types_known beside.now (stated.stated_by_line line.now) }
{
    match line {
        Instr::Calm(calm) => {
            is_apart_known(beside, &calm.right) && are_right_operands_known(beside, &calm.right)
        }
        Instr::Alloca(alloca) => {
            is_type_known(beside, &alloca.of) && is_count_known(beside, &alloca.count)
        }
        Instr::Store(store) => {
            is_operand_known(beside, &store.value) && is_operand_known(beside, &store.pointer)
        }
        Instr::Call(call) => is_call_known(beside, call.get()),
    }
}

fn are_entries_known(beside: &Beside, ty: &Ty, entries: &[Entry]) -> bool
    requires { are_types_known beside.now (ty.now ∷ []) ≡ true }
    ensures { result ≡ are_types_known beside.now (flat_map stated.stated_by_operand (operands_at ty.now entries.now)) }
{
    for entry in entries {
        if !is_atom_known(beside, &entry.value) {
            return false;
        }
    }
    true
}

pub(crate) fn is_phi_known(beside: &Beside, phi: &Phi) -> bool
    ensures { result ≡ are_types_known beside.now (stated.stated_by_phi phi.now) }
{
    is_type_known(beside, &phi.ty) && are_entries_known(beside, &phi.ty, phi.entries.as_slice())
}

fn are_cases_known(beside: &Beside, cases: &[Case]) -> bool
    ensures { result ≡ are_types_known beside.now (map (λ (c : Case). c.ty) cases.now) }
{
    for case in cases {
        if !is_type_known(beside, &case.ty) {
            return false;
        }
    }
    true
}

pub(crate) fn is_end_known(beside: &Beside, end: &Term) -> bool
    ensures { result ≡ are_types_known beside.now (meaning.stated_at_end end.now) }
{
    match end {
        Term::Ret(operand) => is_operand_known(beside, operand),
        Term::CondBr(branch) => is_operand_known(beside, &branch.condition),
        Term::Switch(switch) => {
            is_operand_known(beside, &switch.value)
                && are_cases_known(beside, switch.cases.as_slice())
        }
        Term::RetVoid | Term::Br(_) | Term::Unreachable => true,
    }
}

fn are_params_known(beside: &Beside, params: &[Param]) -> bool
    ensures { result ≡ are_types_known beside.now (map (λ (p : Param). p.ty) params.now) }
{
    for param in params {
        if !is_type_known(beside, &param.ty) {
            return false;
        }
    }
    true
}

/// Of a function's result and its parameters.
pub(crate) fn is_header_known(beside: &Beside, function: &Function) -> bool
    ensures { result ≡ are_types_known beside.now («function».now.result ∷ map (λ (p : Param). p.ty) «function».now.params) }
{
    is_type_known(beside, &function.result) && are_params_known(beside, function.params.as_slice())
}

fn are_declared_known(beside: &Beside, params: &[DeclaredParam]) -> bool
    ensures { result ≡ are_types_known beside.now (map (λ (p : DeclaredParam). p.ty) params.now) }
{
    for param in params {
        if !is_type_known(beside, &param.ty) {
            return false;
        }
    }
    true
}

pub(crate) fn is_declaration_known(beside: &Beside, declaration: &Declaration) -> bool
    ensures { result
        ≡ are_types_known beside.now (declaration.now.result ∷ map (λ (p : DeclaredParam). p.ty) declaration.now.params) }
{
    is_type_known(beside, &declaration.result)
        && are_declared_known(beside, declaration.params.as_slice())
}
