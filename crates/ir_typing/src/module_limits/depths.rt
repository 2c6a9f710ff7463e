//! The limit on depths: how deep types, constants and initialisers stand in one another. No walk goes deeper than the limit.
ghost use Rattle.std.specs.Prelude.{◌≡◌, ◌&&◌, [], ◌∷◌, map};
ghost use Rattle.std.specs.List.{flat_map, list_all};
ghost use Rattle.ir_core.specs.declared.functions.Argument.{Argument};
ghost use Rattle.ir_core.specs.declared.functions.Case.{Case};
ghost use Rattle.ir_core.specs.declared.functions.Entry.{Entry};
ghost use Rattle.ir_core.specs.declared.functions.Param.{Param};
ghost use Rattle.ir_core.specs.declared.modules.DeclaredParam.{DeclaredParam};
ghost use Rattle.ir_core.specs.Depths as depths;
ghost use Rattle.ir_core.specs.StatedTypes.{stated_by_count};
ghost use Rattle.ir_typing.specs.ModuleLimits.Within as within;

use crate::operand_tests::is_number;
use ir_core::{
    Alloca, Argument, Atom, Block, Case, Const, Declaration, DeclaredParam, Element, Entry, Expr,
    Function, GlobalVar, Init, Instr, Module, Name, NamedTy, Operand, Param, Phi, Term, Ty,
    TypedConst, TypedInit,
};

/// The limit `depth`.
const DEPTH: u32 = 64;

/// Whether the type is no deeper than so much.
#[cycle(types)]
#[tactic(auto, using(crate::proofs::ModuleLimits::Within::none_within, crate::proofs::ModuleLimits::Within::int_within, crate::proofs::ModuleLimits::Within::ptr_within, crate::proofs::ModuleLimits::Within::array_within, crate::proofs::ModuleLimits::Within::struct_within, crate::proofs::ModuleLimits::Within::name_within, crate::proofs::ModuleLimits::Within::void_within))]
fn is_type_within(ty: &Ty, budget: u32) -> bool
    ensures { result ≡ within.type_within budget ty.now }
{
    if budget == 0 {
        return false;
    }
    match ty {
        Ty::Ptr(target) => is_type_within(target.get(), budget - 1),
        Ty::Array(_, element) => is_type_within(element.get(), budget - 1),
        Ty::Struct(fields) => are_types_within(fields.get().as_slice(), budget - 1),
        Ty::Int(_) | Ty::Named(_) | Ty::Void => true,
    }
}

#[cycle(types)]
fn are_types_within(types: &[Ty], budget: u32) -> bool
    ensures { result ≡ list_all (within.type_within budget) types.now }
{
    for ty in types {
        if !is_type_within(ty, budget) {
            return false;
        }
    }
    true
}

/// Whether the constant is no deeper than so much.
#[cycle(constants)]
#[tactic(auto, using(crate::proofs::ModuleLimits::Within::no_constant_within, crate::proofs::ModuleLimits::Within::number_within, crate::proofs::ModuleLimits::Within::undef_within, crate::proofs::ModuleLimits::Within::null_within, crate::proofs::ModuleLimits::Within::global_within, crate::proofs::ModuleLimits::Within::element_within, crate::proofs::ModuleLimits::Within::cast_within))]
fn is_constant_within(constant: &Const, budget: u32) -> bool
    ensures { result ≡ within.constant_within budget constant.now }
{
    if budget == 0 {
        return false;
    }
    match constant {
        Const::Element(element) => {
            let element = element.get();
            is_type_within(&element.1, budget - 1)
                && are_constants_within(element.2.as_slice(), budget - 1)
        }
        Const::Cast(cast) => {
            let cast = cast.get();
            is_type_within(&cast.0, budget - 1)
                && are_constants_within(cast.1.as_slice(), budget - 1)
        }
        Const::Number(_) | Const::Undef | Const::Null | Const::Global(_) => true,
    }
}

/// Whether the constants, and the types that are stated for them, are no deeper.
#[cycle(constants)]
fn are_constants_within(constants: &[TypedConst], budget: u32) -> bool
    ensures { result ≡ list_all (within.typed_within budget) constants.now }
{
    for constant in constants {
        if !is_type_within(&constant.0, budget) || !is_constant_within(&constant.1, budget) {
            return false;
        }
    }
    true
}

/// Whether the initialiser is no deeper than so much.
#[cycle(inits)]
#[tactic(auto, using(crate::proofs::ModuleLimits::Within::no_init_within, crate::proofs::ModuleLimits::Within::held_within, crate::proofs::ModuleLimits::Within::zero_within, crate::proofs::ModuleLimits::Within::bytes_within, crate::proofs::ModuleLimits::Within::array_init_within, crate::proofs::ModuleLimits::Within::struct_init_within))]
fn is_init_within(init: &Init, budget: u32) -> bool
    ensures { result ≡ within.init_within budget init.now }
{
    if budget == 0 {
        return false;
    }
    match init {
        Init::Const(constant) => is_constant_within(constant, budget),
        Init::Array(parts) => are_parts_within(parts.get().as_slice(), budget - 1),
        Init::Struct(parts) => are_parts_within(parts.get().as_slice(), budget - 1),
        Init::Zero | Init::Bytes(_) => true,
    }
}

/// Whether the parts, and the types that are stated for them, are no deeper.
#[cycle(inits)]
#[tactic(auto, using(crate::proofs::ModuleLimits::Within::plain_within))]
fn are_parts_within(parts: &[TypedInit], budget: u32) -> bool
    ensures { result ≡ list_all (within.part_within budget) parts.now }
{
    for part in parts {
        let plain = budget > 0 && is_number(part);
        if !plain && (!is_type_within(&part.0, budget) || !is_init_within(&part.1, budget)) {
            return false;
        }
    }
    true
}

/// Whether the type is no deeper than the limit. Most have no parts.
#[inline(always)]
#[tactic(auto, using(crate::proofs::ModuleLimits::Within::int_within, crate::proofs::ModuleLimits::Within::ptr_within, crate::proofs::ModuleLimits::Within::name_within, crate::proofs::ModuleLimits::Within::void_within))]
fn is_type_shallow(ty: &Ty) -> bool
    ensures { result ≡ within.is_shallow (depths.depth_of ty.now) }
{
    match ty {
        Ty::Int(_) | Ty::Named(_) | Ty::Void => true,
        Ty::Ptr(target) => is_target_within(target.get()),
        Ty::Array(_, _) | Ty::Struct(_) => is_type_within(ty, DEPTH),
    }
}

/// The same of what a pointer leads to.
#[inline(always)]
#[tactic(auto, using(crate::proofs::ModuleLimits::Within::int_within, crate::proofs::ModuleLimits::Within::name_within, crate::proofs::ModuleLimits::Within::void_within))]
fn is_target_within(ty: &Ty) -> bool
    ensures { result ≡ within.type_within 63 ty.now }
{
    match ty {
        Ty::Int(_) | Ty::Named(_) | Ty::Void => true,
        Ty::Ptr(_) | Ty::Array(_, _) | Ty::Struct(_) => is_type_within(ty, DEPTH - 1),
    }
}

#[inline(always)]
#[tactic(auto, using(crate::proofs::ModuleLimits::Within::number_within))]
fn is_atom_shallow(atom: &Atom<Name>) -> bool
    ensures { result ≡ within.atom_shallow atom.now }
{
    match atom {
        Atom::Constant(Const::Number(_)) => true,
        Atom::Constant(constant) => is_constant_within(constant, DEPTH),
        Atom::Register(_) => true,
    }
}

#[tactic(auto, using(crate::proofs::ModuleLimits::Within::operand_within))]
fn is_operand_shallow(operand: &Operand<Name>) -> bool
    ensures { result ≡ within.is_shallow (depths.depth_of_operand operand.now) }
{
    is_type_shallow(&operand.ty) && is_atom_shallow(&operand.atom)
}

fn are_operands_shallow(operands: &[Operand<Name>]) -> bool
    ensures { result ≡ within.are_shallow (map (λ o. depths.depth_of_operand o) operands.now) }
{
    for operand in operands {
        if !is_operand_shallow(operand) {
            return false;
        }
    }
    true
}

/// Whether two operands of one type are no deeper than the limit.
#[tactic(auto, using(crate::proofs::ModuleLimits::Within::operand_within))]
fn is_pair_shallow(ty: &Ty, left: &Atom<Name>, right: &Atom<Name>) -> bool
    ensures { result ≡ within.are_shallow (map (λ o. depths.depth_of_operand o)
        (record { ty = ty.now; atom = left.now } ∷ record { ty = ty.now; atom = right.now } ∷ [])) }
{
    is_type_shallow(ty) && is_atom_shallow(left) && is_atom_shallow(right)
}

fn is_element_shallow(element: &Element<Name>) -> bool
    ensures { result ≡ within.are_shallow (depths.depth_of element.now.of ∷ map (λ o. depths.depth_of_operand o)
        (element.now.base ∷ element.now.indices)) }
{
    is_type_shallow(&element.of)
        && is_operand_shallow(&element.base)
        && are_operands_shallow(element.indices.as_slice())
}

/// Whether nothing in a line's right side is deeper than the limit.
fn is_right_shallow(right: &Expr<Name>) -> bool
    ensures { result ≡ within.are_shallow (within.depths_at_right right.now) }
{
    match right {
        Expr::Plain(operand) => is_operand_shallow(operand),
        Expr::Binary(binary) => is_pair_shallow(&binary.ty, &binary.left, &binary.right),
        Expr::Icmp(icmp) => is_pair_shallow(&icmp.ty, &icmp.left, &icmp.right),
        Expr::Cast(cast) => is_type_shallow(&cast.to) && is_operand_shallow(&cast.operand),
        Expr::Select(select) => {
            let select = select.get();
            is_operand_shallow(&select.condition)
                && is_operand_shallow(&select.left)
                && is_operand_shallow(&select.right)
        }
        Expr::Element(element) => is_element_shallow(element.get()),
        Expr::Load(load) => is_type_shallow(&load.of) && is_operand_shallow(&load.pointer),
    }
}

fn is_alloca_shallow(alloca: &Alloca) -> bool
    ensures { result ≡ within.are_shallow (depths.depth_of alloca.now.of ∷ map depths.depth_of (stated_by_count alloca.now.count)) }
{
    is_type_shallow(&alloca.of)
        && match &alloca.count {
            Some(count) => is_type_shallow(&count.0),
            None => true,
        }
}

fn are_arguments_shallow(arguments: &[Argument]) -> bool
    ensures { result ≡ within.are_shallow (map (λ (a : Argument). depths.depth_of_operand a.operand) arguments.now) }
{
    for argument in arguments {
        if !is_operand_shallow(&argument.operand) {
            return false;
        }
    }
    true
}

fn is_line_shallow(line: &Instr) -> bool
    ensures { result ≡ within.are_shallow (depths.depths_at_line line.now) }
{
    match line {
        Instr::Calm(calm) => is_right_shallow(&calm.right),
        Instr::Alloca(alloca) => is_alloca_shallow(alloca),
        Instr::Store(store) => {
            is_operand_shallow(&store.value) && is_operand_shallow(&store.pointer)
        }
        Instr::Call(call) => {
            let call = call.get();
            is_type_shallow(&call.result) && are_arguments_shallow(call.arguments.as_slice())
        }
    }
}

#[tactic(auto, using(crate::proofs::ModuleLimits::Within::both_shallow))]
fn are_lines_shallow(lines: &[Instr]) -> bool
    ensures { result ≡ within.are_shallow (flat_map depths.depths_at_line lines.now) }
{
    for line in lines {
        if !is_line_shallow(line) {
            return false;
        }
    }
    true
}

/// Whether what a phi gets is no deeper than the limit, but for its type.
fn are_entries_shallow(entries: &[Entry]) -> bool
    ensures { result ≡ list_all (λ (e : Entry). within.atom_shallow e.value) entries.now }
{
    for entry in entries {
        if !is_atom_shallow(&entry.value) {
            return false;
        }
    }
    true
}

fn is_phi_shallow(phi: &Phi) -> bool
    ensures { result ≡ within.are_shallow (depths.depths_at_phi phi.now) }
{
    is_type_shallow(&phi.ty) && are_entries_shallow(phi.entries.as_slice())
}

#[tactic(auto, using(crate::proofs::ModuleLimits::Within::both_shallow))]
fn are_phis_shallow(phis: &[Phi]) -> bool
    ensures { result ≡ within.are_shallow (flat_map depths.depths_at_phi phis.now) }
{
    for phi in phis {
        if !is_phi_shallow(phi) {
            return false;
        }
    }
    true
}

fn are_cases_shallow(cases: &[Case]) -> bool
    ensures { result ≡ within.are_shallow (map (λ (c : Case). depths.depth_of c.ty) cases.now) }
{
    for case in cases {
        if !is_type_shallow(&case.ty) {
            return false;
        }
    }
    true
}

fn is_end_shallow(end: &Term) -> bool
    ensures { result ≡ within.are_shallow (within.depths_at_end end.now) }
{
    match end {
        Term::Ret(operand) => is_operand_shallow(operand),
        Term::CondBr(branch) => is_operand_shallow(&branch.condition),
        Term::Switch(switch) => {
            is_operand_shallow(&switch.value) && are_cases_shallow(switch.cases.as_slice())
        }
        Term::RetVoid | Term::Br(_) | Term::Unreachable => true,
    }
}

#[tactic(auto, using(crate::proofs::ModuleLimits::Within::block_within))]
fn is_block_shallow(block: &Block) -> bool
    ensures { result ≡ within.are_shallow (depths.depths_in_block block.now) }
{
    are_phis_shallow(block.phis.as_slice())
        && are_lines_shallow(block.body.as_slice())
        && is_end_shallow(&block.term)
}

#[tactic(auto, using(crate::proofs::ModuleLimits::Within::both_shallow))]
fn are_blocks_shallow(blocks: &[Block]) -> bool
    ensures { result ≡ within.are_shallow (flat_map depths.depths_in_block blocks.now) }
{
    for block in blocks {
        if !is_block_shallow(block) {
            return false;
        }
    }
    true
}

fn are_params_shallow(params: &[Param]) -> bool
    ensures { result ≡ within.are_shallow (map (λ (p : Param). depths.depth_of p.ty) params.now) }
{
    for param in params {
        if !is_type_shallow(&param.ty) {
            return false;
        }
    }
    true
}

/// Whether nothing in the function passes the limit.
#[tactic(auto, using(crate::proofs::ModuleLimits::Within::both_shallow))]
pub(crate) fn is_function_shallow(function: &Function) -> bool
    ensures { result ≡ within.are_shallow (depths.depths_in_function «function».now) }
{
    is_type_shallow(&function.result)
        && are_params_shallow(function.params.as_slice())
        && are_blocks_shallow(function.blocks.as_slice())
}

#[tactic(auto, using(crate::proofs::ModuleLimits::Within::both_shallow))]
fn are_functions_shallow(functions: &[Function]) -> bool
    ensures { result ≡ within.are_shallow (flat_map depths.depths_in_function functions.now) }
{
    for function in functions {
        if !is_function_shallow(function) {
            return false;
        }
    }
    true
}

/// The fields of a named type stand in its struct.
#[tactic(auto, using(crate::proofs::ModuleLimits::Within::fields_within))]
fn is_named_shallow(named: &NamedTy) -> bool
    ensures { result ≡ within.are_shallow (depths.depths_in_named named.now) }
{
    match &named.fields {
        Some(fields) => are_types_within(fields.get().as_slice(), DEPTH - 1),
        None => true,
    }
}

#[tactic(auto, using(crate::proofs::ModuleLimits::Within::both_shallow))]
fn are_named_shallow(types: &[NamedTy]) -> bool
    ensures { result ≡ within.are_shallow (flat_map depths.depths_in_named types.now) }
{
    for named in types {
        if !is_named_shallow(named) {
            return false;
        }
    }
    true
}

fn is_global_shallow(global: &GlobalVar) -> bool
    ensures { result ≡ within.are_shallow (depths.depths_in_global global.now) }
{
    is_type_shallow(&global.ty)
        && match &global.init {
            Some(init) => is_init_within(init, DEPTH),
            None => true,
        }
}

#[tactic(auto, using(crate::proofs::ModuleLimits::Within::both_shallow))]
fn are_globals_shallow(globals: &[GlobalVar]) -> bool
    ensures { result ≡ within.are_shallow (flat_map depths.depths_in_global globals.now) }
{
    for global in globals {
        if !is_global_shallow(global) {
            return false;
        }
    }
    true
}

fn are_declared_shallow(params: &[DeclaredParam]) -> bool
    ensures { result ≡ within.are_shallow (map (λ (p : DeclaredParam). depths.depth_of p.ty) params.now) }
{
    for param in params {
        if !is_type_shallow(&param.ty) {
            return false;
        }
    }
    true
}

#[tactic(auto, using(crate::proofs::ModuleLimits::Within::both_shallow))]
fn are_declarations_shallow(declarations: &[Declaration]) -> bool
    ensures { result ≡ within.are_shallow (flat_map depths.depths_in_declaration declarations.now) }
{
    for declaration in declarations {
        if !is_type_shallow(&declaration.result)
            || !are_declared_shallow(declaration.params.as_slice())
        {
            return false;
        }
    }
    true
}

/// Whether nothing in the module passes the limit.
#[tactic(auto, using(crate::proofs::ModuleLimits::Within::module_within))]
pub(crate) fn is_shallow(module: &Module) -> bool
    ensures { result ≡ within.are_shallow (depths.depths_in «module».now) }
{
    are_named_shallow(module.types.as_slice())
        && are_globals_shallow(module.globals.as_slice())
        && are_functions_shallow(module.functions.as_slice())
        && are_declarations_shallow(module.declarations.as_slice())
}
