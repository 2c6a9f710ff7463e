//! The limit on blocks: how much memory is wanted at once.
ghost use Rattle.std.specs.Prelude.{◌≡◌, [], ◌∷◌, map};
ghost use Rattle.std.specs.List.{flat_map, list_all};
ghost use Rattle.ir_core.specs.declared.functions.Argument.{Argument};
ghost use Rattle.ir_core.specs.declared.functions.Entry.{Entry};
ghost use Rattle.ir_core.specs.Functions.{operands_at_end};
ghost use Rattle.ir_core.specs.Sizes as sizes;
ghost use Rattle.ir_core.specs.Typing.{index_of};
ghost use Rattle.ir_typing.specs.ModuleLimits.Small as small;
ghost use Rattle.ir_typing.specs.OperandTests.Addresses.{index_told};

use crate::module_limits::judged::Judged;
use crate::operand_tests::{entered, is_number, number_in, number_of};
use ir_core::{
    Alloca, Argument, Atom, Block, Const, Element, Entry, Expr, Function, GlobalVar, Init, Instr,
    Module, Name, Operand, Phi, Term, Ty, TypedConst, TypedInit, is_integer,
};

/// Whether the types that operands enter, one inside the other, make blocks.
fn are_entered_small(module: &Judged, of: &Ty, indices: &[Operand<Name>]) -> bool
    ensures { result ≡ small.entered_small «module».now.types of.now (map index_of indices.now) }
{
    let mut ty = of;
    for index in indices {
        match entered(module.types(), ty, &index.ty, number_in(&index.atom)) {
            Some(further) => {
                if !module.is_small_block(further, 1) {
                    return false;
                }
                ty = further;
            }
            None => return true,
        }
    }
    true
}

/// Whether a type makes a block, and those do that operands behind the first enter, one after the other.
fn is_each_small(module: &Judged, of: &Ty, indices: &[Operand<Name>]) -> bool
    ensures { result ≡ small.stepped_small «module».now.types of.now (map index_of indices.now) }
{
    module.is_small_block(of, 1)
        && match indices.split_first() {
            Some((_, further)) => are_entered_small(module, of, further),
            None => true,
        }
}

/// The same, with no walk where all that can be entered makes blocks.
fn is_stepped_small(module: &Judged, of: &Ty, indices: &[Operand<Name>]) -> bool
    ensures { result ≡ small.stepped_small «module».now.types of.now (map index_of indices.now) }
{
    module.is_stepped_clear(of) || is_each_small(module, of, indices)
}

/// Whether the types that constants enter, one inside the other, make blocks.
fn are_told_small(module: &Judged, of: &Ty, indices: &[TypedConst]) -> bool
    ensures { result ≡ small.entered_small «module».now.types of.now (map index_told indices.now) }
{
    let mut ty = of;
    for index in indices {
        match entered(module.types(), ty, &index.0, number_of(&index.1)) {
            Some(further) => {
                if !module.is_small_block(further, 1) {
                    return false;
                }
                ty = further;
            }
            None => return true,
        }
    }
    true
}

/// Whether a type makes a block, and those do that constants behind the first enter, one after the other.
fn is_each_told_small(module: &Judged, of: &Ty, indices: &[TypedConst]) -> bool
    ensures { result ≡ small.stepped_small «module».now.types of.now (map index_told indices.now) }
{
    module.is_small_block(of, 1)
        && match indices.split_first() {
            Some((_, further)) => are_told_small(module, of, further),
            None => true,
        }
}

/// The same, with no walk where all that can be entered makes blocks.
fn is_told_small(module: &Judged, of: &Ty, indices: &[TypedConst]) -> bool
    ensures { result ≡ small.stepped_small «module».now.types of.now (map index_told indices.now) }
{
    module.is_stepped_clear(of) || is_each_told_small(module, of, indices)
}

/// The same of an address whose base stands before the indices.
fn is_address_small(module: &Judged, of: &Ty, parts: &[TypedConst]) -> bool
    ensures { result ≡ small.stepped_small «module».now.types of.now (small.told_behind parts.now) }
{
    match parts.split_first() {
        Some((_, indices)) => is_told_small(module, of, indices),
        None => module.is_small_block(of, 1),
    }
}

/// Whether what a constant wants makes blocks.
#[cycle(constants)]
#[tactic(auto, using(crate::proofs::ModuleLimits::Small::number_small, crate::proofs::ModuleLimits::Small::undef_small, crate::proofs::ModuleLimits::Small::null_small, crate::proofs::ModuleLimits::Small::global_small, crate::proofs::ModuleLimits::Small::element_small, crate::proofs::ModuleLimits::Small::cast_small, crate::proofs::OperandTests::Measures::in_element, crate::proofs::OperandTests::Measures::in_cast))]
fn is_constant_small(module: &Judged, constant: &Const) -> bool
    ensures { result ≡ small.constant_small «module».now.types constant.now }
{
    match constant {
        Const::Element(element) => {
            let element = element.get();
            is_address_small(module, &element.1, element.2.as_slice())
                && are_constants_small(module, element.2.as_slice())
        }
        Const::Cast(cast) => are_constants_small(module, cast.get().1.as_slice()),
        Const::Number(_) | Const::Undef | Const::Null | Const::Global(_) => true,
    }
}

#[cycle(constants)]
#[tactic(auto, using(crate::proofs::OperandTests::Measures::in_constants))]
fn are_constants_small(module: &Judged, constants: &[TypedConst]) -> bool
    ensures { result ≡ small.constants_small «module».now.types constants.now }
{
    for constant in constants {
        if !is_constant_small(module, &constant.1) {
            return false;
        }
    }
    true
}

/// Whether what an initialiser wants makes blocks.
#[cycle(inits)]
#[tactic(auto, using(crate::proofs::ModuleLimits::Small::held_small, crate::proofs::ModuleLimits::Small::zero_small, crate::proofs::ModuleLimits::Small::bytes_small, crate::proofs::ModuleLimits::Small::array_small, crate::proofs::ModuleLimits::Small::struct_small, crate::proofs::OperandTests::Measures::in_array, crate::proofs::OperandTests::Measures::in_struct))]
fn is_init_small(module: &Judged, init: &Init) -> bool
    ensures { result ≡ small.init_small «module».now.types init.now }
{
    match init {
        Init::Const(constant) => is_constant_small(module, constant),
        Init::Array(parts) => are_inits_small(module, parts.get().as_slice()),
        Init::Struct(parts) => are_inits_small(module, parts.get().as_slice()),
        Init::Zero | Init::Bytes(_) => true,
    }
}

#[cycle(inits)]
#[tactic(auto, using(crate::proofs::OperandTests::Measures::in_inits, crate::proofs::ModuleLimits::Small::plain_small))]
fn are_inits_small(module: &Judged, inits: &[TypedInit]) -> bool
    ensures { result ≡ small.inits_small «module».now.types inits.now }
{
    for init in inits {
        if !is_number(init) && !is_init_small(module, &init.1) {
            return false;
        }
    }
    true
}

#[inline(always)]
#[tactic(auto, using(crate::proofs::ModuleLimits::Small::number_small))]
fn is_atom_small(module: &Judged, atom: &Atom<Name>) -> bool
    ensures { result ≡ small.are_small «module».now.types (sizes.wanted_by_atom «module».now.types atom.now) }
{
    match atom {
        Atom::Constant(Const::Number(_)) => true,
        Atom::Constant(constant) => is_constant_small(module, constant),
        Atom::Register(_) => true,
    }
}

#[tactic(auto, using(crate::proofs::ModuleLimits::Small::both_small))]
fn are_operands_small(module: &Judged, operands: &[Operand<Name>]) -> bool
    ensures { result ≡ small.are_small «module».now.types (sizes.wanted_by_operands «module».now.types operands.now) }
{
    for operand in operands {
        if !is_atom_small(module, &operand.atom) {
            return false;
        }
    }
    true
}

#[tactic(auto, using(crate::proofs::ModuleLimits::Small::both_small))]
fn is_element_small(module: &Judged, element: &Element<Name>) -> bool
    ensures { result ≡ small.are_small «module».now.types (small.wanted_at_element «module».now.types element.now) }
{
    is_stepped_small(module, &element.of, element.indices.as_slice())
        && is_atom_small(module, &element.base.atom)
        && are_operands_small(module, element.indices.as_slice())
}

/// Whether what a line's right side wants makes blocks.
#[tactic(auto, using(crate::proofs::ModuleLimits::Small::both_small))]
fn is_right_small(module: &Judged, right: &Expr<Name>) -> bool
    ensures { result ≡ small.are_small «module».now.types (small.wanted_at_right «module».now.types right.now) }
{
    match right {
        Expr::Plain(operand) => is_atom_small(module, &operand.atom),
        Expr::Binary(binary) => {
            is_atom_small(module, &binary.left) && is_atom_small(module, &binary.right)
        }
        Expr::Icmp(icmp) => is_atom_small(module, &icmp.left) && is_atom_small(module, &icmp.right),
        Expr::Cast(cast) => is_atom_small(module, &cast.operand.atom),
        Expr::Select(select) => {
            let select = select.get();
            is_atom_small(module, &select.condition.atom)
                && is_atom_small(module, &select.left.atom)
                && is_atom_small(module, &select.right.atom)
        }
        Expr::Element(element) => is_element_small(module, element.get()),
        Expr::Load(load) => is_atom_small(module, &load.pointer.atom),
    }
}

/// An alloca whose count is no integer wants nothing.
fn is_alloca_small(module: &Judged, alloca: &Alloca) -> bool
    ensures { result ≡ small.are_small «module».now.types (sizes.wanted_by_count alloca.now.of alloca.now.count) }
{
    match &alloca.count {
        Some(count) => { !is_integer(&count.0) || module.is_small_block(&alloca.of, count.1.get()) }
        None => module.is_small_block(&alloca.of, 1),
    }
}

#[tactic(auto, using(crate::proofs::ModuleLimits::Small::both_small))]
fn are_arguments_small(module: &Judged, arguments: &[Argument]) -> bool
    ensures { result ≡ small.are_small «module».now.types
        (sizes.wanted_by_operands «module».now.types (map (λ (a : Argument). a.operand) arguments.now)) }
{
    for argument in arguments {
        if !is_atom_small(module, &argument.operand.atom) {
            return false;
        }
    }
    true
}

#[tactic(auto, using(crate::proofs::ModuleLimits::Small::both_small))]
fn is_line_small(module: &Judged, line: &Instr) -> bool
    ensures { result ≡ small.are_small «module».now.types (sizes.wanted_by_line «module».now.types line.now) }
{
    match line {
        Instr::Calm(calm) => is_right_small(module, &calm.right),
        Instr::Alloca(alloca) => is_alloca_small(module, alloca),
        Instr::Store(store) => {
            is_atom_small(module, &store.value.atom) && is_atom_small(module, &store.pointer.atom)
        }
        Instr::Call(call) => are_arguments_small(module, call.get().arguments.as_slice()),
    }
}

#[tactic(auto, using(crate::proofs::ModuleLimits::Small::both_small))]
fn are_lines_small(module: &Judged, lines: &[Instr]) -> bool
    ensures { result ≡ small.are_small «module».now.types (flat_map (sizes.wanted_by_line «module».now.types) lines.now) }
{
    for line in lines {
        if !is_line_small(module, line) {
            return false;
        }
    }
    true
}

#[tactic(auto, using(crate::proofs::ModuleLimits::Small::both_small))]
fn are_entries_small(module: &Judged, entries: &[Entry]) -> bool
    ensures { result ≡ small.are_small «module».now.types
        (flat_map (λ (e : Entry). sizes.wanted_by_atom «module».now.types e.value) entries.now) }
{
    for entry in entries {
        if !is_atom_small(module, &entry.value) {
            return false;
        }
    }
    true
}

#[tactic(auto, using(crate::proofs::ModuleLimits::Small::phi_small))]
fn is_phi_small(module: &Judged, phi: &Phi) -> bool
    ensures { result ≡ small.are_small «module».now.types (small.wanted_by_phi «module».now.types phi.now) }
{
    are_entries_small(module, phi.entries.as_slice())
}

#[tactic(auto, using(crate::proofs::ModuleLimits::Small::both_small))]
fn are_phis_small(module: &Judged, phis: &[Phi]) -> bool
    ensures { result ≡ small.are_small «module».now.types (flat_map (small.wanted_by_phi «module».now.types) phis.now) }
{
    for phi in phis {
        if !is_phi_small(module, phi) {
            return false;
        }
    }
    true
}

#[tactic(auto, using(crate::proofs::ModuleLimits::Small::both_small))]
fn is_end_small(module: &Judged, end: &Term) -> bool
    ensures { result ≡ small.are_small «module».now.types (sizes.wanted_by_operands «module».now.types (operands_at_end end.now)) }
{
    match end {
        Term::Ret(operand) => is_atom_small(module, &operand.atom),
        Term::CondBr(branch) => is_atom_small(module, &branch.condition.atom),
        Term::Switch(switch) => is_atom_small(module, &switch.value.atom),
        Term::RetVoid | Term::Br(_) | Term::Unreachable => true,
    }
}

#[tactic(auto, using(crate::proofs::ModuleLimits::Small::block_small))]
fn is_block_small(module: &Judged, block: &Block) -> bool
    ensures { result ≡ small.are_small «module».now.types (sizes.wanted_in_block «module».now.types block.now) }
{
    are_phis_small(module, block.phis.as_slice())
        && are_lines_small(module, block.body.as_slice())
        && is_end_small(module, &block.term)
}

#[tactic(auto, using(crate::proofs::ModuleLimits::Small::both_small))]
fn are_blocks_small(module: &Judged, blocks: &[Block]) -> bool
    ensures { result ≡ small.are_small «module».now.types (flat_map (sizes.wanted_in_block «module».now.types) blocks.now) }
{
    for block in blocks {
        if !is_block_small(module, block) {
            return false;
        }
    }
    true
}

/// Whether nothing in the function, beside the module, passes the limit.
pub(crate) fn is_function_small(module: &Module, function: &Function) -> bool
    ensures { result ≡ small.are_small «module».now.types (sizes.wanted_in_function «module».now.types «function».now) }
{
    are_blocks_small(&Judged::of(module), function.blocks.as_slice())
}

#[tactic(auto, using(crate::proofs::ModuleLimits::Small::both_small))]
fn are_functions_small(module: &Judged, functions: &[Function]) -> bool
    ensures { result ≡ small.are_small «module».now.types (flat_map (sizes.wanted_in_function «module».now.types) functions.now) }
{
    for function in functions {
        if !are_blocks_small(module, function.blocks.as_slice()) {
            return false;
        }
    }
    true
}

fn is_global_small(module: &Judged, global: &GlobalVar) -> bool
    ensures { result ≡ small.are_small «module».now.types (sizes.wanted_by_global «module».now.types global.now) }
{
    module.is_small_block(&global.ty, 1)
        && match &global.init {
            Some(init) => is_init_small(module, init),
            None => true,
        }
}

#[tactic(auto, using(crate::proofs::ModuleLimits::Small::both_small))]
fn are_globals_small(module: &Judged, globals: &[GlobalVar]) -> bool
    ensures { result ≡ small.are_small «module».now.types (flat_map (sizes.wanted_by_global «module».now.types) globals.now) }
{
    for global in globals {
        if !is_global_small(module, global) {
            return false;
        }
    }
    true
}

/// Whether nothing in the module passes the limit.
#[tactic(auto, using(crate::proofs::ModuleLimits::Small::both_small))]
pub(crate) fn is_small(module: &Module) -> bool
    ensures { result ≡ small.are_small «module».now.types (sizes.wanted_in «module».now) }
{
    let judged = Judged::of(module);
    are_globals_small(&judged, module.globals.as_slice())
        && are_functions_small(&judged, module.functions.as_slice())
}
