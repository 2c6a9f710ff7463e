//! Which expressions have a type beside a module, and which of their constants are of their types.
ghost use Rattle.std.specs.Prelude.{◌≡◌, map};
ghost use Rattle.std.specs.List.{list_all};
ghost use Rattle.ir_core.specs.declared.operands.Operand.{Operand};
ghost use Rattle.ir_core.specs.declared.expressions.Reg.{Reg};
ghost use Rattle.ir_core.specs.Ranges.{may_wrap, may_leave, may_have};
ghost use Rattle.ir_core.specs.Sizes.{entered_along, stepped};
ghost use Rattle.ir_core.specs.Typing.{index_of};
ghost use Rattle.ir_values.specs.Addresses as addresses;
ghost use Rattle.ir_machine.specs.Registers.{is_stated, selects};
ghost use Rattle.ir_machine.specs.State.{scope_of};
ghost use Rattle.erhl_assert.specs.Typed as spec;
ghost use Rattle.rule_base.specs.Rows.{is_typed, have_one_type};

use erhl_assert::{number_in, pointed_by_indices};
use ir_core::{
    Atom, BinOp, BitType, Const, Element, Expr, Expr0, Flags, Load, Module, NamedTypes, Operand,
    Reg, Ty, converts, fits, is_pointer, is_width, same_ty,
};
use ir_typing::{entered, is_due, points_to};
use ir_values::{is_of_type, is_small};

fn has_numbers(ty: &Ty) -> bool
    ensures { result ≡ spec.has_numbers ty.now }
{
    match ty {
        Ty::Int(width) => is_width(*width),
        _ => false,
    }
}

fn has_values(ty: &Ty) -> bool
    ensures { result ≡ spec.has_values ty.now }
{
    match ty {
        Ty::Int(width) => is_width(*width),
        _ => is_pointer(ty),
    }
}

/// Whether the module names each type whose name stands in the type, also behind pointers.
#[cycle(types)]
#[tactic(auto, using(crate::proofs::Known::int_known, crate::proofs::Known::ptr_known, crate::proofs::Known::array_known, crate::proofs::Known::struct_known, crate::proofs::Known::name_known, crate::proofs::Known::void_known))]
fn is_known(types: &NamedTypes, ty: &Ty) -> bool
    ensures { result ≡ spec.is_known types.now ty.now }
{
    match ty {
        Ty::Ptr(target) => is_known(types, target.get()),
        Ty::Array(_, element) => is_known(types, element.get()),
        Ty::Struct(fields) => are_known(types, fields.get().as_slice()),
        Ty::Named(name) => types.knows(name.get()),
        Ty::Int(_) | Ty::Void => true,
    }
}

/// The same of several.
#[cycle(types)]
fn are_known(types: &NamedTypes, fields: &[Ty]) -> bool
    ensures { result ≡ list_all (spec.is_known types.now) fields.now }
{
    for ty in fields {
        if !is_known(types, ty) {
            return false;
        }
    }
    true
}

fn may_stand(types: &NamedTypes, ty: &Ty) -> bool
    ensures { result ≡ spec.may_stand types.now ty.now }
{
    has_values(ty) && is_known(types, ty)
}

/// Whether `nuw` and `nsw` may stand on the operator.
fn may_wrap(op: BinOp) -> bool
    ensures { result ≡ may_wrap op }
{
    matches!(op, BinOp::Add | BinOp::Sub | BinOp::Mul | BinOp::Shl)
}

/// Whether `exact` may stand on the operator.
fn may_leave(op: BinOp) -> bool
    ensures { result ≡ may_leave op }
{
    matches!(op, BinOp::UDiv | BinOp::SDiv | BinOp::LShr | BinOp::AShr)
}

fn may_have(op: BinOp, flags: Flags) -> bool
    ensures { result ≡ may_have op flags }
{
    (!flags.nuw || may_wrap(op)) && (!flags.nsw || may_wrap(op)) && (!flags.exact || may_leave(op))
}

/// Whether a selection by a condition of the one type may have arms of the others.
pub(crate) fn selects(condition: &Ty, left: &Ty, right: &Ty) -> bool
    ensures { result ≡ selects condition.now left.now right.now }
{
    same_ty(condition, &Ty::Int(1)) && same_ty(left, right)
}

// ---- addresses

/// Whether each type that the indices enter is small.
fn enter_small(types: &NamedTypes, of: &Ty, indices: &[Operand<Reg>]) -> bool
    ensures { result ≡ list_all (addresses.is_small types.now) (entered_along types.now of.now (map index_of indices.now)) }
{
    let mut ty = of;
    for index in indices {
        match entered(types, ty, &index.ty, number_in(&index.atom)) {
            Some(further) => {
                if !is_small(types, further) {
                    return false;
                }
                ty = further;
            }
            None => return true,
        }
    }
    true
}

/// Whether the type that is pointed to is small, and each that the indices enter.
fn step_small(types: &NamedTypes, of: &Ty, indices: &[Operand<Reg>]) -> bool
    ensures { result ≡ list_all (addresses.is_small types.now) (stepped types.now of.now (map index_of indices.now)) }
{
    match indices.split_first() {
        None => is_small(types, of),
        Some((_, further)) => is_small(types, of) && enter_small(types, of, further),
    }
}

fn have_values(indices: &[Operand<Reg>]) -> bool
    ensures { result ≡ list_all (λ (i : Operand Reg). spec.has_values i.ty) indices.now }
{
    indices.iter().all(|index| has_values(&index.ty))
}

/// Whether the base points to what is stated, and the indices lead to what the address is said to point to.
fn is_stated(types: &NamedTypes, element: &Element<Reg>) -> bool
    ensures { result ≡ is_stated types.now element.now }
{
    points_to(&element.base.ty, &element.of)
        && is_due(
            pointed_by_indices(types, &element.of, element.indices.as_slice()),
            &element.to,
        )
}

fn is_addressed(types: &NamedTypes, element: &Element<Reg>) -> bool
    ensures { result ≡ spec.is_addressed types.now element.now }
{
    is_stated(types, element)
        && is_known(types, &element.of)
        && step_small(types, &element.of, element.indices.as_slice())
        && have_values(element.indices.as_slice())
}

fn is_loaded(types: &NamedTypes, load: &Load<Reg>) -> bool
    ensures { result ≡ spec.is_loaded types.now load.now }
{
    points_to(&load.pointer.ty, &load.of) && may_stand(types, &load.of)
}

/// Whether the expression has a type beside the module.
pub fn has_type(module: &Module, expr: &Expr0) -> bool
    ensures { result ≡ spec.has_type (scope_of «module».now) expr.now }
{
    let types = &module.types;
    match expr {
        Expr::Plain(operand) => has_values(&operand.ty),
        Expr::Binary(binary) => has_numbers(&binary.ty) && may_have(binary.op, binary.flags),
        Expr::Icmp(icmp) => may_stand(types, &icmp.ty),
        Expr::Cast(cast) => {
            may_stand(types, &cast.operand.ty)
                && may_stand(types, &cast.to)
                && converts(cast.op, &cast.operand.ty, &cast.to)
        }
        Expr::Select(select) => {
            let select = select.get();
            may_stand(types, &select.left.ty)
                && selects(&select.condition.ty, &select.left.ty, &select.right.ty)
        }
        Expr::Element(element) => is_addressed(types, element.get()),
        Expr::Load(load) => is_loaded(types, load),
    }
}

// ---- constants

fn number_fits(ty: &Ty, number: u64) -> bool
    ensures { result ≡ spec.number_fits ty.now number }
{
    match ty {
        Ty::Int(width) => fits(number, *width),
        _ => false,
    }
}

fn null_fits(ty: &Ty) -> bool
    ensures { result ≡ spec.null_fits ty.now }
{
    match ty {
        Ty::Int(_) => false,
        _ => is_pointer(ty),
    }
}

/// Whether the constant is one of the type beside the module.
#[tactic(auto, using(ir_values::proofs::ConstantWalks::of_global))]
fn constant_fits(module: &Module, ty: &Ty, constant: &Const) -> bool
    ensures { result ≡ spec.constant_fits (scope_of «module».now) ty.now constant.now }
{
    match constant {
        Const::Number(number) => number_fits(ty, number.get()),
        Const::Undef => has_values(ty),
        Const::Null => null_fits(ty),
        Const::Global(_) | Const::Element(_) | Const::Cast(_) => is_of_type(module, ty, constant),
    }
}

fn atom_fits(module: &Module, ty: &Ty, atom: &Atom<Reg>) -> bool
    ensures { result ≡ spec.atom_fits (scope_of «module».now) ty.now atom.now }
{
    match atom {
        Atom::Constant(constant) => constant_fits(module, ty, constant),
        Atom::Register(_) => true,
    }
}

/// Whether an operand that is a constant is of its stated type.
pub fn operand_fits(module: &Module, operand: &Operand<Reg>) -> bool
    ensures { result ≡ spec.operand_fits (scope_of «module».now) operand.now }
{
    atom_fits(module, &operand.ty, &operand.atom)
}

fn operands_fit(module: &Module, operands: &[Operand<Reg>]) -> bool
    ensures { result ≡ list_all (spec.operand_fits (scope_of «module».now)) operands.now }
{
    operands.iter().all(|operand| operand_fits(module, operand))
}

fn fits_constants(module: &Module, expr: &Expr0) -> bool
    ensures { result ≡ spec.fits_constants (scope_of «module».now) expr.now }
{
    match expr {
        Expr::Plain(operand) => operand_fits(module, operand),
        Expr::Binary(binary) => {
            atom_fits(module, &binary.ty, &binary.left)
                && atom_fits(module, &binary.ty, &binary.right)
        }
        Expr::Icmp(icmp) => {
            atom_fits(module, &icmp.ty, &icmp.left) && atom_fits(module, &icmp.ty, &icmp.right)
        }
        Expr::Cast(cast) => operand_fits(module, &cast.operand),
        Expr::Select(select) => {
            let select = select.get();
            operand_fits(module, &select.condition)
                && operand_fits(module, &select.left)
                && operand_fits(module, &select.right)
        }
        Expr::Element(element) => {
            let element = element.get();
            operand_fits(module, &element.base) && operands_fit(module, element.indices.as_slice())
        }
        Expr::Load(load) => operand_fits(module, &load.pointer),
    }
}

/// Whether the expression has a type beside the module, and each of its constants is of its stated type.
pub fn is_typed(module: &Module, expr: &Expr0) -> bool
    ensures { result ≡ is_typed (scope_of «module».now) expr.now }
{
    has_type(module, expr) && fits_constants(module, expr)
}

/// Whether both have a type, with constants that fit, and it is one type.
pub fn have_one_type(module: &Module, a: &Expr0, b: &Expr0) -> bool
    ensures { result ≡ have_one_type (scope_of «module».now) a.now b.now }
{
    let bit = BitType::new();
    is_typed(module, a) && is_typed(module, b) && same_ty(a.ty(&bit), b.ty(&bit))
}
