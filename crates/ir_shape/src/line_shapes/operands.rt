//! What is wrong with operands, beside a module and in a function whose registers' types are known.
ghost use Rattle.std.specs.Prelude.{◌≡◌, [], ◌∷◌, map};
ghost use Rattle.ir_core.specs.declared.functions.Argument.{Argument};
ghost use Rattle.ir_core.specs.Expressions as expressions;
ghost use Rattle.ir_core.specs.Functions as functions;
ghost use Rattle.ir_typing.specs.ShapeKinds.Kept.{type_in};
ghost use Rattle.ir_shape.specs.ShapeTests.Typed.{operands_at};
ghost use Rattle.ir_shape.specs.LineShapes.Told as meaning;

use ir_core::{Argument, Atom, Element, Entry, Expr, Instr, Name, Operand, Term, Ty};
use ir_typing::{Beside, LentTypes, ShapeKind, constant_kind, fault_unless, is_same_ty, least};

/// What is wrong with a register that is stated at that type, if anything is: it isn't there, or is of another type.
fn register_kind(types: &LentTypes, ty: &Ty, name: &Name) -> Option<ShapeKind>
    ensures { result ≡ meaning.register_kind (type_in types.now name.now) ty.now }
{
    match types.get(name) {
        None => Some(ShapeKind::Name),
        Some(None) => None,
        Some(Some(own)) => fault_unless(is_same_ty(own, ty), ShapeKind::OperandType),
    }
}

fn atom_kind(beside: &Beside, types: &LentTypes, ty: &Ty, atom: &Atom<Name>) -> Option<ShapeKind>
    ensures { result ≡ meaning.atom_kind beside.now (type_in types.now) ty.now atom.now }
{
    match atom {
        Atom::Constant(constant) => constant_kind(beside, ty, constant),
        Atom::Register(name) => register_kind(types, ty, name),
    }
}

fn one_kind(beside: &Beside, types: &LentTypes, operand: &Operand<Name>) -> Option<ShapeKind>
    ensures { result ≡ meaning.atom_kind beside.now (type_in types.now) operand.now.ty operand.now.atom }
{
    atom_kind(beside, types, &operand.ty, &operand.atom)
}

/// The same of two atoms of one type.
#[tactic(auto, using(ir_typing::proofs::OperandTests::Least::least_none))]
fn two_kind(
    beside: &Beside,
    types: &LentTypes,
    ty: &Ty,
    left: &Atom<Name>,
    right: &Atom<Name>,
) -> Option<ShapeKind>
    ensures { result
        ≡ meaning.operands_kind beside.now (type_in types.now) (record { ty = ty.now; atom = left.now } ∷ record { ty = ty.now; atom = right.now } ∷ []) }
{
    least(
        atom_kind(beside, types, ty, left),
        atom_kind(beside, types, ty, right),
    )
}

#[tactic(auto, using(ir_typing::proofs::OperandTests::Least::least_none))]
fn three_kind(
    beside: &Beside,
    types: &LentTypes,
    one: &Operand<Name>,
    two: &Operand<Name>,
    three: &Operand<Name>,
) -> Option<ShapeKind>
    ensures { result ≡ meaning.operands_kind beside.now (type_in types.now) (one.now ∷ two.now ∷ three.now ∷ []) }
{
    let further = least(
        atom_kind(beside, types, &two.ty, &two.atom),
        atom_kind(beside, types, &three.ty, &three.atom),
    );
    least(atom_kind(beside, types, &one.ty, &one.atom), further)
}

#[tactic(auto, using(ir_typing::proofs::OperandTests::Least::least_assoc, ir_typing::proofs::OperandTests::Least::least_none))]
fn operands_kind(
    beside: &Beside,
    types: &LentTypes,
    operands: &[Operand<Name>],
) -> Option<ShapeKind>
    ensures { result ≡ meaning.operands_kind beside.now (type_in types.now) operands.now }
{
    let mut found = None;
    for operand in operands {
        found = least(found, atom_kind(beside, types, &operand.ty, &operand.atom));
    }
    found
}

#[tactic(auto, using(ir_typing::proofs::OperandTests::Least::least_assoc, ir_typing::proofs::OperandTests::Least::least_none))]
fn arguments_kind(beside: &Beside, types: &LentTypes, arguments: &[Argument]) -> Option<ShapeKind>
    ensures { result ≡ meaning.operands_kind beside.now (type_in types.now) (map (λ (a : Argument). a.operand) arguments.now) }
{
    let mut found = None;
    for argument in arguments {
        let operand = &argument.operand;
        found = least(found, atom_kind(beside, types, &operand.ty, &operand.atom));
    }
    found
}

/// What is wrong with the operands of an address.
#[tactic(auto, using(ir_typing::proofs::OperandTests::Least::least_none))]
pub(crate) fn address_operands_kind(
    beside: &Beside,
    types: &LentTypes,
    element: &Element<Name>,
) -> Option<ShapeKind>
    ensures { result ≡ meaning.operands_kind beside.now (type_in types.now) (element.now.base ∷ element.now.indices) }
{
    least(
        one_kind(beside, types, &element.base),
        operands_kind(beside, types, element.indices.as_slice()),
    )
}

/// What is wrong with the operands of a line's right side.
#[tactic(auto, using(ir_typing::proofs::OperandTests::Least::least_none))]
fn right_operands_kind(beside: &Beside, types: &LentTypes, right: &Expr<Name>) -> Option<ShapeKind>
    ensures { result ≡ meaning.operands_kind beside.now (type_in types.now) (expressions.operands_in right.now) }
{
    match right {
        Expr::Plain(operand) => one_kind(beside, types, operand),
        Expr::Binary(binary) => two_kind(beside, types, &binary.ty, &binary.left, &binary.right),
        Expr::Icmp(icmp) => two_kind(beside, types, &icmp.ty, &icmp.left, &icmp.right),
        Expr::Cast(cast) => one_kind(beside, types, &cast.operand),
        Expr::Select(select) => {
            let select = select.get();
            three_kind(
                beside,
                types,
                &select.condition,
                &select.left,
                &select.right,
            )
        }
        Expr::Element(element) => address_operands_kind(beside, types, element.get()),
        Expr::Load(load) => one_kind(beside, types, &load.pointer),
    }
}

/// What is wrong with the operands of a line.
#[inline(always)]
#[tactic(auto, using(ir_typing::proofs::OperandTests::Least::least_none))]
pub(crate) fn line_operands_kind(
    beside: &Beside,
    types: &LentTypes,
    line: &Instr,
) -> Option<ShapeKind>
    ensures { result ≡ meaning.operands_kind beside.now (type_in types.now) (functions.operands_of line.now) }
{
    match line {
        Instr::Calm(calm) => right_operands_kind(beside, types, &calm.right),
        Instr::Alloca(_) => None,
        Instr::Store(store) => least(
            one_kind(beside, types, &store.value),
            one_kind(beside, types, &store.pointer),
        ),
        Instr::Call(call) => arguments_kind(beside, types, call.get().arguments.as_slice()),
    }
}

/// What is wrong with the operands of a terminator.
#[tactic(auto, using(ir_typing::proofs::OperandTests::Least::least_none))]
pub(crate) fn end_operands_kind(beside: &Beside, types: &LentTypes, end: &Term) -> Option<ShapeKind>
    ensures { result ≡ meaning.operands_kind beside.now (type_in types.now) (functions.operands_at_end end.now) }
{
    match end {
        Term::Ret(operand) => one_kind(beside, types, operand),
        Term::CondBr(branch) => one_kind(beside, types, &branch.condition),
        Term::Switch(switch) => one_kind(beside, types, &switch.value),
        Term::RetVoid | Term::Br(_) | Term::Unreachable => None,
    }
}

/// What is wrong with the values that a phi of that type gets.
#[tactic(auto, using(ir_typing::proofs::OperandTests::Least::least_assoc, ir_typing::proofs::OperandTests::Least::least_none))]
pub(crate) fn entries_kind(
    beside: &Beside,
    types: &LentTypes,
    ty: &Ty,
    entries: &[Entry],
) -> Option<ShapeKind>
    ensures { result ≡ meaning.operands_kind beside.now (type_in types.now) (operands_at ty.now entries.now) }
{
    let mut found = None;
    for entry in entries {
        found = least(found, atom_kind(beside, types, ty, &entry.value));
    }
    found
}
