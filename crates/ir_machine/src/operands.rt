ghost use Rattle.std.specs.Prelude.{◌≡◌, map, Some};
ghost use Rattle.ir_core.specs.declared.expressions.Expr.TheVariants as expr;
ghost use Rattle.ir_core.specs.declared.values.Kind.TheVariants.{Int};
ghost use Rattle.ir_core.specs.Types as types;
ghost use Rattle.ir_core.specs.Expressions.{type_of};
ghost use Rattle.ir_machine.specs.Registers as meaning;
ghost use Rattle.ir_machine.specs.State.{scope_of};
ghost use Rattle.ir_values.specs.Constants as constants;
ghost use Rattle.ir_values.specs.Values.{IsInKindOf};
ghost use Rattle.ir_values.specs.Operations.{GivesInKind};
ghost use Rattle.ir_machine.specs.Places.{registers_in};

use crate::KeptWorld;
use crate::registers::RegisterFile;
use block_memory::Blocks;
use ir_core::{
    Atom, Binary, Cast, Element, Expr, Icmp, Kind, Load, Module, Name, NamedTypes, Operand, Select,
    Ty, Value, converts, kind_of, same_ty,
};
use ir_types::align_of;
use ir_typing::{is_due, pointed_by_operands, points_to};
use ir_values::{
    Indices, Outcome, address_of, constant_value, eval_binary, eval_cast, eval_icmp, eval_select,
    width_of,
};

/// What an atom is worth at the type, beside the module.
#[tactic(auto, using(crate::proofs::InKind::file_atom_in_kind))]
pub(crate) fn atom_value(
    module: &Module,
    registers: &RegisterFile,
    ty: &Ty,
    atom: &Atom<Name>,
) -> Value
    ensures value { result ≡ meaning.atom_value (scope_of «module».now) (meaning.read (registers_in registers.now)) ty.now atom.now }
    ensures in_kind { IsInKindOf (types.kind_of ty.now) result }
{
    match (kind_of(ty), atom) {
        (None, _) => Value::Poison,
        (Some(_), Atom::Constant(constant)) => constant_value(module, ty, constant),
        (Some(own), Atom::Register(name)) => registers.read(&own, name),
    }
}

pub(crate) fn operand_value(
    module: &Module,
    registers: &RegisterFile,
    operand: &Operand<Name>,
) -> Value
    ensures value { result ≡ meaning.operand_value (scope_of «module».now) (meaning.read (registers_in registers.now)) operand.now }
    ensures in_kind { IsInKindOf (types.kind_of operand.now.ty) result }
{
    atom_value(module, registers, &operand.ty, &operand.atom)
}

/// The size of the block that an address is in.
fn size_at(blocks: &Blocks, value: &Value) -> u64
    ensures { result ≡ meaning.size_at blocks.now value.now }
{
    match value {
        Value::Ptr(block, _) => blocks.size(*block).unwrap_or(0),
        _ => 0,
    }
}

/// What a binary operator leads to on values of a kind.
fn binary_at(binary: &Binary<Name>, kind: Option<Kind>, left: &Value, right: &Value) -> Outcome
    requires kind { kind ≡ types.kind_of binary.now.ty }
    requires left { IsInKindOf kind left.now }
    requires right { IsInKindOf kind right.now }
    ensures { result ≡ meaning.binary_at binary.now.op binary.now.flags kind left.now right.now }
{
    match kind {
        Some(Kind::Int(width)) => eval_binary(binary.op, binary.flags, width, left, right),
        Some(Kind::Ptr) => Outcome::Gives(Value::Poison),
        None => Outcome::Gives(Value::Poison),
    }
}

#[tactic(auto, using(crate::proofs::InKind::binary_in_kind))]
fn binary_outcome(
    module: &Module,
    registers: &RegisterFile,
    world: &KeptWorld,
    binary: &Binary<Name>,
) -> Outcome
    ensures value { result ≡ meaning.outcome (scope_of «module».now) (meaning.read (registers_in registers.now)) world.now.blocks (expr.Binary binary.now) }
    ensures in_kind { GivesInKind (types.kind_of binary.now.ty) result }
{
    let kind = kind_of(&binary.ty);
    let left = atom_value(module, registers, &binary.ty, &binary.left);
    let right = atom_value(module, registers, &binary.ty, &binary.right);
    binary_at(binary, kind, &left, &right)
}

/// What a comparison leads to on values of a kind.
#[tactic(auto, using(ir_values::proofs::KindLaws::kind_has_width))]
fn icmp_at(
    blocks: &Blocks,
    icmp: &Icmp<Name>,
    kind: Option<Kind>,
    left: &Value,
    right: &Value,
) -> Outcome
    requires kind { kind ≡ types.kind_of icmp.now.ty }
    requires left { IsInKindOf kind left.now }
    requires right { IsInKindOf kind right.now }
    ensures { result ≡ meaning.icmp_at blocks.now icmp.now.pred kind left.now right.now }
{
    match kind {
        Some(own) => eval_icmp(
            icmp.pred,
            own,
            left,
            right,
            size_at(blocks, left),
            size_at(blocks, right),
        ),
        None => Outcome::Gives(Value::Poison),
    }
}

#[tactic(auto, using(crate::proofs::InKind::icmp_in_kind))]
fn icmp_outcome(
    module: &Module,
    registers: &RegisterFile,
    world: &KeptWorld,
    icmp: &Icmp<Name>,
) -> Outcome
    ensures value { result ≡ meaning.outcome (scope_of «module».now) (meaning.read (registers_in registers.now)) world.now.blocks (expr.Icmp icmp.now) }
    ensures in_kind { GivesInKind (Some (Int 1)) result }
{
    let kind = kind_of(&icmp.ty);
    let left = atom_value(module, registers, &icmp.ty, &icmp.left);
    let right = atom_value(module, registers, &icmp.ty, &icmp.right);
    icmp_at(&world.blocks, icmp, kind, &left, &right)
}

/// What a conversion leads to from a kind to a kind.
#[tactic(auto, using(ir_values::proofs::KindLaws::kind_has_width))]
fn cast_at(cast: &Cast<Name>, from: Option<Kind>, to: Option<Kind>, value: &Value) -> Outcome
    requires from { from ≡ types.kind_of cast.now.operand.ty }
    requires to { to ≡ types.kind_of cast.now.to }
    requires operand { IsInKindOf from value.now }
    ensures { result ≡ meaning.cast_at cast.now.op from to value.now }
{
    match (from, to) {
        (Some(few), Some(many)) => eval_cast(cast.op, few, many, value),
        _ => Outcome::Gives(Value::Poison),
    }
}

#[tactic(auto, using(crate::proofs::InKind::cast_in_kind))]
fn cast_outcome(
    module: &Module,
    registers: &RegisterFile,
    world: &KeptWorld,
    cast: &Cast<Name>,
) -> Outcome
    ensures value { result ≡ meaning.outcome (scope_of «module».now) (meaning.read (registers_in registers.now)) world.now.blocks (expr.Cast cast.now) }
    ensures in_kind { GivesInKind (types.kind_of cast.now.to) result }
{
    let value = operand_value(module, registers, &cast.operand);
    let outcome = cast_at(cast, kind_of(&cast.operand.ty), kind_of(&cast.to), &value);
    if converts(cast.op, &cast.operand.ty, &cast.to) {
        outcome
    } else {
        Outcome::Gives(Value::Poison)
    }
}

/// Whether the condition is an `i1`, and the arms are of one type.
fn selects(select: &Select<Name>) -> bool
    ensures { result ≡ meaning.selects select.now.condition.ty select.now.left.ty select.now.right.ty }
{
    same_ty(&select.condition.ty, &Ty::Int(1)) && same_ty(&select.left.ty, &select.right.ty)
}

#[tactic(auto, using(crate::proofs::InKind::select_in_kind))]
fn select_outcome(
    module: &Module,
    registers: &RegisterFile,
    world: &KeptWorld,
    select: &Select<Name>,
) -> Outcome
    ensures value { result ≡ meaning.outcome (scope_of «module».now) (meaning.read (registers_in registers.now)) world.now.blocks (expr.Select select.now) }
    ensures in_kind { GivesInKind (types.kind_of select.now.left.ty) result }
{
    let condition = operand_value(module, registers, &select.condition);
    let left = operand_value(module, registers, &select.left);
    let right = operand_value(module, registers, &select.right);
    if selects(select) {
        eval_select(&condition, &left, &right)
    } else {
        Outcome::Gives(Value::Poison)
    }
}

/// What a load leads to: without an alignment of its own it has its type's.
#[tactic(auto, using(crate::proofs::InKind::load_in_kind))]
fn load_outcome(
    module: &Module,
    registers: &RegisterFile,
    world: &KeptWorld,
    load: &Load<Name>,
) -> Outcome
    ensures value { result ≡ meaning.outcome (scope_of «module».now) (meaning.read (registers_in registers.now)) world.now.blocks (expr.Load load.now) }
    ensures in_kind { GivesInKind (types.kind_of load.now.of) result }
{
    if kind_of(&load.of).is_none() {
        return Outcome::Gives(Value::Poison);
    }
    let align = match load.align {
        Some(align) => u64::from(align),
        None => align_of(&module.types, &load.of),
    };
    let pointer = operand_value(module, registers, &load.pointer);
    world.blocks.load(&load.of, &pointer, align)
}

// ---- addresses of parts

/// Whether a line may state the address.
fn is_stated(types: &NamedTypes, element: &Element<Name>) -> bool
    ensures { result ≡ meaning.is_stated types.now element.now }
{
    points_to(&element.base.ty, &element.of)
        && is_due(
            pointed_by_operands(types, &element.of, element.indices.as_slice()),
            &element.to,
        )
}

/// The indices of an address, each worth what its operand is.
#[derive(Drop)]
struct OperandIndices<'a> {
    module: &'a Module,
    registers: &'a RegisterFile,
    operands: &'a [Operand<Name>],
}

impl<'a> Indices for OperandIndices<'a> {
    ghost listed = { λ it. map (meaning.index_value (scope_of it.«module».now) (meaning.read (registers_in it.registers.now))) it.operands.now };

    fn count(&self) -> usize {
        self.operands.len()
    }

    fn at(&self, place: usize) -> (u32, Value) {
        let operand = &self.operands[place];
        (
            width_of(&operand.ty),
            operand_value(self.module, self.registers, operand),
        )
    }
}

/// The address of a part: poison, where it is none that a line may state.
fn element_outcome(
    module: &Module,
    registers: &RegisterFile,
    world: &KeptWorld,
    element: &Element<Name>,
) -> Outcome
    ensures value { result ≡ meaning.outcome (scope_of «module».now) (meaning.read (registers_in registers.now)) world.now.blocks (expr.Element element.now) }
    ensures in_kind { GivesInKind (types.kind_of element.now.to) result }
{
    if !is_stated(&module.types, element) {
        return Outcome::Gives(Value::Poison);
    }
    let base = operand_value(module, registers, &element.base);
    let size = size_at(&world.blocks, &base);
    let indices = OperandIndices {
        module,
        registers,
        operands: element.indices.as_slice(),
    };
    Outcome::Gives(address_of(
        &module.types,
        element.inbounds,
        &element.of,
        &base,
        size,
        &indices,
    ))
}

/// What an expression of a line leads to.
#[tactic(auto, using(crate::proofs::InKind::poison_of))]
pub(crate) fn outcome(
    module: &Module,
    registers: &RegisterFile,
    world: &KeptWorld,
    right: &Expr<Name>,
) -> Outcome
    ensures value { result ≡ meaning.outcome (scope_of «module».now) (meaning.read (registers_in registers.now)) world.now.blocks right.now }
    ensures in_kind { GivesInKind (types.kind_of (type_of right.now)) result }
{
    match right {
        Expr::Plain(operand) => Outcome::Gives(operand_value(module, registers, operand)),
        Expr::Binary(binary) => binary_outcome(module, registers, world, binary),
        Expr::Icmp(icmp) => icmp_outcome(module, registers, world, icmp),
        Expr::Cast(cast) => cast_outcome(module, registers, world, cast),
        Expr::Select(select) => select_outcome(module, registers, world, select.get()),
        Expr::Element(element) => element_outcome(module, registers, world, element.get()),
        Expr::Load(load) => load_outcome(module, registers, world, load),
    }
}
