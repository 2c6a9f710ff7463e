//! Values, operands, operations and addresses, and expressions of the logic, which stand outside of modules.
ghost use Rattle.std.specs.Option.{option_copied, option_map};
ghost use Rattle.std.specs.Prelude.{◌≡◌, IfOk, OnOk, map, unwrap_or, Some, []};
ghost use Rattle.derivation_cursor.specs.At.{Passes, PassesAll, ahead_of, Closes};
ghost use Rattle.module_derivations.specs.FlatMarks.Flat.{skip};
ghost use Rattle.ir_core.specs.Typing as typing;
ghost use Rattle.ir_core.specs.Typing.{index_of};
ghost use Rattle.ir_core.specs.declared.expressions.Expr.TheVariants as expr;
ghost use Rattle.ir_types.specs.Named as lies;
ghost use Rattle.ir_types.specs.declared.ty.Ty.{Ptr, Int};
ghost use Rattle.module_derivations.specs.Constants.{operand};
ghost use Rattle.module_derivations.specs.Empty as empty;
ghost use Rattle.module_derivations.specs.Empty.{made};
ghost use Rattle.module_derivations.specs.Lines as see;
ghost use Rattle.module_derivations.specs.Lines.{expr_by};
ghost use Rattle.module_derivations.specs.Types.{any_type};
ghost use Rattle.module_derivations.specs.declared.rule.TheConstants as rules;
ghost use Rattle.module_walk.specs.Expressions.{aligned, expression_by};
ghost use Rattle.module_walk.specs.LogicExpressions as logic;
ghost use Rattle.module_walk.specs.Operations.{pointed, element_at, cast_by, exact_flag, flags_among, flags_from, no_flags, operation_by, operator_built, with_flag};
ghost use Rattle.module_walk.specs.Values.{Naming, names, operand_by, registers, value_by};
ghost use Rattle.named_modules.specs.Lines as written;

use crate::constants::{read_align, read_const, read_said_name, read_type};
use contents::{Boxed, Exact, Seq};
use derivation_cursor::{
    Cursor, read_exact, read_flag, read_inbounds, read_overflow, read_plain, read_pred,
    read_resize, skip_part,
};
use ir_core::{
    Atom, BinOp, Binary, Cast, CastOp, Const, Element, Expr, Expr0, Flags, Icmp, Load, Name,
    NamedTypes, Operand, Reg, Select, Shared, Ty, is_integer,
};
use ir_typing::{entered, number_of};
use module_derivations::rule;
use module_grammar::{FlagWord, Tag};
use std::alloc::{AllocError, Global};

/// What a register is built as.
pub(crate) trait Registers: Drop {
    ghost naming: { Naming Self };

    /// `LOCAL`
    fn bare(name: Name) -> Self
        ensures { result ≡ naming.bare name };

    /// `old LOCAL` or `ghost LOCAL`
    fn tagged(tag: Tag, name: Name) -> Self
        ensures { result ≡ naming.tagged tag name };
}

/// A line names its registers without a tag.
impl Registers for Name {
    ghost naming = { names };

    fn bare(name: Name) -> Name {
        name
    }

    fn tagged(_tag: Tag, name: Name) -> Name {
        name
    }
}

impl Registers for Reg {
    ghost naming = { registers };

    fn bare(name: Name) -> Reg {
        Reg::Now(name)
    }

    fn tagged(tag: Tag, name: Name) -> Reg {
        match tag {
            Tag::Old => Reg::Old(name),
            Tag::Ghost => Reg::Ghost(name),
        }
    }
}

/// A constant, `LOCAL`, `old LOCAL` or `ghost LOCAL`, at its type.
pub(crate) fn read_value<R: Registers>(
    alloc: Global,
    c: &mut Cursor,
    ty: &Ty,
) -> Result<Atom<R>, AllocError>
    ensures built { IfOk result (λ it. it ≡ value_by R.naming ty.now (made (ahead_of c.old)).value) }
    ensures passes { OnOk result (Passes c.old c.new) }
{
    match c.rule() {
        Some(rule::CONST_VALUE) => Ok(Atom::Constant(read_const(alloc, c, ty)?)),
        Some(rule::LOCAL) => Ok(Atom::Register(R::bare(read_said_name(alloc, c)?))),
        Some(rule::OLD_REGISTER) => {
            Ok(Atom::Register(R::tagged(Tag::Old, read_said_name(alloc, c)?)))
        }
        Some(rule::GHOST_REGISTER) => {
            Ok(Atom::Register(R::tagged(Tag::Ghost, read_said_name(alloc, c)?)))
        }
        other => {
            c.pass(other);
            Ok(Atom::Constant(Const::Undef))
        }
    }
}

/// `T V`
pub(crate) fn read_operand<R: Registers>(
    alloc: Global,
    c: &mut Cursor,
) -> Result<Operand<R>, AllocError>
    ensures built { IfOk result (λ it. it ≡ operand_by R.naming (operand (ahead_of c.old))) }
    ensures passes { OnOk result (PassesAll 3 c.old c.new) }
{
    let ty = read_type(alloc, c)?;
    let atom = read_value(alloc, c, &ty)?;
    Ok(Operand { ty, atom })
}

/// The number that an operand is.
fn number_in<R>(atom: &Atom<R>) -> Option<u64>
    ensures { result ≡ typing.number_in atom.now }
{
    match atom {
        Atom::Constant(constant) => number_of(constant),
        Atom::Register(_) => None,
    }
}

/// What operands lead to from a type on.
fn led_to<'a, R>(types: &'a NamedTypes, of: &'a Ty, indices: &[Operand<R>]) -> Option<&'a Ty>
    ensures { option_copied result ≡ typing.led_to types.now of.now (map index_of indices.now) }
{
    let mut ty = of;
    for index in indices {
        match entered(types, ty, &index.ty, number_in(&index.atom)) {
            Some(further) => ty = further,
            None => return None,
        }
    }
    Some(ty)
}

/// What indices lead to.
fn pointed_to<'a, R>(types: &'a NamedTypes, of: &'a Ty, indices: &[Operand<R>]) -> Option<&'a Ty>
    ensures { option_map Ptr (option_copied result) ≡ typing.element_type types.now of.now (map index_of indices.now) }
{
    match indices.split_first() {
        None => Some(of),
        Some((first, further)) => {
            if is_integer(&first.ty) {
                led_to(types, of, further)
            } else {
                None
            }
        }
    }
}

/// A pointer to what indices lead to, or to the first type where they lead nowhere.
fn pointer_to<R>(
    alloc: Global,
    types: &NamedTypes,
    of: &Ty,
    indices: &[Operand<R>],
) -> Result<Ty, AllocError>
    ensures { IfOk result (λ ty. ty ≡ unwrap_or (typing.element_type types.now of.now (map index_of indices.now)) (Ptr of.now)) }
{
    let target = match pointed_to(types, of, indices) {
        Some(target) => target.copy(alloc)?,
        None => of.copy(alloc)?,
    };
    Ok(Ty::Ptr(Shared::new(alloc, target)?))
}

/// The type of an address, or a pointer to the first type where the indices lead nowhere.
#[tactic(auto, using(crate::proofs::Led::address_behind))]
fn pointed<R>(
    alloc: Global,
    types: &NamedTypes,
    base: &Ty,
    of: &Ty,
    indices: &[Operand<R>],
) -> Result<Ty, AllocError>
    ensures { IfOk result (λ ty. ty ≡ pointed types.now base.now of.now indices.now) }
{
    match indices.split_first() {
        None => base.copy(alloc),
        Some(_) => pointer_to(alloc, types, of, indices),
    }
}

/// The address of these parts.
pub(crate) fn element_of<R: Drop>(
    alloc: Global,
    types: &NamedTypes,
    inbounds: bool,
    of: Ty,
    base: Operand<R>,
    indices: Seq<Operand<R>>,
) -> Result<Expr<R>, AllocError>
    ensures { IfOk result (λ it. it ≡ expr.Element (element_at types.now inbounds of base indices)) }
{
    let to = pointed(alloc, types, &base.ty, &of, indices.as_slice())?;
    let element = Element {
        inbounds,
        of,
        base,
        indices,
        to,
    };
    Ok(Expr::Element(Boxed::new(alloc, element)?))
}

/// No flag.
fn no_flags() -> Flags
    ensures { result ≡ no_flags }
{
    Flags {
        nuw: false,
        nsw: false,
        exact: false,
    }
}

/// What is built where no operand is read.
fn no_operand<R: Registers>() -> Operand<R>
    ensures { result ≡ operand_by R.naming empty.no_operand }
{
    Operand {
        ty: Ty::Int(1),
        atom: Atom::Constant(Const::Undef),
    }
}

/// What is built where no operation is read.
pub(crate) fn no_operation<R: Registers>() -> Expr<R>
    ensures { result ≡ operation_by R.naming empty.no_operation }
{
    Expr::Binary(Binary {
        op: BinOp::And,
        flags: no_flags(),
        ty: Ty::Int(1),
        left: Atom::Constant(Const::Undef),
        right: Atom::Constant(Const::Undef),
    })
}

fn is_nuw(word: FlagWord) -> bool
    ensures { result ≡ written.is_nuw word }
{
    match word {
        FlagWord::Nuw => true,
        FlagWord::Nsw => false,
    }
}

fn is_nsw(word: FlagWord) -> bool
    ensures { result ≡ written.is_nsw word }
{
    match word {
        FlagWord::Nuw => false,
        FlagWord::Nsw => true,
    }
}

fn with_flag(flags: Flags, word: FlagWord) -> Flags
    ensures { result ≡ with_flag flags word }
{
    Flags {
        nuw: flags.nuw || is_nuw(word),
        nsw: flags.nsw || is_nsw(word),
        exact: flags.exact,
    }
}

/// Any number of `nuw` and `nsw`, behind these flags.
#[tactic(auto, using(crate::proofs::OtherOperations::no_words))]
fn read_more_flags(c: &mut Cursor, flags: Flags) -> Flags
    ensures built { result ≡ flags_from flags (made (ahead_of c.old)).flags }
    ensures passes { Passes c.old c.new }
{
    let mut flags = flags;
    loop {
        match c.rule() {
            Some(rule::FLAGS) => flags = with_flag(flags, read_flag(c)),
            other => {
                c.pass(other);
                return flags;
            }
        }
    }
}

/// Any number of `nuw` and `nsw`.
#[tactic(auto, using(crate::proofs::OtherOperations::flags_are))]
fn read_flags(c: &mut Cursor) -> Flags
    ensures built { result ≡ flags_among (made (ahead_of c.old)).flags }
    ensures passes { Passes c.old c.new }
{
    read_more_flags(c, no_flags())
}

/// `exact`, or nothing
fn read_exactness(c: &mut Cursor) -> Flags
    ensures built { result ≡ exact_flag (made (ahead_of c.old)).exactness }
    ensures passes { Passes c.old c.new }
{
    match c.rule() {
        Some(rule::EXACTLY) => Flags {
            nuw: false,
            nsw: false,
            exact: true,
        },
        other => {
            c.pass(other);
            no_flags()
        }
    }
}

/// `OVERFLOW flags`, `EXACT exactness` or `PLAIN`
#[tactic(auto, using(crate::proofs::OtherOperations::another_operator))]
fn read_operator(c: &mut Cursor) -> (BinOp, Flags)
    ensures built { result ≡ operator_built (made (ahead_of c.old)).operator }
    ensures passes { Passes c.old c.new }
{
    match c.rule() {
        Some(rule::OVERFLOW) => {
            let op = read_overflow(c).op();
            (op, read_flags(c))
        }
        Some(rule::EXACT) => {
            let op = read_exact(c).op();
            (op, read_exactness(c))
        }
        Some(rule::PLAIN) => (read_plain(c).op(), no_flags()),
        other => {
            c.pass(other);
            (BinOp::And, no_flags())
        }
    }
}

/// `operator operand , value`
fn read_binary<R: Registers>(alloc: Global, c: &mut Cursor) -> Result<Expr<R>, AllocError>
    ensures built { IfOk result (λ it. it ≡ operation_by R.naming (see.operation_by (Some rules.BINARY) (ahead_of c.old))) }
    ensures closes { OnOk result (Closes (Some rules.BINARY) c.old c.new) }
{
    let (op, flags) = read_operator(c);
    let ty = read_type(alloc, c)?;
    let left = read_value(alloc, c, &ty)?;
    let right = read_value(alloc, c, &ty)?;
    Ok(Expr::Binary(Binary {
        op,
        flags,
        ty,
        left,
        right,
    }))
}

/// `icmp PRED operand , value`
fn read_compare<R: Registers>(alloc: Global, c: &mut Cursor) -> Result<Expr<R>, AllocError>
    ensures built { IfOk result (λ it. it ≡ operation_by R.naming (see.operation_by (Some rules.COMPARE) (ahead_of c.old))) }
    ensures closes { OnOk result (Closes (Some rules.COMPARE) c.old c.new) }
{
    let pred = read_pred(c);
    let ty = read_type(alloc, c)?;
    let left = read_value(alloc, c, &ty)?;
    let right = read_value(alloc, c, &ty)?;
    Ok(Expr::Icmp(Icmp {
        pred,
        ty,
        left,
        right,
    }))
}

/// `operand to any_type`
fn read_cast<R: Registers>(alloc: Global, c: &mut Cursor, op: CastOp) -> Result<Expr<R>, AllocError>
    ensures built { IfOk result (λ it. it ≡ cast_by R.naming op (operand (ahead_of c.old)) (any_type (skip 3 (ahead_of c.old)))) }
    ensures passes { OnOk result (PassesAll 5 c.old c.new) }
{
    let operand = read_operand(alloc, c)?;
    let to = read_type(alloc, c)?;
    Ok(Expr::Cast(Cast { op, operand, to }))
}

/// `select operand , operand , operand`
fn read_select<R: Registers>(alloc: Global, c: &mut Cursor) -> Result<Expr<R>, AllocError>
    ensures built { IfOk result (λ it. it ≡ operation_by R.naming (see.operation_by (Some rules.SELECT) (ahead_of c.old))) }
    ensures closes { OnOk result (Closes (Some rules.SELECT) c.old c.new) }
{
    let condition = read_operand(alloc, c)?;
    let left = read_operand(alloc, c)?;
    let right = read_operand(alloc, c)?;
    let select = Select {
        condition,
        left,
        right,
    };
    Ok(Expr::Select(Boxed::new(alloc, select)?))
}

/// A binary operation, a comparison, a conversion or a selection.
#[tactic(auto, using(crate::proofs::OtherOperations::another_operation))]
pub(crate) fn read_operation<R: Registers>(
    alloc: Global,
    c: &mut Cursor,
) -> Result<Expr<R>, AllocError>
    ensures built { IfOk result (λ it. it ≡ operation_by R.naming (made (ahead_of c.old)).operation) }
    ensures passes { OnOk result (Passes c.old c.new) }
{
    match c.rule() {
        Some(rule::BINARY) => read_binary(alloc, c),
        Some(rule::COMPARE) => read_compare(alloc, c),
        Some(rule::RESIZE) => {
            let op = read_resize(c).op();
            read_cast(alloc, c, op)
        }
        Some(rule::BITCAST) => {
            skip_part(c);
            read_cast(alloc, c, CastOp::BitCast)
        }
        Some(rule::SELECT) => read_select(alloc, c),
        other => {
            c.pass(other);
            Ok(no_operation())
        }
    }
}

/// `, operand` any number of times
#[tactic(auto, using(crate::proofs::Differ::differ, crate::proofs::Ended::nothing_behind, crate::proofs::OtherExpressions::no_indices))]
fn read_indices(alloc: Global, c: &mut Cursor) -> Result<Seq<Operand<Reg>>, AllocError>
    ensures built { IfOk result (λ it. it ≡ map (operand_by registers) (made (ahead_of c.old)).indices) }
    ensures passes { OnOk result (Passes c.old c.new) }
{
    let mut indices = Seq::new(alloc);
    loop {
        match c.rule() {
            Some(rule::INDICES) => indices.push(read_operand(alloc, c)?)?,
            other => {
                c.pass(other);
                return Ok(indices);
            }
        }
    }
}

/// `getelementptr inbounds any_type , operand indices`, where no name has fields
fn read_element(alloc: Global, c: &mut Cursor) -> Result<Expr0, AllocError>
    ensures built { IfOk result (λ it. it ≡ expression_by (expr_by (Some rules.EXPRESSION_ELEMENT) (ahead_of c.old))) }
    ensures closes { OnOk result (Closes (Some rules.EXPRESSION_ELEMENT) c.old c.new) }
{
    skip_part(c);
    let inbounds = read_inbounds(c);
    let of = read_type(alloc, c)?;
    let base = read_operand(alloc, c)?;
    let indices = read_indices(alloc, c)?;
    let types = NamedTypes::none(alloc);
    element_of(alloc, &types, inbounds, of, base, indices)
}

/// The alignment of an integer. Takes no memory.
fn int_align(alloc: Global, width: u32) -> u32
    ensures { result ≡ lies.align_of [] (Int width) }
{
    ir_types::align_of(&NamedTypes::none(alloc), &Ty::Int(width)) as u32
}

/// The alignment of a type that can be loaded, or 1. Takes no memory.
fn own_align(alloc: Global, ty: &Ty) -> u32
    ensures { result ≡ logic.own_align ty.now }
{
    match ty {
        Ty::Int(width) => int_align(alloc, *width),
        Ty::Ptr(_) => 8,
        Ty::Array(_, _) | Ty::Struct(_) | Ty::Named(_) | Ty::Void => 1,
    }
}

/// The alignment that is written, or else that of the type.
fn align_or_own(alloc: Global, ty: &Ty, written: Option<u32>) -> u32
    ensures { result ≡ aligned ty.now written }
{
    match written {
        Some(align) => align,
        None => own_align(alloc, ty),
    }
}

/// `load any_type , operand align`
fn read_load(alloc: Global, c: &mut Cursor) -> Result<Expr0, AllocError>
    ensures built { IfOk result (λ it. it ≡ expression_by (expr_by (Some rules.EXPRESSION_LOAD) (ahead_of c.old))) }
    ensures closes { OnOk result (Closes (Some rules.EXPRESSION_LOAD) c.old c.new) }
{
    let of = read_type(alloc, c)?;
    let pointer = read_operand(alloc, c)?;
    let align = read_align(alloc, c)?;
    let align = Some(align_or_own(alloc, &of, align));
    Ok(Expr::Load(Load { of, pointer, align }))
}

/// An operand, an operation, an address of an element or a load.
#[tactic(auto, using(crate::proofs::OtherExpressions::another_expr))]
fn read_expression_by(alloc: Global, c: &mut Cursor) -> Result<Expr0, AllocError>
    ensures built { IfOk result (λ it. it ≡ expression_by (made (ahead_of c.old)).expr) }
    ensures passes { OnOk result (Passes c.old c.new) }
{
    match c.rule() {
        Some(rule::EXPRESSION_OPERAND) => Ok(Expr::Plain(read_operand(alloc, c)?)),
        Some(rule::EXPRESSION_OPERATION) => read_operation(alloc, c),
        Some(rule::EXPRESSION_ELEMENT) => read_element(alloc, c),
        Some(rule::EXPRESSION_LOAD) => read_load(alloc, c),
        other => {
            c.pass(other);
            Ok(Expr::Plain(no_operand()))
        }
    }
}

/// The expression that is written.
#[tactic(auto, using(crate::proofs::BuiltExpressions::expression_of_registers))]
pub fn read_expression(alloc: Global, c: &mut Cursor) -> Result<Expr0, AllocError>
    ensures built { IfOk result (λ it. it ≡ logic.expression_of (made (ahead_of c.old)).expr) }
    ensures passes { OnOk result (Passes c.old c.new) }
{
    read_expression_by(alloc, c)
}
