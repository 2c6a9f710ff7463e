//! What is wrong with one line, one terminator or one name.
ghost use Rattle.std.specs.Prelude.{◌≡◌, codes, nat_eq};
ghost use Rattle.std.specs.List.{starts_with};
ghost use Rattle.ir_core.specs.Functions.{is_debug};
ghost use Rattle.ir_shape.specs.ShapeTests.Kinds as meaning;

use ir_core::{Cast, Expr, Load, Name, Select, Ty, converts, is_first_class, is_integer, same_ty};
use ir_typing::{ShapeKind, fault_unless, points_to};

fn load_fits(load: &Load<Name>) -> bool
    ensures { result ≡ meaning.load_fits load.now }
{
    points_to(&load.pointer.ty, &load.of) && is_first_class(&load.of)
}

fn cast_fits(cast: &Cast<Name>) -> bool
    ensures { result ≡ meaning.cast_fits cast.now }
{
    converts(cast.op, &cast.operand.ty, &cast.to)
}

fn select_fits(select: &Select<Name>) -> bool
    ensures { result ≡ meaning.select_fits select.now }
{
    same_ty(&select.condition.ty, &Ty::Int(1)) && same_ty(&select.left.ty, &select.right.ty)
}

/// What is wrong with a line's right side, if anything is, but for its operands. An address is asked beside its module.
pub fn right_kind(right: &Expr<Name>) -> Option<ShapeKind>
    ensures { result ≡ meaning.right_kind right.now }
{
    match right {
        Expr::Plain(_) => Some(ShapeKind::OperandType),
        Expr::Binary(binary) => fault_unless(is_integer(&binary.ty), ShapeKind::OperandType),
        Expr::Icmp(icmp) => fault_unless(is_first_class(&icmp.ty), ShapeKind::OperandType),
        Expr::Cast(cast) => fault_unless(cast_fits(cast), ShapeKind::CastWidth),
        Expr::Select(select) => fault_unless(select_fits(select.get()), ShapeKind::OperandType),
        Expr::Element(_) => None,
        Expr::Load(load) => fault_unless(load_fits(load), ShapeKind::OperandType),
    }
}

/// What is wrong with a block's name, where an earlier block may have it, and it may be taken.
pub fn block_kind(doubled: bool, taken: bool) -> Option<ShapeKind>
    ensures { result ≡ meaning.block_kind doubled taken }
{
    if doubled {
        return Some(ShapeKind::Label);
    }
    fault_unless(!taken, ShapeKind::Name)
}

fn begins_debug(bytes: &[u8]) -> bool
    ensures { result ≡ starts_with nat_eq bytes.now (codes "llvm.dbg.") }
{
    bytes.starts_with(b"llvm.dbg.")
}

fn is_debug(name: &Name) -> bool
    ensures { result ≡ is_debug name.now }
{
    match name {
        Name::Text(bytes) => begins_debug(bytes.as_slice()),
        Name::Number(_) => false,
    }
}

/// What is wrong with a function's name, which may be taken.
pub fn name_kind(taken: bool, name: &Name) -> Option<ShapeKind>
    ensures { result ≡ meaning.name_kind taken name.now }
{
    let fits = !taken && !is_debug(name);
    fault_unless(fits, ShapeKind::Name)
}

/// Whether it is a type of values, or `void`.
pub fn is_result(ty: &Ty) -> bool
    ensures { result ≡ meaning.is_result ty.now }
{
    match ty {
        Ty::Void => true,
        _ => is_first_class(ty),
    }
}
