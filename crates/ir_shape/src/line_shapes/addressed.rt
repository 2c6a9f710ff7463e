//! Lines that get the address of a field of a named type, with which it is mostly seen at once that nothing is wrong.
ghost use Rattle.std.specs.Prelude.{◌≡◌, IfSome};
ghost use Rattle.ir_types.specs.declared.names.Name.{Name};
ghost use Rattle.ir_core.specs.declared.functions.Instr.TheVariants as instr;
ghost use Rattle.ir_core.specs.declared.expressions.Expr.TheVariants as expr;
ghost use Rattle.ir_typing.specs.ShapeKinds.Kept.{type_in};
ghost use Rattle.ir_typing.specs.OperandTests.Addresses.{FitsAtOnce};
ghost use Rattle.ir_shape.specs.LineShapes.Told as meaning;
ghost use Rattle.ir_shape.specs.LineShapes.Addressed.{addressing};

use crate::line_shapes::operands::address_operands_kind;
use crate::line_shapes::stated::are_parts_known;
use ir_core::{Element, Expr, Instr, Name};
use ir_typing::{Beside, LentTypes, ShapeKind, fault_unless, least};

/// The address that a line gets, if it gets one.
#[inline(always)]
pub(crate) fn address_in(line: &Instr) -> Option<&Element<Name>>
    ensures { IfSome result (λ element. (name : Name) × (line.now ≡ addressing name element.now)) }
{
    match line {
        Instr::Calm(calm) => match &calm.right {
            Expr::Element(element) => Some(element.get()),
            _ => None,
        },
        _ => None,
    }
}

/// What is wrong with a line whose register's name is new or not, and which gets this address, with which nothing is but for its operands.
pub(crate) fn fitting_kind(
    beside: &Beside,
    types: &LentTypes,
    new: bool,
    element: &Element<Name>,
) -> Option<ShapeKind>
    requires { FitsAtOnce beside.now element.now }
    ensures { (name : Name) → result ≡ meaning.line_kind beside.now (type_in types.now) new (addressing name element.now) }
{
    let known = are_parts_known(beside, element);
    least(
        fault_unless(new && known, ShapeKind::Name),
        address_operands_kind(beside, types, element),
    )
}
