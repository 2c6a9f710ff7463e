//! What is wrong with a global variable.
ghost use Rattle.std.specs.Prelude.{◌≡◌};
ghost use Rattle.ir_core.specs.StatedTypes.{types_in_global};
ghost use Rattle.ir_typing.specs.OperandTests.Inits as meaning;
ghost use Rattle.ir_typing.specs.OperandTests.Known.{are_types_known};

use crate::operand_tests::Beside;
use crate::operand_tests::inits::held_kind;
use crate::operand_tests::known::{is_start_known, is_type_known};
use crate::shape_kinds::{ShapeKind, fault_unless, least};
use ir_core::GlobalVar;

/// Whether each named type that the global states is one of the module's.
fn is_global_known(beside: &Beside, global: &GlobalVar) -> bool
    ensures { result ≡ are_types_known beside.now (types_in_global global.now) }
{
    is_type_known(beside, &global.ty) && is_start_known(beside, &global.init)
}

/// What is wrong with a global variable whose name is new or not, if anything is.
pub fn global_var_kind(beside: &Beside, new: bool, global: &GlobalVar) -> Option<ShapeKind>
    ensures { result ≡ meaning.global_var_kind beside.now new global.now }
{
    let known = is_global_known(beside, global);
    let held = held_kind(beside, &global.ty, &global.init);
    let sized = fault_unless(beside.is_sized(&global.ty), ShapeKind::Unsized);
    let kept = least(held, sized);
    let named = fault_unless(new, ShapeKind::Name);
    least(named, least(fault_unless(known, ShapeKind::Name), kept))
}
