//! Which of several kinds is told.
ghost use Rattle.std.specs.Prelude.{◌≡◌};
ghost use Rattle.ir_types.specs.Same as same;
ghost use Rattle.ir_typing.specs.ShapeKinds.Kinds as meaning;

use crate::shape_kinds::kind::ShapeKind;
use ir_core::{Ty, same_ty};

#[inline(always)]
pub fn fault_unless(fits: bool, kind: ShapeKind) -> Option<ShapeKind>
    ensures { result ≡ meaning.fault_unless fits kind }
{
    if fits { None } else { Some(kind) }
}

/// Of two kinds at one place the one that is told.
#[inline(always)]
pub fn least(one: Option<ShapeKind>, other: Option<ShapeKind>) -> Option<ShapeKind>
    ensures { result ≡ meaning.least one other }
{
    match (one, other) {
        (None, _) => other,
        (Some(_), None) => one,
        (Some(kind), Some(further)) => {
            if further.order() < kind.order() {
                other
            } else {
                one
            }
        }
    }
}

/// Whether the types are the same. Most are integers.
#[inline(always)]
pub fn is_same_ty(one: &Ty, other: &Ty) -> bool
    ensures { result ≡ same.same_ty one.now other.now }
{
    match (one, other) {
        (Ty::Int(width), Ty::Int(due)) => *width == *due,
        _ => same_ty(one, other),
    }
}

/// Whether it is a pointer to this type.
pub fn points_to(pointer: &Ty, ty: &Ty) -> bool
    ensures { result ≡ meaning.points_to pointer.now ty.now }
{
    match pointer {
        Ty::Ptr(target) => is_same_ty(target.get(), ty),
        _ => false,
    }
}
