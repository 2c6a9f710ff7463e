//! Which types have values, which numbers fit them, and between which there are conversions.
ghost use Rattle.std.specs.Prelude.{◌≡◌};
ghost use Rattle.ir_core.specs.Types as meaning;

use crate::{CastOp, Kind, Ty};

/// Whether an integer may have that many bits.
pub fn is_width(width: u32) -> bool
    ensures { result ≡ meaning.is_width width }
{
    1 <= width && width <= 64
}

/// Whether the number is one of that many bits.
#[tactic(auto, using(crate::proofs::Widths::fits_wide, crate::proofs::Widths::one_shifted))]
pub fn fits(number: u64, width: u32) -> bool
    ensures { result ≡ meaning.fits number width }
{
    width >= 64 || number < 1 << width
}

/// The kind of the type's values, if it has any.
pub fn kind_of(ty: &Ty) -> Option<Kind>
    ensures { result ≡ meaning.kind_of ty.now }
{
    match ty {
        Ty::Int(width) => {
            if is_width(*width) {
                Some(Kind::Int(*width))
            } else {
                None
            }
        }
        Ty::Ptr(_) => Some(Kind::Ptr),
        _ => None,
    }
}

pub fn is_integer(ty: &Ty) -> bool
    ensures { result ≡ meaning.is_integer ty.now }
{
    match ty {
        Ty::Int(_) => true,
        _ => false,
    }
}

pub fn is_pointer(ty: &Ty) -> bool
    ensures { result ≡ meaning.is_pointer ty.now }
{
    match ty {
        Ty::Ptr(_) => true,
        _ => false,
    }
}

/// Whether it is a type of values: an integer or a pointer.
pub fn is_first_class(ty: &Ty) -> bool
    ensures { result ≡ meaning.is_first_class ty.now }
{
    is_integer(ty) || is_pointer(ty)
}

fn is_narrower(from: &Ty, to: &Ty) -> bool
    ensures { result ≡ meaning.is_narrower from.now to.now }
{
    match (from, to) {
        (Ty::Int(few), Ty::Int(many)) => *few < *many,
        _ => false,
    }
}

/// Whether it is the same integer type, or both are pointers.
fn is_recast(from: &Ty, to: &Ty) -> bool
    ensures { result ≡ meaning.is_recast from.now to.now }
{
    match (from, to) {
        (Ty::Int(width), Ty::Int(same)) => *width == *same,
        _ => is_pointer(from) && is_pointer(to),
    }
}

/// Whether the conversion leads from the one type to the other.
pub fn converts(op: CastOp, from: &Ty, to: &Ty) -> bool
    ensures { result ≡ meaning.converts op from.now to.now }
{
    match op {
        CastOp::ZExt => is_narrower(from, to),
        CastOp::SExt => is_narrower(from, to),
        CastOp::Trunc => is_narrower(to, from),
        CastOp::BitCast => is_recast(from, to),
    }
}
