//! Whether types have a size.
ghost use Rattle.std.specs.Prelude.{◌≡◌};
ghost use Rattle.std.specs.List.{list_all};
ghost use Rattle.ir_types.specs.Named as named;
ghost use Rattle.ir_typing.specs.OperandTests.Kept.{are_named_sized};

use ir_core::{Module, NamedTy, Ty, fits_block};

/// Whether the type has a size. Of a name it is asked whether none of its type makes a block, which takes no room.
#[cycle(sized)]
#[tactic(auto, using(crate::proofs::OperandTests::HasSize::int_sized, crate::proofs::OperandTests::HasSize::ptr_sized, crate::proofs::OperandTests::HasSize::array_sized, crate::proofs::OperandTests::HasSize::struct_sized, crate::proofs::OperandTests::HasSize::void_sized))]
pub(crate) fn has_size(module: &Module, ty: &Ty) -> bool
    ensures { result ≡ named.is_sized «module».now.types ty.now }
{
    match ty {
        Ty::Int(_) | Ty::Ptr(_) => true,
        Ty::Array(_, element) => has_size(module, element.get()),
        Ty::Struct(fields) => have_sizes(module, fields.get().as_slice()),
        Ty::Named(_) => fits_block(module, ty, 0).is_ok(),
        Ty::Void => false,
    }
}

#[cycle(sized)]
fn have_sizes(module: &Module, types: &[Ty]) -> bool
    ensures { result ≡ list_all (named.is_sized «module».now.types) types.now }
{
    for ty in types {
        if !has_size(module, ty) {
            return false;
        }
    }
    true
}

/// Whether the fields of a named type have sizes, where it isn't opaque.
fn fields_sized(module: &Module, ty: &NamedTy) -> bool
    ensures { result ≡ list_all (named.is_sized «module».now.types) (named.fields_or_none ty.now.fields) }
{
    match &ty.fields {
        Some(fields) => have_sizes(module, fields.get().as_slice()),
        None => true,
    }
}

/// Whether the fields of each of these named types have sizes.
pub(crate) fn are_sized(module: &Module, types: &[NamedTy]) -> bool
    ensures { result ≡ are_named_sized «module».now.types types.now }
{
    for one in types {
        if !fields_sized(module, one) {
            return false;
        }
    }
    true
}
