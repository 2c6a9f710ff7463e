//! What an address of the logic points to, beside the types that a module names.
ghost use Rattle.std.specs.Prelude.{◌≡◌, map};
ghost use Rattle.std.specs.Option.{option_copied, option_map};
ghost use Rattle.ir_types.specs.declared.ty.Ty.{Ptr};
ghost use Rattle.ir_core.specs.Typing as typing;
ghost use Rattle.ir_core.specs.Typing.{index_of};

use ir_core::{Atom, NamedTypes, Operand, Reg, Ty, is_integer};
use ir_typing::{entered, number_of};

/// The number that an operand is.
pub fn number_in(atom: &Atom<Reg>) -> Option<u64>
    ensures { result ≡ typing.number_in atom.now }
{
    match atom {
        Atom::Constant(constant) => number_of(constant),
        Atom::Register(_) => None,
    }
}

/// What indices lead to from a type on.
fn led_to<'a>(types: &'a NamedTypes, of: &'a Ty, indices: &[Operand<Reg>]) -> Option<&'a Ty>
    ensures { option_copied result ≡ typing.led_to types.now of.now (map index_of indices.now) }
{
    let mut ty = of;
    for index in indices {
        match entered(types, ty, &index.ty, number_in(&index.atom)) {
            Some(further) => ty = further,
            None => return None,
        }
    }
    Some(ty)
}

/// What an address points to.
pub fn pointed_by_indices<'a>(
    types: &'a NamedTypes,
    of: &'a Ty,
    indices: &[Operand<Reg>],
) -> Option<&'a Ty>
    ensures { option_map Ptr (option_copied result) ≡ typing.element_type types.now of.now (map index_of indices.now) }
{
    match indices.split_first() {
        None => Some(of),
        Some((first, further)) => {
            if is_integer(&first.ty) {
                led_to(types, of, further)
            } else {
                None
            }
        }
    }
}
