//! Sizes, alignments and offsets of types. No call takes memory, nor a walk through the named types.
ghost use Rattle.std.specs.Prelude.{◌≡◌, ◌<◌, ◌≤◌, ◌^◌, true, length};
ghost use Rattle.ir_types.specs.Named as lies;

use crate::{NamedTypes, Ty};

/// Why so many of a type make no block.
#[derive(Drop, Clone, Copy, PartialEq, Eq)]
pub enum SizeFault {
    Unsized,
    TooLarge,
}

pub fn size_of(types: &NamedTypes, ty: &Ty) -> u64
    requires sized { lies.is_sized types.now ty.now ≡ true }
    requires fits { lies.size_of types.now ty.now ≤ 2 ^ 31 }
    ensures { result ≡ lies.size_of types.now ty.now }
{
    match types.layout(ty) {
        Some(layout) => u64::from(layout.size),
        None => 0,
    }
}

pub fn align_of(types: &NamedTypes, ty: &Ty) -> u64
    requires { lies.is_sized types.now ty.now ≡ true }
    ensures { result ≡ lies.align_of types.now ty.now }
{
    match types.layout(ty) {
        Some(layout) => u64::from(layout.align),
        None => 1,
    }
}

/// The bytes of so many of the type, where they make a block.
pub fn fits_block(types: &NamedTypes, ty: &Ty, count: u64) -> Result<u64, SizeFault>
    ensures { result ≡ lies.block_of types.now ty.now count }
{
    match types.layout(ty) {
        Some(layout) => {
            let size = u64::from(layout.size).saturating_mul(count);
            if size <= 2_147_483_648 {
                Ok(size)
            } else {
                Err(SizeFault::TooLarge)
            }
        }
        None => Err(SizeFault::Unsized),
    }
}

/// The fields of a struct, or of a named one.
fn fields_in<'a>(types: &'a NamedTypes, ty: &'a Ty) -> &'a [Ty]
    ensures { result.now ≡ lies.fields_in types.now ty.now }
{
    match ty {
        Ty::Struct(fields) => fields.get().as_slice(),
        Ty::Named(name) => match types.fields(name.get()) {
            Some(fields) => fields.as_slice(),
            None => &[],
        },
        _ => &[],
    }
}

/// Where the field of that number begins in a struct, or in a named one.
pub fn field_offset(types: &NamedTypes, ty: &Ty, field: u32) -> u64
    requires sized { lies.is_sized types.now ty.now ≡ true }
    requires fits { lies.size_of types.now ty.now ≤ 2 ^ 31 }
    requires there { field < length (lies.fields_in types.now ty.now) }
    ensures { result ≡ lies.field_offset types.now ty.now field }
{
    u64::from(types.offset(fields_in(types, ty), field))
}

/// Whether the type has a size.
pub fn is_sized(types: &NamedTypes, ty: &Ty) -> bool
    ensures { result ≡ lies.is_sized types.now ty.now }
{
    match fits_block(types, ty, 1) {
        Ok(_) => true,
        Err(SizeFault::TooLarge) => true,
        Err(SizeFault::Unsized) => false,
    }
}
