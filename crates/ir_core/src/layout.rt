//! Sizes, alignments and offsets of a module's types. No call takes memory, nor a walk through the named types.
ghost use Rattle.std.specs.Prelude.{◌≡◌, ◌<◌, ◌≤◌, ◌^◌, true, length};
ghost use Rattle.ir_types.specs.Named as lies;

use crate::{Module, Ty};
use ir_types::SizeFault;

pub fn size_of(module: &Module, ty: &Ty) -> u64
    requires sized { lies.is_sized «module».now.types ty.now ≡ true }
    requires fits { lies.size_of «module».now.types ty.now ≤ 2 ^ 31 }
    ensures { result ≡ lies.size_of «module».now.types ty.now }
{
    ir_types::size_of(&module.types, ty)
}

pub fn align_of(module: &Module, ty: &Ty) -> u64
    requires { lies.is_sized «module».now.types ty.now ≡ true }
    ensures { result ≡ lies.align_of «module».now.types ty.now }
{
    ir_types::align_of(&module.types, ty)
}

/// Where the field of that number begins in a struct, or in a named one.
pub fn field_offset(module: &Module, ty: &Ty, field: u32) -> u64
    requires sized { lies.is_sized «module».now.types ty.now ≡ true }
    requires fits { lies.size_of «module».now.types ty.now ≤ 2 ^ 31 }
    requires there { field < length (lies.fields_in «module».now.types ty.now) }
    ensures { result ≡ lies.field_offset «module».now.types ty.now field }
{
    ir_types::field_offset(&module.types, ty, field)
}

/// The bytes of so many of the type, where they make a block.
pub fn fits_block(module: &Module, ty: &Ty, count: u64) -> Result<u64, SizeFault>
    ensures { result ≡ lies.block_of «module».now.types ty.now count }
{
    ir_types::fits_block(&module.types, ty, count)
}
