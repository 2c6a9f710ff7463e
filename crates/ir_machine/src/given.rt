//! What the outside gives: values, and bytes of values.
ghost use Rattle.std.specs.Prelude.{◌≡◌, map, IfOk};
ghost use Rattle.ir_machine.specs.Machine as machine;
ghost use Rattle.ir_machine.specs.State.{no_world};

use block_memory::{Names, Shown, ShownByte};
use ir_core::{Byte, Value};
use std::alloc::{AllocError, Global};

/// The value that it is, where names are bound so.
pub(crate) fn resolve(names: &Names, shown: Shown) -> Value
    ensures { result ≡ machine.resolve (record no_world { names = names.now }) shown }
{
    match shown {
        Shown::Num(n) => Value::Num(n),
        Shown::Name(name, offset) => names.resolve(name, offset),
        Shown::Bare(address) => Value::Bare(address),
    }
}

fn part_given(value: Value, place: u8) -> Byte
    ensures { result ≡ machine.part_given value place }
{
    match value {
        Value::Ptr(block, offset) => Byte::Frag(block, offset, place),
        Value::Num(_) | Value::Bare(_) | Value::Undef | Value::Poison => Byte::Undef,
    }
}

/// The byte that is given, where names are bound so.
pub(crate) fn byte_given(names: &Names, byte: ShownByte) -> Byte
    ensures { result ≡ machine.given_byte (record no_world { names = names.now }) byte }
{
    match byte {
        ShownByte::Num(number) => Byte::Num(number),
        ShownByte::Frag(name, offset, place) => part_given(names.resolve(name, offset), place),
    }
}

pub(crate) fn bytes_given(
    alloc: Global,
    names: &Names,
    bytes: &[ShownByte],
) -> Result<Vec<Byte>, AllocError>
    ensures { IfOk result (λ given. given.items ≡ map (machine.given_byte (record no_world { names = names.now })) bytes.now) }
{
    let mut given = Vec::new(alloc);
    for byte in bytes {
        given.push(byte_given(names, *byte))?;
    }
    Ok(given)
}
