//! The bytes of values, and the values of bytes.
ghost use Rattle.std.specs.Prelude.{◌≡◌, ◌≤◌, ◌<◌, ◌+◌, ◌^◌, length};
ghost use Rattle.std.specs.List.{list_any};
ghost use Rattle.block_memory.specs.Bytes as meaning;
ghost use Rattle.ir_core.specs.declared.values.Kind.TheVariants.{Int, Ptr};
ghost use Rattle.ir_values.specs.Values.{HasWidth, IsInKind};

use ir_core::{BlockId, Byte, Kind, Value};

/// How many bytes a value of the kind has.
pub fn byte_count(kind: Kind) -> usize
    ensures { result ≡ meaning.byte_count kind }
{
    match kind {
        Kind::Int(width) => (width as usize + 7) / 8,
        Kind::Ptr => 8,
    }
}

/// The byte of a value at a place.
pub fn byte_at(value: Value, place: usize) -> Byte
    requires { place < 8 }
    ensures { result ≡ meaning.byte_at value place }
{
    match value {
        Value::Num(number) | Value::Bare(number) => Byte::Num(number_byte(number, place)),
        Value::Ptr(block, offset) => Byte::Frag(block, offset, place as u8),
        Value::Undef => Byte::Undef,
        Value::Poison => Byte::Poison,
    }
}

fn number_byte(number: u64, place: usize) -> u8
    requires { place < 8 }
    ensures { result ≡ meaning.number_byte number place }
{
    ((number >> (8 * place)) % 256) as u8
}

/// The value of the bytes, as a value of the kind.
pub(crate) fn value_of(kind: Kind, bytes: &[Byte]) -> Value
    requires kind { HasWidth kind }
    requires few { length bytes.now ≤ 8 }
    ensures value { result ≡ meaning.value_of kind bytes.now }
    ensures in_kind { IsInKind kind result }
{
    if has_poison(bytes) {
        return Value::Poison;
    }
    if has_undef(bytes) {
        return Value::Undef;
    }
    match (kind, number_of(bytes)) {
        (Kind::Int(width), Some(number)) => number_within(width, number),
        (Kind::Int(_), None) => Value::Undef,
        (Kind::Ptr, Some(number)) => Value::Bare(number),
        (Kind::Ptr, None) => pointer_of(bytes),
    }
}

fn number_within(width: u32, number: u64) -> Value
    requires { width ≤ 64 }
    ensures value { result ≡ meaning.number_within width number }
    ensures in_kind { IsInKind (Int width) result }
{
    if u128::from(number) < power_of_two(width) {
        Value::Num(number)
    } else {
        Value::Undef
    }
}

fn power_of_two(exponent: u32) -> u128
    requires { exponent ≤ 64 }
    ensures { result ≡ 2 ^ exponent }
{
    1 << exponent
}

fn has_poison(bytes: &[Byte]) -> bool
    ensures { result ≡ list_any meaning.is_poison_byte bytes.now }
{
    bytes.iter().any(|byte| match byte {
        Byte::Poison => true,
        _ => false,
    })
}

fn has_undef(bytes: &[Byte]) -> bool
    ensures { result ≡ list_any meaning.is_undef_byte bytes.now }
{
    bytes.iter().any(|byte| match byte {
        Byte::Undef => true,
        _ => false,
    })
}

fn number_of(bytes: &[Byte]) -> Option<u64>
    requires { length bytes.now ≤ 8 }
    ensures { result ≡ meaning.number_of bytes.now }
{
    let mut number: u64 = 0;
    let mut place = bytes.len();
    while place > 0 {
        place -= 1;
        match bytes[place] {
            Byte::Num(low) => number = number * 256 + low as u64,
            _ => return None,
        }
    }
    Some(number)
}

fn pointer_of(bytes: &[Byte]) -> Value
    requires { length bytes.now ≤ 8 }
    ensures value { result ≡ meaning.pointer_of bytes.now }
    ensures in_kind { IsInKind Ptr result }
{
    let Some(Byte::Frag(block, offset, _)) = bytes.first() else {
        return Value::Undef;
    };
    if are_fragments(*block, *offset, bytes) {
        Value::Ptr(*block, *offset)
    } else {
        Value::Undef
    }
}

fn are_fragments(block: BlockId, offset: i64, bytes: &[Byte]) -> bool
    requires { length bytes.now ≤ 8 }
    ensures { result ≡ meaning.are_fragments block offset 0 bytes.now }
{
    for (place, byte) in bytes.iter().enumerate() {
        if !is_fragment(block, offset, place as u8, *byte) {
            return false;
        }
    }
    true
}

fn is_fragment(block: BlockId, offset: i64, place: u8, byte: Byte) -> bool
    ensures { result ≡ meaning.is_fragment block offset place byte }
{
    match byte {
        Byte::Frag(b, o, p) => b == block && o == offset && p == place,
        _ => false,
    }
}
