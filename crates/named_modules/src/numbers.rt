//! Numbers at the types that are stated for them, and alignments.
ghost use Rattle.std.specs.Prelude.{◌≡◌, ◌≤◌, ◌-◌, ◌%◌, ◌^◌, unwrap_or};
ghost use Rattle.named_modules.specs.Built as aligns;
ghost use Rattle.named_modules.specs.Types as meaning;

use ir_core::{Bits, Ty, is_width};
use ir_lexer::Number;
use module_grammar::{IntText, Placed};

fn power_of_two(exponent: u32) -> u128
    requires { exponent ≤ 64 }
    ensures { result ≡ 2 ^ exponent }
{
    1 << exponent
}

/// A negative number of this magnitude modulo 2 to the width.
#[tactic(auto, using(crate::proofs::Widths::remainder_fits))]
fn negated(width: u32, magnitude: u128) -> u64
    requires narrow { width ≤ 64 }
    requires magnitude { magnitude ≤ 2 ^ width }
    ensures { result ≡ (2 ^ width - magnitude) % 2 ^ width }
{
    let whole = power_of_two(width);
    ((whole - magnitude) % whole) as u64
}

/// A negative number of this magnitude, if it is one of the type.
#[tactic(auto, using(crate::proofs::Widths::half_below))]
fn kept_negative(width: u32, magnitude: u128) -> Option<u64>
    requires narrow { width ≤ 64 }
    requires wide { 1 ≤ width }
    ensures { result ≡ meaning.kept_negative width magnitude }
{
    if magnitude <= power_of_two(width - 1) {
        Some(negated(width, magnitude))
    } else {
        None
    }
}

/// Another number of this magnitude, if it is one of the type.
#[tactic(auto, using(crate::proofs::Widths::number_fits))]
fn kept_positive(width: u32, magnitude: u128) -> Option<u64>
    requires { width ≤ 64 }
    ensures { result ≡ meaning.kept_positive width magnitude }
{
    if magnitude < power_of_two(width) {
        Some(magnitude as u64)
    } else {
        None
    }
}

/// The number modulo 2 to the width, if it is one of the type.
fn kept(width: u32, number: &Number) -> Option<u64>
    requires narrow { width ≤ 64 }
    requires wide { 1 ≤ width }
    ensures { result ≡ meaning.kept width number.now }
{
    if number.negative {
        kept_negative(width, number.magnitude.get())
    } else {
        kept_positive(width, number.magnitude.get())
    }
}

/// The number that the word is, if the type is `i1`.
fn truth(width: u32, word: bool) -> Option<u64>
    ensures { result ≡ meaning.truth width word }
{
    if width == 1 {
        Some(u64::from(word))
    } else {
        None
    }
}

fn int_of_width(width: u32, int: &IntText) -> Option<u64>
    requires narrow { width ≤ 64 }
    requires wide { 1 ≤ width }
    ensures { result ≡ meaning.int_of_width width int.now }
{
    match int {
        IntText::Number(number) => kept(width, &number.what),
        IntText::Truth(word) => truth(width, word.what),
    }
}

#[tactic(auto, using(crate::proofs::NumberKinds::of_int))]
fn int_if_width(width: u32, int: &IntText) -> Option<u64>
    ensures { result ≡ meaning.int_of (Ty.Int width) int.now }
{
    if is_width(width) {
        int_of_width(width, int)
    } else {
        None
    }
}

/// The number that is written, if it is one of the type.
#[tactic(auto, using(crate::proofs::NumberKinds::of_ptr, crate::proofs::NumberKinds::of_array, crate::proofs::NumberKinds::of_struct, crate::proofs::NumberKinds::of_named, crate::proofs::NumberKinds::of_void))]
pub fn int_of(ty: &Ty, int: &IntText) -> Option<u64>
    ensures { result ≡ meaning.int_of ty.now int.now }
{
    match ty {
        Ty::Int(width) => int_if_width(*width, int),
        Ty::Ptr(_) | Ty::Array(_, _) | Ty::Struct(_) | Ty::Named(_) | Ty::Void => None,
    }
}

/// The number, or 0 where there is none.
pub fn built(number: Option<u64>) -> Bits
    ensures { result ≡ unwrap_or number 0 }
{
    Bits::new(number.unwrap_or(0))
}

/// The number, or 0 where no alignment has it.
fn align_built(number: &Number) -> u32
    ensures { result ≡ aligns.align_built number.now }
{
    let magnitude = number.magnitude.get();
    if magnitude < 4_294_967_296 {
        magnitude as u32
    } else {
        0
    }
}

fn align_kept(number: &Number) -> Option<u32>
    ensures { result ≡ aligns.align_kept number.now }
{
    if number.magnitude.get() == 0 {
        None
    } else {
        Some(align_built(number))
    }
}

/// The alignment that is written.
pub fn align_of(written: &Option<Placed<Number>>) -> Option<u32>
    ensures { result ≡ aligns.align_of written.now }
{
    match written {
        None => None,
        Some(placed) => align_kept(&placed.what),
    }
}
