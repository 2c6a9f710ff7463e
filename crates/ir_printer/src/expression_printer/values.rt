ghost use Rattle.std.specs.Prelude.{◌≡◌, ◌-◌, ◌^◌, ◌<◌, ◌≤◌, [], IsTrue, if◌then◌else◌};
ghost use Rattle.ir_printer.specs.ExpressionPrinter.Printed.{constant_parts, element_head, element_word, is_negative, signed_text, number_text, printed_constant, spaced};
ghost use Rattle.ir_printer.specs.Told.{IsTold};

use crate::expression_printer::names::{push_decimal, push_name};
use crate::expression_printer::types::push_type;
use crate::sink::Sink;
use ir_core::{Const, Sigil, Ty};

/// Puts a constant of that type at the end of the text.
#[tactic(auto, using(crate::proofs::ExpressionPrinter::ConstantTexts::constants_by_parts))]
pub fn push_constant(text: &mut Sink, ty: &Ty, constant: &Const)
    ensures { IsTold text.old text.new (printed_constant ty.now constant.now) }
{
    push_constant_parts(text, constant, ty);
}

pub(crate) fn push_word(text: &mut Sink, word: &[u8])
    ensures { IsTold text.old text.new (spaced word.now) }
{
    text.put(word);
    text.put_byte(b' ');
}

/// The word, with the space behind it, where it is set.
pub(crate) fn push_flag(text: &mut Sink, set: bool, word: &[u8])
    ensures { IsTold text.old text.new (if set then word.now else []) }
{
    if set {
        text.put(word);
    }
}

fn push_element_word(text: &mut Sink, inbounds: bool)
    ensures { IsTold text.old text.new (element_word inbounds) }
{
    text.put(b"getelementptr ");
    push_flag(text, inbounds, b"inbounds ");
}

fn push_element_head(text: &mut Sink, inbounds: bool, of: &Ty)
    ensures { IsTold text.old text.new (element_head inbounds of.now) }
{
    push_element_word(text, inbounds);
    text.put_byte(b'(');
    push_type(text, of);
}

/// Goes as deep as constants stand in one another.
fn push_constant_parts(text: &mut Sink, constant: &Const, ty: &Ty)
    ensures { IsTold text.old text.new (constant_parts constant.now ty.now) }
{
    match constant {
        Const::Number(number) => push_number(text, ty, number.get()),
        Const::Undef => text.put(b"undef"),
        Const::Null => text.put(b"null"),
        Const::Global(name) => push_name(text, Sigil::Global, name.get()),
        Const::Element(element) => {
            let element = element.get();
            push_element_head(text, element.0, &element.1);
            for i in 0..element.2.len() {
                let one = &element.2.as_slice()[i];
                text.put(b", ");
                push_type(text, &one.0);
                text.put_byte(b' ');
                push_constant_parts(text, &one.1, &one.0);
            }
            text.put_byte(b')');
        }
        Const::Cast(cast) => {
            let cast = cast.get();
            text.put(b"bitcast (");
            for i in 0..cast.1.len() {
                let one = &cast.1.as_slice()[i];
                push_type(text, &one.0);
                text.put_byte(b' ');
                push_constant_parts(text, &one.1, &one.0);
            }
            text.put(b" to ");
            push_type(text, &cast.0);
            text.put_byte(b')');
        }
    }
}

/// Puts a number of that type, as a constant has it, at the end of the text.
pub fn push_number(text: &mut Sink, ty: &Ty, number: u64)
    ensures { IsTold text.old text.new (number_text ty.now number) }
{
    match ty {
        Ty::Int(1) => text.put(if number == 0 { b"false" } else { b"true" }),
        Ty::Int(width) => push_signed(text, *width, number),
        _ => push_decimal(text, number),
    }
}

fn push_signed(text: &mut Sink, width: u32, number: u64)
    ensures { IsTold text.old text.new (signed_text width number) }
{
    if has_highest_bit(width, number) {
        text.put_byte(b'-');
        push_decimal(text, distance_to_power(width, number));
    } else {
        push_decimal(text, number);
    }
}

#[tactic(auto, using(crate::proofs::ExpressionPrinter::Powers::wide_is_not_negative, crate::proofs::ExpressionPrinter::Powers::power_is_two_halves))]
fn has_highest_bit(width: u32, number: u64) -> bool
    ensures answer { result ≡ is_negative width number }
    ensures above { IsTrue result → 0 < width }
    ensures below { IsTrue result → width ≤ 64 }
{
    if width == 0 || width > 64 {
        return false;
    }
    let half = half_of_power(width);
    half <= number && number - half < half
}

#[tactic(auto, using(crate::proofs::ExpressionPrinter::Powers::power_is_two_halves))]
fn distance_to_power(width: u32, number: u64) -> u64
    requires small { 0 < width × width ≤ 64 }
    requires negative { IsTrue (is_negative width number) }
    ensures { result ≡ 2 ^ width - number }
{
    let half = half_of_power(width);
    half - (number - half)
}

#[tactic(auto, using(crate::proofs::ExpressionPrinter::Powers::power_fits))]
fn half_of_power(width: u32) -> u64
    requires { 0 < width × width ≤ 64 }
    ensures { result ≡ 2 ^ (width - 1) }
{
    1 << (width - 1)
}
