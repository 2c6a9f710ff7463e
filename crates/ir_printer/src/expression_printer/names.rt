ghost use Rattle.std.specs.Prelude.{◌≡◌, ◌∷◌, [], ◌+◌, ◌<◌, if◌then◌else◌, IfOk};
ghost use Rattle.std.specs.Char.{is_ascii_digit};
ghost use Rattle.std.specs.List.{list_all};
ghost use Rattle.std.specs.Fmt.{decimal};
ghost use Rattle.ir_core.specs.Names.{is_name_byte, is_plain};
ghost use Rattle.ir_printer.specs.ExpressionPrinter.Printed.{hexadecimal_digit, escaped, quoted, sigil_byte, name_text, printed_name};
ghost use Rattle.ir_printer.specs.Told.{IsTold};

use crate::sink::{Prints, Sink, push_each};
use ir_core::{Name, Sigil};
use std::alloc::{AllocError, Global};

/// The name with its sigil: plain where a name may stand without quotes, else quoted.
pub fn print_name(alloc: Global, sigil: Sigil, name: &Name) -> Result<Vec<u8>, AllocError>
    ensures { IfOk result (λ text. text.items ≡ printed_name sigil name.now) }
{
    let mut text = Sink::new(alloc);
    push_name(&mut text, sigil, name);
    text.finish()
}

/// Puts the name with its sigil at the end of the text.
pub fn push_name(text: &mut Sink, sigil: Sigil, name: &Name)
    ensures { IsTold text.old text.new (printed_name sigil name.now) }
{
    text.put_byte(sigil_of(sigil));
    push_name_text(text, name);
}

/// Puts the name without a sigil, as a label has it, at the end of the text.
pub fn push_name_text(text: &mut Sink, name: &Name)
    ensures { IsTold text.old text.new (name_text name.now) }
{
    match name {
        Name::Text(bytes) => push_text_name(text, bytes.as_slice()),
        Name::Number(number) => push_decimal(text, *number as u64),
    }
}

fn sigil_of(sigil: Sigil) -> u8
    ensures { result ≡ sigil_byte sigil }
{
    match sigil {
        Sigil::Local => b'%',
        Sigil::Global => b'@',
    }
}

fn push_text_name(text: &mut Sink, bytes: &[u8])
    ensures { IsTold text.old text.new (if is_plain bytes.now then bytes.now else quoted bytes.now) }
{
    if may_stand_plain(bytes) {
        text.put(bytes);
    } else {
        push_quoted(text, bytes);
    }
}

fn is_a_digit(byte: u8) -> bool
    ensures { result ≡ is_ascii_digit byte }
{
    b'0' <= byte && byte <= b'9'
}

fn may_be_in_name(byte: u8) -> bool
    ensures { result ≡ is_name_byte byte }
{
    (b'A' <= byte && byte <= b'Z')
        || (b'a' <= byte && byte <= b'z')
        || is_a_digit(byte)
        || byte == b'-'
        || byte == b'$'
        || byte == b'.'
        || byte == b'_'
}

fn may_stand_plain(bytes: &[u8]) -> bool
    ensures { result ≡ is_plain bytes.now }
{
    !bytes.is_empty() && !is_a_digit(bytes[0]) && may_all_be_in_name(bytes)
}

fn may_all_be_in_name(bytes: &[u8]) -> bool
    ensures { result ≡ list_all is_name_byte bytes.now }
{
    bytes.iter().all(|byte| may_be_in_name(*byte))
}

/// Puts the bytes between quotes at the end of the text.
pub fn push_quoted(text: &mut Sink, bytes: &[u8])
    ensures { IsTold text.old text.new (quoted bytes.now) }
{
    text.put_byte(b'"');
    push_each(text, &Escaped, bytes);
    text.put_byte(b'"');
}

/// A byte between quotes.
struct Escaped;

impl Prints<u8> for Escaped {
    ghost printed = { λ _ byte. escaped byte };

    fn push(&self, text: &mut Sink, byte: &u8) {
        push_escaped(text, *byte);
    }
}

fn push_escaped(text: &mut Sink, byte: u8)
    ensures { IsTold text.old text.new (escaped byte) }
{
    if b' ' <= byte && byte <= b'~' && byte != b'"' && byte != b'\\' {
        text.put_byte(byte);
    } else {
        text.put(&[b'\\', last_digit(byte / 16), last_digit(byte)]);
    }
}

/// The last hexadecimal digit of a number.
fn last_digit(value: u8) -> u8
    ensures { result ≡ hexadecimal_digit value }
{
    let digit = value % 16;
    if digit < 10 {
        b'0' + digit
    } else {
        b'A' - 10 + digit
    }
}

/// The digits, from the first to the last.
#[tactic(auto, using(crate::proofs::ExpressionPrinter::Digits::digit_more, std::proofs::lemmas::Fmt::decimal_digit))]
pub(crate) fn push_decimal(text: &mut Sink, number: u64)
    ensures { IsTold text.old text.new (decimal number) }
{
    if number < 10 {
        push_digit(text, number);
    } else {
        push_decimal(text, number / 10);
        push_digit(text, number % 10);
    }
}

fn push_digit(text: &mut Sink, digit: u64)
    requires { digit < 10 }
    ensures { IsTold text.old text.new ((48 + digit) ∷ []) }
{
    text.put_byte(b'0' + digit as u8);
}
