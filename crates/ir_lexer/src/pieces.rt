ghost use Rattle.std.specs.Prelude.{◌≡◌, ◌+◌, ◌≤◌, ◌^◌, length, option_map, IsTrue, codes};
ghost use Rattle.std.specs.Str.{bytes_eq};
ghost use Rattle.ir_lexer.specs.Bytes.{are_digits};
ghost use Rattle.ir_lexer.specs.Pieces.{attribute, behind_sigil, closed, IsWithin, label, lettered, metadata, named, number_outline, numbered_block, outline, piece, plain, quoted, run};
ghost use Rattle.ir_lexer.specs.declared.token.TokenKind.TheVariants as kind;
ghost use Rattle.ir_lexer.specs.Names.{name_at, span_of};
ghost use Rattle.ir_lexer.specs.Numbers.{value_of, if_below};
ghost use Rattle.ir_lexer.specs.Runs.{quoted_at};

use crate::bytes::Class;
use crate::names::NameSpan;
use crate::{Kind, bytes, names, numbers, runs};

/// What stands at the front of a text, without what it says.
#[derive(Drop, Clone, Copy)]
pub enum Outline {
    /// Nothing: the text is at its end.
    End,
    /// Blanks or a comment, of so many bytes.
    Gap(usize),
    /// A token, and how many bytes spell it.
    Token(Kind, usize),
    /// A byte that begins no token, or a sigil without a name.
    BadByte,
    /// A string that is not closed, or is empty where a name is wanted, so many bytes from here.
    BadString(usize),
    /// A run that begins as a number and is none, or a number out of range.
    BadNumber,
}

/// A sigil, and the text behind it.
#[inline(always)]
fn behind_sigil(kind: Kind, rest: &[u8]) -> Outline
    ensures value { result ≡ behind_sigil kind (span_of (name_at rest.now)) }
    ensures within { IsWithin result (length rest.now + 1) }
{
    match names::name_span(rest) {
        NameSpan::Found(len) => Outline::Token(kind, len + 1),
        NameSpan::EmptyOrOpen => Outline::BadString(1),
        NameSpan::Missing => Outline::BadByte,
    }
}

#[tactic(auto, using(crate::proofs::Outlines::local_outline))]
fn local(rest: &[u8]) -> Outline
    ensures value { result ≡ outline (named kind.Local (name_at rest.now)) }
    ensures within { IsWithin result (length rest.now + 1) }
{
    behind_sigil(Kind::Local, rest)
}

#[tactic(auto, using(crate::proofs::Outlines::global_outline))]
fn global(rest: &[u8]) -> Outline
    ensures value { result ≡ outline (named kind.Global (name_at rest.now)) }
    ensures within { IsWithin result (length rest.now + 1) }
{
    behind_sigil(Kind::Global, rest)
}

fn attribute(digits: &[u8]) -> Outline
    ensures value { result ≡ outline (attribute digits.now) }
    ensures within { IsWithin result (length digits.now + 1) }
{
    if digits.is_empty() {
        Outline::BadByte
    } else {
        Outline::Token(Kind::Attribute, digits.len() + 1)
    }
}

fn metadata(run: &[u8]) -> Outline
    ensures value { result ≡ outline (metadata run.now) }
    ensures within { IsWithin result (length run.now + 1) }
{
    if run.is_empty() {
        Outline::Token(Kind::Bang, 1)
    } else {
        Outline::Token(Kind::Metadata, run.len() + 1)
    }
}

/// What stood between two quotes, and the text behind them.
#[tactic(auto, unfolding(crate::specs::Pieces::closed))]
fn closed(raw: &[u8], after: &[u8]) -> Outline
    ensures value { result ≡ outline (closed raw.now after.now) }
    ensures within { IsWithin result (length raw.now + length after.now + 2) }
{
    if raw.is_empty() {
        Outline::Token(Kind::Text, 2)
    } else if bytes::begins_with_colon(after) {
        Outline::Token(Kind::Label, raw.len() + 3)
    } else {
        Outline::Token(Kind::Text, raw.len() + 2)
    }
}

/// A string, and the text behind its first quote.
fn quoted(rest: &[u8]) -> Outline
    ensures value { result ≡ outline (quoted rest.now (quoted_at rest.now)) }
    ensures within { IsWithin result (length rest.now + 1) }
{
    match runs::quoted_at(rest) {
        Some(raw) => closed(raw, &rest[raw.len() + 1..]),
        None => Outline::BadString(0),
    }
}

/// A run before a colon.
#[tactic(auto, unfolding(crate::specs::Pieces::label))]
fn label(run: &[u8]) -> Outline
    ensures value { result ≡ outline (label run.now) }
    ensures within { IsWithin result (length run.now + 1) }
{
    if bytes::are_digits(run) {
        numbered_block(run)
    } else {
        Outline::Token(Kind::Label, run.len() + 1)
    }
}

fn numbered_block(digits: &[u8]) -> Outline
    ensures value { result ≡ outline (numbered_block (if_below (2 ^ 32) (value_of digits.now)) (length digits.now)) }
    ensures within { IsWithin result (length digits.now + 1) }
{
    match numbers::small_value_of(digits) {
        Some(_) => Outline::Token(Kind::Label, digits.len() + 1),
        None => Outline::BadNumber,
    }
}

/// A run that is a number of either sign. So few digits as 38 are in range, whichever they are.
#[tactic(auto, using(crate::proofs::Ranges::short_number))]
fn number(digits: &[u8], len: usize) -> Outline
    requires some { 1 ≤ len }
    requires digits { IsTrue (are_digits digits.now) }
    ensures value { result ≡ number_outline (if_below (2 ^ 128) (value_of digits.now)) len }
    ensures within { IsWithin result len }
{
    if digits.len() <= 38 {
        return Outline::Token(Kind::Number, len);
    }
    match numbers::value_of(digits) {
        Some(_) => Outline::Token(Kind::Number, len),
        None => Outline::BadNumber,
    }
}

fn is_dots(run: &[u8]) -> bool
    ensures value { result ≡ bytes_eq run.now (codes "...") }
    ensures len { IsTrue result → length run.now ≡ 3 }
{
    run == b"...".as_slice()
}

/// A run before no colon.
#[tactic(auto, using(crate::proofs::Outlines::number_alone), unfolding(crate::specs::Pieces::plain))]
fn plain(run: &[u8]) -> Outline
    ensures value { result ≡ outline (plain run.now) }
    ensures within { IsWithin result (length run.now) }
{
    let Some((first, rest)) = runs::split(run) else {
        return Outline::BadByte;
    };
    if is_dots(run) {
        Outline::Token(Kind::Dots, 3)
    } else if bytes::are_digits(run) {
        number(run, run.len())
    } else if first == b'-' && bytes::are_digits(rest) {
        number(rest, run.len())
    } else if bytes::begins_word(first) {
        Outline::Token(Kind::Word, run.len())
    } else {
        Outline::BadNumber
    }
}

/// A run and the text behind it.
fn run_piece(found: &[u8], after: &[u8]) -> Outline
    ensures value { result ≡ outline (run found.now after.now) }
    ensures within { IsWithin result (length found.now + length after.now) }
{
    if bytes::begins_with_colon(after) {
        label(found)
    } else {
        plain(found)
    }
}

/// A letter stood first, and this is the text behind it.
fn lettered(rest: &[u8]) -> Outline
    ensures value { result ≡ lettered rest.now }
    ensures within { IsWithin result (length rest.now + 1) }
{
    let len = runs::run_at(rest).len();
    if bytes::begins_with_colon(&rest[len..]) {
        Outline::Token(Kind::Label, len + 2)
    } else {
        Outline::Token(Kind::Word, len + 1)
    }
}

/// What stands at the front of the text.
#[tactic(auto, using(crate::proofs::Classes::by_class))]
pub fn outline_at(text: &[u8]) -> Outline
    ensures value { result ≡ outline (piece text.now) }
    ensures within { IsWithin result (length text.now) }
{
    let Some((first, rest)) = runs::split(text) else {
        return Outline::End;
    };
    match bytes::class_of(first) {
        Class::Blank => Outline::Gap(1),
        Class::Comment => Outline::Gap(runs::rest_of_line(rest).len() + 1),
        Class::Local => local(rest),
        Class::Global => global(rest),
        Class::Attribute => attribute(runs::digits_at(rest)),
        Class::Metadata => metadata(runs::run_at(rest)),
        Class::Quote => quoted(rest),
        Class::Letter => lettered(rest),
        Class::Run => {
            let found = runs::run_at(text);
            run_piece(found, &text[found.len()..])
        }
        Class::Mark => Outline::Token(Kind::Mark, 1),
        Class::Other => Outline::BadByte,
    }
}
