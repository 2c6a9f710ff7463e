//! The fault of one step, as the fault of a text.
ghost use Rattle.std.specs.Prelude.{◌≡◌, length, map};
ghost use Rattle.module_grammar.specs.Spelled.{placed_in};
ghost use Rattle.ir_reader.specs.Told as told;

use crate::Misnamed;
use ir_core::Limit;
use ir_lexer::{LexFault, TextFault, Token, is_left_out};
use name_claims::{Fault, Reason};

pub fn of_lexer(fault: LexFault) -> TextFault
    ensures { result ≡ told.of_lexer fault }
{
    match fault {
        LexFault::BadByte(place) => TextFault::BadByte(place),
        LexFault::BadString(place) => TextFault::BadString(place),
        LexFault::BadNumber(place) => TextFault::BadNumber(place),
        LexFault::Memory => TextFault::Memory,
        LexFault::Limit(limit) => TextFault::Limit(limit),
    }
}

/// A token of the text that is not expected.
fn of_token(text: &[u8], token: &Token) -> TextFault
    ensures { result ≡ told.of_token (placed_in text.now token.now) }
{
    let place = token.start as usize;
    let length = (token.end as usize).saturating_sub(place);
    if is_left_out(text, token) {
        TextFault::LeftOut { place, length }
    } else {
        TextFault::Expected(place)
    }
}

/// The token of this index is not expected, or the text doesn't end there.
pub fn of_grammar(text: &[u8], tokens: &[Token], place: usize) -> TextFault
    ensures { result ≡ told.of_grammar (map (placed_in text.now) tokens.now) (length text.now) place }
{
    match tokens.get(place) {
        None => TextFault::Expected(text.len()),
        Some(token) => of_token(text, token),
    }
}

fn of_fault(fault: Fault) -> TextFault
    ensures { result ≡ told.of_fault fault }
{
    let place = fault.start;
    let length = fault.end.saturating_sub(place);
    match fault.reason {
        Reason::Twice => TextFault::Twice { place, length },
        Reason::WrongNumber(expected) => TextFault::WrongNumber { place, expected },
        Reason::Unknown => TextFault::Unknown { place, length },
        Reason::LeftOut => TextFault::LeftOut { place, length },
        Reason::WrongType => TextFault::WrongType(place),
    }
}

/// What is first at fault in a tree.
pub fn of_names(misnamed: Misnamed) -> TextFault
    ensures { result ≡ told.of_names misnamed }
{
    match misnamed {
        Misnamed::Fault(fault) => of_fault(fault),
        Misnamed::Block => TextFault::Limit(Limit::Block),
    }
}
