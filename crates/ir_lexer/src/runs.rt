ghost use Rattle.std.specs.Prelude.{◌≡◌, [], ◌∷◌, length, ◌<◌, ◌≤◌, MatchOption, IfSome, option_map};
ghost use Rattle.std.specs.List.{prefix_len};
ghost use Rattle.ir_core.specs.Names.{is_name_byte};
ghost use Rattle.ir_lexer.specs.Runs.{belongs, run_at, digits_at, rest_of_line, quoted_at};

use crate::bytes;

/// The first byte and the rest.
pub fn split(text: &[u8]) -> Option<(u8, &[u8])>
    ensures { MatchOption result (text.now ≡ []) (λ parts. text.now ≡ parts.0 ∷ parts.1.now) }
{
    let (first, rest) = text.split_first()?;
    Some((*first, rest))
}

/// What the bytes of a front are.
#[derive(Drop, Clone, Copy)]
pub enum Front {
    Digits,
    Line,
    Quoted,
}

fn belongs(front: Front, byte: u8) -> bool
    ensures { result ≡ belongs front byte }
{
    match front {
        Front::Digits => byte.is_ascii_digit(),
        Front::Line => bytes::is_in_line(byte),
        Front::Quoted => !(byte == b'"'),
    }
}

/// How many bytes at the front of the text belong to it.
#[tactic(auto, using(crate::proofs::Fronts::fronts))]
fn front_len(front: Front, text: &[u8]) -> usize
    ensures len { result ≡ prefix_len (belongs front) text.now }
    ensures within { result ≤ length text.now }
{
    for (len, byte) in text.iter().enumerate() {
        if !belongs(front, *byte) {
            return len;
        }
    }
    text.len()
}

/// How many bytes the longest run at the front of the text has. They are looked at by fours, while there are so many.
fn run_len(text: &[u8]) -> usize
    ensures len { result ≡ prefix_len is_name_byte text.now }
    ensures within { result ≤ length text.now }
{
    let mut len = 0;
    while text.len() - len >= 4 {
        if !bytes::is_run_byte(text[len]) {
            return len;
        }
        len += 1;
        if !bytes::is_run_byte(text[len]) {
            return len;
        }
        len += 1;
        if !bytes::is_run_byte(text[len]) {
            return len;
        }
        len += 1;
        if !bytes::is_run_byte(text[len]) {
            return len;
        }
        len += 1;
    }
    while len < text.len() && bytes::is_run_byte(text[len]) {
        len += 1;
    }
    len
}

/// The longest run at the front of the text.
#[tactic(auto, using(crate::proofs::Fronts::fronts), unfolding(crate::specs::Runs::run_at))]
pub fn run_at(text: &[u8]) -> &[u8]
    ensures front { result.now ≡ run_at text.now }
    ensures within { length result.now ≤ length text.now }
{
    &text[..run_len(text)]
}

/// The decimal digits at the front of the text.
#[tactic(auto, using(crate::proofs::Fronts::fronts), unfolding(crate::specs::Runs::digits_at))]
pub fn digits_at(text: &[u8]) -> &[u8]
    ensures front { result.now ≡ digits_at text.now }
    ensures within { length result.now ≤ length text.now }
{
    &text[..front_len(Front::Digits, text)]
}

/// The rest of the line, without its end.
#[tactic(auto, using(crate::proofs::Fronts::fronts), unfolding(crate::specs::Runs::rest_of_line))]
pub fn rest_of_line(text: &[u8]) -> &[u8]
    ensures front { result.now ≡ rest_of_line text.now }
    ensures within { length result.now ≤ length text.now }
{
    &text[..front_len(Front::Line, text)]
}

/// What stands before the next quote, if there is one.
#[tactic(auto, using(crate::proofs::Fronts::fronts), unfolding(crate::specs::Runs::quoted_at))]
pub fn quoted_at(text: &[u8]) -> Option<&[u8]>
    ensures front { option_map (λ quoted. quoted.now) result ≡ quoted_at text.now }
    ensures within { IfSome result (λ quoted. length quoted.now < length text.now) }
{
    let len = front_len(Front::Quoted, text);
    if len < text.len() {
        Some(&text[..len])
    } else {
        None
    }
}
