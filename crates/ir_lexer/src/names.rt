ghost use Rattle.std.specs.Prelude.{◌≡◌, ◌≤◌, ◌^◌, ◌+◌, length, IsTrue, MatchOption, option_map};
ghost use Rattle.std.specs.Char.{is_ascii_digit};
ghost use Rattle.std.specs.List.{list_all};
ghost use Rattle.ir_lexer.specs.Names.{name_at, numbered, quoted_name, span_of, span_len};
ghost use Rattle.ir_lexer.specs.Numbers.{value_of, if_below};

use crate::{bytes, numbers, runs};

/// What stands behind a sigil, without what it says.
#[derive(Drop, Clone, Copy)]
pub enum NameSpan {
    /// A name of so many bytes.
    Found(usize),
    /// A string that is empty or not closed.
    EmptyOrOpen,
    Missing,
}

fn quoted_span(quoted: Option<&[u8]>) -> NameSpan
    ensures value { result ≡ span_of (quoted_name (option_map (λ raw. raw.now) quoted.entry)) }
    ensures within { MatchOption quoted.entry (span_len result ≡ 0) (λ raw. span_len result ≤ length raw.now + 2) }
{
    match quoted {
        None => NameSpan::EmptyOrOpen,
        Some([]) => NameSpan::EmptyOrOpen,
        Some(raw) => NameSpan::Found(raw.len() + 2),
    }
}

/// So few digits as nine are in range, whichever they are.
#[tactic(auto, using(crate::proofs::Ranges::short_name))]
fn numbered_span(digits: &[u8]) -> NameSpan
    requires { IsTrue (list_all is_ascii_digit digits.now) }
    ensures value { result ≡ span_of (numbered (if_below (2 ^ 32) (value_of digits.now)) (length digits.now)) }
    ensures within { span_len result ≤ length digits.now }
{
    if digits.len() <= 9 {
        return NameSpan::Found(digits.len());
    }
    match numbers::small_value_of(digits) {
        Some(_) => NameSpan::Found(digits.len()),
        None => NameSpan::Missing,
    }
}

/// How far the name at the front of the text goes.
#[inline(always)]
#[tactic(auto, using(crate::proofs::Ranges::names), unfolding(crate::specs::Names::name_at))]
pub fn name_span(text: &[u8]) -> NameSpan
    ensures value { result ≡ span_of (name_at text.now) }
    ensures within { span_len result ≤ length text.now }
{
    let Some((first, rest)) = runs::split(text) else {
        return NameSpan::Missing;
    };
    if first.is_ascii_digit() {
        numbered_span(runs::digits_at(text))
    } else if bytes::is_run_byte(first) {
        NameSpan::Found(runs::run_at(rest).len() + 1)
    } else if first == b'"' {
        quoted_span(runs::quoted_at(rest))
    } else {
        NameSpan::Missing
    }
}
