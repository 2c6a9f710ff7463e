ghost use Rattle.std.specs.Prelude.{◌≡◌, ◌<◌, get_or, length};
ghost use Rattle.predictive.specs.Arrays.{IsDense, IsLaid};
ghost use Rattle.predictive.specs.Listed.{Listed, rule_at, sets_of};

use crate::symbol::Symbol;

/// The number at a place, or 0.
fn number_at(numbers: &[u16], at: usize) -> u16
    ensures { result ≡ get_or numbers.now at 0 }
{
    match numbers.get(at) {
        Some(number) => *number,
        None => 0,
    }
}

/// The rule by which a nonterminal goes on, of rows of `width` choices each: 0 where there is none, else one more than the rule.
pub fn choice(choices: &[u16], width: u16, non: u8, ahead: u16) -> Option<u16>
    ensures { (d : Listed) → IsDense d width choices.now → non < length d.facts → result ≡ (sets_of d).table non ahead }
{
    if ahead >= width {
        return None;
    }
    match number_at(
        choices,
        usize::from(non) * usize::from(width) + usize::from(ahead),
    ) {
        0 => None,
        code => Some(code - 1),
    }
}

/// The right side of a rule, by where each begins, and where the last one ends.
pub fn side<'a>(starts: &[u16], symbols: &'a [Symbol], rule: u16) -> &'a [Symbol]
    ensures { (d : Listed) → IsLaid d starts.now symbols.now → rule < length d.rules → result.now ≡ (rule_at d.rules rule).right }
{
    let at = usize::from(rule);
    let begins = usize::from(number_at(starts, at));
    let ends = usize::from(number_at(starts, at + 1));
    match symbols.get(begins..ends) {
        Some(row) => row,
        None => &[],
    }
}
