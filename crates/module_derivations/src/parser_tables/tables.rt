ghost use Rattle.std.specs.Prelude.{◌≡◌};
ghost use Rattle.module_grammar.specs.Sets.{listing};
ghost use Rattle.predictive.specs.Arrays.{IsDense, starts_of, symbols_of};

use crate::parser_tables::choices::CHOICES;
use crate::parser_tables::sides::{STARTS, SYMBOLS};
use predictive::{Symbol, Table};

/// The rules by which nonterminals go on, in rows of 76.
#[inline(always)]
fn choices() -> &'static [u16; 7144]
    ensures { IsDense listing 76 result.now }
{
    &CHOICES
}

/// Where the right sides begin, and where the last one ends.
#[inline(always)]
fn starts() -> &'static [u16; 281]
    ensures { result.now ≡ starts_of 0 listing.rules }
{
    &STARTS
}

/// The right sides, one after another.
#[inline(always)]
fn symbols() -> &'static [Symbol; 506]
    ensures { result.now ≡ symbols_of listing.rules }
{
    &SYMBOLS
}

/// The grammar of tokens as a predictive parser has it.
#[derive(Drop, Clone, Copy)]
pub struct TokenGrammar;

impl Table for TokenGrammar {
    ghost use Rattle.module_grammar.specs.Sets as sets_of_tokens;
    ghost use Rattle.module_grammar.specs.Tokens as tokens;
    ghost use Rattle.module_derivations.specs.ParserTables.Lawful as laws;

    ghost grammar = { λ t. tokens.token_grammar };

    ghost sets = { λ t. sets_of_tokens.sets };

    #[inline(always)]
    fn choose(&self, non: u8, ahead: u16) -> Option<u16> {
        let choices = choices();
        if ahead >= 76 {
            return None;
        }
        match choices[usize::from(non) * 76 + usize::from(ahead)] {
            0 => None,
            code => Some(code - 1),
        }
    }

    #[inline(always)]
    fn right(&self, rule: u16) -> &[Symbol] {
        let starts = starts();
        let symbols = symbols();
        let at = usize::from(rule);
        let begins = usize::from(starts[at]);
        let ends = usize::from(starts[at + 1]);
        &symbols[begins..ends]
    }

    ghost lawful = { λ t. laws.lawful };
}
