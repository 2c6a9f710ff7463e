ghost use Rattle.std.specs.Prelude.{◌≡◌, ◌∷◌, ℕ, [], get_or, MatchOption};
ghost use Rattle.std.specs.List.{slice_get};
ghost use Rattle.derivation_cursor.specs.At.{Closes, Opens, SameText, Takes};
ghost use Rattle.module_derivations.specs.FlatMarks.Flat.{mark_of};
ghost use Rattle.module_derivations.specs.Ahead as see;

use ir_lexer::Token;
use module_grammar::Language;

/// Tokens are numbered from here on, behind the rules.
const FIRST_TOKEN: u32 = 2_147_483_648;

/// How many parts stand behind the beginning of each rule.
static ARITIES: [u8; 280] = [
    0, 2, 0, 2, 2, 4, 2, 2, 15, 0, 2, 5, 7, 0, 1, 0, 1, 4, 4, 0, 1, 0, 1, 0, 5, 3, 0, 0, 0, 2, 7,
    2, 0, 0, 0, 1, 0, 0, 5, 0, 5, 4, 0, 1, 0, 2, 1, 0, 0, 1, 1, 0, 2, 0, 1, 1, 1, 0, 0, 0, 0, 0, 1,
    0, 2, 1, 1, 1, 0, 1, 0, 2, 0, 0, 2, 1, 1, 4, 2, 0, 2, 0, 3, 0, 3, 0, 1, 0, 1, 0, 3, 0, 1, 1, 1,
    1, 1, 0, 0, 1, 1, 0, 1, 8, 6, 0, 4, 1, 0, 1, 2, 2, 0, 4, 0, 4, 1, 1, 1, 1, 3, 2, 2, 1, 0, 2, 0,
    0, 5, 5, 6, 6, 9, 2, 8, 3, 6, 7, 2, 2, 0, 1, 2, 2, 0, 1, 4, 1, 0, 1, 4, 2, 6, 7, 6, 1, 3, 1, 2,
    3, 3, 2, 0, 5, 0, 5, 4, 2, 0, 1, 0, 3, 3, 1, 8, 6, 0, 4, 1, 4, 0, 1, 0, 5, 0, 2, 7, 2, 6, 0, 1,
    4, 2, 3, 2, 1, 1, 6, 0, 0, 3, 1, 5, 0, 5, 4, 0, 2, 2, 3, 3, 0, 0, 0, 0, 0, 0, 0, 0, 0, 0, 0, 0,
    0, 0, 0, 0, 0, 0, 0, 0, 0, 0, 0, 0, 0, 0, 0, 0, 0, 0, 0, 0, 0, 0, 0, 0, 0, 0, 0, 0, 0, 0, 0, 0,
    0, 0, 0, 0, 1, 1, 1, 1, 1, 1, 1, 1, 1, 1, 1, 1, 1, 1, 1, 1, 1, 1, 1, 1, 1,
];

/// Where a walk stands: the text, its tokens, and the marks that are left of its derivation.
pub struct Cursor<'a> {
    pub language: Language,
    pub text: &'a [u8],
    pub tokens: &'a [Token],
    pub numbers: &'a [u32],
}

impl<'a> Drop for Cursor<'a> {
    fn drop(self) {
        let Cursor {
            language: _,
            text: _,
            tokens: _,
            numbers: _,
        } = self;
    }
}

/// The number at a place, or 0.
fn number_at(numbers: &[u8], at: usize) -> u8
    ensures { result ≡ get_or numbers.now at 0 }
{
    match numbers.get(at) {
        Some(number) => *number,
        None => 0,
    }
}

/// The token at a place, if there is one.
fn token_at(tokens: &[Token], at: usize) -> Option<Token>
    ensures { result ≡ slice_get tokens.now at }
{
    match tokens.get(at) {
        Some(token) => Some(*token),
        None => None,
    }
}

fn arity(rule: u32) -> u8
    ensures { result ≡ see.arity rule }
{
    number_at(&ARITIES, rule as usize)
}

impl<'a> Cursor<'a> {
    /// A second walk from the same place.
    pub fn fork(&self) -> Cursor<'a>
        ensures { result ≡ self.now }
    {
        Cursor {
            language: self.language,
            text: self.text,
            tokens: self.tokens,
            numbers: self.numbers,
        }
    }

    /// The number of the next mark, which is taken.
    fn step(&mut self) -> Option<u32>
        ensures same { SameText self.old self.new }
        ensures step { MatchOption result ((self.old.numbers.now ≡ []) × (self.new.numbers.now ≡ [])) (λ n. self.old.numbers.now ≡ n ∷ self.new.numbers.now) }
    {
        match self.numbers.split_first() {
            None => None,
            Some((number, more)) => {
                self.numbers = more;
                Some(*number)
            }
        }
    }

    /// The rule that begins there, if one does; else what stands there is passed.
    #[tactic(auto, using(crate::proofs::Steps::opens_rule, crate::proofs::Steps::opens_token, crate::proofs::Steps::opens_nothing))]
    pub fn rule(&mut self) -> Option<u32>
        ensures { Opens result self.old self.new }
    {
        match self.step() {
            None => None,
            Some(number) => {
                if number < FIRST_TOKEN {
                    return Some(number);
                }
                None
            }
        }
    }

    /// Passes the parts of a rule that has begun.
    #[tactic(auto, using(crate::proofs::Steps::pass_rule, crate::proofs::Steps::pass_token, crate::proofs::Steps::pass_nothing))]
    pub fn pass(&mut self, rule: Option<u32>)
        ensures { Closes rule self.old self.new }
    {
        let mut left: u128 = match rule {
            Some(rule) => u128::from(arity(rule)),
            None => 0,
        };
        while left > 0 {
            match self.step() {
                None => return,
                Some(number) => {
                    if number < FIRST_TOKEN {
                        left = left - 1 + u128::from(arity(number));
                    } else {
                        left -= 1;
                    }
                }
            }
        }
    }

    /// The token in front, if one stands there; what is none is passed.
    #[tactic(auto, using(crate::proofs::Steps::takes_nothing))]
    pub(crate) fn token(&mut self) -> Option<Token>
        ensures { Takes result self.old self.new }
    {
        match self.step() {
            None => None,
            Some(number) => {
                if number < FIRST_TOKEN {
                    self.pass(Some(number));
                    None
                } else {
                    token_at(self.tokens, (number - FIRST_TOKEN) as usize)
                }
            }
        }
    }
}
