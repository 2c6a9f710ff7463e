ghost use Rattle.std.specs.Prelude.{◌≡◌, ◌<◌};
ghost use Rattle.predictive.specs.Grammar.{Grammar};
ghost use Rattle.predictive.specs.Predictive.{Sets, IsPredictive};

use crate::symbol::Symbol;

/// A predictive grammar as data.
pub trait Table {
    ghost grammar: { Self → Grammar };

    /// The LL(1) sets of the grammar.
    ghost sets: { Self → Sets };

    /// The rule by which a nonterminal goes on, by what is ahead: 0 at the end of the text, else one more than the next token's kind.
    fn choose(&self, non: u8, ahead: u16) -> Option<u16>
        requires { non < (sets self.now).count }
        ensures { result ≡ (sets self.now).table non ahead };

    /// The right side of a rule.
    fn right(&self, rule: u16) -> &[Symbol]
        requires { rule < (grammar self.now).count }
        ensures { result.now ≡ (grammar self.now).right rule };

    ghost lawful: { (t : Self) → IsPredictive (grammar t) (sets t) };
}
