//! Each text is decided by a predictive grammar, as a function of the logic (`specs/GrammarDecides/Decision.antt`): it gives a tree of the
//! text, or the place of its first fault. It is for definitions that speak of texts; to read one, call `parse`.

ghost use Rattle.std.specs.Prelude.{◌≡◌, ℕ, List, [], ◌∷◌, ◌⊎◌};
ghost use Rattle.predictive.specs.Grammar.{Grammar, Forest, Forms, yield, IsFirstFault};
ghost use Rattle.predictive.specs.Predictive.{Sets, IsPredictive, MayEnd};
ghost use Rattle.predictive.specs.declared.symbol.Symbol.TheVariants.{Non};
ghost use Rattle.predictive.specs.GrammarDecides.Examples.{PairIsRow, LastIsTooMany, OneIsMissing};

/// The body is empty on purpose: the clause is a law. Each text has a tree or a first fault.
pub fn each_text_is_decided()
    ensures { (g : Grammar) (s : Sets) → IsPredictive g s → (start : ℕ) → MayEnd s start → (kinds : List ℕ) → ((f : Forest) × Forms g f (Non start ∷ []) × (yield f ≡ kinds)) ⊎ ((place : ℕ) × IsFirstFault g (Non start ∷ []) kinds place) }
{}

/// The body is empty on purpose: the clauses are examples. Of `()` the trees are computed, and of `())` and `(()` the place of the first
/// fault.
pub fn brackets_are_decided()
    ensures word { PairIsRow }
    ensures last { LastIsTooMany }
    ensures missing { OneIsMissing }
{}
