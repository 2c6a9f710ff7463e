ghost use Rattle.std.specs.Prelude.{◌≡◌, ℕ, true, false, List, [], ◌∷◌};
ghost use Rattle.predictive.specs.Examples.{alike, brackets};
ghost use Rattle.predictive.specs.Grammar.{Grammar, Derives, IsFirstFault, IsUnambiguous};
ghost use Rattle.predictive.specs.Listed.{Listed, is_predictive, grammar_of, sets_of};
ghost use Rattle.predictive.specs.Predictive.{Sets, IsPredictive, MayEnd};
ghost use Rattle.predictive.specs.declared.symbol.Symbol.{Symbol};
ghost use Rattle.predictive.specs.declared.symbol.Symbol.TheVariants.{Non};

/// The body is empty on purpose: the clause is a law. No text of a predictive grammar has two trees.
pub fn is_unambiguous()
    ensures { (g : Grammar) (s : Sets) → IsPredictive g s → (start : _) → MayEnd s start → IsUnambiguous g (Non start ∷ []) }
{}

/// The body is empty on purpose: the clauses are laws. A text has at most one first fault, and none where it is derived.
pub fn one_first_fault()
    ensures none { (g : Grammar) (s : List Symbol) (ks : List ℕ) (place : ℕ) → Derives g s ks → IsFirstFault g s ks place → ⊥ }
    ensures one { (g : Grammar) (s : List Symbol) (ks : List ℕ) (a b : ℕ) → IsFirstFault g s ks a → IsFirstFault g s ks b → a ≡ b }
{}

/// The body is empty on purpose: the clause is a law. A listed grammar that passes the test is predictive.
pub fn test_is_sound()
    ensures { (d : Listed) → is_predictive d ≡ true → IsPredictive (grammar_of d) (sets_of d) }
{}

/// The body is empty on purpose: the clauses are examples. Brackets are predictive, `()` is a row of them, and no row begins with `)`;
/// two rules that begin alike aren't predictive.
pub fn examples()
    ensures yes { is_predictive brackets ≡ true }
    ensures word { Derives (grammar_of brackets) (Non 0 ∷ []) (0 ∷ 1 ∷ []) }
    ensures fault { IsFirstFault (grammar_of brackets) (Non 0 ∷ []) (1 ∷ []) 0 }
    ensures no { is_predictive alike ≡ false }
{}
