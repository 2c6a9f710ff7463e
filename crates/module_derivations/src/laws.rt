ghost use Rattle.module_derivations.specs.FlatMarks.Seeing.{AreSeen};
ghost use Rattle.module_derivations.specs.Ahead.{seeing};
ghost use Rattle.module_derivations.specs.Derivations.{DerivationsMean};
ghost use Rattle.module_derivations.specs.Examples.{MarksMean};
ghost use Rattle.module_derivations.specs.Named.{RulesAreNamed};
ghost use Rattle.module_grammar.specs.Rules.{rules};
ghost use Rattle.module_grammar.specs.Sorts.{vocabulary};

/// Empty on purpose: its contract is the law.
///
/// The names of rules are their numbers in the grammar.
#[tactic(auto, using(crate::proofs::Named::rules_are_named))]
pub fn rules_are_named()
    ensures { RulesAreNamed }
{}

/// Empty on purpose: its contract is the law.
///
/// What each rule makes is seen where it begins, or where what it is made of does.
#[tactic(auto, using(crate::proofs::Seen::are_seen))]
pub fn rules_are_seen()
    ensures { AreSeen vocabulary seeing 0 rules }
{}

/// Empty on purpose: its contract is the law.
///
/// What stands in front of the marks of a text's derivation is what the text is written of, and nothing else is.
#[tactic(auto, using(crate::proofs::Derivations::derivations_mean))]
pub fn derivations_mean()
    ensures { DerivationsMean }
{}

/// Empty on purpose: its contract is the law.
///
/// The derivations of a type, of an expression and of a module, and what they mean.
#[tactic(auto, using(crate::proofs::Examples::marks_mean))]
pub fn examples_of_derivations()
    ensures { MarksMean }
{}
