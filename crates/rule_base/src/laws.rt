ghost use Rattle.rule_base.specs.Examples as example;

/// Empty on purpose: its contract is the law.
///
/// What rules take and what they don't: an example of each case. Names with one twice among them don't stand apart.
#[tactic(auto, using(crate::proofs::Examples::refl_takes_these, crate::proofs::Examples::undef_const_takes_these, crate::proofs::Examples::subst_takes_these, crate::proofs::Examples::drop_flags_takes_these, crate::proofs::Examples::fold_takes_these, crate::proofs::Examples::these_stand_apart))]
pub fn examples_of_rules()
    ensures refl { example.ReflTakesThese }
    ensures undef_const { example.UndefConstTakesThese }
    ensures subst { example.SubstTakesThese }
    ensures drop_flags { example.DropFlagsTakesThese }
    ensures fold { example.FoldTakesThese }
    ensures names { example.TheseStandApart }
{}
