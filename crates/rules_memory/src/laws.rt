ghost use Rattle.rules_memory.specs.Examples as example;

/// Empty on purpose: its contract is the law.
///
/// What the rules take and what they don't: an example of each case.
#[tactic(auto, using(crate::proofs::Examples::gep_zero_takes_these, crate::proofs::Examples::noalias_unique_takes_these, crate::proofs::Examples::noalias_swap_takes_these, crate::proofs::Examples::noalias_derived_takes_these, crate::proofs::Examples::noalias_globals_takes_these, crate::proofs::Examples::private_derived_takes_these, crate::proofs::Examples::ok_align_takes_these, crate::proofs::Examples::ok_cast_takes_these, crate::proofs::Examples::ok_global_takes_these, crate::proofs::Examples::load_align_takes_these, crate::proofs::Examples::load_ok_takes_these))]
pub fn examples_of_rules()
    ensures gep_zero { example.GepZeroTakesThese }
    ensures noalias_unique { example.NoAliasUniqueTakesThese }
    ensures noalias_swap { example.NoAliasSwapTakesThese }
    ensures noalias_derived { example.NoAliasDerivedTakesThese }
    ensures noalias_globals { example.NoAliasGlobalsTakesThese }
    ensures private_derived { example.PrivateDerivedTakesThese }
    ensures ok_align { example.OkAlignTakesThese }
    ensures ok_cast { example.OkCastTakesThese }
    ensures ok_global { example.OkGlobalTakesThese }
    ensures load_align { example.LoadAlignTakesThese }
    ensures load_ok { example.LoadOkTakesThese }
{}
