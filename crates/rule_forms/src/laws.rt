ghost use Rattle.rule_forms.specs.Wrong.{WrongFormsAreUnlawful};

/// Empty on purpose: its contract is the law.
///
/// Forms that are nearly right are not lawful: each fails of some numbers.
#[tactic(auto, using(crate::proofs::Counterexamples::wrong_forms_fail))]
pub fn wrong_forms_are_unlawful()
    ensures { WrongFormsAreUnlawful }
{}
