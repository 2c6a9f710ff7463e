ghost use Rattle.predictive.specs.Fillings.{GapsAreFilled};

/// Empty on purpose: its contract is the law.
///
/// What fills a gap, and what doesn't: the gap itself stands in no text.
#[tactic(auto, using(crate::proofs::Zeros::gaps_are_filled))]
pub fn examples_of_fillings()
    ensures { GapsAreFilled }
{}
