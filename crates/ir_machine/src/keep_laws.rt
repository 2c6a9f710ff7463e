ghost use Rattle.ir_machine.specs.KeepLaws.{StartsHaveIt, StepsKeepIt};
ghost use Rattle.ir_machine.specs.KeepExamples.{LostKeepsAreTold};

/// Empty on purpose: its contract is the law.
///
/// In each state that a run of a well-formed module comes to, values and bytes lie in their ranges, what isn't made is held by nothing, blocks of
/// frames are theirs alone, and those of the start are live, each under its name: each start has it, and each step keeps it.
pub fn what_is_kept()
    ensures starts { StartsHaveIt }
    ensures steps { StepsKeepIt }
{}

/// Empty on purpose: its contract is the law.
///
/// For each part of what is kept there is a state that fails in it.
pub fn states_that_are_not_kept()
    ensures { LostKeepsAreTold }
{}
