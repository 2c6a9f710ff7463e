ghost use Rattle.ir_machine.specs.CallLaws.{ArgumentsAreShownInOrder, CalleesAreFound, CallsAreToldApart, CallsGiveTheirValues, EndedSlotsAreNotReached, FramesAreApart, RecursionShowsOneResult, RepliesAreTaken, TheOutsideReachesWhatItIsShown, ToldRunsAreShown, UndefIsAnyArgument};

/// Empty on purpose: its contract is the law.
///
/// A call of a function that the module defines shows two turns and gives the value that is returned; callees have registers and slots of
/// their own.
#[tactic(auto, using(crate::proofs::Calls::calls_give_their_values, crate::proofs::Calls::callees_are_found, crate::proofs::Calls::recursion_shows_one_result, crate::proofs::Calls::frames_are_apart))]
pub fn examples_of_calls()
    ensures values { CallsGiveTheirValues }
    ensures callees { CalleesAreFound }
    ensures recursion { RecursionShowsOneResult }
    ensures frames { FramesAreApart }
{}

/// Empty on purpose: its contract is the law.
///
/// A call of the outside shows its arguments from the left and waits, while the outside reaches the blocks that it was shown, until it answers.
#[tactic(auto, using(crate::proofs::Calls::arguments_are_shown_in_order, crate::proofs::Calls::the_outside_reaches_what_it_is_shown, crate::proofs::Calls::replies_are_taken, crate::proofs::Calls::ended_slots_are_not_reached))]
pub fn examples_of_calls_of_the_outside()
    ensures order { ArgumentsAreShownInOrder }
    ensures reach { TheOutsideReachesWhatItIsShown }
    ensures replies { RepliesAreTaken }
    ensures slots { EndedSlotsAreNotReached }
{}

/// Empty on purpose: its contract is the law.
///
/// What a run shows that is told its choices the module shows.
pub fn told_runs_are_shown()
    ensures { ToldRunsAreShown }
{}

/// Empty on purpose: its contract is the law.
///
/// Modules that call the outside otherwise don't refine each other; an argument of undef may be any number.
pub fn refinement_sees_calls()
    ensures apart { CallsAreToldApart }
    ensures undef { UndefIsAnyArgument }
{}
