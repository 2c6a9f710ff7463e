ghost use Rattle.ir_machine.specs.Laws.{AddressesGiveThese, ConstantsRefineByValue, NumbersAreKept, NumbersStayDefined, UndefIsAnyNumber, PoisonIsNoNumber, WrongIsRefined, ArgumentsAreSeen, TrapsAreWrong, VoidReturnsAreShown, LinesGiveThese, StepsMakeRuns, RunsAreSteps, OneBlockRunsEnd, FirstsAreShown, StartsAreKept, RefinedRunsAreShown};
ghost use Rattle.ir_machine.specs.OutsideLaws.{ActsAreThese, ReturnsEndTheirBlocks, UndefBytesAreParts};
ghost use Rattle.ir_machine.specs.SlotLaws.{AccessesMayTrap, SlotsAreMemory, SlotsEndWithTheirFrames};
ghost use Rattle.ir_machine.specs.Reached.{NothingIsLost, StartsAreReached, StepsAreReached};
ghost use Rattle.ir_machine.specs.Reads.{ReadsAreSet};
ghost use Rattle.ir_machine.specs.Lost.{LostCallsAreTold, LostJumpsAreTold, UnsetIsTold};
ghost use Rattle.ir_machine.specs.FlowLaws.{JumpsAreTurns, PhisAreTakenAtOnce, FirstEntriesAreTaken, PhisWithoutEntriesArePoison, BranchesGo, SwitchesGo, EndsAreWrong};

/// Empty on purpose: its contract is the law.
///
/// Of modules that return a constant, one refines another exactly where the other's value is less defined.
pub fn constants_refine_by_value()
    ensures all { ConstantsRefineByValue }
    ensures other_number { NumbersAreKept }
    ensures no_number { NumbersStayDefined }
    ensures any_number { UndefIsAnyNumber }
{}

/// Empty on purpose: its contract is the law.
///
/// Poison isn't a number, and whatever is returned refines it; what is returned depends on the argument.
pub fn returns_are_told_apart()
    ensures poison { PoisonIsNoNumber }
    ensures wrong { WrongIsRefined }
    ensures argument { ArgumentsAreSeen }
{}

/// Empty on purpose: its contract is the law.
///
/// A division by 0 shows undefined behaviour and nothing else, and `ret void` a turn and that there is no result.
#[tactic(auto, using(crate::proofs::AtOnce::traps_are_wrong, crate::proofs::AtOnce::void_returns_are_shown))]
pub fn ends_are_shown_at_once()
    ensures traps { TrapsAreWrong }
    ensures void { VoidReturnsAreShown }
{}

/// Empty on purpose: its contract is the law.
///
/// A line gives what its operator gives, and poison where its types are none that the operator takes, or its indices lead to nothing that it
/// states.
pub fn examples_of_outcomes()
    ensures lines { LinesGiveThese }
    ensures addresses { AddressesGiveThese }
{}

/// Empty on purpose: its contract is the law.
///
/// What the outside may do while a call waits, and what it may not, by each choice; and that a return ends the blocks that its frame made.
#[tactic(auto, using(crate::proofs::Outside::acts_are_these, crate::proofs::Outside::undef_bytes_are_parts, crate::proofs::Outside::returns_end_their_blocks))]
pub fn examples_of_the_outside()
    ensures acts { ActsAreThese }
    ensures parts { UndefBytesAreParts }
    ensures returns { ReturnsEndTheirBlocks }
{}

/// Empty on purpose: its contract is the law.
///
/// What is stored in a slot is loaded from it, byte by byte; what is stored past its end, or read after its frame's end, is undefined
/// behaviour.
#[tactic(auto, using(crate::proofs::Slots::slots_are_memory, crate::proofs::Slots::accesses_may_trap, crate::proofs::Slots::slots_end_with_their_frames))]
pub fn examples_of_slots()
    ensures memory { SlotsAreMemory }
    ensures traps { AccessesMayTrap }
    ensures ends { SlotsEndWithTheirFrames }
{}

/// Empty on purpose: its contract is the law.
///
/// A module shows what the steps from its start show, one after the other.
pub fn runs_are_steps()
    ensures step { StepsMakeRuns }
    ensures all { RunsAreSteps }
{}

/// Empty on purpose: its contract is the law.
///
/// Where a module refines another, its runs are the other's, up to undefined behaviour.
pub fn refined_runs_are_shown()
    ensures start { StartsAreKept }
    ensures runs { RefinedRunsAreShown }
    ensures first { FirstsAreShown }
{}

/// Empty on purpose: its contract is the law.
///
/// A function of one block that has no phi and returns, and calls the outside alone, ends some run on each input that fits it.
pub fn one_block_runs_end()
    ensures { OneBlockRunsEnd }
{}

/// Empty on purpose: its contract is the law.
///
/// A jump shows a turn and sets all phis at once, one without an entry for the block that is left to poison. Numbers lead to their
/// labels and undef to any that is told. `unreachable` shows undefined behaviour and no turn, as does a branch on poison or a jump to
/// no block.
#[tactic(auto, using(crate::proofs::Flow::jumps_are_turns, crate::proofs::Flow::phis_are_taken_at_once, crate::proofs::Flow::phis_without_entries_are_poison, crate::proofs::Flow::branches_go, crate::proofs::Flow::switches_go, crate::proofs::Flow::ends_are_wrong))]
pub fn examples_of_control_flow()
    ensures turns { JumpsAreTurns }
    ensures at_once { PhisAreTakenAtOnce }
    ensures first_entry { FirstEntriesAreTaken }
    ensures no_entry { PhisWithoutEntriesArePoison }
    ensures branches { BranchesGo }
    ensures switches { SwitchesGo }
    ensures wrong { EndsAreWrong }
{}

/// Empty on purpose: its contract is the law.
///
/// In a module that has shape each jump finds its block, each phi there its entry, and each call what it calls. Where it is well-formed, no
/// register is read that isn't set, also behind a call that waits.
pub fn well_formed_runs_go_on()
    ensures found { NothingIsLost }
    ensures set { ReadsAreSet }
{}

/// Empty on purpose: its contract is the law.
///
/// A run's start is reached, and so is what a step of a reached state leads to.
#[tactic(auto, using(crate::proofs::Reaching::starts_are_reached, crate::proofs::Reaching::steps_are_reached))]
pub fn runs_reach_what_they_lead_to()
    ensures start { StartsAreReached }
    ensures step { StepsAreReached }
{}

/// Empty on purpose: its contract is the law.
///
/// A jump to no block is lost, and so is one to a block whose phi has no entry for the block that is left; a call of what isn't there is, too.
/// A register that isn't set is one that a step may not read: in a line, in a terminator or in a phi on the edge, nor behind a call that
/// doesn't set it.
pub fn lost_states_are_told()
    ensures jumps { LostJumpsAreTold }
    ensures calls { LostCallsAreTold }
    ensures reads { UnsetIsTold }
{}
