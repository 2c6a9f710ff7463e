ghost use Rattle.crell_program.specs.Examples.{HeadlinesAreOfTexts, PartsAreNotAll, ReadingsAreOne, StatusesOfExamples};
ghost use Rattle.crell_program.specs.FirstParts.{FailuresLeaveFirstParts, PartsAreFirst, PartsOfExamples};
ghost use Rattle.crell_program.specs.InMemory.{TextsWithinRoomFit};
ghost use Rattle.crell_program.specs.Judged.{RunsAreJudged, StillRunsHaveNoFault};
ghost use Rattle.crell_program.specs.MemoryRuns.{AbsentFilesAreTold, NoRoomFitsUsage, PairsAreAnswered, UsageWithinRoomFits};
ghost use Rattle.crell_program.specs.OneAnswer.{DueIsOne, StatusIsOne, UsageIsSaid, UsagesDifferOnErr};
ghost use Rattle.crell_program.specs.Statuses.{RefinementIsOfModules};

use crate::definition_text::lines_are_one;
use ir_reader::{first_faults_agree, module_faults_are_one};

/// Empty on purpose: its contract is the law.
///
/// Two texts are refined exactly where the modules are that they spell, each of them alone.
pub fn refinement_is_of_modules()
    ensures { RefinementIsOfModules }
{}

/// Empty on purpose: its contract is the law.
///
/// Where of each file of a command it is told that it is absent, or bytes that are judged, one of the premises holds under which the rows fix the
/// status; and where the counts of faults stay, below their last value, there is no fault.
pub fn runs_are_judged()
    ensures judged { RunsAreJudged }
    ensures no_fault { StillRunsHaveNoFault }
{}

/// Empty on purpose: its contract is the law.
///
/// Sinks in memory with room for an answer's texts are sure to take them.
pub fn texts_within_room_fit()
    ensures { TextsWithinRoomFit }
{}

/// Empty on purpose: its contract is the law.
///
/// Which statuses there are; what the headline says of told texts; that a hint file's text is read as one thing, and that a sink which
/// got a part of a text didn't get all of it.
pub fn answers_are_told_apart()
    ensures statuses { StatusesOfExamples }
    ensures headlines { HeadlinesAreOfTexts }
    ensures readings { ReadingsAreOne }
    ensures deliveries { PartsAreNotAll }
{}

/// The body calls laws alone, since the clauses are laws.
///
/// Where the shelf tells of each file of a command and counts no fault, one answer is due, its status and both of its texts. To words that are no
/// command's answers are due that differ on err alone, and there none is empty.
pub fn due_is_one()
    ensures commands { DueIsOne }
    ensures statuses { StatusIsOne }
    ensures others { UsagesDifferOnErr }
    ensures usage { UsageIsSaid }
{
    first_faults_agree();
    module_faults_are_one();
    lines_are_one();
}

/// Empty on purpose: its contract is the law.
///
/// A sink that failed holds a first part of its text behind what it held, and not all of it; where out failed err holds nothing more.
pub fn failed_sinks_hold_first_parts()
    ensures parts { PartsAreFirst }
    ensures failures { FailuresLeaveFirstParts }
    ensures examples { PartsOfExamples }
{}

/// Empty on purpose: its contract is the law.
///
/// Runs over texts in memory that meet the premises of `crell_in_memory`: over no file, and over three texts that are judged. To words that are no
/// command's texts of any length are due, so no room is sure to be enough for them; it was where err holds no more than its room.
pub fn memory_runs_meet_premises()
    ensures absent { AbsentFilesAreTold }
    ensures pairs { PairsAreAnswered }
    ensures usage { NoRoomFitsUsage }
    ensures shown { UsageWithinRoomFits }
{}
