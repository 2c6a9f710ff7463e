ghost use Rattle.judged_runs.specs.HintFiles.{HintFilesAreJudged};
ghost use Rattle.judged_runs.specs.Runs.{ToldRunsAreJudged};

use crell_program::runs_are_judged;
use hint_format::hint_files_are_read;
use renaming_laws::texts_are_judged;

/// The body calls a law alone, since the clause is a law.
///
/// The bytes of a hint file are those of hints, or something is first at fault in them.
pub fn hint_files_are_judged()
    ensures { HintFilesAreJudged }
{
    hint_files_are_read();
}

/// The body calls laws alone, since the clause is a law.
///
/// Where of each file of a command it is told that it is absent, or which bytes it has, one of the premises holds under which the rows of
/// `crell_program` fix the status.
pub fn told_runs_are_judged()
    ensures { ToldRunsAreJudged }
{
    texts_are_judged();
    hint_files_are_judged();
    runs_are_judged();
}
