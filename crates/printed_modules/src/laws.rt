ghost use Rattle.printed_modules.specs.Laws.{PrintedModulesAreRead, PrintingAgainChangesNothing, SpelledModulesAreApart, SpelledModulesArePrinted};

use module_texts::{spelled_modules_are_in_range, spelled_modules_are_within, texts_spell_one};

/// Empty on purpose: its contract is the law.
///
/// A printed module spells that module, however long its text is: one whose names are in the order of the file, that has shape, is in
/// range and passes no limit.
pub fn printed_modules_are_read()
    ensures { PrintedModulesAreRead }
{}

/// The body calls laws alone, since the clauses are laws.
///
/// Each module of shape that a text spells is printed as a text that spells that module. So printing it again gives the same bytes,
/// and no two such modules are printed alike.
pub fn spelled_modules_are_printed()
    ensures read { SpelledModulesArePrinted }
    ensures again { PrintingAgainChangesNothing }
    ensures apart { SpelledModulesAreApart }
{
    texts_spell_one();
    spelled_modules_are_in_range();
    spelled_modules_are_within();
}
