ghost use Rattle.ir_rename.specs.Named.{named_all};
ghost use Rattle.ir_rename.specs.Numbered.{numbered_in_order};
ghost use Rattle.renaming_laws.specs.Kept.{DefinednessStays, FunctionNamesStay, LimitsStay, NamesStayApart, RangeStays, ShapeStays, WellFormednessStays};
ghost use Rattle.renaming_laws.specs.Laws.{CanBeRead, CanBeRun, FreshNamesAreOne, GivesOrder, KeepsDefined, KeepsNamesInRange, KeepsRange, KeepsShape, KeepsWellFormed, NamedHaveNoNumbers, NamingAgainChangesNothing, NumberingAgainChangesNothing, SpelledAreInOrder, SpelledCanBeRead, SpelledCanBeRun, TextsStay};

use ir_rename::{
    named_functions_are_renamed, numbered_functions_are_renamed, renamed_functions_keep_their_shape,
};
use module_texts::{spelled_modules_are_in_range, spelled_modules_are_within};
use printed_modules::printed_modules_are_read;

/// The body calls a law alone, since the clauses are laws.
///
/// Under whatever other names a module keeps its shape, passes no limit that it didn't pass, and what it uses goes on to be defined; where
/// the names are in range, so is the module. So it stays well-formed.
pub fn renamed_modules_stay_well_formed()
    ensures names { FunctionNamesStay }
    ensures apart { NamesStayApart }
    ensures shape { ShapeStays }
    ensures defined { DefinednessStays }
    ensures range { RangeStays }
    ensures limits { LimitsStay }
    ensures well { WellFormednessStays }
{
    renamed_functions_keep_their_shape();
}

/// The body calls laws alone, since the clauses are laws.
///
/// A module that is named is in range where it was, in order where the names of its functions are, and well-formed where it was.
pub fn named_modules_stay_well_formed()
    ensures names { KeepsNamesInRange named_all }
    ensures range { KeepsRange named_all }
    ensures order { GivesOrder named_all }
    ensures shape { KeepsShape named_all }
    ensures defined { KeepsDefined named_all }
    ensures well { KeepsWellFormed named_all }
{
    named_functions_are_renamed();
    renamed_modules_stay_well_formed();
}

/// The body calls laws alone, since the clauses are laws.
///
/// The same of a module that is numbered. No premise bounds how many names it has: names in range that differ have at most 2 to the 32
/// numbers among them.
pub fn numbered_modules_stay_well_formed()
    ensures names { KeepsNamesInRange numbered_in_order }
    ensures range { KeepsRange numbered_in_order }
    ensures order { GivesOrder numbered_in_order }
    ensures shape { KeepsShape numbered_in_order }
    ensures defined { KeepsDefined numbered_in_order }
    ensures well { KeepsWellFormed numbered_in_order }
{
    numbered_functions_are_renamed();
    renamed_modules_stay_well_formed();
}

/// The body calls laws alone, since the clauses are laws.
///
/// What a text spells, and can be run, is named and printed as a text that spells what was named, and that can be run. So is whatever
/// well-formed module whose named types, globals and functions have their names in order. Where it has shape, is in range and passes no limit, it
/// is read at least.
pub fn named_modules_can_be_run()
    ensures read { CanBeRead named_all }
    ensures run { CanBeRun named_all }
    ensures spelled { SpelledCanBeRun named_all }
{
    named_functions_are_renamed();
    renamed_modules_stay_well_formed();
    named_modules_stay_well_formed();
    printed_modules_are_read();
}

/// The body calls laws alone, since the clauses are laws.
///
/// The same of what is numbered and printed.
pub fn numbered_modules_can_be_run()
    ensures read { CanBeRead numbered_in_order }
    ensures run { CanBeRun numbered_in_order }
    ensures spelled { SpelledCanBeRun numbered_in_order }
{
    numbered_functions_are_renamed();
    renamed_modules_stay_well_formed();
    numbered_modules_stay_well_formed();
    printed_modules_are_read();
}

/// The body calls laws alone, since the clauses are laws.
///
/// Whatever a text spells that has shape is named, or numbered, and printed as a text that spells what was named, or numbered. (A name of debugging
/// may stand in a module without shape, where it is dropped as it is read again.)
pub fn spelled_modules_are_renamed()
    ensures named { SpelledCanBeRead named_all }
    ensures numbered { SpelledCanBeRead numbered_in_order }
{
    named_modules_can_be_run();
    numbered_modules_can_be_run();
    spelled_modules_are_in_range();
    spelled_modules_are_within();
}

/// Empty on purpose: its contract is the law.
///
/// A module that a text spells has its names in the order of the file: those of its named types, those of its globals and functions together, and
/// those of each function.
pub fn spelled_modules_are_in_order()
    ensures { SpelledAreInOrder }
{}

/// The body calls a law alone, since the clauses are laws.
///
/// To name or number a module again changes nothing, nor does numbering what is named.
pub fn renaming_again_changes_nothing()
    ensures texts { TextsStay }
    ensures named { NamingAgainChangesNothing }
    ensures numbered { NumberingAgainChangesNothing }
    ensures both { NamedHaveNoNumbers }
{
    named_functions_are_renamed();
}

/// Empty on purpose: its contract is the law.
///
/// A text has one free name, beside whatever is taken.
pub fn fresh_names_are_one()
    ensures { FreshNamesAreOne }
{}
