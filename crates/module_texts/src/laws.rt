ghost use Rattle.module_texts.specs.Laws.{FaultsAreOne, FaultsExclude, ModulesAreOne};

use derivation_writer::marks_the_first;
use module_grammar::written_once;
use module_spelling::{called_names_stand, declared_names_stand};
use named_modules::named_trees_are_faultless;

/// The body calls laws alone, since the clause is a law.
///
/// A text spells one module.
pub fn texts_spell_one()
    ensures { ModulesAreOne }
{
    written_once();
    named_trees_are_faultless();
}

/// The body calls laws alone, since the clause is a law.
///
/// A text of at most 2 to the 24 bytes that has a fault spells nothing.
pub fn faults_and_spelling_exclude()
    ensures { FaultsExclude }
{
    written_once();
    named_trees_are_faultless();
    marks_the_first();
}

/// The body calls laws alone, since the clause is a law.
///
/// A text has one first fault at most: its kind, its place, and the length or the number that is told with it.
pub fn faults_are_one()
    ensures { FaultsAreOne }
{
    written_once();
    marks_the_first();
    called_names_stand();
    declared_names_stand();
}
