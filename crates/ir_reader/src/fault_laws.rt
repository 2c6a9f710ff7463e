ghost use Rattle.ir_reader.specs.Laws.{FaultsAreOfOneKind, FaultsExcludeModules, ModuleFaultsAreOne};

use definedness::{first_undefined_is_one, shape_knows_labels};
use ir_shape::{faultless_modules_have_shape, modules_with_shape_are_faultless};
use module_texts::{faults_and_spelling_exclude, faults_are_one, texts_spell_one};

/// The body calls laws alone, since the clauses are laws.
///
/// The first faults of a text of at most 2 to the 24 bytes are of one kind, and a text that has one spells no well-formed module.
pub fn first_faults_agree()
    ensures kinds { FaultsAreOfOneKind }
    ensures spelled { FaultsExcludeModules }
{
    texts_spell_one();
    faults_and_spelling_exclude();
    faults_are_one();
    modules_with_shape_are_faultless();
}

/// The body calls laws alone, since the clause is a law.
///
/// A text of at most 2 to the 24 bytes has one first fault, with all that is told of it.
pub fn module_faults_are_one()
    ensures { ModuleFaultsAreOne }
{
    texts_spell_one();
    faults_and_spelling_exclude();
    faults_are_one();
    faultless_modules_have_shape();
    shape_knows_labels();
    first_undefined_is_one();
}
