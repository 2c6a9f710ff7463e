ghost use Rattle.module_texts.specs.JudgedTexts.Laws.{EachTextIsJudged};

use derivation_writer::marks_the_first;
use module_grammar::written_once;
use module_spelling::{
    called_names_stand, declared_names_stand, names_rest_on_these_alone, within_trees_are_short,
};
use named_modules::faultless_trees_name_what_is_built;

/// The body calls laws alone, since the clause is a law.
///
/// Each text is at most 2 to the 24 bytes long and spells a module, or something is first at fault in it that can be told, and is no want of
/// memory. With `crate::faults_and_spelling_exclude` it is one of both alone.
pub fn each_text_is_judged()
    ensures { EachTextIsJudged }
{
    written_once();
    marks_the_first();
    faultless_trees_name_what_is_built();
    within_trees_are_short();
    called_names_stand();
    declared_names_stand();
    names_rest_on_these_alone();
}
