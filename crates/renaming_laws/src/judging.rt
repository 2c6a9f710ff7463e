ghost use Rattle.renaming_laws.specs.Judged.{FunctionsAreJudged, TextsAreJudged};
ghost use Rattle.renaming_laws.specs.Ways.{WaysHaveAFirst};

use definedness::{shape_knows_labels, undefined_uses_are_faults};
use ir_shape::faultless_modules_have_shape;
use module_texts::{each_text_is_judged, spelled_modules_are_in_range, spelled_modules_are_within};

/// Empty on purpose: its contract is the law.
///
/// To a node of a graph no way leads that passes no closed node, or one of these ways is the first.
pub fn ways_have_a_first()
    ensures { WaysHaveAFirst }
{}

/// Empty on purpose: its contract is the law.
///
/// A function whose labels are known is defined, or has a first use that isn't, with the first path to it.
pub fn functions_are_judged()
    ensures { FunctionsAreJudged }
{}

/// The body calls laws alone, since the clause is a law.
///
/// A text of at most 2 to the 24 bytes spells a well-formed module, or something is first at fault in it; in a longer one that is its length.
pub fn texts_are_judged()
    ensures { TextsAreJudged }
{
    shape_knows_labels();
    undefined_uses_are_faults();
    functions_are_judged();
    faultless_modules_have_shape();
    spelled_modules_are_in_range();
    spelled_modules_are_within();
    each_text_is_judged();
}
