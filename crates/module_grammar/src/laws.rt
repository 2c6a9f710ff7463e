ghost use Rattle.module_grammar.specs.AttributeExamples.{AttributesAreWritten};
ghost use Rattle.module_grammar.specs.BlockExamples.{BlocksAreWritten};
ghost use Rattle.module_grammar.specs.ConstantExamples.{ConstantsAreWritten};
ghost use Rattle.module_grammar.specs.GapExamples.{TextsAreLeftOut};
ghost use Rattle.module_grammar.specs.ItemExamples.{ItemsAreWritten};
ghost use Rattle.module_grammar.specs.Laws.{WritesOneTree};
ghost use Rattle.module_grammar.specs.LineExamples.{LinesAreWritten};
ghost use Rattle.module_grammar.specs.Sets.{sets};
ghost use Rattle.module_grammar.specs.Sorts.{AnyType, Called, DeclaredParams, Expr, GlobalName, LocalName, Module};
ghost use Rattle.module_grammar.specs.Tokens.{token_grammar};
ghost use Rattle.module_grammar.specs.TypeExamples.{TypesAreWritten};
ghost use Rattle.module_grammar.specs.WordExamples.{SymbolsAreSaid, WordsAreSaid, WordsStandOnce};
ghost use Rattle.predictive.specs.Predictive.{IsPredictive};

/// Empty on purpose: its contract is the law.
///
/// How types, constants, attributes, lines, blocks and items are written, with at least one example of each way.
#[tactic(auto, using(crate::proofs::WrittenExamples::types_are_written, crate::proofs::WrittenExamples::constants_are_written, crate::proofs::WrittenExamples::attributes_are_written, crate::proofs::WrittenExamples::lines_are_written, crate::proofs::WrittenExamples::blocks_are_written, crate::proofs::WrittenExamples::items_are_written))]
pub fn examples_of_writing()
    ensures types { TypesAreWritten }
    ensures constants { ConstantsAreWritten }
    ensures attributes { AttributesAreWritten }
    ensures lines { LinesAreWritten }
    ensures blocks { BlocksAreWritten }
    ensures items { ItemsAreWritten }
{}

/// Empty on purpose: its contract is the law.
///
/// One token ahead decides each choice of the grammar of tokens.
#[tactic(auto, using(crate::proofs::Predictive::is_predictive))]
pub fn grammar_is_predictive()
    ensures { IsPredictive token_grammar sets }
{}

/// Empty on purpose: its contract is the law.
///
/// Tokens are written of one tree, whatever they are read as.
#[tactic(auto, using(crate::proofs::OneTree::modules, crate::proofs::OneTree::expressions, crate::proofs::OneTree::locals, crate::proofs::OneTree::globals, crate::proofs::OneTree::types, crate::proofs::OneTree::called, crate::proofs::OneTree::declared))]
pub fn written_once()
    ensures modules { WritesOneTree Module }
    ensures expressions { WritesOneTree Expr }
    ensures locals { WritesOneTree LocalName }
    ensures globals { WritesOneTree GlobalName }
    ensures types { WritesOneTree AnyType }
    ensures called { WritesOneTree Called }
    ensures declared { WritesOneTree DeclaredParams }
{}

/// Empty on purpose: its contract is the law.
///
/// What words are in the grammar, none of which stands twice among them, and what symbols tokens are.
#[tactic(auto, using(crate::proofs::SaidExamples::words_are_said, crate::proofs::SaidExamples::symbols_are_said, crate::proofs::SaidExamples::words_stand_once))]
pub fn examples_of_words()
    ensures words { WordsAreSaid }
    ensures symbols { SymbolsAreSaid }
    ensures once { WordsStandOnce }
{}

/// Empty on purpose: its contract is the law.
///
/// What may stand where text isn't kept.
#[tactic(auto, using(crate::proofs::LeftOut::texts_are_left_out))]
pub fn examples_of_gaps()
    ensures { TextsAreLeftOut }
{}
