//! What words are, as `module_grammar/specs/Words.antt` has it.
ghost use Rattle.std.specs.Prelude.{◌≡◌};
ghost use Rattle.module_grammar.specs.declared.words.Language.TheVariants.{Logic};
ghost use Rattle.module_grammar.specs.Words as said;

use crate::table::named_word;
use crate::widths::width_of;
use module_grammar::{KeyWord, Language, Word};

/// What a word is in textual IR.
#[inline(always)]
#[tactic(auto, unfolding(module_grammar::specs::Words::word_said, crate::specs::Slots::said_named))]
fn word_said(word: &[u8]) -> Word
    ensures { result ≡ said.word_said word.now }
{
    match width_of(word) {
        Some(width) => Word::Width(width),
        None => named_word(word),
    }
}

/// What a word is in the logic's expressions.
#[inline(never)]
fn logic_word(word: &[u8]) -> Word
    ensures { result ≡ said.word_of Logic word.now }
{
    if word == b"old".as_slice() {
        Word::Key(KeyWord::Old)
    } else if word == b"ghost".as_slice() {
        Word::Key(KeyWord::Ghost)
    } else {
        word_said(word)
    }
}

/// What a word is in a text of the language.
#[inline(always)]
pub fn word_of(language: Language, word: &[u8]) -> Word
    ensures { result ≡ said.word_of language word.now }
{
    match language {
        Language::Ir => word_said(word),
        Language::Logic => logic_word(word),
    }
}
