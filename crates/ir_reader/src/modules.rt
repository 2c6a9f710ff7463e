ghost use Rattle.std.specs.Prelude.{◌≡◌, ◌≤◌, ◌<◌, ℕ, length, map, IfOk, IfErr, Err};
ghost use Rattle.ir_core.specs.declared.modules.Module.{Module};
ghost use Rattle.ir_core.specs.Limits.{text_limit};
ghost use Rattle.ir_lexer.specs.Cut.{AreInOrder};
ghost use Rattle.module_grammar.specs.Spelled.{placed_in};
ghost use Rattle.module_spelling.specs.Spells.{Spells};
ghost use Rattle.module_texts.specs.Texts.{HasTokens, IsTextFault};

use crate::derivations::marks_in;
use crate::faults::of_names;
use crate::naming::name_derivation;
use crate::tokens::read_tokens;
use derivation_cursor::Cursor;
use ir_core::{Limit, Module};
use ir_lexer::{TextFault, Token};
use module_grammar::Language;
use module_spelling::{
    called_names_stand, declared_names_stand, names_rest_on_these_alone, within_trees_are_short,
};
use module_texts::texts_spell_one;
use named_modules::faultless_trees_name_what_is_built;
use std::alloc::Global;

/// The module that the tokens of a text spell, or their first fault.
fn module_of(alloc: Global, text: &[u8], tokens: &[Token]) -> Result<Module, TextFault>
    requires tokens { HasTokens text.now (map (placed_in text.now) tokens.now) }
    requires order { AreInOrder 0 (length text.now) tokens.now }
    ensures spelled { IfOk result (λ m. Spells text.now m) }
    ensures fault { IfErr result (λ fault. IsTextFault text.now fault) }
{
    faultless_trees_name_what_is_built();
    within_trees_are_short();
    called_names_stand();
    declared_names_stand();
    names_rest_on_these_alone();
    let (marks, around) = marks_in(alloc, text, tokens)?;
    let c = Cursor {
        language: Language::Ir,
        text,
        tokens,
        numbers: marks.as_slice(),
    };
    match name_derivation(alloc, &c, &around)? {
        Ok(module) => Ok(module),
        Err(misnamed) => Err(of_names(misnamed)),
    }
}

/// The module that the text spells, or its first fault.
fn module_in(alloc: Global, text: &[u8]) -> Result<Module, TextFault>
    ensures spelled { IfOk result (λ m. Spells text.now m) }
    ensures short { IfOk result (λ m. length text.now ≤ text_limit) }
    ensures fault { IfErr result (λ fault. IsTextFault text.now fault) }
    ensures long { text_limit < length text.now → result ≡ Err (TextFault.Limit Limit.Text) }
{
    let tokens = read_tokens(alloc, text)?;
    module_of(alloc, text, tokens.as_slice())
}

/// The module that the text spells. That each name is defined before it is used on every path is not tested here, nor is the
/// module's shape.
///
/// # Errors
///
/// The first fault: of the text's length, else of its tokens, else of the grammar and the limits on depths and lines, else of names and
/// types and the limit on blocks; or want of memory.
pub fn read_module(alloc: Global, text: &[u8]) -> Result<Module, TextFault>
    ensures spelled { IfOk result (λ m. Spells text.now m) }
    // The text spells no other module.
    ensures only { IfOk result (λ m. (other : Module) → Spells text.now other → other ≡ m) }
    // Only texts of at most 2 to the 24 bytes are read.
    ensures short { IfOk result (λ m. length text.now ≤ text_limit) }
    ensures fault { IfErr result (λ fault. IsTextFault text.now fault) }
    // A text of more than 2 to the 24 bytes is refused before anything grows.
    ensures long { text_limit < length text.now → result ≡ Err (TextFault.Limit Limit.Text) }
{
    texts_spell_one();
    module_in(alloc, text)
}
