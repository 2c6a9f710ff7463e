//! Single names.
ghost use Rattle.std.specs.Prelude.{◌≡◌, ◌≤◌, ◌<◌, length, map, IfOk, IfErr, Ok, Err};
ghost use Rattle.expression_reader.specs.Names.{IsNameFault, SpellsName, said_name};
ghost use Rattle.expression_reader.specs.ToldNames.{name_in};
ghost use Rattle.ir_core.specs.Limits.{text_limit};
ghost use Rattle.ir_lexer.specs.Said.{said_in};
ghost use Rattle.ir_lexer.specs.declared.fault.TextFault.TheVariants as fault;
ghost use Rattle.ir_types.specs.declared.names.Name.{Name};
ghost use Rattle.module_grammar.specs.Spelled.{placed_in};

use crate::laws::texts_spell_one_name;
use crate::texts::{of_token, read_tokens};
use ir_core::{Limit, Name, Sigil};
use ir_lexer::{TextFault, Token, TokenKind, says};
use std::alloc::{AllocError, Global};

/// The name behind the sigil that a token says, if it says one.
fn said_name(
    alloc: Global,
    sigil: Sigil,
    text: &[u8],
    token: &Token,
) -> Result<Option<Name>, AllocError>
    ensures { IfOk result (λ name. name ≡ said_name sigil (said_in text.now token.now)) }
{
    match (sigil, says(alloc, text, token)?) {
        (Sigil::Local, TokenKind::Local(name)) => Ok(Some(name)),
        (Sigil::Global, TokenKind::Global(name)) => Ok(Some(name)),
        _ => Ok(None),
    }
}

/// The name that the tokens of a text are, or the first of them that is not expected.
fn name_in(alloc: Global, sigil: Sigil, text: &[u8], tokens: &[Token]) -> Result<Name, TextFault>
    ensures name { IfOk result (λ name. name_in sigil (length text.now) (map (placed_in text.now) tokens.now) ≡ Ok name) }
    ensures fault { IfErr result (λ f. (f ≡ fault.Memory → ⊥) → name_in sigil (length text.now) (map (placed_in text.now) tokens.now) ≡ Err f) }
{
    let Some((token, more)) = tokens.split_first() else {
        return Err(TextFault::Expected(text.len()));
    };
    match said_name(alloc, sigil, text, token)? {
        None => Err(of_token(text, token)),
        Some(name) => match more.first() {
            None => Ok(name),
            Some(other) => Err(of_token(text, other)),
        },
    }
}

/// The name that the text spells, or its first fault.
fn name_of(alloc: Global, sigil: Sigil, text: &[u8]) -> Result<Name, TextFault>
    ensures spelled { IfOk result (λ name. SpellsName sigil text.now name) }
    ensures short { IfOk result (λ name. length text.now ≤ text_limit) }
    ensures fault { IfErr result (λ fault. IsNameFault sigil text.now fault) }
    ensures long { text_limit < length text.now → result ≡ Err (TextFault.Limit Limit.Text) }
{
    let tokens = read_tokens(alloc, text)?;
    name_in(alloc, sigil, text, tokens.as_slice())
}

/// The name that the text spells, with its sigil and nothing else.
///
/// # Errors
///
/// The first fault: of the text's length, else of its tokens, else of the first token that is not expected; or want of memory.
pub fn read_name(alloc: Global, sigil: Sigil, text: &[u8]) -> Result<Name, TextFault>
    ensures spelled { IfOk result (λ name. SpellsName sigil text.now name) }
    // The text spells no other name.
    ensures only { IfOk result (λ name. (other : Name) → SpellsName sigil text.now other → other ≡ name) }
    // Only texts of at most 2 to the 24 bytes are read.
    ensures short { IfOk result (λ name. length text.now ≤ text_limit) }
    ensures fault { IfErr result (λ fault. IsNameFault sigil text.now fault) }
    // A text of more than 2 to the 24 bytes is refused before anything grows.
    ensures long { text_limit < length text.now → result ≡ Err (TextFault.Limit Limit.Text) }
{
    texts_spell_one_name();
    name_of(alloc, sigil, text)
}
