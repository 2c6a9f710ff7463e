ghost use Rattle.std.specs.Prelude.{◌≡◌, ◌<◌, length, map, IfOk, IfErr, Err};
ghost use Rattle.ir_core.specs.Limits.{text_limit};
ghost use Rattle.ir_lexer.specs.Cut.{AreInOrder};
ghost use Rattle.module_grammar.specs.Spelled.{placed_in};
ghost use Rattle.module_texts.specs.Texts.{HasTokens, IsTextFault};

use crate::faults::of_lexer;
use ir_core::Limit;
use ir_lexer::{TextFault, Token, lex};
use std::alloc::Global;

/// The tokens of a text, or its first fault among them.
pub fn read_tokens(alloc: Global, text: &[u8]) -> Result<Vec<Token>, TextFault>
    ensures tokens { IfOk result (λ tokens. HasTokens text.now (map (placed_in text.now) tokens.items)) }
    ensures order { IfOk result (λ tokens. AreInOrder 0 (length text.now) tokens.items) }
    ensures fault { IfErr result (IsTextFault text.now) }
    ensures long { text_limit < length text.now → result ≡ Err (TextFault.Limit Limit.Text) }
{
    match lex(alloc, text) {
        Ok(tokens) => Ok(tokens),
        Err(fault) => Err(of_lexer(fault)),
    }
}
