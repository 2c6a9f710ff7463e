//! The derivation of a text, with what stands around its names.
ghost use Rattle.std.specs.Prelude.{◌≡◌, ◌↔◌, ℕ, length, map, IfOk, IfErr};
ghost use Rattle.std.specs.List.{Contains};
ghost use Rattle.module_derivations.specs.FlatMarks.Flat.{mark_of};
ghost use Rattle.ir_lexer.specs.Cut.{AreInOrder};
ghost use Rattle.module_derivations.specs.Ahead.{ahead};
ghost use Rattle.module_derivations.specs.Empty.{made};
ghost use Rattle.module_grammar.specs.Spelled.{placed_in, symbol_in};
ghost use Rattle.module_grammar.specs.declared.words.Language.TheVariants.{Ir};
ghost use Rattle.token_context.specs.NameSurroundings.Told as around;
ghost use Rattle.module_texts.specs.Texts.{HasTokens, IsTextFault};
ghost use Rattle.ir_reader.specs.Read.{IsTreeOf};
ghost use Rattle.ir_reader.specs.Told as told;

use crate::faults::of_grammar;
use contents::Seq;
use derivation_writer::{Unread, read_module};
use ir_core::Limit;
use ir_lexer::{TextFault, Token};
use std::alloc::Global;
use token_context::{Around, kinds_in_context};

/// Why tokens are no tree, where those of these indices would be expected if what stands before them weren't too deep.
fn of_unread(text: &[u8], tokens: &[Token], deep: &[usize], why: Unread) -> TextFault
    ensures { result ≡ told.of_unread (map (placed_in text.now) tokens.now) (length text.now) deep.now why }
{
    match why {
        Unread::Stuck(place) => {
            if deep.contains(&place) {
                TextFault::Limit(Limit::Depth)
            } else {
                of_grammar(text, tokens, place)
            }
        }
        Unread::Limit(limit) => TextFault::Limit(limit),
    }
}

/// The marks of the derivation of the tokens of a text, with what stands around its names; or the tokens' first fault.
pub(crate) fn marks_in<'a>(
    alloc: Global,
    text: &'a [u8],
    tokens: &'a [Token],
) -> Result<(Seq<u32>, Around<'a>), TextFault>
    requires tokens { HasTokens text.now (map (placed_in text.now) tokens.now) }
    requires order { AreInOrder 0 (length text.now) tokens.now }
    ensures tree { IfOk result (λ read. IsTreeOf text.now (made (ahead (map (symbol_in Ir text.now) tokens.now) (map mark_of read.0))).whole (around.called read.1) (around.declared read.1)) }
    ensures fault { IfErr result (IsTextFault text.now) }
{
    let context = kinds_in_context(alloc, text, tokens)?;
    let kinds = context.kinds.as_slice();
    match read_module(alloc, kinds)? {
        Ok(marks) => {
            let around = Around::new(alloc, text, tokens, kinds)?;
            Ok((marks, around))
        }
        Err(why) => Err(of_unread(text, tokens, context.deep.as_slice(), why)),
    }
}
