//! The tokens of a text and the marks of their derivation, or the fault of one step as the fault of the text.
ghost use Rattle.std.specs.Prelude.{◌≡◌, ◌<◌, length, map, IfOk, IfErr, Err};
ghost use Rattle.expression_reader.specs.Expressions.{IsExpressionFault};
ghost use Rattle.expression_reader.specs.Names.{IsNameFault};
ghost use Rattle.expression_reader.specs.Told.{IsTreeOf};
ghost use Rattle.expression_reader.specs.ToldTypes as told;
ghost use Rattle.expression_reader.specs.Types.{IsTypeFault};
ghost use Rattle.module_derivations.specs.FlatMarks.Flat.{mark_of};
ghost use Rattle.ir_core.specs.Limits.{text_limit};
ghost use Rattle.ir_types.specs.declared.names.Sigil.{Sigil};
ghost use Rattle.module_derivations.specs.Ahead.{ahead};
ghost use Rattle.module_derivations.specs.Empty.{made};
ghost use Rattle.module_derivations.specs.Types.{any_type};
ghost use Rattle.module_grammar.specs.Spelled.{placed_in, symbol_in};
ghost use Rattle.module_grammar.specs.declared.words.Language.TheVariants.{Ir, Logic};
ghost use Rattle.module_texts.specs.Texts.{HasTokens};

use contents::Seq;
use derivation_writer::{Unread, read_expression, read_type};
use ir_core::Limit;
use ir_lexer::{LexFault, TextFault, Token, is_left_out, lex};
use module_grammar::Language;
use module_tokens::kinds_of;
use std::alloc::Global;

fn of_lexer(fault: LexFault) -> TextFault
    ensures { result ≡ told.of_lexer fault }
{
    match fault {
        LexFault::BadByte(place) => TextFault::BadByte(place),
        LexFault::BadString(place) => TextFault::BadString(place),
        LexFault::BadNumber(place) => TextFault::BadNumber(place),
        LexFault::Memory => TextFault::Memory,
        LexFault::Limit(limit) => TextFault::Limit(limit),
    }
}

/// A token of the text that is not expected.
pub(crate) fn of_token(text: &[u8], token: &Token) -> TextFault
    ensures { result ≡ told.of_token (placed_in text.now token.now) }
{
    let place = token.start as usize;
    let length = (token.end as usize).saturating_sub(place);
    if is_left_out(text, token) {
        TextFault::LeftOut { place, length }
    } else {
        TextFault::Expected(place)
    }
}

/// Why tokens are no type or expression: one of them is not expected, the text doesn't end there, or a limit is passed.
fn of_unread(text: &[u8], tokens: &[Token], why: Unread) -> TextFault
    ensures { result ≡ told.of_unread (map (placed_in text.now) tokens.now) (length text.now) why }
{
    match why {
        Unread::Stuck(place) => match tokens.get(place) {
            None => TextFault::Expected(text.len()),
            Some(token) => of_token(text, token),
        },
        Unread::Limit(limit) => TextFault::Limit(limit),
    }
}

/// The tokens of a text, or its first fault among them.
pub fn read_tokens(alloc: Global, text: &[u8]) -> Result<Vec<Token>, TextFault>
    ensures tokens { IfOk result (λ tokens. HasTokens text.now (map (placed_in text.now) tokens.items)) }
    ensures of_type { IfErr result (IsTypeFault text.now) }
    ensures of_expression { IfErr result (IsExpressionFault text.now) }
    ensures of_name { IfErr result (λ fault. (sigil : Sigil) → IsNameFault sigil text.now fault) }
    ensures long { text_limit < length text.now → result ≡ Err (TextFault.Limit Limit.Text) }
{
    match lex(alloc, text) {
        Ok(tokens) => Ok(tokens),
        Err(fault) => Err(of_lexer(fault)),
    }
}

/// The marks of the type that the tokens of a text are written of, or their first fault.
pub fn read_type_marks(alloc: Global, text: &[u8], tokens: &[Token]) -> Result<Seq<u32>, TextFault>
    requires { HasTokens text.now (map (placed_in text.now) tokens.now) }
    ensures tree { IfOk result (λ numbers. told.IsTreeOf text.now (any_type (ahead (map (symbol_in Ir text.now) tokens.now) (map mark_of numbers)))) }
    ensures fault { IfErr result (IsTypeFault text.now) }
{
    let kinds = kinds_of(alloc, Language::Ir, text, tokens)?;
    match read_type(alloc, kinds.as_slice())? {
        Ok(numbers) => Ok(numbers),
        Err(why) => Err(of_unread(text, tokens, why)),
    }
}

/// The marks of the expression that the tokens of a text are written of, or their first fault.
pub fn read_expression_marks(
    alloc: Global,
    text: &[u8],
    tokens: &[Token],
) -> Result<Seq<u32>, TextFault>
    requires { HasTokens text.now (map (placed_in text.now) tokens.now) }
    ensures tree { IfOk result (λ numbers. IsTreeOf text.now (made (ahead (map (symbol_in Logic text.now) tokens.now) (map mark_of numbers))).expr) }
    ensures fault { IfErr result (IsExpressionFault text.now) }
{
    let kinds = kinds_of(alloc, Language::Logic, text, tokens)?;
    match read_expression(alloc, kinds.as_slice())? {
        Ok(numbers) => Ok(numbers),
        Err(why) => Err(of_unread(text, tokens, why)),
    }
}
