//! Single types and single expressions of the logic.
ghost use Rattle.std.specs.Prelude.{◌≡◌, ◌≤◌, ◌<◌, length, IfOk, IfErr, Err};
ghost use Rattle.derivation_cursor.specs.At.{ahead_of};
ghost use Rattle.expression_reader.specs.Expressions.{IsExpressionFault, SpellsExpression};
ghost use Rattle.expression_reader.specs.Told as told;
ghost use Rattle.expression_reader.specs.ToldTypes.{IsTreeOf};
ghost use Rattle.expression_reader.specs.Types.{IsTypeFault, SpellsType};
ghost use Rattle.ir_core.specs.Expressions.{Expr0};
ghost use Rattle.ir_core.specs.Limits.{text_limit};
ghost use Rattle.ir_types.specs.declared.ty.Ty.{Ty};
ghost use Rattle.module_derivations.specs.Empty.{made};
ghost use Rattle.module_derivations.specs.Types.{any_type};

use crate::laws::{texts_spell_one_expression, texts_spell_one_type};
use crate::ranges::{first_of_counts, first_of_ranges};
use crate::texts::{read_expression_marks, read_tokens, read_type_marks};
use derivation_cursor::Cursor;
use fault_walk::noted_faults_come_first;
use ir_core::{Expr0, Limit, Ty};
use ir_lexer::TextFault;
use module_grammar::Language;
use std::alloc::Global;

/// The type that is ahead in the text, or the first fault of its counts.
fn type_ahead(alloc: Global, c: Cursor) -> Result<Ty, TextFault>
    requires { IsTreeOf c.text.now (any_type (ahead_of c)) }
    ensures spelled { IfOk result (λ t. SpellsType c.entry.text.now t) }
    ensures fault { IfErr result (λ fault. IsTypeFault c.entry.text.now fault) }
{
    noted_faults_come_first();
    let mut c = c;
    match first_of_counts(alloc, c.fork())? {
        None => Ok(module_walk::read_type(alloc, &mut c)?),
        Some(fault) => Err(TextFault::WrongType(fault.start)),
    }
}

/// The type that the text spells, or its first fault.
fn type_in(alloc: Global, text: &[u8]) -> Result<Ty, TextFault>
    ensures spelled { IfOk result (λ t. SpellsType text.now t) }
    ensures short { IfOk result (λ t. length text.now ≤ text_limit) }
    ensures fault { IfErr result (λ fault. IsTypeFault text.now fault) }
    ensures long { text_limit < length text.now → result ≡ Err (TextFault.Limit Limit.Text) }
{
    let tokens = read_tokens(alloc, text)?;
    let numbers = read_type_marks(alloc, text, tokens.as_slice())?;
    let c = Cursor {
        language: Language::Ir,
        text,
        tokens: tokens.as_slice(),
        numbers: numbers.as_slice(),
    };
    type_ahead(alloc, c)
}

/// The type that the text spells. Names in it stand as they are.
///
/// # Errors
///
/// The first fault: of the text's length, else of its tokens, else of the grammar and the limit on depths, else of the counts of arrays; or
/// want of memory.
pub fn read_type(alloc: Global, text: &[u8]) -> Result<Ty, TextFault>
    ensures spelled { IfOk result (λ t. SpellsType text.now t) }
    // The text spells no other type.
    ensures only { IfOk result (λ t. (other : Ty) → SpellsType text.now other → other ≡ t) }
    // Only texts of at most 2 to the 24 bytes are read.
    ensures short { IfOk result (λ t. length text.now ≤ text_limit) }
    ensures fault { IfErr result (λ fault. IsTypeFault text.now fault) }
    // A text of more than 2 to the 24 bytes is refused before anything grows.
    ensures long { text_limit < length text.now → result ≡ Err (TextFault.Limit Limit.Text) }
{
    texts_spell_one_type();
    type_in(alloc, text)
}

/// The expression that is ahead in the text, or the first thing that is out of range in it.
fn expression_ahead(alloc: Global, c: Cursor) -> Result<Expr0, TextFault>
    requires { told.IsTreeOf c.text.now (made (ahead_of c)).expr }
    ensures spelled { IfOk result (λ e. SpellsExpression c.entry.text.now e) }
    ensures fault { IfErr result (λ fault. IsExpressionFault c.entry.text.now fault) }
{
    noted_faults_come_first();
    let mut c = c;
    match first_of_ranges(alloc, c.fork())? {
        None => Ok(module_walk::read_expression(alloc, &mut c)?),
        Some(fault) => Err(TextFault::WrongType(fault.start)),
    }
}

/// The expression that the text spells, or its first fault.
fn expression_in(alloc: Global, text: &[u8]) -> Result<Expr0, TextFault>
    ensures spelled { IfOk result (λ e. SpellsExpression text.now e) }
    ensures short { IfOk result (λ e. length text.now ≤ text_limit) }
    ensures fault { IfErr result (λ fault. IsExpressionFault text.now fault) }
    ensures long { text_limit < length text.now → result ≡ Err (TextFault.Limit Limit.Text) }
{
    let tokens = read_tokens(alloc, text)?;
    let numbers = read_expression_marks(alloc, text, tokens.as_slice())?;
    let c = Cursor {
        language: Language::Logic,
        text,
        tokens: tokens.as_slice(),
        numbers: numbers.as_slice(),
    };
    expression_ahead(alloc, c)
}

/// The expression of the logic that the text spells: over registers as they are now, old ones (`old %x`) and ghosts (`ghost %x`). Names in it
/// stand as they are, and so do its types; that of an address is kept as it follows where no name has fields.
///
/// # Errors
///
/// The first fault: of the text's length, else of its tokens, else of the grammar and the limit on depths, else of numbers, counts of arrays and
/// alignments that are out of range; or want of memory.
pub fn read_expr(alloc: Global, text: &[u8]) -> Result<Expr0, TextFault>
    ensures spelled { IfOk result (λ e. SpellsExpression text.now e) }
    // The text spells no other expression.
    ensures only { IfOk result (λ e. (other : Expr0) → SpellsExpression text.now other → other ≡ e) }
    // Only texts of at most 2 to the 24 bytes are read.
    ensures short { IfOk result (λ e. length text.now ≤ text_limit) }
    ensures fault { IfErr result (λ fault. IsExpressionFault text.now fault) }
    // A text of more than 2 to the 24 bytes is refused before anything grows.
    ensures long { text_limit < length text.now → result ≡ Err (TextFault.Limit Limit.Text) }
{
    texts_spell_one_expression();
    expression_in(alloc, text)
}
