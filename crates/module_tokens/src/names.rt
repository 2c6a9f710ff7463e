ghost use Rattle.std.specs.Prelude.{◌≡◌, IfOk, drop};
ghost use Rattle.ir_core.specs.Functions.{is_debug};
ghost use Rattle.ir_lexer.specs.Bytes.{begins_with_quote};
ghost use Rattle.ir_lexer.specs.Said.{bytes_of, name_said, said_in};
ghost use Rattle.ir_lexer.specs.declared.token.Kind.TheVariants as kind;
ghost use Rattle.module_tokens.specs.Tokens.{begins_debug, is_plain_debug, says_debug};

use ir_core::Name;
use ir_lexer::{Token, TokenKind, are_digits, bytes_of, says};
use std::alloc::{AllocError, Global};

fn begins_debug(bytes: &[u8]) -> bool
    ensures { result ≡ begins_debug bytes.now }
{
    bytes.starts_with(b"llvm.dbg.")
}

fn is_debug(name: &Name) -> bool
    ensures { result ≡ is_debug name.now }
{
    match name {
        Name::Text(bytes) => begins_debug(bytes.as_slice()),
        Name::Number(_) => false,
    }
}

/// Whether a name without quotes is one of debugging.
fn is_plain_debug(bytes: &[u8]) -> bool
    ensures { result ≡ is_plain_debug bytes.now }
{
    begins_debug(bytes) && !are_digits(bytes)
}

fn begins_with_quote(bytes: &[u8]) -> bool
    ensures { result ≡ begins_with_quote bytes.now }
{
    match bytes.split_first() {
        Some((first, _)) => *first == b'"',
        None => false,
    }
}

/// Whether the token says a global name of debugging.
fn says_debug(alloc: Global, text: &[u8], token: &Token) -> Result<bool, AllocError>
    ensures { IfOk result (λ is. is ≡ says_debug (said_in text.now token.now)) }
{
    match says(alloc, text, token)? {
        TokenKind::Global(name) => Ok(is_debug(&name)),
        _ => Ok(false),
    }
}

/// What stands behind the sigil.
fn without_sigil(bytes: &[u8]) -> &[u8]
    ensures { result.now ≡ drop 1 bytes.now }
{
    match bytes.split_first() {
        Some((_, name)) => name,
        None => bytes,
    }
}

/// Whether the global name that the token says is one of debugging. Only a name in quotes is copied.
pub fn is_debug_global(alloc: Global, text: &[u8], token: &Token) -> Result<bool, AllocError>
    requires { token.now.kind ≡ kind.Global }
    ensures { IfOk result (λ is. is ≡ is_debug (name_said (drop 1 (bytes_of text.now token.now)))) }
{
    let name = without_sigil(bytes_of(text, token));
    if begins_with_quote(name) {
        says_debug(alloc, text, token)
    } else {
        Ok(is_plain_debug(name))
    }
}
