ghost use Rattle.std.specs.Prelude.{◌≡◌, IfOk, string_bytes};
ghost use Rattle.std.specs.Str.{IsAscii};
ghost use Rattle.serde_json.specs.Data.{string};
ghost use Rattle.serde_json.specs.View.{view};
ghost use Rattle.hint_format.specs.Form.{printed_access, printed_fact, printed_lone, printed_pair};
ghost use Rattle.ir_printer.specs.ExpressionPrinter.Printed.{printed_expr, printed_register, printed_type};

use erhl_assert::Fact;
use ir_core::{Expr0, Reg, Ty};
use ir_printer::{print_expr, print_register, print_type};
use serde_json::Value;
use std::alloc::{AllocError, Global};

/// The fact as a JSON array, `["ge","i32 undef","i32 7"]`.
pub fn print_fact(alloc: Global, fact: &Fact) -> Result<Vec<u8>, AllocError>
    ensures { IfOk result (λ text. text.items ≡ printed_fact fact.now) }
{
    match fact {
        Fact::LessDef(greater, lesser) => print_pair(alloc, "ge", greater, lesser),
        Fact::Unique(register) => print_lone(alloc, "unique", register),
        Fact::Private(register) => print_lone(alloc, "private", register),
        Fact::NoAlias(a, b) => print_pair(alloc, "noalias", a, b),
        Fact::Ok(address, ty, align) => print_access(alloc, address, ty, *align),
    }
}

/// Two expressions behind a word.
fn print_pair(alloc: Global, word: &str, a: &Expr0, b: &Expr0) -> Result<Vec<u8>, AllocError>
    ensures { IfOk result (λ text. text.items ≡ printed_pair word.now a.now b.now) }
{
    let word = Value::String(String::from_str(alloc, word)?);
    let a = text_value(alloc, a)?;
    let b = text_value(alloc, b)?;
    let items = Value::Array(vec![in alloc; word, a, b]?);
    Ok(items.to_string(alloc)?.into_bytes())
}

/// A register behind a word.
fn print_lone(alloc: Global, word: &str, register: &Reg) -> Result<Vec<u8>, AllocError>
    ensures { IfOk result (λ text. text.items ≡ printed_lone word.now register.now) }
{
    let word = Value::String(String::from_str(alloc, word)?);
    let register = register_value(alloc, register)?;
    let items = Value::Array(vec![in alloc; word, register]?);
    Ok(items.to_string(alloc)?.into_bytes())
}

fn print_access(alloc: Global, address: &Expr0, ty: &Ty, align: u64) -> Result<Vec<u8>, AllocError>
    ensures { IfOk result (λ text. text.items ≡ printed_access address.now ty.now align) }
{
    let word = Value::String(String::from_str(alloc, "ok")?);
    let address = text_value(alloc, address)?;
    let ty = type_value(alloc, ty)?;
    let items = Value::Array(vec![in alloc; word, address, ty, Value::from(align)]?);
    Ok(items.to_string(alloc)?.into_bytes())
}

fn value_of(text: Vec<u8>) -> Value
    requires { IsAscii text.items }
    ensures { view result ≡ string text.items }
{
    match String::from_utf8(text) {
        Ok(text) => Value::String(text),
        Err(_) => unreachable!(),
    }
}

fn text_value(alloc: Global, expr: &Expr0) -> Result<Value, AllocError>
    ensures { IfOk result (λ value. view value ≡ string (printed_expr printed_register expr.now)) }
{
    let text = print_expr(alloc, expr)?;
    Ok(value_of(text))
}

fn register_value(alloc: Global, register: &Reg) -> Result<Value, AllocError>
    ensures { IfOk result (λ value. view value ≡ string (printed_register register.now)) }
{
    let text = print_register(alloc, register)?;
    Ok(value_of(text))
}

#[tactic(auto, using(crate::proofs::PrintedFacts::type_is_ascii))]
fn type_value(alloc: Global, ty: &Ty) -> Result<Value, AllocError>
    ensures { IfOk result (λ value. view value ≡ string (printed_type ty.now)) }
{
    let text = print_type(alloc, ty)?;
    Ok(value_of(text))
}
