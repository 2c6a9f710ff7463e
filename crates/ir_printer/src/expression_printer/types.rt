ghost use Rattle.std.specs.Prelude.{◌≡◌, IfOk};
ghost use Rattle.ir_printer.specs.ExpressionPrinter.Printed.{printed_parts, printed_type};
ghost use Rattle.ir_printer.specs.Told.{IsTold};

use crate::expression_printer::names::{push_decimal, push_name};
use crate::sink::Sink;
use ir_core::{Sigil, Ty};
use std::alloc::{AllocError, Global};

/// The type as the text has it: `i32`, `void`, `i8*`, `[4 x i8]`, `{ i32, i8* }`, `%name`.
pub fn print_type(alloc: Global, ty: &Ty) -> Result<Vec<u8>, AllocError>
    ensures { IfOk result (λ text. text.items ≡ printed_type ty.now) }
{
    let mut text = Sink::new(alloc);
    push_type(&mut text, ty);
    text.finish()
}

/// Puts the type at the end of the text.
#[tactic(auto, using(crate::proofs::ExpressionPrinter::TypeTexts::types_by_parts))]
pub fn push_type(text: &mut Sink, ty: &Ty)
    ensures { IsTold text.old text.new (printed_type ty.now) }
{
    push_parts(text, ty);
}

/// Goes as deep as types stand in one another.
fn push_parts(text: &mut Sink, ty: &Ty)
    ensures { IsTold text.old text.new (printed_parts ty.now) }
{
    match ty {
        Ty::Int(width) => {
            text.put_byte(b'i');
            push_decimal(text, *width as u64);
        }
        Ty::Ptr(target) => {
            push_parts(text, target.get());
            text.put_byte(b'*');
        }
        Ty::Array(count, element) => {
            text.put_byte(b'[');
            push_decimal(text, *count);
            text.put(b" x ");
            push_parts(text, element.get());
            text.put_byte(b']');
        }
        Ty::Struct(fields) => {
            let fields = fields.get().as_slice();
            if fields.is_empty() {
                return text.put(b"{}");
            }
            let mut before: &[u8] = b"{ ";
            for i in 0..fields.len() {
                text.put(before);
                push_parts(text, &fields[i]);
                before = b", ";
            }
            text.put(b" }");
        }
        Ty::Named(name) => push_name(text, Sigil::Local, name.get()),
        Ty::Void => text.put(b"void"),
    }
}
