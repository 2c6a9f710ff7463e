ghost use Rattle.std.specs.Prelude.{map};
ghost use Rattle.ir_printer.specs.ExpressionPrinter.Printed.{printed_type, struct_text};
ghost use Rattle.ir_printer.specs.Printed.{body_text, named_type_text};
ghost use Rattle.ir_printer.specs.Told.{IsTold};

use crate::expression_printer::{push_name, push_type};
use crate::sink::{Prints, Sink, push_listed};
use contents::Seq;
use ir_core::{NamedTy, Sigil, Ty};
use ir_types::Shared;

/// Named types, each on a line of its own.
pub(crate) struct NamedTypes;

impl Prints<NamedTy> for NamedTypes {
    ghost printed = { λ _ named. named_type_text named };

    fn push(&self, text: &mut Sink, named: &NamedTy) {
        push_named_type(text, named);
    }
}

fn push_named_type(text: &mut Sink, named: &NamedTy)
    ensures { IsTold text.old text.new (named_type_text named.now) }
{
    push_name(text, Sigil::Local, &named.name);
    text.put(b" = type ");
    push_body(text, &named.fields);
    text.put_byte(b'\n');
}

fn push_body(text: &mut Sink, fields: &Option<Shared<Seq<Ty>>>)
    ensures { IsTold text.old text.new (body_text fields.now) }
{
    match fields {
        Some(fields) => push_struct(text, fields.get().as_slice()),
        None => text.put(b"opaque"),
    }
}

fn push_struct(text: &mut Sink, fields: &[Ty])
    ensures { IsTold text.old text.new (struct_text (map printed_type fields.now)) }
{
    if fields.is_empty() {
        text.put(b"{}");
    } else {
        push_listed(text, &Types, b"{ ", fields);
        text.put(b" }");
    }
}

/// Types.
struct Types;

impl Prints<Ty> for Types {
    ghost printed = { λ _ ty. printed_type ty };

    fn push(&self, text: &mut Sink, ty: &Ty) {
        push_type(text, ty);
    }
}
