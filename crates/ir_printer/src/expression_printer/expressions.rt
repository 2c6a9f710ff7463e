ghost use Rattle.std.specs.Prelude.{◌≡◌, ◌++◌, codes, IfOk, IsAscii};
ghost use Rattle.ir_printer.specs.ExpressionPrinter.Printed.{printed_local, printed_register, printed_atom, printed_value, printed_operand, printed_op, printed_flags, printed_operands, printed_binary, printed_icmp, printed_cast, printed_select, printed_element, printed_align, printed_load, printed_expr};
ghost use Rattle.ir_printer.specs.Told.{IsTold};

use crate::expression_printer::names::push_decimal;
use crate::expression_printer::registers::Register;
use crate::expression_printer::types::push_type;
use crate::expression_printer::values::{push_constant, push_flag, push_word};
use crate::sink::{Prints, Sink, push_each};
use ir_core::{
    Atom, BinOp, Binary, Cast, Element, Expr, Expr0, Flags, Icmp, Load, Name, Operand, Select, Ty,
    cast_word, op_word, pred_word,
};
use std::alloc::{AllocError, Global};

/// An expression of the logic: a plain operand with its type, or an operator with its flags, types and operands.
pub fn print_expr(alloc: Global, expr: &Expr0) -> Result<Vec<u8>, AllocError>
    ensures text { IfOk result (λ text. text.items ≡ printed_expr printed_register expr.now) }
    ensures ascii { IfOk result (λ text. IsAscii text.items) }
{
    let mut text = Sink::new(alloc);
    push_expr(&mut text, expr);
    text.finish()
}

/// Puts the right side of a line at the end of the text.
pub fn push_right(text: &mut Sink, right: &Expr<Name>)
    ensures { IsTold text.old text.new (printed_expr printed_local right.now) }
{
    push_expr(text, right);
}

fn push_expr<R: Register>(text: &mut Sink, expr: &Expr<R>)
    ensures { IsTold text.old text.new (printed_expr R.printed expr.now) }
{
    match expr {
        Expr::Plain(operand) => push_operand(text, operand),
        Expr::Binary(binary) => push_binary(text, binary),
        Expr::Icmp(icmp) => push_icmp(text, icmp),
        Expr::Cast(cast) => push_cast(text, cast),
        Expr::Select(select) => push_select(text, select.get()),
        Expr::Element(element) => push_element(text, element.get()),
        Expr::Load(load) => push_load(text, load),
    }
}

/// A constant or a register of a function, without its type.
pub fn print_value(alloc: Global, ty: &Ty, value: &Atom<Name>) -> Result<Vec<u8>, AllocError>
    ensures { IfOk result (λ text. text.items ≡ printed_value ty.now value.now) }
{
    let mut text = Sink::new(alloc);
    push_value(&mut text, ty, value);
    text.finish()
}

/// Puts a constant or a register of a function, without its type, at the end of the text.
pub fn push_value(text: &mut Sink, ty: &Ty, value: &Atom<Name>)
    ensures { IsTold text.old text.new (printed_value ty.now value.now) }
{
    push_atom(text, ty, value);
}

/// Puts a constant or a register of a function, behind its type, at the end of the text.
pub fn push_typed_value(text: &mut Sink, operand: &Operand<Name>)
    ensures { IsTold text.old text.new (printed_operand printed_local operand.now) }
{
    push_operand(text, operand);
}

fn push_atom<R: Register>(text: &mut Sink, ty: &Ty, atom: &Atom<R>)
    ensures { IsTold text.old text.new (printed_atom R.printed ty.now atom.now) }
{
    match atom {
        Atom::Constant(constant) => push_constant(text, ty, constant),
        Atom::Register(register) => register.push_to(text),
    }
}

fn push_operand<R: Register>(text: &mut Sink, operand: &Operand<R>)
    ensures { IsTold text.old text.new (printed_operand R.printed operand.now) }
{
    push_type(text, &operand.ty);
    text.put_byte(b' ');
    push_atom(text, &operand.ty, &operand.atom);
}

fn push_op(text: &mut Sink, op: BinOp)
    ensures { IsTold text.old text.new (printed_op op) }
{
    push_word(text, op_word(op));
}

fn push_flags(text: &mut Sink, flags: Flags)
    ensures { IsTold text.old text.new (printed_flags flags) }
{
    push_flag(text, flags.nuw, b"nuw ");
    push_flag(text, flags.nsw, b"nsw ");
    push_flag(text, flags.exact, b"exact ");
}

/// The type, which stands once, and the two operands.
fn push_operands<R: Register>(text: &mut Sink, ty: &Ty, a: &Atom<R>, b: &Atom<R>)
    ensures { IsTold text.old text.new (printed_operands R.printed ty.now a.now b.now) }
{
    push_type(text, ty);
    text.put_byte(b' ');
    push_atom(text, ty, a);
    text.put(b", ");
    push_atom(text, ty, b);
}

fn push_binary<R: Register>(text: &mut Sink, binary: &Binary<R>)
    ensures { IsTold text.old text.new (printed_binary R.printed binary.now) }
{
    push_op(text, binary.op);
    push_flags(text, binary.flags);
    push_operands(text, &binary.ty, &binary.left, &binary.right);
}

fn push_icmp<R: Register>(text: &mut Sink, icmp: &Icmp<R>)
    ensures { IsTold text.old text.new (printed_icmp R.printed icmp.now) }
{
    text.put(b"icmp ");
    push_word(text, pred_word(icmp.pred));
    push_operands(text, &icmp.ty, &icmp.left, &icmp.right);
}

fn push_cast<R: Register>(text: &mut Sink, cast: &Cast<R>)
    ensures { IsTold text.old text.new (printed_cast R.printed cast.now) }
{
    push_word(text, cast_word(cast.op));
    push_operand(text, &cast.operand);
    text.put(b" to ");
    push_type(text, &cast.to);
}

fn push_select<R: Register>(text: &mut Sink, select: &Select<R>)
    ensures { IsTold text.old text.new (printed_select R.printed select.now) }
{
    text.put(b"select ");
    push_operand(text, &select.condition);
    push_next(text, &select.left);
    push_next(text, &select.right);
}

/// The operand behind a comma.
fn push_next<R: Register>(text: &mut Sink, operand: &Operand<R>)
    ensures { IsTold text.old text.new (codes ", " ++ printed_operand R.printed operand.now) }
{
    text.put(b", ");
    push_operand(text, operand);
}

/// An operand behind a comma.
struct Next;

impl<R: Register> Prints<Operand<R>> for Next {
    ghost printed = { λ _ operand. codes ", " ++ printed_operand R.printed operand };

    fn push(&self, text: &mut Sink, operand: &Operand<R>) {
        push_next(text, operand);
    }
}

fn push_element<R: Register>(text: &mut Sink, element: &Element<R>)
    ensures { IsTold text.old text.new (printed_element R.printed element.now) }
{
    text.put(b"getelementptr ");
    push_flag(text, element.inbounds, b"inbounds ");
    push_type(text, &element.of);
    push_next(text, &element.base);
    push_each(text, &Next, element.indices.as_slice());
}

/// Puts the alignment behind a comma at the end of the text, where one is stated.
pub fn push_align(text: &mut Sink, align: Option<u32>)
    ensures { IsTold text.old text.new (printed_align align) }
{
    match align {
        Some(bytes) => {
            text.put(b", align ");
            push_decimal(text, bytes as u64);
        }
        None => {}
    }
}

fn push_load<R: Register>(text: &mut Sink, load: &Load<R>)
    ensures { IsTold text.old text.new (printed_load R.printed load.now) }
{
    text.put(b"load ");
    push_type(text, &load.of);
    push_next(text, &load.pointer);
    push_align(text, load.align);
}
