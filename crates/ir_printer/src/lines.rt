ghost use Rattle.std.specs.Prelude.{◌++◌, [], true, map};
ghost use Rattle.ir_printer.specs.ExpressionPrinter.Printed.{listed, printed_type};
ghost use Rattle.ir_printer.specs.Printed.{indented, set_text, entry_text, phi_text, calm_text, count_text, alloca_text, store_text, extensions_text, argument_text, may_set_text, callee_text, call_text, called_text, dots, function_type_text, instr_text};
ghost use Rattle.ir_printer.specs.Called.{dots_text};
ghost use Rattle.ir_printer.specs.Told.{IsTold};

use crate::called::Declared;
use crate::expression_printer::{
    push_align, push_name, push_number, push_right, push_type, push_typed_value, push_value,
};
use crate::sink::{Prints, Sink, push_listed};
use ir_core::{
    Alloca, Argument, Bits, Call, Calm, Declaration, DeclaredParam, Entry, Extensions, Instr, Name,
    Phi, Sigil, Store, Ty,
};

/// Phis, each on a line of its own.
pub(crate) struct Phis;

impl Prints<Phi> for Phis {
    ghost printed = { λ _ phi. indented (phi_text phi) };

    fn push(&self, text: &mut Sink, phi: &Phi) {
        text.put(b"  ");
        push_phi(text, phi);
        text.put_byte(b'\n');
    }
}

/// Lines beside what is declared, each on a line of its own.
#[derive(Drop)]
pub(crate) struct Instrs<'a, 'b> {
    pub(crate) declared: &'a Declared<'b>,
}

impl<'a, 'b> Prints<Instr> for Instrs<'a, 'b> {
    ghost printed = { λ it line. indented (instr_text it.declared.now line) };

    fn push(&self, text: &mut Sink, line: &Instr) {
        text.put(b"  ");
        push_instr(text, self.declared, line);
        text.put_byte(b'\n');
    }
}

/// The register that a line sets.
fn push_set(text: &mut Sink, register: &Name)
    ensures { IsTold text.old text.new (set_text register.now) }
{
    push_name(text, Sigil::Local, register);
    text.put(b" = ");
}

fn push_phi(text: &mut Sink, phi: &Phi)
    ensures { IsTold text.old text.new (phi_text phi.now) }
{
    push_set(text, &phi.name);
    text.put(b"phi ");
    push_type(text, &phi.ty);
    push_listed(text, &Entries { ty: &phi.ty }, b" ", phi.entries.as_slice());
}

/// Entries of a phi of that type.
#[derive(Drop)]
struct Entries<'a> {
    ty: &'a Ty,
}

impl<'a> Prints<Entry> for Entries<'a> {
    ghost printed = { λ it entry. entry_text it.ty.now entry };

    fn push(&self, text: &mut Sink, entry: &Entry) {
        push_entry(text, self.ty, entry);
    }
}

fn push_entry(text: &mut Sink, ty: &Ty, entry: &Entry)
    ensures { IsTold text.old text.new (entry_text ty.now entry.now) }
{
    text.put(b"[ ");
    push_value(text, ty, &entry.value);
    text.put(b", ");
    push_name(text, Sigil::Local, &entry.from);
    text.put(b" ]");
}

fn push_instr(text: &mut Sink, declared: &Declared, line: &Instr)
    ensures { IsTold text.old text.new (instr_text declared.now line.now) }
{
    match line {
        Instr::Calm(calm) => push_calm(text, calm),
        Instr::Alloca(alloca) => push_alloca(text, alloca),
        Instr::Store(store) => push_store(text, store),
        Instr::Call(call) => push_call(text, declared, call.get()),
    }
}

fn push_calm(text: &mut Sink, calm: &Calm)
    ensures { IsTold text.old text.new (calm_text calm.now) }
{
    push_set(text, &calm.name);
    push_right(text, &calm.right);
}

fn push_count(text: &mut Sink, count: &Option<(Ty, Bits)>)
    ensures { IsTold text.old text.new (count_text count.now) }
{
    match count {
        Some((ty, number)) => {
            text.put(b", ");
            push_type(text, ty);
            text.put_byte(b' ');
            push_number(text, ty, number.get());
        }
        None => {}
    }
}

fn push_alloca(text: &mut Sink, alloca: &Alloca)
    ensures { IsTold text.old text.new (alloca_text alloca.now) }
{
    push_set(text, &alloca.name);
    text.put(b"alloca ");
    push_type(text, &alloca.of);
    push_count(text, &alloca.count);
    push_align(text, alloca.align);
}

fn push_store(text: &mut Sink, store: &Store)
    ensures { IsTold text.old text.new (store_text store.now) }
{
    text.put(b"store ");
    push_typed_value(text, &store.value);
    text.put(b", ");
    push_typed_value(text, &store.pointer);
    push_align(text, store.align);
}

pub(crate) fn push_extensions(text: &mut Sink, extensions: Extensions)
    ensures { IsTold text.old text.new (extensions_text extensions) }
{
    if extensions.signed {
        text.put(b"signext ");
    }
    if extensions.zero {
        text.put(b"zeroext ");
    }
}

fn push_argument(text: &mut Sink, argument: &Argument)
    ensures { IsTold text.old text.new (argument_text argument.now) }
{
    push_type(text, &argument.operand.ty);
    text.put_byte(b' ');
    push_extensions(text, argument.extensions);
    push_value(text, &argument.operand.ty, &argument.operand.atom);
}

/// Arguments of a call.
struct Arguments;

impl Prints<Argument> for Arguments {
    ghost printed = { λ _ argument. argument_text argument };

    fn push(&self, text: &mut Sink, argument: &Argument) {
        push_argument(text, argument);
    }
}

/// The register that a call sets, if it sets one.
fn push_may_set(text: &mut Sink, register: &Option<Name>)
    ensures { IsTold text.old text.new (may_set_text register.now) }
{
    match register {
        Some(name) => push_set(text, name),
        None => {}
    }
}

fn push_call(text: &mut Sink, declared: &Declared, call: &Call)
    ensures { IsTold text.old text.new (call_text declared.now call.now) }
{
    push_may_set(text, &call.name);
    text.put(b"call ");
    push_extensions(text, call.result_extensions);
    push_type(text, &call.result);
    text.put_byte(b' ');
    push_called(text, declared, &call.callee);
    push_callee(text, call);
}

/// The function type, where further arguments may follow.
fn push_called(text: &mut Sink, declared: &Declared, callee: &Name)
    ensures { IsTold text.old text.new (called_text declared.now callee.now) }
{
    match declared.get(callee) {
        Some(declaration) => push_function_type(text, declaration),
        None => {}
    }
}

fn push_function_type(text: &mut Sink, declaration: &Declaration)
    ensures { IsTold text.old text.new (function_type_text declaration.now) }
{
    text.put_byte(b'(');
    push_further_params(text, declaration.params.as_slice());
    text.put(b") ");
}

/// The types of parameters, and `...` behind them.
fn push_further_params(text: &mut Sink, params: &[DeclaredParam])
    ensures { IsTold text.old text.new (listed [] (map (λ p. printed_type p.ty) params.now ++ dots true)) }
{
    push_listed(text, &ParamTypes, b"", params);
    push_dots(text, params.is_empty(), true);
}

/// The types of parameters.
struct ParamTypes;

impl Prints<DeclaredParam> for ParamTypes {
    ghost printed = { λ _ param. printed_type param.ty };

    fn push(&self, text: &mut Sink, param: &DeclaredParam) {
        push_type(text, &param.ty);
    }
}

/// Where further arguments may follow, `...` behind the parameters, of which there are some or none.
pub(crate) fn push_dots(text: &mut Sink, none: bool, variadic: bool)
    ensures { IsTold text.old text.new (dots_text none variadic) }
{
    if variadic {
        text.put(if none { b"..." } else { b", ..." });
    }
}

fn push_callee(text: &mut Sink, call: &Call)
    ensures { IsTold text.old text.new (callee_text call.now) }
{
    push_name(text, Sigil::Global, &call.callee);
    text.put_byte(b'(');
    push_listed(text, &Arguments, b"", call.arguments.as_slice());
    text.put_byte(b')');
}
