ghost use Rattle.std.specs.Prelude.{◌≡◌, ◌++◌, [], map, IfOk};
ghost use Rattle.ir_printer.specs.ExpressionPrinter.Printed.{listed};
ghost use Rattle.ir_core.specs.Modules.{those_before, those_behind};
ghost use Rattle.ir_printer.specs.Globals.{global_text};
ghost use Rattle.ir_printer.specs.Printed.{all_behind, blanked, declaration_text, declared_param_text, declared_signature, dots, extended_text, function_text, function_texts, group, head_text, param_name, param_text, printed_module, signature_text};
ghost use Rattle.ir_printer.specs.Told.{IsTold, IsWritten};

use crate::blocks::push_blocks;
use crate::called::Declared;
use crate::expression_printer::{push_name, push_type};
use crate::globals::{Globals, linkage_text};
use crate::lines::{push_dots, push_extensions};
use crate::named_types::NamedTypes;
use crate::sink::{Prints, Sink, push_each, push_listed};
use ir_core::{
    Declaration, DeclaredParam, Extensions, Function, GlobalVar, Linkage, Module, Name, Param,
    Sigil,
};
use std::alloc::{AllocError, Global};

/// The module as text: its named types, its globals, and its definitions and declarations, each in the order of the file, with a blank line
/// between these groups and between any two functions. A call has a function type where what it calls takes further arguments.
pub fn print_module(alloc: Global, module: &Module) -> Result<Vec<u8>, AllocError>
    ensures { IfOk result (λ text. text.items ≡ printed_module «module».now) }
{
    let mut text = Sink::new(alloc);
    push_each(&mut text, &NamedTypes, module.types.as_slice());
    push_group(&mut text, module.globals.as_slice());
    let declared = Declared::new(alloc, module.declarations.as_slice())?;
    push_functions(
        &mut text,
        &declared,
        module.declarations.as_slice(),
        module.functions.as_slice(),
    );
    text.finish()
}

/// A blank line behind the text, unless it is empty.
fn push_blank(text: &mut Sink)
    ensures { IsWritten text.old text.new (blanked text.old.bytes.items) }
{
    if !text.is_empty() {
        text.put_byte(b'\n');
    }
}

/// The globals, if there are any, behind a blank line.
fn push_group(text: &mut Sink, globals: &[GlobalVar])
    ensures { IsWritten text.old text.new (all_behind text.old.bytes.items (group global_text globals.now)) }
{
    if !globals.is_empty() {
        push_blank(text);
        push_each(text, &Globals, globals);
    }
}

/// In the order of the file, each behind a blank line.
fn push_functions(
    text: &mut Sink,
    declared: &Declared,
    declarations: &[Declaration],
    functions: &[Function],
)
    ensures { IsWritten text.old text.new (all_behind text.old.bytes.items (function_texts declared.now 0 declarations.now functions.now)) }
{
    let mut rest = declarations;
    for i in 0..functions.len() {
        rest = push_before(text, i, rest);
        push_blank(text);
        push_function(text, declared, &functions[i]);
    }
    push_declarations(text, rest);
}

/// The first ones, which stand before so many definitions and one more. Gives those behind them.
fn push_before<'a>(
    text: &mut Sink,
    count: usize,
    declarations: &'a [Declaration],
) -> &'a [Declaration]
    ensures text { IsWritten text.old text.new
        (all_behind text.old.bytes.items (map declaration_text (those_before count declarations.now))) }
    ensures rest { result.now ≡ those_behind count declarations.now }
{
    for i in 0..declarations.len() {
        if declarations[i].before > count {
            return &declarations[i..];
        }
        push_blank(text);
        push_declaration(text, &declarations[i]);
    }
    &[]
}

fn push_declarations(text: &mut Sink, declarations: &[Declaration])
    ensures { IsWritten text.old text.new (all_behind text.old.bytes.items (map declaration_text declarations.now)) }
{
    for declaration in declarations {
        push_blank(text);
        push_declaration(text, declaration);
    }
}

fn push_declaration(text: &mut Sink, declaration: &Declaration)
    ensures { IsTold text.old text.new (declaration_text declaration.now) }
{
    text.put(b"declare ");
    push_extensions(text, declaration.result_extensions);
    push_type(text, &declaration.result);
    text.put_byte(b' ');
    push_declared_signature(text, declaration);
}

fn push_declared_signature(text: &mut Sink, declaration: &Declaration)
    ensures { IsTold text.old text.new (declared_signature declaration.now) }
{
    push_name(text, Sigil::Global, &declaration.name);
    text.put_byte(b'(');
    push_declared_params(text, declaration.params.as_slice(), declaration.variadic);
    text.put(b")\n");
}

fn push_declared_params(text: &mut Sink, params: &[DeclaredParam], variadic: bool)
    ensures { IsTold text.old text.new (listed [] (map declared_param_text params.now ++ dots variadic)) }
{
    push_listed(text, &DeclaredParams, b"", params);
    push_dots(text, params.is_empty(), variadic);
}

/// Parameters of a declaration.
struct DeclaredParams;

impl Prints<DeclaredParam> for DeclaredParams {
    ghost printed = { λ _ param. declared_param_text param };

    fn push(&self, text: &mut Sink, param: &DeclaredParam) {
        push_declared_param(text, param);
    }
}

fn push_declared_param(text: &mut Sink, param: &DeclaredParam)
    ensures { IsTold text.old text.new (declared_param_text param.now) }
{
    push_type(text, &param.ty);
    push_extended(text, param.extensions);
}

fn push_function(text: &mut Sink, declared: &Declared, function: &Function)
    ensures { IsTold text.old text.new (function_text declared.now «function».now) }
{
    push_head(text, function);
    push_blocks(text, declared, function.blocks.as_slice());
    text.put(b"}\n");
}

fn push_head(text: &mut Sink, function: &Function)
    ensures { IsTold text.old text.new (head_text «function».now) }
{
    text.put(b"define ");
    text.put(linkage_text(function.linkage));
    push_extensions(text, function.result_extensions);
    push_type(text, &function.result);
    text.put_byte(b' ');
    push_signature(text, function);
}

/// The name, the parameters and the bracket before the blocks.
fn push_signature(text: &mut Sink, function: &Function)
    ensures { IsTold text.old text.new (signature_text «function».now) }
{
    push_name(text, Sigil::Global, &function.name);
    text.put_byte(b'(');
    push_listed(text, &Params, b"", function.params.as_slice());
    text.put(b") {\n");
}

/// Parameters of a definition.
struct Params;

impl Prints<Param> for Params {
    ghost printed = { λ _ param. param_text param };

    fn push(&self, text: &mut Sink, param: &Param) {
        push_param(text, param);
    }
}

/// The type, what makes it wider, and the name where there is one.
fn push_param(text: &mut Sink, param: &Param)
    ensures { IsTold text.old text.new (param_text param.now) }
{
    push_type(text, &param.ty);
    push_extended(text, param.extensions);
    push_param_name(text, &param.name);
}

fn push_extended(text: &mut Sink, extensions: Extensions)
    ensures { IsTold text.old text.new (extended_text extensions) }
{
    if extensions.signed {
        text.put(b" signext");
    }
    if extensions.zero {
        text.put(b" zeroext");
    }
}

fn push_param_name(text: &mut Sink, name: &Name)
    ensures { IsTold text.old text.new (param_name name.now) }
{
    match name {
        Name::Text(_) => {
            text.put_byte(b' ');
            push_name(text, Sigil::Local, name);
        }
        Name::Number(_) => {}
    }
}
