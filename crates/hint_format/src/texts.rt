//! The texts of a hint file: expressions, types and names.
ghost use Rattle.std.specs.Prelude.{◌≡◌, codes, IfOk, Ok};
ghost use Rattle.std.specs.List.{list_any};
ghost use Rattle.std.specs.Option.{option_copied};
ghost use Rattle.std.specs.Str.{bytes_eq};
ghost use Rattle.ir_printer.specs.ExpressionPrinter.Printed.{printed_name};
ghost use Rattle.json_forms.specs.Answers.{Answers};
ghost use Rattle.json_forms.specs.Forms.{read_then};
ghost use Rattle.ir_core.specs.declared.expressions.Reg.{Reg};
ghost use Rattle.ir_core.specs.declared.expressions.Reg.TheVariants.{Now, Ghost};
ghost use Rattle.ir_core.specs.declared.operands.Operand.{Operand};
ghost use Rattle.ir_types.specs.declared.names.Sigil.TheVariants.{Local};
ghost use Rattle.ir_core.specs.Expressions.{atom_has, expr_has};
ghost use Rattle.erhl_assert.specs.Edges.{is_old};
ghost use Rattle.hint_format.specs.Form.{behind, expression_of_text, ghost_or_now, now_of_text, old_register, register_of_text, type_of_text};
ghost use Rattle.hint_format.specs.Reading.{expression_reading, failure_of, name_reading, read_leaves, type_reading};

use expression_reader::{read_expr, read_name, read_type};
use ir_core::{Atom, Expr, Expr0, Name, Operand, Reg, Sigil, Ty, kind_of};
use ir_lexer::TextFault;
use ir_printer::print_name;
use json_forms::{Failure, Fault, TextForm, unfit};
use std::alloc::{AllocError, Global};

/// A text past a limit is told so; with any other fault it is itself at fault.
fn failure_of(alloc: Global, fault: TextFault) -> Failure
    ensures { result ≡ failure_of fault }
{
    match fault {
        TextFault::Memory => Failure::Memory,
        TextFault::Limit(limit) => Failure::Form(Fault::Past(limit)),
        _ => unfit(alloc),
    }
}

/// An expression of the logic.
#[derive(Drop)]
pub(crate) struct ExpressionText {
    pub may_be_old: bool,
}

impl TextForm for ExpressionText {
    type Value = Expr0;

    ghost text_form = { λ it. expression_of_text read_leaves it.may_be_old };

    fn read_text(&self, alloc: Global, text: &str) -> Result<Expr0, Failure> {
        let read = expression(alloc, text)?;
        if self.may_be_old || !names_old(&read) {
            Ok(read)
        } else {
            Err(unfit(alloc))
        }
    }
}

fn is_old_atom(atom: &Atom<Reg>) -> bool
    ensures { result ≡ atom_has is_old atom.now }
{
    match atom {
        Atom::Register(Reg::Old(_)) => true,
        _ => false,
    }
}

fn operands_old(operands: &[Operand<Reg>]) -> bool
    ensures { result ≡ list_any (λ (o : Operand Reg). atom_has is_old o.atom) operands.now }
{
    operands.iter().any(|operand| is_old_atom(&operand.atom))
}

/// Whether the expression names an old register.
fn names_old(expression: &Expr0) -> bool
    ensures { result ≡ expr_has is_old expression.now }
{
    match expression {
        Expr::Plain(operand) => is_old_atom(&operand.atom),
        Expr::Binary(binary) => is_old_atom(&binary.left) || is_old_atom(&binary.right),
        Expr::Icmp(icmp) => is_old_atom(&icmp.left) || is_old_atom(&icmp.right),
        Expr::Cast(cast) => is_old_atom(&cast.operand.atom),
        Expr::Select(select) => {
            let select = select.get();
            is_old_atom(&select.condition.atom)
                || is_old_atom(&select.left.atom)
                || is_old_atom(&select.right.atom)
        }
        Expr::Element(element) => {
            let element = element.get();
            is_old_atom(&element.base.atom) || operands_old(element.indices.as_slice())
        }
        Expr::Load(load) => is_old_atom(&load.pointer.atom),
    }
}

fn expression(alloc: Global, text: &str) -> Result<Expr0, Failure>
    ensures { Answers result (expression_reading text.now) }
{
    match read_expr(alloc, text.as_bytes()) {
        Ok(expression) => Ok(expression),
        Err(fault) => Err(failure_of(alloc, fault)),
    }
}

/// A type of values: an integer or a pointer.
#[derive(Drop)]
pub(crate) struct TypeText;

impl TextForm for TypeText {
    type Value = Ty;

    ghost text_form = { λ _. type_of_text read_leaves };

    fn read_text(&self, alloc: Global, text: &str) -> Result<Ty, Failure> {
        let ty = spelled_type(alloc, text)?;
        if kind_of(&ty).is_some() {
            Ok(ty)
        } else {
            Err(unfit(alloc))
        }
    }
}

fn spelled_type(alloc: Global, text: &str) -> Result<Ty, Failure>
    ensures { Answers result (type_reading text.now) }
{
    match read_type(alloc, text.as_bytes()) {
        Ok(ty) => Ok(ty),
        Err(fault) => Err(failure_of(alloc, fault)),
    }
}

/// A register of the logic: `%x`, `old %x` or `ghost %x`.
#[derive(Drop)]
pub(crate) struct RegisterText {
    pub may_be_old: bool,
}

impl TextForm for RegisterText {
    type Value = Reg;

    ghost text_form = { λ it. register_of_text read_leaves it.may_be_old };

    fn read_text(&self, alloc: Global, text: &str) -> Result<Reg, Failure> {
        register(alloc, self.may_be_old, text.as_bytes())
    }
}

/// What stands behind a word with which the text begins.
fn behind<'a>(word: &[u8], text: &'a [u8]) -> Option<&'a [u8]>
    ensures { option_copied result ≡ behind word.now text.now }
{
    text.strip_prefix(word)
}

fn old_register(alloc: Global, may_be_old: bool, text: &[u8]) -> Result<Reg, Failure>
    ensures { Answers result (read_then (read_leaves.name Local text.now) (old_register may_be_old)) }
{
    let name = printed(alloc, Sigil::Local, text)?;
    if may_be_old {
        Ok(Reg::Old(name))
    } else {
        Err(unfit(alloc))
    }
}

fn ghost_register(alloc: Global, text: &[u8]) -> Result<Reg, Failure>
    ensures { Answers result (read_then (read_leaves.name Local text.now) (λ name. Ok (Ghost name))) }
{
    Ok(Reg::Ghost(printed(alloc, Sigil::Local, text)?))
}

fn now_register(alloc: Global, text: &[u8]) -> Result<Reg, Failure>
    ensures { Answers result (read_then (read_leaves.name Local text.now) (λ name. Ok (Now name))) }
{
    Ok(Reg::Now(printed(alloc, Sigil::Local, text)?))
}

fn ghost_or_now(alloc: Global, text: &[u8]) -> Result<Reg, Failure>
    ensures { Answers result (ghost_or_now read_leaves text.now (behind (codes "ghost ") text.now)) }
{
    match behind(b"ghost ", text) {
        Some(rest) => ghost_register(alloc, rest),
        None => now_register(alloc, text),
    }
}

fn register(alloc: Global, may_be_old: bool, text: &[u8]) -> Result<Reg, Failure>
    ensures { Answers result (register_of_text read_leaves may_be_old text.now) }
{
    match behind(b"old ", text) {
        Some(rest) => old_register(alloc, may_be_old, rest),
        None => ghost_or_now(alloc, text),
    }
}

/// A register as it is now: `%x`.
#[derive(Drop)]
pub(crate) struct NowText;

impl TextForm for NowText {
    type Value = Reg;

    ghost text_form = { λ _. now_of_text read_leaves };

    fn read_text(&self, alloc: Global, text: &str) -> Result<Reg, Failure> {
        now_register(alloc, text.as_bytes())
    }
}

/// A name behind the sigil, which is printed as this very text.
#[derive(Drop)]
pub(crate) struct NameText {
    pub sigil: Sigil,
}

impl TextForm for NameText {
    type Value = Name;

    ghost text_form = { λ it. read_leaves.name it.sigil };

    fn read_text(&self, alloc: Global, text: &str) -> Result<Name, Failure> {
        printed(alloc, self.sigil, text.as_bytes())
    }
}

/// The name that is printed as this very text.
fn printed(alloc: Global, sigil: Sigil, text: &[u8]) -> Result<Name, Failure>
    ensures { Answers result (read_leaves.name sigil text.now) }
{
    let name = spelled(alloc, sigil, text)?;
    if is_printed(alloc, sigil, text, &name)? {
        Ok(name)
    } else {
        Err(unfit(alloc))
    }
}

fn spelled(alloc: Global, sigil: Sigil, text: &[u8]) -> Result<Name, Failure>
    ensures { Answers result (name_reading sigil text.now) }
{
    match read_name(alloc, sigil, text) {
        Ok(name) => Ok(name),
        Err(fault) => Err(failure_of(alloc, fault)),
    }
}

fn is_printed(alloc: Global, sigil: Sigil, text: &[u8], name: &Name) -> Result<bool, AllocError>
    ensures { IfOk result (λ is. is ≡ bytes_eq (printed_name sigil name.now) text.now) }
{
    let printed = print_name(alloc, sigil, name)?;
    Ok(printed.as_slice() == text)
}
