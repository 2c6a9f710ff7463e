ghost use Rattle.std.specs.Prelude.{◌≡◌, ◌++◌, ℕ, List, IfOk};
ghost use Rattle.ir_printer.specs.ExpressionPrinter.Printed.{printed_local, printed_register};
ghost use Rattle.ir_printer.specs.Told.{IsTold};

use crate::expression_printer::names::push_name;
use crate::sink::Sink;
use ir_core::{Name, Reg, Sigil};
use std::alloc::{AllocError, Global};

/// A register that an expression may name.
pub(crate) trait Register {
    /// What it is printed as.
    ghost printed: { Self → List ℕ };

    /// Puts the register at the end of the text.
    fn push_to(&self, text: &mut Sink)
        ensures { IsTold text.old text.new (printed self.now) };
}

/// A register of a function: `%x`.
impl Register for Name {
    ghost printed = { printed_local };

    fn push_to(&self, text: &mut Sink) {
        push_name(text, Sigil::Local, self);
    }
}

/// A register of the logic: `%x`, `old %x` or `ghost %x`.
impl Register for Reg {
    ghost printed = { printed_register };

    fn push_to(&self, text: &mut Sink) {
        push_register(text, self);
    }
}

/// `%x`, `old %x` or `ghost %x`.
pub fn print_register(alloc: Global, register: &Reg) -> Result<Vec<u8>, AllocError>
    ensures { IfOk result (λ text. text.items ≡ printed_register register.now) }
{
    let mut text = Sink::new(alloc);
    push_register(&mut text, register);
    text.finish()
}

fn push_register(text: &mut Sink, register: &Reg)
    ensures { IsTold text.old text.new (printed_register register.now) }
{
    match register {
        Reg::Now(name) => push_name(text, Sigil::Local, name),
        Reg::Old(name) => push_marked(text, b"old ", name),
        Reg::Ghost(name) => push_marked(text, b"ghost ", name),
    }
}

/// A word before a register.
fn push_marked(text: &mut Sink, word: &[u8], name: &Name)
    ensures { IsTold text.old text.new (word.now ++ printed_local name.now) }
{
    text.put(word);
    push_name(text, Sigil::Local, name);
}
