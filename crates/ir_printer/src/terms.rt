ghost use Rattle.ir_printer.specs.Printed.{indented, label_text, cond_br_text, case_text, switch_text, term_text};
ghost use Rattle.ir_printer.specs.Told.{IsTold};

use crate::expression_printer::{push_name, push_number, push_type, push_typed_value};
use crate::sink::{Prints, Sink, push_each};
use ir_core::{Case, CondBr, Name, Sigil, Switch, Term};

/// The terminator as the last line of its block.
pub(crate) fn push_last_line(text: &mut Sink, term: &Term)
    ensures { IsTold text.old text.new (indented (term_text term.now)) }
{
    text.put(b"  ");
    push_term(text, term);
    text.put_byte(b'\n');
}

fn push_term(text: &mut Sink, term: &Term)
    ensures { IsTold text.old text.new (term_text term.now) }
{
    match term {
        Term::Ret(operand) => {
            text.put(b"ret ");
            push_typed_value(text, operand);
        }
        Term::RetVoid => text.put(b"ret void"),
        Term::Br(block) => {
            text.put(b"br ");
            push_label(text, block);
        }
        Term::CondBr(branch) => push_cond_br(text, branch),
        Term::Switch(switch) => push_switch(text, switch),
        Term::Unreachable => text.put(b"unreachable"),
    }
}

fn push_label(text: &mut Sink, block: &Name)
    ensures { IsTold text.old text.new (label_text block.now) }
{
    text.put(b"label ");
    push_name(text, Sigil::Local, block);
}

fn push_cond_br(text: &mut Sink, branch: &CondBr)
    ensures { IsTold text.old text.new (cond_br_text branch.now) }
{
    text.put(b"br ");
    push_typed_value(text, &branch.condition);
    text.put(b", ");
    push_label(text, &branch.on_true);
    text.put(b", ");
    push_label(text, &branch.on_false);
}

fn push_switch(text: &mut Sink, switch: &Switch)
    ensures { IsTold text.old text.new (switch_text switch.now) }
{
    text.put(b"switch ");
    push_typed_value(text, &switch.value);
    text.put(b", ");
    push_label(text, &switch.default);
    text.put(b" [\n");
    push_each(text, &Cases, switch.cases.as_slice());
    text.put(b"  ]");
}

/// Cases of a switch.
struct Cases;

impl Prints<Case> for Cases {
    ghost printed = { λ _ case. case_text case };

    fn push(&self, text: &mut Sink, case: &Case) {
        push_case(text, case);
    }
}

fn push_case(text: &mut Sink, case: &Case)
    ensures { IsTold text.old text.new (case_text case.now) }
{
    text.put(b"    ");
    push_type(text, &case.ty);
    text.put_byte(b' ');
    push_number(text, &case.ty, case.number.get());
    text.put(b", ");
    push_label(text, &case.label);
    text.put_byte(b'\n');
}
