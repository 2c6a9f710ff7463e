ghost use Rattle.std.specs.Prelude.{◌≡◌, ◌++◌, IfOk, OnOk};
ghost use Rattle.ir_printer.specs.ExpressionPrinter.Printed.{printed_name};
ghost use Rattle.hint_format.specs.Form.{printed_fact};
ghost use Rattle.crell_program.specs.CrellAnswers.VerdictText as spec;

use crate::crell_answers::answer::Answer;
use crate::crell_answers::pieces::{push_name, push_number};
use contents::Seq;
use erhl_assert::{Difference, Fact, ModuleVerdict, Reason, Spot};
use hint_format::print_fact;
use ir_core::{Name, Operand, Sigil};
use ir_printer::{print_register, print_value};
use std::alloc::{AllocError, Global};

/// The verdict on a line of out: status 0 for a pair that is valid, 1 for one that is refused or differs.
pub fn verdict_answer(alloc: Global, verdict: &ModuleVerdict) -> Result<Answer, AllocError>
    ensures { IfOk result (λ a. a ≡ spec.verdict_answer verdict.now) }
{
    let mut out = Vec::new(alloc);
    push_verdict(alloc, &mut out, verdict)?;
    out.push(b'\n')?;
    Ok(Answer {
        status: verdict_status(verdict),
        out: Seq::from_vec(out),
        err: Seq::new(alloc),
    })
}

fn verdict_status(verdict: &ModuleVerdict) -> u8
    ensures { result ≡ spec.verdict_status verdict.now }
{
    match verdict {
        ModuleVerdict::Valid => 0,
        ModuleVerdict::Differs(_) => 1,
        ModuleVerdict::Refused { .. } => 1,
    }
}

fn push_verdict(
    alloc: Global,
    text: &mut Vec<u8>,
    verdict: &ModuleVerdict,
) -> Result<(), AllocError>
    ensures { OnOk result (text.new.items ≡ text.old.items ++ spec.verdict_text verdict.now) }
{
    match verdict {
        ModuleVerdict::Valid => text.extend_from_slice(b"valid"),
        ModuleVerdict::Differs(what) => {
            text.extend_from_slice(b"refused module: ")?;
            push_difference(text, *what)
        }
        ModuleVerdict::Refused {
            function,
            block,
            spot,
            reason,
        } => push_refusal(alloc, text, function, block, spot, reason),
    }
}

fn push_difference(text: &mut Vec<u8>, what: Difference) -> Result<(), AllocError>
    ensures { OnOk result (text.new.items ≡ text.old.items ++ spec.difference_text what) }
{
    match what {
        Difference::Types => text.extend_from_slice(b"types"),
        Difference::Globals => text.extend_from_slice(b"globals"),
        Difference::Declarations => text.extend_from_slice(b"declarations"),
        Difference::Functions => text.extend_from_slice(b"functions"),
    }
}

fn push_refusal(
    alloc: Global,
    text: &mut Vec<u8>,
    function: &Name,
    block: &Name,
    spot: &Spot,
    reason: &Reason,
) -> Result<(), AllocError>
    ensures { OnOk result
        (text.new.items ≡ text.old.items ++ spec.refusal_text function.now block.now spot.now reason.now) }
{
    text.extend_from_slice(b"refused ")?;
    push_name(alloc, text, Sigil::Global, function)?;
    text.push(b' ')?;
    push_in_block(alloc, text, block, spot, reason)
}

fn push_in_block(
    alloc: Global,
    text: &mut Vec<u8>,
    block: &Name,
    spot: &Spot,
    reason: &Reason,
) -> Result<(), AllocError>
    ensures { OnOk result (text.new.items ≡ text.old.items ++ spec.in_block_text block.now spot.now reason.now) }
{
    push_name(alloc, text, Sigil::Local, block)?;
    text.push(b' ')?;
    push_at_spot(alloc, text, spot, reason)
}

fn push_at_spot(
    alloc: Global,
    text: &mut Vec<u8>,
    spot: &Spot,
    reason: &Reason,
) -> Result<(), AllocError>
    ensures { OnOk result (text.new.items ≡ text.old.items ++ spec.at_spot_text spot.now reason.now) }
{
    push_spot(alloc, text, spot)?;
    text.extend_from_slice(b": ")?;
    push_reason(alloc, text, reason)
}

fn push_spot(alloc: Global, text: &mut Vec<u8>, spot: &Spot) -> Result<(), AllocError>
    ensures { OnOk result (text.new.items ≡ text.old.items ++ spec.spot_text spot.now) }
{
    match spot {
        Spot::Start => text.extend_from_slice(b"start"),
        Spot::Line(k) => push_number(alloc, text, *k),
        Spot::Edge(to) => {
            text.extend_from_slice(b"edge ")?;
            push_name(alloc, text, Sigil::Local, to)
        }
    }
}

fn push_operand(
    alloc: Global,
    text: &mut Vec<u8>,
    operand: &Operand<Name>,
) -> Result<(), AllocError>
    ensures { OnOk result (text.new.items ≡ text.old.items ++ spec.operand_text operand.now) }
{
    let printed = print_value(alloc, &operand.ty, &operand.atom)?;
    text.extend_from_slice(printed.as_slice())
}

fn push_reason(alloc: Global, text: &mut Vec<u8>, reason: &Reason) -> Result<(), AllocError>
    ensures { OnOk result (text.new.items ≡ text.old.items ++ spec.reason_text reason.now) }
{
    match reason {
        Reason::AlignmentDiffers => text.extend_from_slice(b"alignment differs"),
        Reason::KindsDiffer => text.extend_from_slice(b"kinds differ"),
        Reason::TargetMayTrap => text.extend_from_slice(b"target may trap"),
        Reason::Unmatched(source, target) => {
            text.extend_from_slice(b"unmatched ")?;
            push_operand(alloc, text, source)?;
            text.push(b' ')?;
            push_operand(alloc, text, target)
        }
        Reason::NotPrivate(address) => {
            text.extend_from_slice(b"not private ")?;
            push_operand(alloc, text, address)
        }
        Reason::UnknownRule(rule) => push_both(text, b"unknown rule ", rule.as_slice()),
        Reason::RuleUnfit(rule) => push_both(text, b"rule unfit ", rule.as_slice()),
        Reason::MissingPremise(fact) => push_fact(alloc, text, b"missing premise ", fact),
        Reason::MissingFact(fact) => push_fact(alloc, text, b"missing fact ", fact),
        Reason::DiffLeft(register) => {
            let printed = print_register(alloc, register)?;
            push_both(text, b"diff left ", printed.as_slice())
        }
    }
}

fn push_both(text: &mut Vec<u8>, words: &[u8], rest: &[u8]) -> Result<(), AllocError>
    ensures { OnOk result (text.new.items ≡ text.old.items ++ (words.now ++ rest.now)) }
{
    text.extend_from_slice(words)?;
    text.extend_from_slice(rest)
}

fn push_fact(alloc: Global, text: &mut Vec<u8>, words: &[u8], fact: &Fact) -> Result<(), AllocError>
    ensures { OnOk result (text.new.items ≡ text.old.items ++ (words.now ++ printed_fact fact.now)) }
{
    let printed = print_fact(alloc, fact)?;
    push_both(text, words, printed.as_slice())
}
