//! Names and numbers, as they stand in answers.
ghost use Rattle.std.specs.Prelude.{◌≡◌, ◌++◌, OnOk};
ghost use Rattle.std.specs.Fmt.{decimal};
ghost use Rattle.ir_printer.specs.ExpressionPrinter.Printed.{printed_name};

use ir_core::{Name, Sigil};
use ir_printer::print_name;
use std::alloc::{AllocError, Global};

/// The name behind its sigil.
pub fn push_name(
    alloc: Global,
    text: &mut Vec<u8>,
    sigil: Sigil,
    name: &Name,
) -> Result<(), AllocError>
    ensures { OnOk result (text.new.items ≡ text.old.items ++ printed_name sigil name.now) }
{
    let printed = print_name(alloc, sigil, name)?;
    text.extend_from_slice(printed.as_slice())
}

pub fn push_number(alloc: Global, text: &mut Vec<u8>, number: u64) -> Result<(), AllocError>
    ensures { OnOk result (text.new.items ≡ text.old.items ++ decimal number) }
{
    let digits = number.to_string(alloc)?;
    text.extend_from_slice(digits.as_bytes())
}

pub fn push_place(alloc: Global, text: &mut Vec<u8>, place: usize) -> Result<(), AllocError>
    ensures { OnOk result (text.new.items ≡ text.old.items ++ decimal place) }
{
    push_number(alloc, text, place as u64)
}
