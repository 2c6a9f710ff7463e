//! What is first at fault in a module's text.
ghost use Rattle.std.specs.Prelude.{◌≡◌, ◌≢◌, ◌∷◌, ◌++◌, IfOk, OnOk, codes};
ghost use Rattle.std.specs.Fmt.{decimal};
ghost use Rattle.ir_printer.specs.ExpressionPrinter.Printed.{printed_name};
ghost use Rattle.ir_reader.specs.declared.fault.ModuleFault.TheVariants as fault;
ghost use Rattle.crell_program.specs.CrellAnswers.Answer as answer;
ghost use Rattle.crell_program.specs.CrellAnswers.Private.{use_behind};

use crate::crell_answers::answer::{Answer, fault, past_limit};
use crate::crell_answers::pieces::{push_name, push_number, push_place};
use definedness::Undefined;
use ir_core::{Name, Sigil};
use ir_lexer::TextFault;
use ir_reader::ModuleFault;
use ir_shape::{LinePlace, ShapeFault};
use std::alloc::{AllocError, Global};

/// The status where a text spells no module.
const MISSPELLED: u8 = 3;

/// The status where a module isn't well-formed.
const ILL_FORMED: u8 = 4;

/// The bytes from this place on, so many, as far as there are such.
fn bytes_at(text: &[u8], place: usize, size: usize) -> &[u8]
    ensures { result.now ≡ answer.bytes_at text.now place size }
{
    let (_, rest) = text.split_at(place.min(text.len()));
    let (word, _) = rest.split_at(size.min(rest.len()));
    word
}

/// The text spells no module; this is wrong at that place.
fn misspelled(alloc: Global, file: &str, place: usize, what: &[u8]) -> Result<Answer, AllocError>
    ensures { IfOk result (λ a. a ≡ answer.misspelled file.now place what.now) }
{
    let mut told = Vec::from_slice(alloc, b":")?;
    push_place(alloc, &mut told, place)?;
    told.extend_from_slice(b": ")?;
    told.extend_from_slice(what)?;
    fault(alloc, MISSPELLED, file, told.as_slice())
}

/// The same, where a word of the text is shown behind what is wrong.
fn misspelled_word(
    alloc: Global,
    file: &str,
    place: usize,
    what: &[u8],
    word: &[u8],
) -> Result<Answer, AllocError>
    ensures { IfOk result (λ a. a ≡ answer.misspelled file.now place (what.now ++ word.now)) }
{
    let mut told = Vec::from_slice(alloc, what)?;
    told.extend_from_slice(word)?;
    misspelled(alloc, file, place, told.as_slice())
}

fn wrong_number(
    alloc: Global,
    file: &str,
    place: usize,
    expected: u64,
) -> Result<Answer, AllocError>
    ensures { IfOk result (λ a. a ≡ answer.misspelled file.now place (codes "wrong number: expected " ++ decimal expected)) }
{
    let mut told = Vec::from_slice(alloc, b"wrong number: expected ")?;
    push_number(alloc, &mut told, expected)?;
    misspelled(alloc, file, place, told.as_slice())
}

fn text_fault(
    alloc: Global,
    found: TextFault,
    text: &[u8],
    file: &str,
) -> Result<Answer, AllocError>
    ensures { IfOk result (λ a. a ≡ answer.text_fault found text.now file.now) }
{
    match found {
        TextFault::BadByte(place) => misspelled(alloc, file, place, b"bad byte"),
        TextFault::BadString(place) => misspelled(alloc, file, place, b"bad string"),
        TextFault::BadNumber(place) => misspelled(alloc, file, place, b"bad number"),
        TextFault::Expected(place) => misspelled(alloc, file, place, b"expected other"),
        TextFault::LeftOut { place, length } => {
            misspelled_word(
                alloc,
                file,
                place,
                b"left out: ",
                bytes_at(text, place, length),
            )
        }
        TextFault::Unknown { place, length } => {
            misspelled_word(
                alloc,
                file,
                place,
                b"unknown: ",
                bytes_at(text, place, length),
            )
        }
        TextFault::Twice { place, length } => {
            misspelled_word(
                alloc,
                file,
                place,
                b"twice: ",
                bytes_at(text, place, length),
            )
        }
        TextFault::WrongNumber { place, expected } => wrong_number(alloc, file, place, expected),
        TextFault::WrongType(place) => misspelled(alloc, file, place, b"wrong type"),
        TextFault::Limit(limit) => past_limit(alloc, limit, file),
        TextFault::Memory => Err(AllocError),
    }
}

/// A block's name behind a blank.
fn push_block(alloc: Global, text: &mut Vec<u8>, block: &Name) -> Result<(), AllocError>
    ensures { OnOk result (text.new.items ≡ text.old.items ++ (32 ∷ printed_name Sigil.Local block.now)) }
{
    text.push(b' ')?;
    push_name(alloc, text, Sigil::Local, block)
}

fn push_line(alloc: Global, text: &mut Vec<u8>, block: &Name, line: usize) -> Result<(), AllocError>
    ensures { OnOk result (text.new.items ≡ text.old.items ++ answer.line_text block.now line) }
{
    push_block(alloc, text, block)?;
    text.push(b' ')?;
    push_place(alloc, text, line)
}

/// Nothing for a function's own name.
fn push_line_place(
    alloc: Global,
    text: &mut Vec<u8>,
    place: &Option<LinePlace>,
) -> Result<(), AllocError>
    ensures { OnOk result (text.new.items ≡ text.old.items ++ answer.place_text place.now) }
{
    match place {
        None => Ok(()),
        Some(place) => push_line(alloc, text, &place.block, place.line),
    }
}

fn shape_fault(alloc: Global, found: &ShapeFault, file: &str) -> Result<Answer, AllocError>
    ensures { IfOk result (λ a. a ≡ answer.shape_fault found.now file.now) }
{
    let mut told = Vec::from_slice(alloc, b": ")?;
    push_name(alloc, &mut told, found.sigil, &found.function)?;
    push_line_place(alloc, &mut told, &found.place)?;
    told.extend_from_slice(b": ")?;
    told.extend_from_slice(found.kind.text().as_bytes())?;
    fault(alloc, ILL_FORMED, file, told.as_slice())
}

fn push_path(alloc: Global, text: &mut Vec<u8>, names: &[Name]) -> Result<(), AllocError>
    ensures { OnOk result (text.new.items ≡ text.old.items ++ answer.path_text names.now) }
{
    for name in names {
        push_block(alloc, text, name)?;
    }
    Ok(())
}

fn push_use(alloc: Global, text: &mut Vec<u8>, found: &Undefined) -> Result<(), AllocError>
    ensures { OnOk result (text.new.items ≡ use_behind text.old.items found.now) }
{
    push_line(alloc, text, &found.block, found.line)?;
    text.extend_from_slice(b": ")?;
    push_name(alloc, text, Sigil::Local, &found.name)?;
    text.extend_from_slice(b" not defined on path")?;
    push_path(alloc, text, found.path.as_slice())
}

fn undefined(
    alloc: Global,
    function: &Name,
    found: &Undefined,
    file: &str,
) -> Result<Answer, AllocError>
    ensures { IfOk result (λ a. a ≡ answer.undefined function.now found.now file.now) }
{
    let mut told = Vec::from_slice(alloc, b": ")?;
    push_name(alloc, &mut told, Sigil::Global, function)?;
    push_use(alloc, &mut told, found)?;
    fault(alloc, ILL_FORMED, file, told.as_slice())
}

/// The answer to a module's text whose first fault this is: the file, the place and what is wrong there. Want of memory has none.
pub fn module_fault(
    alloc: Global,
    found: &ModuleFault,
    text: &[u8],
    file: &str,
) -> Result<Answer, AllocError>
    ensures answer { IfOk result (λ a. a ≡ answer.module_fault found.now text.now file.now) }
    ensures said { IfOk result (λ _. found.now ≢ fault.Memory) }
{
    match found {
        ModuleFault::Text(told) => text_fault(alloc, *told, text, file),
        ModuleFault::Shape(broken) => shape_fault(alloc, broken, file),
        ModuleFault::Undefined {
            function,
            undefined: used,
        } => undefined(alloc, function, used, file),
        ModuleFault::Memory => Err(AllocError),
    }
}
