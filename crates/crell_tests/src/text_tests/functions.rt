ghost use Rattle.std.specs.Prelude.{IsTrue};
ghost use Rattle.ir_core.specs.WellFormed.{HasFunctionShape};

use crate::text_tests::told::{is, told};
use definedness::{reachable, shape_knows_labels};
use ir_core::{Function, Module, Name};
use ir_reader::read_module;
use ir_shape::{LinePlace, ShapeEnd, ShapeFault, functions_have_shape_or_a_fault, shape_function};
use std::alloc::{AllocError, Global};
use std::test::*;

/// The kind of a fault, behind the number of its block and that of the line, if it is in one.
fn fault_shown(alloc: Global, fault: &ShapeFault) -> Result<Vec<u8>, AllocError> {
    let kind = fault.kind.text();
    let text = match &fault.place {
        None => format!(in alloc; "{kind}")?,
        Some(
            LinePlace {
                block: Name::Number(block),
                line,
            },
        ) => format!(in alloc; "%{block} {line} {kind}")?,
        Some(_) => String::new(alloc),
    };
    Ok(text.into_bytes())
}

fn shape_shown(alloc: Global, module: &Module, function: &Function) -> Result<Vec<u8>, AllocError> {
    match shape_function(alloc, module, function) {
        Ok(()) => b"fits".to_vec(alloc),
        Err(ShapeEnd::Fault(fault)) => fault_shown(alloc, &fault),
        Err(ShapeEnd::Limit(_)) => Ok(Vec::new(alloc)),
        Err(ShapeEnd::Memory) => Err(AllocError),
    }
}

/// What is said of the one function that the text spells.
fn shown(alloc: Global, text: &[u8]) -> Result<Vec<u8>, AllocError> {
    match read_module(alloc, text) {
        Ok(module) => match module.functions.as_slice() {
            [function] => shape_shown(alloc, &module, function),
            _ => Ok(Vec::new(alloc)),
        },
        Err(fault) => told(alloc, fault),
    }
}

/// Texts of one function, and behind a `~` that it fits, or its first fault; a `|` ends each.
const ROWS: &[u8] = b"define i8 @0(i8) { br label %2 %3 = add i8 %0, 1 ret i8 %3 }~fits|\
define i8 @0(i8) { br label %2 %3 = add i8 %0, 1 ret i16 0 }~%2 1 return type|\
define i8 @0(i8) { %2 = zext i8 %0 to i8 ret i16 0 }~%1 0 cast width|\
define i8 @llvm.dbg.a(i8) { ret i8 %0 }~name";

#[test]
fn shapes(rt: HostRuntime) {
    let mut count: u32 = 0;
    for row in ROWS.split(|byte| *byte == b'|') {
        let mut parts = row.split(|byte| *byte == b'~');
        if let (Some(text), Some(wanted)) = (parts.next(), parts.next()) {
            assert!(rt; is(shown(rt.alloc(), text), wanted), "row {count}");
            count = count.saturating_add(1);
        }
    }
    assert!(rt; count == 4);
}

fn has_shape(alloc: Global, module: &Module, function: &Function) -> bool
    ensures { IsTrue result → HasFunctionShape «module».now «function».now }
{
    functions_have_shape_or_a_fault();
    match shape_function(alloc, module, function) {
        Ok(()) => true,
        Err(_) => false,
    }
}

/// Whether these are the marks of the function, which has shape.
fn are_marks(alloc: Global, module: &Module, function: &Function, wanted: &[bool]) -> bool {
    if !has_shape(alloc, module, function) {
        return false;
    }
    shape_knows_labels();
    match reachable(alloc, function) {
        Ok(marks) => marks.as_slice() == wanted,
        Err(_) => false,
    }
}

/// Whether so the blocks of the one function that the text spells are reached.
fn are_reached(alloc: Global, text: &[u8], wanted: &[bool]) -> bool {
    match read_module(alloc, text) {
        Ok(module) => match module.functions.as_slice() {
            [function] => are_marks(alloc, &module, function, wanted),
            _ => false,
        },
        Err(_) => false,
    }
}

const JUMP: &[u8] = b"define i8 @0(i8) { br label %3 br label %3 ret i8 %0 }";

const LOOP: &[u8] = b"define i8 @0(i1, i8) { br label %3 br i1 %0, label %3, label %4 ret i8 %1 }";

#[test]
fn reached_blocks(rt: HostRuntime) {
    for (text, wanted) in [(JUMP, [true, false, true]), (LOOP, [true, true, true])] {
        assert!(rt; are_reached(rt.alloc(), text, wanted.as_slice()));
    }
}
