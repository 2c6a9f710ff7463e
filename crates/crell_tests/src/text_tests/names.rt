use crate::text_tests::told::{is, told};
use expression_reader::read_name;
use ir_core::Sigil;
use ir_printer::print_name;
use std::alloc::{AllocError, Global};
use std::test::*;

/// The name that the text spells behind the sigil, as it is printed, or the text's first fault.
fn shown(alloc: Global, sigil: Sigil, text: &[u8]) -> Result<Vec<u8>, AllocError> {
    match read_name(alloc, sigil, text) {
        Ok(name) => print_name(alloc, sigil, &name),
        Err(fault) => told(alloc, fault),
    }
}

/// Texts of local names, and behind a `~` the name that each spells, as it is printed, or its first fault; a `|` ends each.
const LOCALS: &[u8] = b"%x~%x|\
\t%7 ; seven~%7|\
%\"x\"~%x|\
%\"a b\"~%\"a b\"|\
%007~%7|\
~Expected 0|\
\t; none\n~Expected 8|\
@f~Expected 0|\
x~Expected 0|\
%x %y~Expected 3|\
@f %y~Expected 0|\
%x float~LeftOut 3 5|\
float %x~LeftOut 0 5|\
%x ?~BadByte 3|\
@f ?~BadByte 3|\
%\"x~BadString 1|\
%4294967296~BadByte 0";

/// The same of global names.
const GLOBALS: &[u8] = b"@f~@f|\
@llvm.dbg.value~@llvm.dbg.value|\
@0 ; none~@0|\
%x~Expected 0|\
@f()~Expected 2";

/// Whether each row is told so, and there are so many.
fn are_told(alloc: Global, sigil: Sigil, rows: &[u8], wanted_count: u32) -> bool {
    let mut count: u32 = 0;
    for row in rows.split(|byte| *byte == b'|') {
        let mut parts = row.split(|byte| *byte == b'~');
        if let (Some(text), Some(wanted)) = (parts.next(), parts.next()) {
            if !is(shown(alloc, sigil, text), wanted) {
                return false;
            }
            count = count.saturating_add(1);
        }
    }
    count == wanted_count
}

#[test]
fn names(rt: HostRuntime) {
    assert!(rt; are_told(rt.alloc(), Sigil::Local, LOCALS, 17));
    assert!(rt; are_told(rt.alloc(), Sigil::Global, GLOBALS, 5));
}
