use ir_core::{Name, Reg, Ty};
use ir_printer::{print_register, print_type};
use std::alloc::{AllocError, Global};
use std::test::*;

fn is(text: Result<Vec<u8>, AllocError>, wanted: &str) -> bool {
    match text {
        Ok(text) => text.as_slice() == wanted.as_bytes(),
        Err(_) => false,
    }
}

fn is_type(alloc: Global, ty: &Ty, wanted: &str) -> bool {
    is(print_type(alloc, ty), wanted)
}

fn is_register(alloc: Global, register: &Reg, wanted: &str) -> bool {
    is(print_register(alloc, register), wanted)
}

/// What no text of a type spells.
#[test]
fn void_is_printed(rt: HostRuntime) {
    assert!(rt; is_type(rt.alloc(), &Ty::Void, "void"));
}

#[test]
fn old_and_ghost_registers_are_printed(rt: HostRuntime) {
    let alloc = rt.alloc();
    assert!(rt; is_register(alloc, &Reg::Old(Name::Number(0)), "old %0"));
    assert!(rt; is_register(alloc, &Reg::Ghost(Name::Number(0)), "ghost %0"));
}
