use contents::{Boxed, Exact};
use ir_core::{Name, Reg};
use std::alloc::Global;
use std::test::*;

fn is_copied<T: Exact>(alloc: Global, item: &T) -> bool {
    match item.copy(alloc) {
        Ok(copy) => copy.is(item),
        Err(_) => false,
    }
}

fn is_boxed(alloc: Global, number: u32) -> bool {
    match Boxed::new(alloc, number) {
        Ok(boxed) => is_copied(alloc, &boxed),
        Err(_) => false,
    }
}

/// What no text needs that is read so far.
#[test]
fn boxes_and_registers_are_copied(rt: HostRuntime) {
    let alloc = rt.alloc();
    assert!(rt; is_boxed(alloc, u32::MAX));
    assert!(rt; is_copied(alloc, &Reg::Old(Name::Number(0))));
    assert!(rt; is_copied(alloc, &Reg::Ghost(Name::Number(1))));
}
