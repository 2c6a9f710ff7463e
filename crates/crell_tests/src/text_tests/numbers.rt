use crate::text_tests::told::{is, told};
use contents::Seq;
use ir_core::{Function, Module};
use ir_printer::print_module;
use ir_reader::read_module;
use ir_rename::number_in_order;
use std::alloc::{AllocError, Global};
use std::mem;
use std::test::*;

/// The functions, which take nothing now.
fn without_params(alloc: Global, functions: Seq<Function>) -> Result<Seq<Function>, AllocError> {
    let mut left = Seq::new(alloc);
    for function in functions.into_vec() {
        let mut function = function;
        function.params = Seq::new(alloc);
        left.push(function)?;
    }
    Ok(left)
}

/// The module with its numbers in order, printed. Its functions take nothing, so that their numbers aren't in order before.
fn numbered(alloc: Global, module: Module) -> Result<Vec<u8>, AllocError> {
    let mut module = module;
    let functions = mem::replace(&mut module.functions, Seq::new(alloc));
    module.functions = without_params(alloc, functions)?;
    print_module(alloc, &number_in_order(alloc, &module)?)
}

fn shown(alloc: Global, text: &[u8]) -> Result<Vec<u8>, AllocError> {
    match read_module(alloc, text) {
        Ok(module) => numbered(alloc, module),
        Err(fault) => told(alloc, fault),
    }
}

/// Names stay, and what is unnamed is counted from 0.
#[test]
fn numbers_are_put_in_order(rt: HostRuntime) {
    let text = b"define i8 @f(i8, i8 %x) { %2 = add i8 1, 2 br label %3
%y = add i8 %2, 3 %4 = add i8 %y, %2 br label %a a: ret i8 %4 }";
    let wanted = b"define i8 @f() {
  %1 = add i8 1, 2
  br label %2

; <label>:2
  %y = add i8 %1, 3
  %3 = add i8 %y, %1
  br label %a

a:
  ret i8 %3
}
";
    assert!(rt; is(shown(rt.alloc(), text.as_slice()), wanted.as_slice()));
}
