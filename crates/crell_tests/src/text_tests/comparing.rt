use crate::text_tests::told::{is, told};
use contents::Seq;
use erhl_assert::{Difference, Hints, ModuleVerdict};
use erhl_checker::{CheckEnd, check_module};
use ir_core::Module;
use ir_reader::read_module;
use rule_base::RuleBook;
use std::alloc::{AllocError, Global};
use std::test::*;

fn shown_verdict(verdict: &Result<ModuleVerdict, CheckEnd>) -> &'static [u8] {
    match verdict {
        Ok(ModuleVerdict::Valid) => b"valid",
        Ok(ModuleVerdict::Differs(Difference::Types)) => b"types",
        Ok(ModuleVerdict::Differs(Difference::Globals)) => b"globals",
        Ok(ModuleVerdict::Differs(Difference::Declarations)) => b"declarations",
        Ok(ModuleVerdict::Differs(Difference::Functions)) => b"functions",
        Ok(ModuleVerdict::Refused { .. }) => b"refused",
        Err(_) => b"no verdict",
    }
}

/// What is said of the modules without a hint, and without a rule.
fn compared(alloc: Global, source: &Module, target: &Module) -> Result<Vec<u8>, AllocError> {
    let hints = Hints {
        functions: Seq::new(alloc),
    };
    let book = RuleBook::new(Vec::new(alloc));
    shown_verdict(&check_module(alloc, source, target, &hints, &book)).to_vec(alloc)
}

/// What is said of the modules that the texts spell.
fn shown(alloc: Global, source: &[u8], target: &[u8]) -> Result<Vec<u8>, AllocError> {
    match (read_module(alloc, source), read_module(alloc, target)) {
        (Ok(source), Ok(target)) => compared(alloc, &source, &target),
        (Err(fault), _) | (_, Err(fault)) => told(alloc, fault),
    }
}

/// Texts of two modules, and behind a `~` the first list in which they differ; a `|` ends each.
const ROWS: &[u8] = b"@a = global i32 0, align 4~@a = global i32 0, align 4~valid|\
@a = global i32 0, align 4~@a = global i32 0, align 8~globals|\
@a = global i32 0, align 4~@a = global i32 0~globals|\
@a = global i32 0~@a = internal global i32 0~globals|\
@a = global i32 0~@a = constant i32 0~globals|\
@a = global i32 0~@a = external global i32~globals|\
@a = global i32 0~@a = global i64 0~globals|\
@a = global i32 0~@b = global i32 0~globals|\
@a = global i32 0~~globals|\
@a = global i32 0 @b = global i32 0~@b = global i32 0 @a = global i32 0~globals|\
@a = constant { i32, [2 x i8] } { i32 1, [2 x i8] [i8 2, i8 3] }~@a = constant { i32, [2 x i8] } { i32 1, [2 x i8] [i8 2, i8 3] }~valid|\
@a = constant { i32, [2 x i8] } { i32 1, [2 x i8] [i8 2, i8 3] }~@a = constant { i32, [2 x i8] } { i32 1, [2 x i8] [i8 2, i8 4] }~globals|\
@a = constant [2 x i8] c\"ab\"~@a = constant [2 x i8] c\"ac\"~globals|\
@a = global i8 0 @b = global i8 0 @c = global [1 x i32*] [i32* bitcast (i8* @a to i32*)]~\
@a = global i8 0 @b = global i8 0 @c = global [1 x i32*] [i32* bitcast (i8* @b to i32*)]~globals|\
define void @f() { ret void } declare void @g(i8)~declare void @g(i8) define void @f() { ret void }~valid|\
declare void @g(i8) declare void @h(i8)~declare void @h(i8) declare void @g(i8)~declarations|\
declare void @g(i8)~declare void @g(i8, ...)~declarations|\
declare void @g(i8)~declare void @g(i8 signext)~declarations|\
declare zeroext i8 @g(i8)~declare i8 @g(i8)~declarations|\
declare void @g(i8)~declare void @g(i16)~declarations|\
declare void @g(i8)~~declarations|\
%t = type { i8 } @a = global i32 0~%t = type { i16 } @a = global i32 1~types|\
@a = global i32 0 declare void @g(i8)~@a = global i32 1 declare void @g(i16)~globals|\
declare void @g(i8) define void @f() { ret void }~declare void @g(i16) define void @e() { ret void }~declarations|\
declare void @g(i8) define void @f() { ret void }~declare void @g(i8) define void @e() { ret void }~functions";

#[test]
fn pairs_differ_as_they_say(rt: HostRuntime) {
    let mut count: u32 = 0;
    for row in ROWS.split(|byte| *byte == b'|') {
        let mut parts = row.split(|byte| *byte == b'~');
        if let (Some(source), Some(target), Some(wanted)) = (
            parts.next(),
            parts.next(),
            parts.next(),
        ) {
            assert!(rt;
                is(shown(rt.alloc(), source, target), wanted),
                "row {count}"
            );
            count = count.saturating_add(1);
        }
    }
    assert!(rt; count == 25);
}
