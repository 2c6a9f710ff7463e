use erhl_assert::{Hints, ModuleVerdict, Reason, Spot, Verdict};
use erhl_checker::{CheckEnd, check_function, check_module};
use hint_format::read_hints;
use ir_core::{Module, Name};
use ir_reader::read_module;
use rule_base::{InferRule, Rule, RuleBook};
use rules_arith::ArithRule;
use std::alloc::Global;
use std::test::*;

/// A number plus zero, and the number.
const SOURCE: &[u8] = b"define i32 @0(i32) { %2 = add i32 %0, 0 ret i32 %2 }";

const TARGET: &[u8] = b"define i32 @0(i32) { ret i32 %0 }";

/// The sum becomes the number by a rule, before the terminator.
const HINTS: &[u8] =
    b"{\"format\":1,\"functions\":{\"@0\":{\"blocks\":[{\"at\":\"%1\",\"lines\":\"s\",\"steps\":[
{\"at\":1,\"rule\":\"zero_right\",\"side\":\"src\",\"from\":[],\"to\":[\"ge\",\"add i32 %0, 0\",\"i32 %0\"]},
{\"at\":1,\"rule\":\"trans\",\"side\":\"src\",\"from\":[[\"ge\",\"i32 %2\",\"add i32 %0, 0\"],[\"ge\",\"add i32 %0, 0\",\"i32 %0\"]],
\"to\":[\"ge\",\"i32 %2\",\"i32 %0\"]}]}]}}}";

/// What the checker says of modules or functions.
#[derive(Drop, Clone, Copy, PartialEq)]
enum Seen {
    Valid,
    /// A rule isn't known before the terminator of the one block.
    Unknown,
    Other,
}

fn is_unknown(block: &Name, spot: &Spot, reason: &Reason) -> bool {
    match (block, spot, reason) {
        (Name::Number(1), Spot::Line(1), Reason::UnknownRule(rule)) => {
            rule.as_slice() == b"zero_right".as_slice()
        }
        _ => false,
    }
}

fn refused(block: &Name, spot: &Spot, reason: &Reason) -> Seen {
    if is_unknown(block, spot, reason) {
        Seen::Unknown
    } else {
        Seen::Other
    }
}

fn refused_in(function: &Name, block: &Name, spot: &Spot, reason: &Reason) -> Seen {
    match function {
        Name::Number(0) => refused(block, spot, reason),
        _ => Seen::Other,
    }
}

fn function_seen(verdict: &Result<Verdict, CheckEnd>) -> Seen {
    match verdict {
        Ok(Verdict::Valid) => Seen::Valid,
        Ok(
            Verdict::Refused {
                block,
                spot,
                reason,
            },
        ) => refused(block, spot, reason),
        Err(_) => Seen::Other,
    }
}

fn module_seen(verdict: &Result<ModuleVerdict, CheckEnd>) -> Seen {
    match verdict {
        Ok(ModuleVerdict::Valid) => Seen::Valid,
        Ok(
            ModuleVerdict::Refused {
                function,
                block,
                spot,
                reason,
            },
        ) => refused_in(function, block, spot, reason),
        Ok(ModuleVerdict::Differs(_)) | Err(_) => Seen::Other,
    }
}

/// The same of the one function of each.
fn functions_seen(
    alloc: Global,
    source: &Module,
    target: &Module,
    hints: &Hints,
    book: &RuleBook,
) -> Seen {
    match (
        source.functions.as_slice(),
        target.functions.as_slice(),
        hints.functions.as_slice(),
    ) {
        ([f], [g], [of_f]) => {
            function_seen(&check_function(alloc, source, f, g, &of_f.hint, book))
        }
        _ => Seen::Other,
    }
}

/// What is said of the modules, and of their functions.
fn both_seen(alloc: Global, book: &RuleBook) -> (Seen, Seen) {
    match (
        read_module(alloc, SOURCE),
        read_module(alloc, TARGET),
        read_hints(alloc, HINTS),
    ) {
        (Ok(source), Ok(target), Ok(hints)) => (
            module_seen(&check_module(alloc, &source, &target, &hints, book)),
            functions_seen(alloc, &source, &target, &hints, book),
        ),
        _ => (Seen::Other, Seen::Other),
    }
}

#[test]
fn modules_and_functions_are_checked_by_a_book(rt: HostRuntime) -> Result<(), Fail> {
    let alloc = rt.alloc();
    let mut rules: Vec<Box<dyn InferRule>> = Vec::new(alloc);
    for rule in Rule::ALL {
        rules.push(Box::new(alloc, rule)?)?;
    }
    for rule in ArithRule::ALL {
        rules.push(Box::new(alloc, rule)?)?;
    }
    assert!(rt; both_seen(alloc, &RuleBook::new(rules)) == (Seen::Valid, Seen::Valid));
    let none = RuleBook::new(Vec::new(alloc));
    assert!(rt; both_seen(alloc, &none) == (Seen::Unknown, Seen::Unknown));
    Ok(())
}
