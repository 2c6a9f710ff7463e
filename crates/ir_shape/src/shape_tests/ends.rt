//! What is wrong with a terminator.
ghost use Rattle.std.specs.Prelude.{◌≡◌, [], map, IfOk};
ghost use Rattle.std.specs.List.{list_all, list_any};
ghost use Rattle.ir_core.specs.declared.functions.Case.{Case};
ghost use Rattle.ir_types.specs.Same as same;
ghost use Rattle.ir_core.specs.Types as types;
ghost use Rattle.ir_shape.specs.ShapeTests.Kinds as meaning;

use indexmap::IndexSet;
use ir_core::{Case, Name, Switch, Term, Ty, is_integer, same_name, same_ty};
use std::alloc::{AllocError, Global};

fn is_case_label(cases: &[Case], name: &Name) -> bool
    ensures { result ≡ list_any (same.same_name name.now) (map (λ (c : Case). c.label) cases.now) }
{
    for case in cases {
        if same_name(name, &case.label) {
            return true;
        }
    }
    false
}

pub fn leads_to(name: &Name, end: &Term) -> bool
    ensures { result ≡ meaning.leads_to name.now end.now }
{
    match end {
        Term::Br(label) => same_name(name, label),
        Term::CondBr(branch) => {
            same_name(name, &branch.on_true) || same_name(name, &branch.on_false)
        }
        Term::Switch(switch) => {
            same_name(name, &switch.default) || is_case_label(switch.cases.as_slice(), name)
        }
        Term::Ret(_) | Term::RetVoid | Term::Unreachable => false,
    }
}

pub fn branch_fits(end: &Term) -> bool
    ensures { result ≡ meaning.branch_fits end.now }
{
    match end {
        Term::CondBr(branch) => same_ty(&branch.condition.ty, &Ty::Int(1)),
        Term::Switch(switch) => is_integer(&switch.value.ty),
        Term::Ret(_) | Term::RetVoid | Term::Br(_) | Term::Unreachable => true,
    }
}

pub fn return_fits(due: &Ty, end: &Term) -> bool
    ensures { result ≡ meaning.return_fits due.now end.now }
{
    match end {
        Term::Ret(operand) => same_ty(&operand.ty, due),
        Term::RetVoid => same_ty(due, &Ty::Void),
        Term::Br(_) | Term::CondBr(_) | Term::Switch(_) | Term::Unreachable => true,
    }
}

/// The number at the type, modulo 2 to its width.
#[tactic(auto, using(crate::proofs::ShapeTests::Numbers::one_shifted, crate::proofs::ShapeTests::Numbers::stays))]
fn number_at(ty: &Ty, number: u64) -> u64
    ensures { result ≡ types.number_at ty.now number }
{
    match ty {
        Ty::Int(width) => {
            if *width < 64 {
                number % (1 << *width)
            } else {
                number
            }
        }
        _ => number,
    }
}

fn are_typed(value: &Ty, cases: &[Case]) -> bool
    ensures { result ≡ list_all (λ (c : Case). same.same_ty c.ty value.now) cases.now }
{
    for case in cases {
        if !same_ty(&case.ty, value) {
            return false;
        }
    }
    true
}

fn are_apart(alloc: Global, value: &Ty, cases: &[Case]) -> Result<bool, AllocError>
    ensures { IfOk result (λ apart. apart ≡ meaning.are_apart [] (meaning.numbers_of value.now cases.now)) }
{
    let mut seen = IndexSet::with_capacity(alloc, cases.len())?;
    for case in cases {
        if !seen.insert(number_at(value, case.number.get()))? {
            return Ok(false);
        }
    }
    Ok(true)
}

fn switch_fits(alloc: Global, switch: &Switch) -> Result<bool, AllocError>
    ensures { IfOk result (λ fit. fit ≡ meaning.cases_fit (Term.Switch switch.now)) }
{
    if !are_typed(&switch.value.ty, switch.cases.as_slice()) {
        return Ok(false);
    }
    are_apart(alloc, &switch.value.ty, switch.cases.as_slice())
}

pub fn cases_fit(alloc: Global, end: &Term) -> Result<bool, AllocError>
    ensures { IfOk result (λ fit. fit ≡ meaning.cases_fit end.now) }
{
    match end {
        Term::Switch(switch) => switch_fits(alloc, switch),
        Term::Ret(_) | Term::RetVoid | Term::Br(_) | Term::CondBr(_) | Term::Unreachable => Ok(
            true,
        ),
    }
}
