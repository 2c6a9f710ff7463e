//! When two terminators may stand beside each other.
ghost use Rattle.std.specs.Prelude.{◌≡◌, IfOk, None};
ghost use Rattle.ir_types.specs.Same.{same_list, same_name};
ghost use Rattle.ir_core.specs.declared.functions.Term.TheVariants as term;
ghost use Rattle.erhl_assert.specs.Acceptance.{same_case, operand_fault, of_one_kind, term_fault};

use contents::Exact;
use erhl_assert::Reason;
use fact_sets::{IndexedSet, Sides};
use ir_core::{Case, CondBr, Name, Operand, Switch, Term, same_name, same_ty};
use line_align::{Likeness, all_alike};
use postcondition::matched;
use std::alloc::{AllocError, Global};

/// One number of one type, and one label.
struct OneCase;

impl Likeness<Case> for OneCase {
    ghost use Rattle.erhl_assert.specs.Acceptance.{same_case};

    ghost like = { λ _ c d. same_case c d };

    fn are_alike(&self, c: &Case, d: &Case) -> bool {
        same_ty(&c.ty, &d.ty) && c.number.get() == d.number.get() && same_name(&c.label, &d.label)
    }
}

fn same_cases(source: &[Case], target: &[Case]) -> bool
    ensures { result ≡ same_list same_case source.now target.now }
{
    all_alike(&OneCase, source, target)
}

fn operand_fault(
    alloc: Global,
    a: &Operand<Name>,
    b: &Operand<Name>,
    known: &Sides<IndexedSet>,
) -> Result<Option<Reason>, AllocError>
    ensures { IfOk result (λ fault. fault ≡ operand_fault known.now a.now b.now) }
{
    if matched(a, b, known) {
        return Ok(None);
    }
    let a = a.copy(alloc)?;
    Ok(Some(Reason::Unmatched(a, b.copy(alloc)?)))
}

fn branch_fault(
    alloc: Global,
    c: &CondBr,
    d: &CondBr,
    known: &Sides<IndexedSet>,
) -> Result<Option<Reason>, AllocError>
    ensures { IfOk result (λ fault. fault ≡ term_fault known.now (term.CondBr c.now) (term.CondBr d.now)) }
{
    if same_name(&c.on_true, &d.on_true) && same_name(&c.on_false, &d.on_false) {
        operand_fault(alloc, &c.condition, &d.condition, known)
    } else {
        Ok(Some(Reason::KindsDiffer))
    }
}

fn switch_fault(
    alloc: Global,
    s: &Switch,
    t: &Switch,
    known: &Sides<IndexedSet>,
) -> Result<Option<Reason>, AllocError>
    ensures { IfOk result (λ fault. fault ≡ term_fault known.now (term.Switch s.now) (term.Switch t.now)) }
{
    if same_name(&s.default, &t.default) && same_cases(s.cases.as_slice(), t.cases.as_slice()) {
        operand_fault(alloc, &s.value, &t.value, known)
    } else {
        Ok(Some(Reason::KindsDiffer))
    }
}

fn jump_fault(x: &Name, y: &Name) -> Option<Reason>
    ensures { result ≡ of_one_kind (same_name x.now y.now) None }
{
    if same_name(x, y) {
        None
    } else {
        Some(Reason::KindsDiffer)
    }
}

/// Why the two may not stand beside each other, if they may not.
pub fn term_fault(
    alloc: Global,
    source: &Term,
    target: &Term,
    known: &Sides<IndexedSet>,
) -> Result<Option<Reason>, AllocError>
    ensures { IfOk result (λ fault. fault ≡ term_fault known.now source.now target.now) }
{
    match (source, target) {
        (Term::Ret(a), Term::Ret(b)) => operand_fault(alloc, a, b, known),
        (Term::RetVoid, Term::RetVoid) => Ok(None),
        (Term::Br(x), Term::Br(y)) => Ok(jump_fault(x, y)),
        (Term::CondBr(c), Term::CondBr(d)) => branch_fault(alloc, c, d, known),
        (Term::Switch(s), Term::Switch(t)) => switch_fault(alloc, s, t, known),
        (Term::Unreachable, Term::Unreachable) => Ok(None),
        _ => Ok(Some(Reason::KindsDiffer)),
    }
}
