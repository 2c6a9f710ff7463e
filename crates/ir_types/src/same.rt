//! Exact comparison, said as the tests of `specs/Same.antt`, with which definitions compute.
ghost use Rattle.std.specs.Prelude.{◌≡◌};
ghost use Rattle.ir_types.specs.Same as same;
ghost use Rattle.ir_types.specs.Same.{IsEquality};

use crate::{Name, Ty};
use contents::Exact;

#[tactic(auto, using(crate::specs::NameLaws::same_name_true, crate::specs::NameLaws::same_name_refl))]
pub fn same_name(a: &Name, b: &Name) -> bool
    ensures { result ≡ same.same_name a.now b.now }
{
    a.is(b)
}

#[tactic(auto, using(crate::proofs::SameLaws::same_ty_true, crate::proofs::SameLaws::same_ty_refl))]
pub fn same_ty(a: &Ty, b: &Ty) -> bool
    ensures { result ≡ same.same_ty a.now b.now }
{
    a.is(b)
}

/// Empty on purpose: its contract is the law.
///
/// Each of these tests is true exactly of equal things.
pub fn tests_are_equality()
    ensures names { IsEquality same.same_name }
    ensures types { IsEquality same.same_ty }
{}
