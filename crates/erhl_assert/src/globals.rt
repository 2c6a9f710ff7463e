//! Whether two globals or two declarations are the same, said as the tests of `specs/Globals.antt`, with which definitions compute.
ghost use Rattle.std.specs.Prelude.{◌≡◌, ◌↔◌, true};
ghost use Rattle.ir_types.specs.Same.{IsEquality, same_list};
ghost use Rattle.ir_core.specs.Same as same;
ghost use Rattle.ir_core.specs.declared.modules.Declaration.{Declaration};
ghost use Rattle.erhl_assert.specs.Globals as spec;

use contents::{Exact, Seq};
use ir_core::{Declaration, DeclaredParam, Extensions, GlobalVar, same_name, same_ty};

/// All that is kept of a global counts.
pub fn same_global(a: &GlobalVar, b: &GlobalVar) -> bool
    ensures { result ≡ spec.same_global a.now b.now }
{
    a.is(b)
}

#[tactic(auto, using(crate::proofs::SameGlobals::same_bool_true, crate::proofs::SameGlobals::same_bool_refl))]
fn same_bool(a: bool, b: bool) -> bool
    ensures { result ≡ same.same_bool a b }
{
    a == b
}

fn same_extensions(a: &Extensions, b: &Extensions) -> bool
    ensures { result ≡ spec.same_extensions a.now b.now }
{
    same_bool(a.signed, b.signed) && same_bool(a.zero, b.zero)
}

fn same_params(a: &Seq<DeclaredParam>, b: &Seq<DeclaredParam>) -> bool
    ensures { result ≡ same_list spec.same_declared_param a.now b.now }
{
    a.is(b)
}

/// Wherever they stand among the definitions.
pub fn same_declaration(a: &Declaration, b: &Declaration) -> bool
    ensures { result ≡ spec.same_declaration a.now b.now }
{
    same_extensions(&a.result_extensions, &b.result_extensions)
        && same_ty(&a.result, &b.result)
        && same_name(&a.name, &b.name)
        && same_params(&a.params, &b.params)
        && same_bool(a.variadic, b.variadic)
}

/// Empty on purpose: its contract is the law.
///
/// The test of two globals is true exactly of equal ones, and that of two declarations exactly where one says what the other does.
pub fn globals_are_compared()
    ensures globals { IsEquality spec.same_global }
    ensures declarations { (d e : Declaration) → (spec.same_declaration d e ≡ true) ↔ spec.IsDeclaredAs d e }
{}
