//! The verdict on two modules.
ghost use Rattle.std.specs.Prelude.{◌≡◌, ◌↔◌, false, map, IfOk, IfErr, None, Some};
ghost use Rattle.std.specs.List.{AllByRecursion};
ghost use Rattle.ir_core.specs.declared.limits.Limit.{Limit};
ghost use Rattle.ir_core.specs.declared.limits.Limit.TheVariants.{Facts};
ghost use Rattle.ir_types.specs.Same as same;
ghost use Rattle.ir_core.specs.Modules.{declarations_of, definitions_of};
ghost use Rattle.ir_machine.specs.State.{scope_of};
ghost use Rattle.ir_machine.specs.Refinement.{Refines};
ghost use Rattle.erhl_assert.specs.Acceptance as acceptance;
ghost use Rattle.erhl_assert.specs.Alignment.{no_facts};
ghost use Rattle.erhl_assert.specs.Globals.{AreDeclaredAlike};
ghost use Rattle.erhl_assert.specs.Steps.{beside};
ghost use Rattle.rule_base.specs.Book.{meanings_of, rules_of};
ghost use Rattle.erhl_soundness.specs.Laws.{ArePhisApart};
ghost use Rattle.erhl_checker.specs.CheckedPair.Progress.{Answers};

use crate::block_checker::CheckEnd;
use crate::functions::function_answer;
use contents::{Exact, Seq};
use erhl_assert::{
    Difference, FunctionHint, Hint, Hints, ModuleVerdict, Verdict, same_declaration, same_global,
};
use erhl_soundness::accepted_modules_refine;
use fact_sets::{IndexedSet, Sides};
use ir_core::{
    Declaration, Function, GlobalVar, Module, NamedTy, Param, Shared, Ty, same_name, same_ty,
};
use line_align::{ByName, Likeness, all_alike};
use rule_base::{InferRule, RuleBook, book_is_sound};
use std::alloc::Global;

/// One type.
struct OneType;

impl Likeness<Param> for OneType {
    ghost use Rattle.ir_types.specs.Same.{same_ty};

    ghost like = { λ _ p q. same_ty p.ty q.ty };

    fn are_alike(&self, p: &Param, q: &Param) -> bool {
        same_ty(&p.ty, &q.ty)
    }
}

#[tactic(auto, using(crate::proofs::Differing::same_types))]
fn same_param_types(source: &[Param], target: &[Param]) -> bool
    ensures { result ≡ same.same_list same.same_ty (map (λ p. p.ty) source.now) (map (λ p. p.ty) target.now) }
{
    all_alike(&OneType, source, target)
}

/// One type itself.
struct Itself;

impl Likeness<Ty> for Itself {
    ghost use Rattle.ir_types.specs.Same.{same_ty};

    ghost like = { λ _ s t. same_ty s t };

    fn are_alike(&self, s: &Ty, t: &Ty) -> bool {
        same_ty(s, t)
    }
}

fn same_fields(source: &Option<Shared<Seq<Ty>>>, target: &Option<Shared<Seq<Ty>>>) -> bool
    ensures { result ≡ acceptance.same_fields source.now target.now }
{
    match (source, target) {
        (Some(source), Some(target)) => {
            all_alike(&Itself, source.get().as_slice(), target.get().as_slice())
        }
        (None, None) => true,
        _ => false,
    }
}

/// One named type: name and fields are equal.
struct OneName;

impl Likeness<NamedTy> for OneName {
    ghost use Rattle.erhl_assert.specs.Acceptance.{same_named_type};

    ghost like = { λ _ s t. same_named_type s t };

    fn are_alike(&self, source: &NamedTy, target: &NamedTy) -> bool {
        same_name(&source.name, &target.name) && same_fields(&source.fields, &target.fields)
    }
}

/// One global: all that is kept of it is equal.
struct OneGlobal;

impl Likeness<GlobalVar> for OneGlobal {
    ghost use Rattle.erhl_assert.specs.Globals.{same_global};

    ghost like = { λ _ g h. same_global g h };

    fn are_alike(&self, source: &GlobalVar, target: &GlobalVar) -> bool {
        same_global(source, target)
    }
}

/// One declaration, wherever it stands among the definitions.
struct OneDeclaration;

impl Likeness<Declaration> for OneDeclaration {
    ghost use Rattle.erhl_assert.specs.Globals.{same_declaration};

    ghost like = { λ _ d e. same_declaration d e };

    fn are_alike(&self, source: &Declaration, target: &Declaration) -> bool {
        same_declaration(source, target)
    }
}

/// One signature: name, return type and parameter types are equal.
struct Signature;

impl Likeness<Function> for Signature {
    ghost use Rattle.erhl_assert.specs.Acceptance.{same_signature};

    ghost like = { λ _ f g. same_signature f g };

    fn are_alike(&self, source: &Function, target: &Function) -> bool {
        same_name(&source.name, &target.name)
            && same_ty(&source.result, &target.result)
            && same_param_types(source.params.as_slice(), target.params.as_slice())
    }
}

/// The answer on two functions under the hint that the hints have for the source's, or an empty one.
fn hinted_answer(
    alloc: Global,
    module: &Module,
    book: &RuleBook,
    hints: &ByName<'_, FunctionHint>,
    nothing: &Sides<IndexedSet>,
    source: &Function,
    target: &Function,
) -> Result<Verdict, CheckEnd>
    requires { nothing.now ≡ no_facts }
    ensures { Answers result
        (acceptance.function_answer
        (beside (rules_of called takes book.now) (scope_of «module».now) source.now target.now
        (acceptance.hint_for (record { functions = hints.now }) source.now.name))) }
{
    match hints.first(&source.name) {
        Some(found) => function_answer(alloc, module, book, &found.hint, nothing, source, target),
        None => {
            let empty = Hint {
                blocks: Seq::new(alloc),
            };
            function_answer(alloc, module, book, &empty, nothing, source, target)
        }
    }
}

/// The first function that isn't valid decides.
fn functions_answer(
    alloc: Global,
    module: &Module,
    book: &RuleBook,
    hints: &ByName<'_, FunctionHint>,
    nothing: &Sides<IndexedSet>,
    source: &[Function],
    target: &[Function],
) -> Result<ModuleVerdict, CheckEnd>
    requires { nothing.now ≡ no_facts }
    ensures { Answers result
        (acceptance.functions_answer (rules_of called takes book.now) (scope_of «module».now)
        (record { functions = hints.now }) source.now target.now) }
{
    let mut rest = target;
    for f in source {
        match rest.split_first() {
            Some((g, after)) => {
                let verdict = hinted_answer(alloc, module, book, hints, nothing, f, g)?;
                if let Verdict::Refused {
                    block,
                    spot,
                    reason,
                } = verdict
                {
                    return Ok(ModuleVerdict::Refused {
                        function: f.name.copy(alloc)?,
                        block,
                        spot,
                        reason,
                    });
                }
                rest = after;
            }
            None => return Ok(ModuleVerdict::Differs(Difference::Functions)),
        }
    }
    match rest.first() {
        Some(_) => Ok(ModuleVerdict::Differs(Difference::Functions)),
        None => Ok(ModuleVerdict::Valid),
    }
}

fn definitions_answer(
    alloc: Global,
    book: &RuleBook,
    hints: &Hints,
    source: &Module,
    target: &Module,
) -> Result<ModuleVerdict, CheckEnd>
    ensures { Answers result
        (acceptance.definitions_answer
        (rules_of called takes book.now)
        source.now target.now hints.now) }
{
    let functions = source.functions.as_slice();
    let others = target.functions.as_slice();
    if all_alike(&Signature, functions, others) {
        let hints = ByName::new(alloc, hints.functions.as_slice())?;
        let nothing = Sides::empty(alloc)?;
        functions_answer(alloc, source, book, &hints, &nothing, functions, others)
    } else {
        Ok(ModuleVerdict::Differs(Difference::Functions))
    }
}

fn declarations_answer(
    alloc: Global,
    book: &RuleBook,
    hints: &Hints,
    source: &Module,
    target: &Module,
) -> Result<ModuleVerdict, CheckEnd>
    ensures { Answers result
        (acceptance.declarations_answer
        (rules_of called takes book.now)
        source.now target.now hints.now) }
{
    let declarations = source.declarations.as_slice();
    if all_alike(
        &OneDeclaration,
        declarations,
        target.declarations.as_slice(),
    ) {
        definitions_answer(alloc, book, hints, source, target)
    } else {
        Ok(ModuleVerdict::Differs(Difference::Declarations))
    }
}

fn globals_answer(
    alloc: Global,
    book: &RuleBook,
    hints: &Hints,
    source: &Module,
    target: &Module,
) -> Result<ModuleVerdict, CheckEnd>
    ensures { Answers result (acceptance.globals_answer (rules_of called takes book.now) source.now target.now hints.now) }
{
    if all_alike(
        &OneGlobal,
        source.globals.as_slice(),
        target.globals.as_slice(),
    ) {
        declarations_answer(alloc, book, hints, source, target)
    } else {
        Ok(ModuleVerdict::Differs(Difference::Globals))
    }
}

fn module_answer(
    alloc: Global,
    book: &RuleBook,
    hints: &Hints,
    source: &Module,
    target: &Module,
) -> Result<ModuleVerdict, CheckEnd>
    ensures { Answers result (acceptance.module_answer (rules_of called takes book.now) source.now target.now hints.now) }
{
    if all_alike(&OneName, source.types.as_slice(), target.types.as_slice()) {
        globals_answer(alloc, book, hints, source, target)
    } else {
        Ok(ModuleVerdict::Differs(Difference::Types))
    }
}

/// Checks one module against another, by a book of rules: `Valid` exactly where they name the same types, have the same globals and declare
/// the same, and each pair of functions has one signature and is accepted under its hint, `Differs` exactly where their named types differ,
/// or else their globals, their declarations, or their functions' names, return types or parameter types, else the first function that isn't
/// valid, with its place and reason. Where a declaration stands among the functions plays no part. Whatever rules the book holds, a target
/// that is `Valid` refines its source, where no two phis of a block set one register.
///
/// It is meant for modules over integers, as long as a run has no globals: an address of a global, and a `getelementptr`, is poison.
pub fn check_module(
    alloc: Global,
    source: &Module,
    target: &Module,
    hints: &Hints,
    book: &RuleBook,
) -> Result<ModuleVerdict, CheckEnd>
    ensures verdict { IfOk result
        (λ v. acceptance.module_answer
        (meanings_of
        (λ b. (⟦<dyn InferRule as InferRule>⟧ b.vtable).called b.value)
        (λ b. (⟦<dyn InferRule as InferRule>⟧ b.vtable).takes b.value)
        book.now.rules.items)
        source.now target.now hints.now
        ≡ Some v) }
    ensures limit { IfErr result
        (λ fault. (l : Limit) → fault ≡ CheckEnd.Limit l
        → (l ≡ Facts)
        × (acceptance.module_answer
        (meanings_of
        (λ b. (⟦<dyn InferRule as InferRule>⟧ b.vtable).called b.value)
        (λ b. (⟦<dyn InferRule as InferRule>⟧ b.vtable).takes b.value)
        book.now.rules.items)
        source.now target.now hints.now
        ≡ None)) }
    ensures accepted { IfOk result
        (λ v. v ≡ ModuleVerdict.Valid
        ↔ acceptance.AreModulesAccepted hints.now
        (meanings_of
        (λ b. (⟦<dyn InferRule as InferRule>⟧ b.vtable).called b.value)
        (λ b. (⟦<dyn InferRule as InferRule>⟧ b.vtable).takes b.value)
        book.now.rules.items)
        source.now target.now) }
    ensures types { IfOk result (λ v. v ≡ ModuleVerdict.Differs Difference.Types ↔ (source.now.types ≡ target.now.types → ⊥)) }
    ensures globals { IfOk result
        (λ v. v ≡ ModuleVerdict.Differs Difference.Globals
        ↔ (source.now.types ≡ target.now.types)
        × (source.now.globals ≡ target.now.globals → ⊥)) }
    ensures declarations { IfOk result
        (λ v. v ≡ ModuleVerdict.Differs Difference.Declarations
        ↔ (source.now.types ≡ target.now.types)
        × (source.now.globals ≡ target.now.globals)
        × (AreDeclaredAlike (declarations_of source.now) (declarations_of target.now) → ⊥)) }
    ensures differs { IfOk result
        (λ v. v ≡ ModuleVerdict.Differs Difference.Functions
        ↔ (source.now.types ≡ target.now.types)
        × (source.now.globals ≡ target.now.globals)
        × AreDeclaredAlike (declarations_of source.now) (declarations_of target.now)
        × (same.same_list acceptance.same_signature (definitions_of source.now) (definitions_of target.now) ≡ false)) }
    // Where no two phis of a block set one register.
    ensures refines { IfOk result
        (λ v. AllByRecursion ArePhisApart (definitions_of source.now) → AllByRecursion ArePhisApart (definitions_of target.now)
        → v ≡ ModuleVerdict.Valid → Refines source.now target.now) }
{
    book_is_sound(book);
    accepted_modules_refine();
    module_answer(alloc, book, hints, source, target)
}
