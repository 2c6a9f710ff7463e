//! The steps of a hint. Each call changes what is known in place, and says why it refuses, if it does.
ghost use Rattle.std.specs.Prelude.{◌≡◌, map, IfOk};
ghost use Rattle.ir_core.specs.Expressions.{type_of};
ghost use Rattle.ir_machine.specs.State.{scope_of};
ghost use Rattle.erhl_assert.specs.declared.facts.Fact.TheVariants.{LessDef};
ghost use Rattle.erhl_assert.specs.Course.{and_then, within};
ghost use Rattle.erhl_assert.specs.Edges as edges;
ghost use Rattle.erhl_assert.specs.Growth as growth;
ghost use Rattle.erhl_assert.specs.Steps as logic;
ghost use Rattle.erhl_checker.specs.CheckedPair.Asked.{asked};
ghost use Rattle.erhl_checker.specs.CheckedPair.Progress.{CameOf, Follows, on_answer};

use crate::checked_pair::{CheckEnd, Pair};
use crate::function_lookup::FunctionIndex;
use contents::{Exact, Seq};
use erhl_assert::{Fact, GhostStep, HintStep, Reason, RuleStep, SameStep, Side, expr_names};
use fact_sets::{IndexedSet, Sides};
use ir_core::{Atom, BitType, Expr, Expr0, Limit, Module, Operand, Reg};
use postcondition::can_trap;
use rule_base::{Fitness, has_type};
use std::alloc::{AllocError, Global};

/// Adds the fact to the side's.
fn add(side: Side, fact: Fact, known: &mut Sides<IndexedSet>) -> Result<(), CheckEnd>
    ensures { Follows result known.new (growth.adds side fact known.old) }
{
    if known.add_within(side, fact)? {
        Ok(())
    } else {
        Err(CheckEnd::Limit(Limit::Facts))
    }
}

fn conclude(
    alloc: Global,
    step: &RuleStep,
    known: &mut Sides<IndexedSet>,
) -> Result<Option<Reason>, CheckEnd>
    ensures { CameOf result known.new
        (within
        (logic.concluded (logic.first_missing (growth.facts_of step.now.side known.old) step.now.schema.from) step.now known.old)) }
{
    match known.first_unknown(step.side, step.schema.from.as_slice()) {
        Some(premise) => Ok(Some(Reason::MissingPremise(premise.copy(alloc)?))),
        None => {
            if known.add_within(step.side, step.schema.to.copy(alloc)?)? {
                Ok(None)
            } else {
                Err(CheckEnd::Limit(Limit::Facts))
            }
        }
    }
}

fn on_answer(
    alloc: Global,
    answer: Fitness,
    step: &RuleStep,
    known: &mut Sides<IndexedSet>,
) -> Result<Option<Reason>, CheckEnd>
    ensures { CameOf result known.new (within (on_answer answer step.now known.old)) }
{
    match answer {
        Fitness::Unknown => Ok(Some(Reason::UnknownRule(step.rule.copy(alloc)?))),
        Fitness::Unfit => Ok(Some(Reason::RuleUnfit(step.rule.copy(alloc)?))),
        Fitness::Fits => conclude(alloc, step, known),
    }
}

#[tactic(auto, using(crate::proofs::HintSteps::Stepping::rule_by_answer))]
fn after_rule(
    alloc: Global,
    pair: &Pair<'_, '_, '_, '_, '_>,
    step: &RuleStep,
    known: &mut Sides<IndexedSet>,
) -> Result<Option<Reason>, CheckEnd>
    ensures { CameOf result known.new
        (within (logic.after_rule (logic.rule_named (asked called takes pair.now).rules step.now.rule) (asked called takes pair.now).scope step.now known.old)) }
{
    let answer = pair.ask(&step.rule, &step.schema);
    on_answer(alloc, answer, step, known)
}

/// That a ghost step or a same step doesn't fit.
fn unfit(alloc: Global) -> Result<Reason, AllocError>
    ensures { IfOk result (λ reason. reason ≡ Reason.RuleUnfit logic.ghost_word) }
{
    let mut word = Vec::new(alloc);
    word.extend_from_slice("ghost".as_bytes())?;
    Ok(Reason::RuleUnfit(Seq::from_vec(word)))
}

/// A register at the type of the expression.
fn register_at(alloc: Global, expr: &Expr0, register: &Reg) -> Result<Expr0, AllocError>
    ensures { IfOk result (λ made. made ≡ edges.register_at (type_of expr.now) register.now) }
{
    let bit = BitType::new();
    let ty = expr.ty(&bit).copy(alloc)?;
    let atom = Atom::Register(register.copy(alloc)?);
    Ok(Expr::Plain(Operand { ty, atom }))
}

/// That the expression is less defined than the register, at its type.
fn below_register(alloc: Global, expr: &Expr0, register: &Reg) -> Result<Fact, AllocError>
    ensures { IfOk result (λ fact. fact ≡ LessDef expr.now (edges.register_at (type_of expr.now) register.now)) }
{
    let left = expr.copy(alloc)?;
    let right = register_at(alloc, expr, register)?;
    Ok(Fact::LessDef(left, right))
}

/// That the register, at the expression's type, is less defined than the expression.
fn above_register(alloc: Global, expr: &Expr0, register: &Reg) -> Result<Fact, AllocError>
    ensures { IfOk result (λ fact. fact ≡ LessDef (edges.register_at (type_of expr.now) register.now) expr.now) }
{
    let left = register_at(alloc, expr, register)?;
    let right = expr.copy(alloc)?;
    Ok(Fact::LessDef(left, right))
}

/// The first register of the expression that may differ, as a reason.
fn differing_fault(
    alloc: Global,
    known: &Sides<IndexedSet>,
    expr: &Expr0,
) -> Result<Option<Reason>, AllocError>
    ensures { IfOk result (λ fault. fault ≡ logic.differing_fault known.now expr.now) }
{
    match known.first_differing(expr) {
        Some(register) => Ok(Some(Reason::DiffLeft(register.copy(alloc)?))),
        None => Ok(None),
    }
}

/// Whether the ghost register may be worth the expression.
fn may_be(module: &Module, register: &Reg, expr: &Expr0) -> bool
    ensures { result ≡ logic.may_be (scope_of «module».now) register.now expr.now }
{
    match register {
        Reg::Ghost(_) => {
            has_type(module, expr) && !can_trap(expr) && !expr_names(register, expr)
        }
        Reg::Now(_) | Reg::Old(_) => false,
    }
}

fn ghost_fault(
    alloc: Global,
    module: &Module,
    known: &Sides<IndexedSet>,
    register: &Reg,
    value: &Expr0,
) -> Result<Option<Reason>, AllocError>
    ensures { IfOk result (λ fault. fault ≡ logic.ghost_fault (scope_of «module».now) known.now register.now value.now) }
{
    if !may_be(module, register, value) {
        return Ok(Some(unfit(alloc)?));
    }
    differing_fault(alloc, known, value)
}

/// Adds to a side that the register and the expression are worth the same.
#[tactic(auto, using(crate::proofs::HintSteps::Stepping::two_added, crate::proofs::HintSteps::Stepping::first_not_added, crate::proofs::HintSteps::Stepping::second_not_added))]
fn add_choice(
    alloc: Global,
    side: Side,
    register: &Reg,
    expr: &Expr0,
    known: &mut Sides<IndexedSet>,
) -> Result<(), CheckEnd>
    ensures { Follows result known.new (growth.adds_all side (logic.choice register.now expr.now) known.old) }
{
    let below = below_register(alloc, expr, register)?;
    let above = above_register(alloc, expr, register)?;
    add(side, below, known)?;
    add(side, above, known)
}

/// Adds to both sides that the register and the expression are worth the same.
#[tactic(auto, using(erhl_assert::proofs::Courses::within_none))]
fn add_choices(
    alloc: Global,
    register: &Reg,
    expr: &Expr0,
    known: &mut Sides<IndexedSet>,
) -> Result<(), CheckEnd>
    ensures { Follows result known.new
        (and_then
        (growth.adds_all Side.Src (logic.choice register.now expr.now) known.old)
        (growth.adds_all Side.Tgt (logic.choice register.now expr.now))) }
{
    add_choice(alloc, Side::Src, register, expr, known)?;
    add_choice(alloc, Side::Tgt, register, expr, known)
}

fn choose(
    alloc: Global,
    register: &Reg,
    expr: &Expr0,
    known: &mut Sides<IndexedSet>,
) -> Result<(), CheckEnd>
    ensures { Follows result known.new (logic.chosen register.now expr.now known.old) }
{
    known.take_as_new(register.copy(alloc)?);
    add_choices(alloc, register, expr, known)
}

fn choose_tested(
    alloc: Global,
    step: &GhostStep,
    known: &mut Sides<IndexedSet>,
) -> Result<Option<Reason>, CheckEnd>
    ensures { CameOf result known.new (within (logic.chosen step.now.register step.now.value known.old)) }
{
    choose(alloc, &step.register, &step.value, known)?;
    Ok(None)
}

#[tactic(auto, using(crate::proofs::HintSteps::Stepping::test_passed, crate::proofs::HintSteps::Stepping::test_failed))]
fn after_ghost(
    alloc: Global,
    module: &Module,
    step: &GhostStep,
    known: &mut Sides<IndexedSet>,
) -> Result<Option<Reason>, CheckEnd>
    ensures { CameOf result known.new (within (logic.after_ghost (scope_of «module».now) step.now known.old)) }
{
    match ghost_fault(alloc, module, known, &step.register, &step.value)? {
        Some(reason) => Ok(Some(reason)),
        None => choose_tested(alloc, step, known),
    }
}

/// That the fact isn't there. It counts as missing where the function defines the register at another kind.
fn premise_fault(
    alloc: Global,
    function: &FunctionIndex<'_, '_>,
    register: &Reg,
    expr: &Expr0,
    side: Side,
    known: &Sides<IndexedSet>,
    wanted: Fact,
) -> Result<Option<Reason>, AllocError>
    ensures { IfOk result
        (λ fault. fault
        ≡ logic.premise_fault «function».now register.now expr.now (growth.facts_of side known.now) wanted) }
{
    if !known.has_fact(side, &wanted) {
        return Ok(Some(Reason::MissingPremise(wanted)));
    }
    if function.has_other_kind(alloc, register, expr)? {
        return Ok(Some(Reason::MissingPremise(wanted)));
    }
    Ok(None)
}

/// That the register isn't known of the source to be less defined than the expression.
fn source_fault(
    alloc: Global,
    source: &FunctionIndex<'_, '_>,
    register: &Reg,
    expr: &Expr0,
    known: &Sides<IndexedSet>,
) -> Result<Option<Reason>, AllocError>
    ensures { IfOk result
        (λ fault. fault
        ≡ logic.premise_fault source.now register.now expr.now known.now.src
        (LessDef (edges.register_at (type_of expr.now) register.now) expr.now)) }
{
    let above = above_register(alloc, expr, register)?;
    premise_fault(alloc, source, register, expr, Side::Src, known, above)
}

/// That the expression isn't known of the target to be less defined than the register.
fn target_fault(
    alloc: Global,
    target: &FunctionIndex<'_, '_>,
    register: &Reg,
    expr: &Expr0,
    known: &Sides<IndexedSet>,
) -> Result<Option<Reason>, AllocError>
    ensures { IfOk result
        (λ fault. fault
        ≡ logic.premise_fault target.now register.now expr.now known.now.tgt
        (LessDef expr.now (edges.register_at (type_of expr.now) register.now))) }
{
    let below = below_register(alloc, expr, register)?;
    premise_fault(alloc, target, register, expr, Side::Tgt, known, below)
}

fn same_fault(
    alloc: Global,
    pair: &Pair<'_, '_, '_, '_, '_>,
    register: &Reg,
    expr: &Expr0,
    known: &Sides<IndexedSet>,
) -> Result<Option<Reason>, AllocError>
    ensures { IfOk result (λ fault. fault ≡ logic.same_fault (asked called takes pair.now) known.now register.now expr.now) }
{
    if !has_type(pair.enclosing_module(), expr) {
        return Ok(Some(unfit(alloc)?));
    }
    if let Some(reason) = source_fault(alloc, pair.source(), register, expr, known)? {
        return Ok(Some(reason));
    }
    if let Some(reason) = target_fault(alloc, pair.target(), register, expr, known)? {
        return Ok(Some(reason));
    }
    match differing_fault(alloc, known, expr)? {
        Some(reason) => Ok(Some(reason)),
        None => Ok(None),
    }
}

fn after_same(
    alloc: Global,
    pair: &Pair<'_, '_, '_, '_, '_>,
    step: &SameStep,
    known: &mut Sides<IndexedSet>,
) -> Result<Option<Reason>, CheckEnd>
    ensures { CameOf result known.new (within (logic.after_same (asked called takes pair.now) step.now known.old)) }
{
    match same_fault(alloc, pair, &step.register, &step.by, known)? {
        Some(reason) => Ok(Some(reason)),
        None => {
            known.remove_differing(&step.register);
            Ok(None)
        }
    }
}

fn after_step(
    alloc: Global,
    pair: &Pair<'_, '_, '_, '_, '_>,
    step: &HintStep,
    known: &mut Sides<IndexedSet>,
) -> Result<Option<Reason>, CheckEnd>
    ensures { CameOf result known.new (within (logic.after_step (asked called takes pair.now) step.now known.old)) }
{
    match step {
        HintStep::Rule(step) => after_rule(alloc, pair, step, known),
        HintStep::Ghost(step) => after_ghost(alloc, pair.enclosing_module(), step, known),
        HintStep::Same(step) => after_same(alloc, pair, step, known),
    }
}

/// The steps in their order.
pub fn after_steps(
    alloc: Global,
    pair: &Pair<'_, '_, '_, '_, '_>,
    steps: &[&HintStep],
    known: &mut Sides<IndexedSet>,
) -> Result<Option<Reason>, CheckEnd>
    ensures { CameOf result known.new (within (logic.after_steps (asked called takes pair.now) (map (λ s. s.now) steps.now) known.old)) }
{
    for step in steps {
        match after_step(alloc, pair, step, known) {
            Ok(refusal) => {
                if let Some(reason) = refusal {
                    return Ok(Some(reason));
                }
            }
            Err(end) => return Err(end),
        }
    }
    Ok(None)
}
