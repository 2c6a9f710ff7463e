//! What the addresses in hints point to, beside the types that a module names.
ghost use Rattle.std.specs.Prelude.{◌≡◌, map, Some, IfOk};
ghost use Rattle.std.specs.Option.{option_copied, option_map};
ghost use Rattle.ir_types.specs.declared.ty.Ty.{Ptr as PtrTo};
ghost use Rattle.erhl_assert.specs.Held.{bare};
ghost use Rattle.hint_format.specs.Settled as spec;

use contents::{Boxed, Exact, Seq};
use erhl_assert::{
    Assertion, Fact, FunctionHint, GhostStep, HeldBlock, Hint, HintBlock, HintEdge, HintStep,
    Hints, Letter, PlacedStep, RuleStep, SameStep, Schema, pointed_by_indices,
};
use ir_core::{Element, Expr, Expr0, Name, NamedTypes, Reg, Ty};
use ir_types::Shared;
use std::alloc::{AllocError, Global};

/// A part of hints in which addresses stand.
trait Settle: Drop {
    ghost use Rattle.std.specs.Prelude.{◌≡◌, List, IfOk};
    ghost use Rattle.ir_types.specs.declared.named.NamedTy.{NamedTy};

    ghost settled: { List NamedTy → Self → Self };

    fn settle(&self, alloc: Global, types: &NamedTypes) -> Result<Self, AllocError>
        ensures { IfOk result (λ it. it ≡ settled types.now self.now) };
}

/// Each of several.
fn settle_each<T: Settle>(
    alloc: Global,
    types: &NamedTypes,
    items: &Seq<T>,
) -> Result<Seq<T>, AllocError>
    ensures { IfOk result (λ all. all ≡ map (T.settled types.now) items.now) }
{
    let mut all = Vec::with_capacity(alloc, items.len())?;
    for item in items.as_slice() {
        all.push(item.settle(alloc, types)?)?;
    }
    Ok(Seq::from_vec(all))
}

/// A pointer to this, where it is there, and else the other type.
fn pointer_or(alloc: Global, pointed: Option<&Ty>, other: &Ty) -> Result<Ty, AllocError>
    ensures { IfOk result (λ t. t ≡ spec.led_or other.now (option_map PtrTo (option_copied pointed.entry))) }
{
    match pointed {
        Some(pointed) => Ok(Ty::Ptr(Shared::new(alloc, pointed.copy(alloc)?)?)),
        None => other.copy(alloc),
    }
}

fn settled_address(
    alloc: Global,
    types: &NamedTypes,
    element: &Element<Reg>,
) -> Result<Element<Reg>, AllocError>
    ensures { IfOk result (λ it. it ≡ spec.settled_address types.now element.now) }
{
    let pointed = pointed_by_indices(types, &element.of, element.indices.as_slice());
    let to = pointer_or(alloc, pointed, &element.to)?;
    let of = element.of.copy(alloc)?;
    let base = element.base.copy(alloc)?;
    let indices = element.indices.copy(alloc)?;
    Ok(Element {
        inbounds: element.inbounds,
        of,
        base,
        indices,
        to,
    })
}

fn settled(alloc: Global, types: &NamedTypes, expr: &Expr0) -> Result<Expr0, AllocError>
    ensures { IfOk result (λ it. it ≡ spec.settled types.now expr.now) }
{
    match expr {
        Expr::Element(element) => {
            let element = settled_address(alloc, types, element.get())?;
            Ok(Expr::Element(Boxed::new(alloc, element)?))
        }
        _ => expr.copy(alloc),
    }
}

fn settled_pair(
    alloc: Global,
    types: &NamedTypes,
    a: &Expr0,
    b: &Expr0,
) -> Result<(Expr0, Expr0), AllocError>
    ensures { IfOk result (λ both. both ≡ (spec.settled types.now a.now, spec.settled types.now b.now)) }
{
    let a = settled(alloc, types, a)?;
    Ok((a, settled(alloc, types, b)?))
}

impl Settle for Fact {
    ghost settled = { spec.settled_fact };

    fn settle(&self, alloc: Global, types: &NamedTypes) -> Result<Fact, AllocError> {
        match self {
            Fact::LessDef(a, b) => {
                let (a, b) = settled_pair(alloc, types, a, b)?;
                Ok(Fact::LessDef(a, b))
            }
            Fact::NoAlias(a, b) => {
                let (a, b) = settled_pair(alloc, types, a, b)?;
                Ok(Fact::NoAlias(a, b))
            }
            Fact::Ok(address, ty, align) => {
                let address = settled(alloc, types, address)?;
                Ok(Fact::Ok(address, ty.copy(alloc)?, *align))
            }
            Fact::Unique(_) | Fact::Private(_) => self.copy(alloc),
        }
    }
}

fn settled_schema(alloc: Global, types: &NamedTypes, schema: &Schema) -> Result<Schema, AllocError>
    ensures { IfOk result (λ it. it ≡ spec.settled_schema types.now schema.now) }
{
    let from = settle_each(alloc, types, &schema.from)?;
    let to = schema.to.settle(alloc, types)?;
    Ok(Schema { from, to })
}

fn settled_rule(alloc: Global, types: &NamedTypes, step: &RuleStep) -> Result<RuleStep, AllocError>
    ensures { IfOk result (λ it. it ≡ record step.now { schema = spec.settled_schema types.now step.now.schema }) }
{
    let schema = settled_schema(alloc, types, &step.schema)?;
    Ok(RuleStep {
        rule: step.rule.copy(alloc)?,
        side: step.side,
        schema,
    })
}

impl Settle for HintStep {
    ghost settled = { spec.settled_step };

    fn settle(&self, alloc: Global, types: &NamedTypes) -> Result<HintStep, AllocError> {
        match self {
            HintStep::Rule(step) => Ok(HintStep::Rule(settled_rule(alloc, types, step)?)),
            HintStep::Ghost(step) => {
                let value = settled(alloc, types, &step.value)?;
                let register = step.register.copy(alloc)?;
                Ok(HintStep::Ghost(GhostStep { register, value }))
            }
            HintStep::Same(step) => {
                let by = settled(alloc, types, &step.by)?;
                let register = step.register.copy(alloc)?;
                Ok(HintStep::Same(SameStep { register, by }))
            }
        }
    }
}

impl Settle for PlacedStep {
    ghost settled = { spec.settled_placed };

    fn settle(&self, alloc: Global, types: &NamedTypes) -> Result<PlacedStep, AllocError> {
        let step = self.step.settle(alloc, types)?;
        Ok(PlacedStep { at: self.at, step })
    }
}

impl Settle for HintEdge {
    ghost settled = { spec.settled_edge };

    fn settle(&self, alloc: Global, types: &NamedTypes) -> Result<HintEdge, AllocError> {
        let steps = settle_each(alloc, types, &self.steps)?;
        let to = self.to.copy(alloc)?;
        Ok(HintEdge { to, steps })
    }
}

fn settled_claims(
    alloc: Global,
    types: &NamedTypes,
    known: &Assertion,
) -> Result<Assertion, AllocError>
    ensures { IfOk result (λ it. it ≡ spec.settled_claims types.now known.now) }
{
    let src = settle_each(alloc, types, &known.src)?;
    let tgt = settle_each(alloc, types, &known.tgt)?;
    let diff = known.diff.copy(alloc)?;
    Ok(Assertion { src, tgt, diff })
}

fn copied_letters(
    alloc: Global,
    lines: &Option<Seq<Letter>>,
) -> Result<Option<Seq<Letter>>, AllocError>
    ensures { IfOk result (λ it. it ≡ lines.now) }
{
    let Some(letters) = lines else {
        return Ok(None);
    };
    let mut copied = Vec::new(alloc);
    copied.extend_from_slice(letters.as_slice())?;
    Ok(Some(Seq::from_vec(copied)))
}

fn settled_block(
    alloc: Global,
    types: &NamedTypes,
    block: &HintBlock,
) -> Result<HintBlock, AllocError>
    ensures { IfOk result (λ it. it ≡ spec.settled_block types.now block.now) }
{
    let entry = settled_claims(alloc, types, &block.entry)?;
    let steps = settle_each(alloc, types, &block.steps)?;
    let edges = settle_each(alloc, types, &block.edges)?;
    let lines = copied_letters(alloc, &block.lines)?;
    let at = block.at.copy(alloc)?;
    Ok(HintBlock {
        at,
        lines,
        entry,
        steps,
        edges,
    })
}

/// The hint that says nothing of the block of that name.
fn bare(alloc: Global, name: &Name) -> Result<HintBlock, AllocError>
    ensures { IfOk result (λ it. it ≡ bare name.now) }
{
    let at = name.copy(alloc)?;
    let entry = Assertion {
        src: Seq::new(alloc),
        tgt: Seq::new(alloc),
        diff: Seq::new(alloc),
    };
    Ok(HintBlock {
        at,
        lines: None,
        entry,
        steps: Seq::new(alloc),
        edges: Seq::new(alloc),
    })
}

impl Settle for HeldBlock {
    ghost settled = { spec.settled_block };

    fn settle(&self, alloc: Global, types: &NamedTypes) -> Result<HeldBlock, AllocError> {
        let block = match self.whole() {
            Some(block) => settled_block(alloc, types, block)?,
            None => bare(alloc, self.name())?,
        };
        HeldBlock::new(alloc, block)
    }
}

impl Settle for FunctionHint {
    ghost settled = { spec.settled_function };

    fn settle(&self, alloc: Global, types: &NamedTypes) -> Result<FunctionHint, AllocError> {
        let blocks = settle_each(alloc, types, &self.hint.blocks)?;
        let function = self.function.copy(alloc)?;
        Ok(FunctionHint {
            function,
            hint: Hint { blocks },
        })
    }
}

/// The hints of a module's functions, whose addresses point to what their indices lead to beside these types.
pub fn settled_hints(alloc: Global, types: &NamedTypes, hints: &Hints) -> Result<Hints, AllocError>
    ensures { IfOk result (λ it. it ≡ spec.settled_hints types.now hints.now) }
{
    let functions = settle_each(alloc, types, &hints.functions)?;
    Ok(Hints { functions })
}
