ghost use Rattle.std.specs.Prelude.{◌≡◌, IfOk};
ghost use Rattle.json_forms.specs.JsonValues.View.{view};
ghost use Rattle.json_forms.specs.Answers.{Answers};
ghost use Rattle.hint_format.specs.Form.{any_text, edge_form, edge_kind, edge_step_form, placed_kind, placed_step_form, side_of_text, step_as};
ghost use Rattle.hint_format.specs.Reading.{read_leaves};

use crate::facts::FactForm;
use crate::texts::{ExpressionText, NameText, RegisterText};
use contents::Seq;
use erhl_assert::{
    Fact, GhostStep, HintEdge, HintStep, PlacedStep, RuleStep, SameStep, Schema, Side,
};
use ir_core::{Reg, Sigil};
use json_forms::{Failure, Form, ListOf, Text, TextForm, U64, Value, has_members, member, unfit};
use std::alloc::Global;

/// The kinds of steps.
#[derive(Drop, Clone, Copy)]
pub enum StepKind {
    ByRule,
    ByGhost,
    BySame,
}

/// A step of a block.
#[derive(Drop)]
pub(crate) struct PlacedStepForm;

impl Form for PlacedStepForm {
    type Value = PlacedStep;

    ghost form = { λ _. placed_step_form read_leaves };

    fn read(&self, alloc: Global, value: &Value<'_>) -> Result<PlacedStep, Failure> {
        match placed_kind(value) {
            Some(kind) => {
                let at = member(alloc, value, "at", &U64)?;
                let step = read_step(alloc, kind, false, value)?;
                Ok(PlacedStep { at, step })
            }
            None => Err(unfit(alloc)),
        }
    }
}

/// A step of an edge, where old registers may stand.
#[derive(Drop)]
struct EdgeStepForm;

impl Form for EdgeStepForm {
    type Value = HintStep;

    ghost form = { λ _. edge_step_form read_leaves };

    fn read(&self, alloc: Global, value: &Value<'_>) -> Result<HintStep, Failure> {
        match edge_kind(value) {
            Some(kind) => read_step(alloc, kind, true, value),
            None => Err(unfit(alloc)),
        }
    }
}

/// The steps on the edges to a block.
#[derive(Drop)]
pub(crate) struct EdgeForm;

impl Form for EdgeForm {
    type Value = HintEdge;

    ghost form = { λ _. edge_form read_leaves };

    fn read(&self, alloc: Global, value: &Value<'_>) -> Result<HintEdge, Failure> {
        if !has_members(value, &["steps", "to"], &[]) {
            return Err(unfit(alloc));
        }
        let steps = member(alloc, value, "steps", &ListOf(EdgeStepForm))?;
        let sigil = Sigil::Local;
        let to = member(alloc, value, "to", &Text(NameText { sigil }))?;
        Ok(HintEdge { to, steps })
    }
}

fn placed_kind(value: &Value<'_>) -> Option<StepKind>
    ensures { result ≡ placed_kind (view value.now) }
{
    if has_members(value, &["at", "from", "rule", "side", "to"], &[]) {
        Some(StepKind::ByRule)
    } else if has_members(value, &["at", "ghost", "is"], &[]) {
        Some(StepKind::ByGhost)
    } else if has_members(value, &["at", "by", "same"], &[]) {
        Some(StepKind::BySame)
    } else {
        None
    }
}

fn edge_kind(value: &Value<'_>) -> Option<StepKind>
    ensures { result ≡ edge_kind (view value.now) }
{
    if has_members(value, &["from", "rule", "side", "to"], &[]) {
        Some(StepKind::ByRule)
    } else if has_members(value, &["ghost", "is"], &[]) {
        Some(StepKind::ByGhost)
    } else if has_members(value, &["by", "same"], &[]) {
        Some(StepKind::BySame)
    } else {
        None
    }
}

fn read_step(
    alloc: Global,
    kind: StepKind,
    may_be_old: bool,
    value: &Value<'_>,
) -> Result<HintStep, Failure>
    ensures { Answers result (step_as kind read_leaves may_be_old (view value.now)) }
{
    match kind {
        StepKind::ByRule => {
            let from = member(alloc, value, "from", &ListOf(FactForm { may_be_old }))?;
            let rule = member(alloc, value, "rule", &Text(AnyText))?;
            let side = member(alloc, value, "side", &Text(SideText))?;
            let to = member(alloc, value, "to", &FactForm { may_be_old })?;
            Ok(rule_step(from, rule, side, to))
        }
        StepKind::ByGhost => {
            let sigil = Sigil::Local;
            let name = member(alloc, value, "ghost", &Text(NameText { sigil }))?;
            let expression = member(alloc, value, "is", &Text(ExpressionText { may_be_old }))?;
            Ok(HintStep::Ghost(GhostStep {
                register: Reg::Ghost(name),
                value: expression,
            }))
        }
        StepKind::BySame => {
            let by = member(alloc, value, "by", &Text(ExpressionText { may_be_old }))?;
            let register = member(alloc, value, "same", &Text(RegisterText { may_be_old }))?;
            Ok(HintStep::Same(SameStep { register, by }))
        }
    }
}

fn rule_step(from: Seq<Fact>, rule: Seq<u8>, side: Side, to: Fact) -> HintStep
    ensures { result ≡ HintStep.Rule (record { rule = rule; side = side; schema = record { from = from; to = to } }) }
{
    let schema = Schema { from, to };
    HintStep::Rule(RuleStep { rule, side, schema })
}

/// Any text, since only the checker knows which rules there are.
#[derive(Drop)]
struct AnyText;

impl TextForm for AnyText {
    type Value = Seq<u8>;

    ghost text_form = { λ _. any_text };

    fn read_text(&self, alloc: Global, text: &str) -> Result<Seq<u8>, Failure> {
        Ok(Seq::from_vec(Vec::from_slice(alloc, text.as_bytes())?))
    }
}

/// `src` or `tgt`.
#[derive(Drop)]
struct SideText;

impl TextForm for SideText {
    type Value = Side;

    ghost text_form = { λ _. side_of_text };

    fn read_text(&self, alloc: Global, text: &str) -> Result<Side, Failure> {
        match text {
            "src" => Ok(Side::Src),
            "tgt" => Ok(Side::Tgt),
            _ => Err(unfit(alloc)),
        }
    }
}
