ghost use Rattle.std.specs.Prelude.{◌≡◌};
ghost use Rattle.json_forms.specs.JsonValues.View.{view};
ghost use Rattle.json_forms.specs.Answers.{Answers};
ghost use Rattle.hint_format.specs.Form.{align_form, fact_as, fact_form, is_align, kind_of_text, size_of};
ghost use Rattle.hint_format.specs.Reading.{read_leaves};

use crate::texts::{ExpressionText, NowText, TypeText};
use erhl_assert::Fact;
use json_forms::{Failure, Form, Text, TextForm, Value, item, item_count, unfit};
use std::alloc::Global;

/// The kinds of facts.
#[derive(Drop, Clone, Copy)]
pub enum FactKind {
    Ge,
    Unique,
    Private,
    NoAlias,
    Access,
}

/// A fact, `["ge", E, E]` or one of memory.
#[derive(Drop)]
pub(crate) struct FactForm {
    pub may_be_old: bool,
}

impl Form for FactForm {
    type Value = Fact;

    ghost form = { λ it. fact_form read_leaves it.may_be_old };

    fn read(&self, alloc: Global, value: &Value<'_>) -> Result<Fact, Failure> {
        let count = item_count(value);
        if count != 2 && count != 3 && count != 4 {
            return Err(unfit(alloc));
        }
        let kind = item(alloc, value, 0, &Text(KindText))?;
        if count != size_of(kind) {
            return Err(unfit(alloc));
        }
        read_fact(alloc, kind, self.may_be_old, value)
    }
}

fn size_of(kind: FactKind) -> usize
    ensures { result ≡ size_of kind }
{
    match kind {
        FactKind::Ge => 3,
        FactKind::Unique => 2,
        FactKind::Private => 2,
        FactKind::NoAlias => 3,
        FactKind::Access => 4,
    }
}

fn read_fact(
    alloc: Global,
    kind: FactKind,
    may_be_old: bool,
    value: &Value<'_>,
) -> Result<Fact, Failure>
    ensures { Answers result (fact_as kind read_leaves may_be_old (view value.now)) }
{
    match kind {
        FactKind::Ge => {
            let greater = item(alloc, value, 1, &Text(ExpressionText { may_be_old }))?;
            let lesser = item(alloc, value, 2, &Text(ExpressionText { may_be_old }))?;
            Ok(Fact::LessDef(greater, lesser))
        }
        FactKind::Unique => Ok(Fact::Unique(item(alloc, value, 1, &Text(NowText))?)),
        FactKind::Private => Ok(Fact::Private(item(alloc, value, 1, &Text(NowText))?)),
        FactKind::NoAlias => {
            let a = item(alloc, value, 1, &Text(ExpressionText { may_be_old }))?;
            let b = item(alloc, value, 2, &Text(ExpressionText { may_be_old }))?;
            Ok(Fact::NoAlias(a, b))
        }
        FactKind::Access => read_access(alloc, may_be_old, value),
    }
}

/// `["ok", E, TYPE, ALIGN]`
fn read_access(alloc: Global, may_be_old: bool, value: &Value<'_>) -> Result<Fact, Failure>
    ensures { Answers result (fact_as FactKind.Access read_leaves may_be_old (view value.now)) }
{
    let address = item(alloc, value, 1, &Text(ExpressionText { may_be_old }))?;
    let ty = item(alloc, value, 2, &Text(TypeText))?;
    let align = item(alloc, value, 3, &AlignForm)?;
    Ok(Fact::Ok(address, ty, align))
}

/// A power of two, 2^29 at most.
#[derive(Drop)]
struct AlignForm;

impl Form for AlignForm {
    type Value = u64;

    ghost form = { λ _. align_form };

    fn read(&self, alloc: Global, value: &Value<'_>) -> Result<u64, Failure> {
        match value.as_u64() {
            Some(align) if is_align(align) => Ok(align),
            _ => Err(unfit(alloc)),
        }
    }
}

fn is_align(align: u64) -> bool
    ensures { result ≡ is_align align }
{
    align.is_power_of_two() && align <= 1 << 29
}

/// What a fact begins with.
#[derive(Drop)]
struct KindText;

impl TextForm for KindText {
    type Value = FactKind;

    ghost text_form = { λ _. kind_of_text };

    fn read_text(&self, alloc: Global, text: &str) -> Result<FactKind, Failure> {
        match text {
            "ge" => Ok(FactKind::Ge),
            "unique" => Ok(FactKind::Unique),
            "private" => Ok(FactKind::Private),
            "noalias" => Ok(FactKind::NoAlias),
            "ok" => Ok(FactKind::Access),
            _ => Err(unfit(alloc)),
        }
    }
}
