ghost use Rattle.std.specs.Prelude.{[]};
ghost use Rattle.json_forms.specs.JsonValues.View.{view, items_view};
ghost use Rattle.json_forms.specs.Answers.{Answers};
ghost use Rattle.json_forms.specs.Forms.{list_of, rows_of, items_of};

use crate::json_values::Value;
use crate::path::under_index;
use crate::{Failure, Form, RowForm, unfit};
use contents::Seq;
use std::alloc::Global;

/// An array of items of that form.
#[derive(Drop)]
pub struct ListOf<F>(pub F);

impl<F: Form> Form for ListOf<F> {
    type Value = Seq<F::Value>;

    ghost form = { λ it. list_of (F.form it.0) };

    fn read(&self, alloc: Global, value: &Value<'_>) -> Result<Seq<F::Value>, Failure> {
        read_list(alloc, value, &self.0)
    }
}

pub(crate) fn read_list<F: Form>(
    alloc: Global,
    value: &Value<'_>,
    form: &F,
) -> Result<Seq<F::Value>, Failure>
    ensures { Answers result (list_of (F.form form.now) (view value.now)) }
{
    match value.as_array() {
        Some(items) => each_item(alloc, items, form),
        None => Err(unfit(alloc)),
    }
}

fn each_item<F: Form>(
    alloc: Global,
    items: &[Value<'_>],
    form: &F,
) -> Result<Seq<F::Value>, Failure>
    ensures { Answers result (items_of (λ _. F.form form.now) [] (items_view items.now)) }
{
    let mut read = Seq::new(alloc);
    for item in items {
        match form.read(alloc, item) {
            Ok(one) => read.push(one)?,
            Err(failure) => return Err(under_index(alloc, read.len(), failure)),
        }
    }
    Ok(read)
}

/// An array of items of a form that looks at the items before.
#[derive(Drop)]
pub struct RowsOf<F>(pub F);

impl<F: RowForm> Form for RowsOf<F> {
    type Value = Seq<F::Value>;

    ghost form = { λ it. rows_of (F.row_form it.0) };

    fn read(&self, alloc: Global, value: &Value<'_>) -> Result<Seq<F::Value>, Failure> {
        match value.as_array() {
            Some(items) => each_row(alloc, items, &self.0),
            None => Err(unfit(alloc)),
        }
    }
}

fn each_row<F: RowForm>(
    alloc: Global,
    items: &[Value<'_>],
    form: &F,
) -> Result<Seq<F::Value>, Failure>
    ensures { Answers result (items_of (F.row_form form.now) [] (items_view items.now)) }
{
    let mut read = Seq::new(alloc);
    let mut index = form.new_index(alloc);
    for item in items {
        match form.read_row(alloc, &mut index, read.as_slice(), item) {
            Ok(one) => read.push(one)?,
            Err(failure) => return Err(under_index(alloc, read.len(), failure)),
        }
    }
    Ok(read)
}
