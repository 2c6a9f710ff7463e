ghost use Rattle.std.specs.Prelude.{◌≡◌, IfOk, OnErr, Some, None};
ghost use Rattle.serde_json.specs.Find.{as_str};
ghost use Rattle.json_forms.specs.JsonValues.View.{view};
ghost use Rattle.json_forms.specs.Answers.{Answers};
ghost use Rattle.json_forms.specs.Forms.{text_of, u64_of};

use crate::json_values::Value;
use crate::{Failure, Form, TextForm, unfit};
use std::alloc::Global;

/// A text of that form.
#[derive(Drop)]
pub struct Text<F>(pub F);

impl<F: TextForm> Form for Text<F> {
    type Value = F::Value;

    ghost form = { λ it. text_of (F.text_form it.0) };

    fn read(&self, alloc: Global, value: &Value<'_>) -> Result<F::Value, Failure> {
        match value.as_str() {
            Some(text) => self.0.read_text(alloc, text),
            None => Err(unfit(alloc)),
        }
    }
}

/// An integer of 64 bits without sign.
#[derive(Drop)]
pub struct U64;

impl Form for U64 {
    type Value = u64;

    ghost form = { λ _. u64_of };

    fn read(&self, alloc: Global, value: &Value<'_>) -> Result<u64, Failure> {
        match value.as_u64() {
            Some(number) => Ok(number),
            None => Err(unfit(alloc)),
        }
    }
}
