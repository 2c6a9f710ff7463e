ghost use Rattle.std.specs.Prelude.{◌≡◌, []};
ghost use Rattle.json_forms.specs.JsonValues.View.{view, sorted_view};
ghost use Rattle.json_forms.specs.Answers.{Answers};
ghost use Rattle.json_forms.specs.Forms.{keys_of, entries_of, map_of};

use crate::json_values::{Value, sorted};
use crate::path::under_key;
use crate::{EntryForm, Failure, Form, unfit};
use contents::Seq;
use std::alloc::Global;
use std::collections::BTreeMap;

/// An object whose keys are names. A key at fault is the object's own fault, before all that it holds.
#[derive(Drop)]
pub struct MapOf<F>(pub F);

impl<F: EntryForm> Form for MapOf<F> {
    type Value = Seq<F::Value>;

    ghost form = { λ it. map_of (F.key_form it.0) (F.entry_form it.0) };

    fn read(&self, alloc: Global, value: &Value<'_>) -> Result<Seq<F::Value>, Failure> {
        match value.as_object() {
            Some(members) => {
                let members = sorted(alloc, members)?;
                each_key(alloc, &members, &self.0)?;
                each_entry(alloc, &members, &self.0)
            }
            None => Err(unfit(alloc)),
        }
    }
}

fn each_key<F: EntryForm>(
    alloc: Global,
    members: &BTreeMap<&str, &Value<'_>>,
    form: &F,
) -> Result<(), Failure>
    ensures { Answers result (keys_of (F.key_form form.now) (sorted_view members.now.entries)) }
{
    for (key, _) in members.iter() {
        form.test_key(alloc, key)?;
    }
    Ok(())
}

fn each_entry<F: EntryForm>(
    alloc: Global,
    members: &BTreeMap<&str, &Value<'_>>,
    form: &F,
) -> Result<Seq<F::Value>, Failure>
    ensures { Answers result (entries_of (F.entry_form form.now) [] (sorted_view members.now.entries)) }
{
    let mut read = Seq::new(alloc);
    for (key, member) in members.iter() {
        match form.read_entry(alloc, key, member) {
            Ok(one) => read.push(one)?,
            Err(failure) => return Err(under_key(alloc, key, failure)),
        }
    }
    Ok(read)
}
