ghost use Rattle.std.specs.Prelude.{◌≡◌, is_some, ◌||◌};
ghost use Rattle.std.specs.List.{list_all};
ghost use Rattle.serde_json.specs.Find.{get};
ghost use Rattle.json_forms.specs.JsonValues.View.{view, members_view};
ghost use Rattle.json_forms.specs.Answers.{Answers};
ghost use Rattle.json_forms.specs.Forms.{has_members as have_members, texts, is_one_of, all_keys, only_keys, member_of, optional_of, optional_list_of, count_of, item_of};

use crate::json_values::{Member, Value};
use crate::lists::read_list;
use crate::path::{under_index, under_key};
use crate::{Failure, Form, unfit};
use contents::Seq;
use std::alloc::Global;

/// An object with each needed member, and no others than these and the optional ones.
pub fn has_members(value: &Value<'_>, needed: &[&str], others: &[&str]) -> bool
    ensures { result ≡ have_members (texts needed.now) (texts others.now) (view value.now) }
{
    has_each(value, needed) && has_only(value, needed, others)
}

fn has_each(value: &Value<'_>, keys: &[&str]) -> bool
    ensures { result ≡ list_all (λ k. is_some (get k (view value.now))) (texts keys.now) }
{
    for key in keys {
        if value.get(*key).is_none() {
            return false;
        }
    }
    true
}

/// The member of that key.
pub fn member<F: Form>(
    alloc: Global,
    value: &Value<'_>,
    key: &str,
    form: &F,
) -> Result<F::Value, Failure>
    ensures { Answers result (member_of key.now (F.form form.now) (view value.now)) }
{
    match value.get(key) {
        Some(found) => match form.read(alloc, found) {
            Ok(read) => Ok(read),
            Err(failure) => Err(under_key(alloc, key, failure)),
        },
        None => Err(unfit(alloc)),
    }
}

/// The same, of a member that need not be there.
pub fn optional<F: Form>(
    alloc: Global,
    value: &Value<'_>,
    key: &str,
    form: &F,
) -> Result<Option<F::Value>, Failure>
    ensures { Answers result (optional_of key.now (F.form form.now) (view value.now)) }
{
    match value.get(key) {
        Some(found) => match form.read(alloc, found) {
            Ok(read) => Ok(Some(read)),
            Err(failure) => Err(under_key(alloc, key, failure)),
        },
        None => Ok(None),
    }
}

/// The list in such a member, or none.
pub fn optional_list<F: Form>(
    alloc: Global,
    value: &Value<'_>,
    key: &str,
    form: &F,
) -> Result<Seq<F::Value>, Failure>
    ensures { Answers result (optional_list_of key.now (F.form form.now) (view value.now)) }
{
    match value.get(key) {
        Some(found) => match read_list(alloc, found, form) {
            Ok(read) => Ok(read),
            Err(failure) => Err(under_key(alloc, key, failure)),
        },
        None => Ok(Seq::new(alloc)),
    }
}

/// How many items an array has.
#[tactic(auto, using(crate::proofs::Counts::item_count))]
pub fn item_count(value: &Value<'_>) -> usize
    ensures { result ≡ count_of (view value.now) }
{
    match value.as_array() {
        Some(items) => items.len(),
        None => 0,
    }
}

/// The item at that index.
pub fn item<F: Form>(
    alloc: Global,
    value: &Value<'_>,
    index: usize,
    form: &F,
) -> Result<F::Value, Failure>
    ensures { Answers result (item_of index (F.form form.now) (view value.now)) }
{
    match value.at(index) {
        Some(found) => match form.read(alloc, found) {
            Ok(read) => Ok(read),
            Err(failure) => Err(under_index(alloc, index, failure)),
        },
        None => Err(unfit(alloc)),
    }
}

fn has_only(value: &Value<'_>, needed: &[&str], others: &[&str]) -> bool
    ensures { result ≡ only_keys (λ key. is_one_of (texts needed.now) key || is_one_of (texts others.now) key) (view value.now) }
{
    match value.as_object() {
        Some(members) => each_known(members, needed, others),
        None => false,
    }
}

fn each_known(members: &[Member<'_>], needed: &[&str], others: &[&str]) -> bool
    ensures { result ≡ all_keys (λ key. is_one_of (texts needed.now) key || is_one_of (texts others.now) key) (members_view members.now) }
{
    for member in members {
        if !is_in(member.0, needed) && !is_in(member.0, others) {
            return false;
        }
    }
    true
}

fn is_in(key: &str, keys: &[&str]) -> bool
    ensures { result ≡ is_one_of (texts keys.now) key.now }
{
    for k in keys {
        if *k == key {
            return true;
        }
    }
    false
}
