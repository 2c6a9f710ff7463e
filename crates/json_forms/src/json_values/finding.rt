//! Looking into a value.
ghost use Rattle.std.specs.Prelude.{◌≡◌, option_map};
ghost use Rattle.serde_json.specs.Find.{get, get_member, get_item, at};
ghost use Rattle.json_forms.specs.JsonValues.View.{view, items_view, members_view};

use crate::json_values::{Member, Value};

impl<'a> Value<'a> {
    /// The member of that key.
    pub fn get(&self, key: &str) -> Option<&Value<'a>>
        ensures { option_map (λ v. view v.now) result ≡ get key.now (view self.now) }
    {
        match self.as_object() {
            Some(members) => last_of(members, key),
            None => None,
        }
    }

    /// The item at that index.
    pub fn at(&self, index: usize) -> Option<&Value<'a>>
        ensures { option_map (λ v. view v.now) result ≡ at index (view self.now) }
    {
        match self.as_array() {
            Some(items) => nth(items, index),
            None => None,
        }
    }
}

fn nth<'v, 'a>(items: &'v [Value<'a>], index: usize) -> Option<&'v Value<'a>>
    ensures { option_map (λ v. view v.now) result ≡ get_item index (items_view items.now) }
{
    if index < items.len() {
        Some(&items[index])
    } else {
        None
    }
}

fn last_of<'v, 'a>(members: &'v [Member<'a>], key: &str) -> Option<&'v Value<'a>>
    ensures { option_map (λ v. view v.now) result ≡ get_member key.now (members_view members.now) }
{
    let mut left = members.len();
    while left > 0 {
        left -= 1;
        let member = &members[left];
        if member.0 == key {
            return Some(&member.1);
        }
    }
    None
}
