ghost use Rattle.std.specs.Prelude.{◌≡◌, IfOk};
ghost use Rattle.json_forms.specs.JsonValues.View.{members_view, sorted_view};

use crate::json_values::{Member, Value};
use std::alloc::{AllocError, Global};
use std::collections::BTreeMap;

/// The members that count, in the order of their keys' bytes.
#[tactic(auto, using(crate::proofs::JsonValues::Members::sorted_view_inserted))]
pub fn sorted<'v, 'a>(
    alloc: Global,
    members: &'v [Member<'a>],
) -> Result<BTreeMap<&'a str, &'v Value<'a>>, AllocError>
    ensures { IfOk result (λ found. sorted_view found.entries ≡ members_view members.now) }
{
    let mut found = BTreeMap::new(alloc);
    for member in members {
        found.insert(member.0, &member.1)?;
    }
    Ok(found)
}
