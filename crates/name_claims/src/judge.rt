ghost use Rattle.std.specs.Prelude.{◌≡◌, ◌++◌, IfOk, IfNone, IfSome, None, slice_get, take};
ghost use Rattle.std.specs.Option.{option_copied};
ghost use Rattle.name_claims.specs.declared.claims.Fault.{Fault};
ghost use Rattle.name_claims.specs.Faults.{find, twice, counted, repeats, typed, suits, register, leads, label, says_wrong, fault_at, rank, before, HasFault, IsFirst};
ghost use Rattle.name_claims.specs.Indexes.{fault_of, sooner, first_in, first_of};
ghost use Rattle.name_claims.specs.Places.{Tells};

use crate::claims::{Claim, Count, Definition, Fault, Item, Meaning, Reason, Says};
use crate::places::{Places, are_all_new, places_of, position};
use contents::Seq;
use ir_core::{Name, Ty, same_ty};
use std::alloc::{AllocError, Global};

/// The first definition of the name.
#[tactic(auto, using(crate::proofs::Found::found_some, crate::proofs::Found::found_none))]
fn find<'a>(
    definitions: &'a Seq<Definition>,
    places: &Places,
    name: &Name,
) -> Option<&'a Definition>
    requires { Tells places.now definitions.now }
    ensures { option_copied result ≡ find name.now definitions.now }
{
    match position(definitions.as_slice(), places, name) {
        Some(at) => definitions.get(at),
        None => None,
    }
}

#[tactic(auto, using(crate::proofs::Found::repeated_none, crate::proofs::Found::repeated_some))]
fn is_behind(definitions: &Seq<Definition>, places: &Places, at: usize) -> bool
    requires { Tells places.now definitions.now }
    ensures { result ≡ repeats (slice_get definitions.now at) (take at definitions.now) }
{
    match definitions.get(at) {
        None => false,
        Some(definition) => match position(definitions.as_slice(), places, &definition.name) {
            None => false,
            Some(first) => first < at,
        },
    }
}

/// Whether a definition before it has the name of the definition of this index. Most often no name is defined again.
#[tactic(auto, using(crate::proofs::Found::new_repeats_none))]
fn is_repeated(definitions: &Seq<Definition>, places: &Places, at: usize) -> bool
    requires { Tells places.now definitions.now }
    ensures { result ≡ repeats (slice_get definitions.now at) (take at definitions.now) }
{
    !are_all_new(definitions.as_slice(), places) && is_behind(definitions, places, at)
}

/// Why the definition of this index is at fault, if it is.
fn twice(definitions: &Seq<Definition>, places: &Places, at: usize) -> Option<Reason>
    requires { Tells places.now definitions.now }
    ensures { result ≡ twice definitions.now at }
{
    if is_repeated(definitions, places, at) {
        Some(Reason::Twice)
    } else {
        None
    }
}

fn counted(count: Count) -> Option<Reason>
    ensures { result ≡ counted count }
{
    if u64::from(count.written) == count.due {
        None
    } else {
        Some(Reason::WrongNumber(count.due))
    }
}

fn typed(same: bool) -> Option<Reason>
    ensures { result ≡ typed same }
{
    if same { None } else { Some(Reason::WrongType) }
}

/// Why what this stands for is no register of the type, if it is not.
fn suits(ty: &Ty, meaning: &Meaning) -> Option<Reason>
    ensures { result ≡ suits ty.now meaning.now }
{
    match meaning {
        Meaning::Register(known) => typed(same_ty(known, ty)),
        Meaning::Block => Some(Reason::WrongType),
        Meaning::Function => Some(Reason::WrongType),
    }
}

/// Why the name that is defined so, if it is, is no register of the type.
fn register(ty: &Ty, definition: Option<&Definition>) -> Option<Reason>
    ensures { result ≡ register ty.now (option_copied definition.entry) }
{
    match definition {
        None => Some(Reason::Unknown),
        Some(definition) => suits(ty, &definition.meaning),
    }
}

/// Why what this stands for is no block, if it is not.
fn leads(meaning: &Meaning) -> Option<Reason>
    ensures { result ≡ leads meaning.now }
{
    match meaning {
        Meaning::Register(_) => Some(Reason::WrongType),
        Meaning::Block => None,
        Meaning::Function => Some(Reason::WrongType),
    }
}

/// Why the name that is defined so, if it is, is no block.
fn label(definition: Option<&Definition>) -> Option<Reason>
    ensures { result ≡ label (option_copied definition.entry) }
{
    match definition {
        None => Some(Reason::Unknown),
        Some(definition) => leads(&definition.meaning),
    }
}

/// Why what is said is at fault, if it is.
fn says_wrong(definitions: &Seq<Definition>, places: &Places, says: &Says) -> Option<Reason>
    requires { Tells places.now definitions.now }
    ensures { result ≡ says_wrong definitions.now says.now }
{
    match says {
        Says::New(at) => twice(definitions, places, *at),
        Says::Counted(count) => counted(*count),
        Says::Register(used) => register(&used.ty, find(definitions, places, &used.name)),
        Says::Label(name) => label(find(definitions, places, name)),
        Says::Wrong => Some(Reason::WrongType),
    }
}

fn fault_of(claim: &Claim, reason: Option<Reason>) -> Option<Fault>
    ensures { result ≡ fault_of claim.now reason }
{
    match reason {
        None => None,
        Some(reason) => Some(Fault {
            start: claim.start,
            end: claim.end,
            reason,
        }),
    }
}

/// The order of faults at one place.
fn rank(reason: Reason) -> u8
    ensures { result ≡ rank reason }
{
    match reason {
        Reason::Twice => 0,
        Reason::WrongNumber(_) => 1,
        Reason::Unknown => 2,
        Reason::LeftOut => 3,
        Reason::WrongType => 4,
    }
}

/// Whether the first fault comes before the second: by its place, at one place by `rank`.
pub fn before(a: Fault, b: Fault) -> bool
    ensures { result ≡ before a b }
{
    a.start < b.start || (a.start == b.start && rank(a.reason) < rank(b.reason))
}

/// The first fault unless the second is before it.
fn sooner(first: Option<Fault>, second: Option<Fault>) -> Option<Fault>
    ensures { result ≡ sooner first second }
{
    match (first, second) {
        (None, second) => second,
        (first, None) => first,
        (Some(a), Some(b)) => Some(if before(b, a) { b } else { a }),
    }
}

/// The first of this fault and those of the claims.
fn first_among(
    definitions: &Seq<Definition>,
    places: &Places,
    claims: &[Claim],
    best: Option<Fault>,
) -> Option<Fault>
    requires { Tells places.now definitions.now }
    ensures { result ≡ first_in definitions.now best claims.now }
{
    let mut best = best;
    for claim in claims {
        let reason = says_wrong(definitions, places, &claim.says);
        best = sooner(best, fault_of(claim, reason));
    }
    best
}

/// The first of this fault and those of an item, whose claims stand in two parts.
///
/// # Errors
///
/// Where memory runs out.
#[tactic(auto, using(crate::proofs::First::found_in_parts))]
pub fn first_with(
    alloc: Global,
    definitions: &Seq<Definition>,
    claims: &[Claim],
    more: &[Claim],
    best: Option<Fault>,
) -> Result<Option<Fault>, AllocError>
    ensures { IfOk result (λ found. found ≡ first_in definitions.now best (claims.now ++ more.now)) }
{
    let places = places_of(alloc, definitions.as_slice())?;
    let best = first_among(definitions, &places, claims, best);
    Ok(first_among(definitions, &places, more, best))
}

fn first_from_left(alloc: Global, items: &[Item]) -> Result<Option<Fault>, AllocError>
    ensures { IfOk result (λ found. found ≡ first_of None items.now) }
{
    let mut best = None;
    for item in items {
        let places = places_of(alloc, item.definitions.as_slice())?;
        best = first_among(&item.definitions, &places, item.claims.as_slice(), best);
    }
    Ok(best)
}

/// The first fault of the items: by place, and at one place by `rank`.
///
/// # Errors
///
/// Where memory runs out.
pub fn first_fault(alloc: Global, items: &[Item]) -> Result<Option<Fault>, AllocError>
    ensures none { IfOk result (λ found. IfNone found ((f : Fault) → HasFault items.now f → ⊥)) }
    ensures first { IfOk result (λ found. IfSome found (λ f. IsFirst items.now f)) }
{
    first_from_left(alloc, items)
}
