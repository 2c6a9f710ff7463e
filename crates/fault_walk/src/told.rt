//! What is told of a text: the first fault and the first place of a block that is too large, as they are found from the left.
ghost use Rattle.std.specs.Prelude.{◌≡◌, [], ◌∷◌};
ghost use Rattle.fault_walk.specs.Told as meaning;
ghost use Rattle.fault_walk.specs.Told.{faults_more};
ghost use Rattle.named_modules.specs.Faults as faults;

use module_grammar::Placed;
use name_claims::{Fault, Reason, before};

/// What is told so far: the first fault, and the first place where the limit on blocks is passed.
#[derive(Drop, Clone, Copy)]
pub struct Told {
    pub fault: Option<Fault>,
    pub large: Option<u32>,
}

/// The first of both.
fn sooner(first: Option<Fault>, fault: Fault) -> Option<Fault>
    ensures { result ≡ meaning.with_fault first fault }
{
    match first {
        None => Some(fault),
        Some(first) => Some(if before(fault, first) { fault } else { first }),
    }
}

/// One fault more.
pub(crate) fn note(told: &mut Told, fault: Fault)
    ensures { told.new ≡ faults_more (fault ∷ []) told.old }
{
    told.fault = sooner(told.fault, fault);
}

/// A fault, unless it fits.
#[inline(always)]
pub(crate) fn note_unless(told: &mut Told, fits: bool, fault: Fault)
    ensures { told.new ≡ faults_more (faults.unless fits fault) told.old }
{
    if !fits {
        note(told, fault);
    }
}

/// What is noted apart, too.
pub(crate) fn note_other(told: &mut Told, other: Option<Fault>)
    ensures fault { told.new.fault ≡ meaning.with_other told.old.fault other }
    ensures large { told.new.large ≡ told.old.large }
{
    match other {
        Some(fault) => note(told, fault),
        None => {}
    }
}

/// The first of both places.
fn nearer(first: Option<u32>, place: u32) -> Option<u32>
    ensures { result ≡ meaning.with_place place first }
{
    match first {
        None => Some(place),
        Some(first) => Some(if place < first { place } else { first }),
    }
}

/// A place of a large block, if it counts.
pub(crate) fn note_place(told: &mut Told, counts: bool, place: u32)
    ensures fault { told.new.fault ≡ told.old.fault }
    ensures large { told.new.large ≡ meaning.with_place_if counts place told.old.large }
{
    if counts {
        told.large = nearer(told.large, place);
    }
}

/// A fault of what a token says.
pub(crate) fn at<T>(written: &Placed<T>, reason: Reason) -> Fault
    ensures { result ≡ faults.at written.now reason }
{
    Fault {
        start: written.start as usize,
        end: written.end as usize,
        reason,
    }
}

/// A fault of so many bytes from there on.
pub(crate) fn from(start: u32, size: u8, reason: Reason) -> Fault
    ensures { result ≡ faults.from start size reason }
{
    Fault {
        start: start as usize,
        end: start as usize + size as usize,
        reason,
    }
}
