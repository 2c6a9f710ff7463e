//! Whether aligned allocas and stores are allowed.
ghost use Rattle.std.specs.Prelude.{◌≡◌, [], ◌∷◌, Some, IfOk};
ghost use Rattle.erhl_assert.specs.declared.verdict.Reason.TheVariants.{NotPrivate};
ghost use Rattle.erhl_assert.specs.Allowed.{first_unmatched, is_known_to_store, is_one_size, is_to_private, same_access, same_slot, size_made, slot_fault, source_store_fault, store_fault, target_store_fault};
ghost use Rattle.erhl_assert.specs.Growth.{facts_of};

use crate::allowed_lines::accesses::{access, divides};
use crate::allowed_lines::matching::matched;
use contents::Exact;
use erhl_assert::{Fact, FactSet, Reason, Side};
use fact_sets::Sides;
use ir_core::{Alloca, Atom, Name, Operand, Reg, Store, is_pointer, same_ty};
use ir_machine::{align_or, count_made};
use ir_types::{NamedTypes, SizeFault, fits_block};
use std::alloc::{AllocError, Global};

// ---- stores

fn same_access(types: &NamedTypes, s: &Store, t: &Store) -> bool
    ensures { result ≡ same_access types.now s.now t.now }
{
    let (a, b) = (&s.value.ty, &t.value.ty);
    same_ty(a, b) && divides(align_or(types, b, t.align), align_or(types, a, s.align))
}

/// Whether it is known that the block which the address points into is in no pair.
fn is_to_private<S: FactSet>(
    alloc: Global,
    side: Side,
    known: &Sides<S>,
    store: &Store,
) -> Result<bool, AllocError>
    ensures { IfOk result (λ there. there ≡ is_to_private (facts_of side known.now) store.now) }
{
    match &store.pointer.atom {
        Atom::Constant(_) => Ok(false),
        Atom::Register(name) => {
            let fact = Fact::Private(Reg::Now(name.copy(alloc)?));
            Ok(known.has_fact(side, &fact))
        }
    }
}

fn not_private(alloc: Global, store: &Store) -> Result<Option<Reason>, AllocError>
    ensures { IfOk result (λ reason. reason ≡ Some (NotPrivate store.now.pointer)) }
{
    Ok(Some(Reason::NotPrivate(store.pointer.copy(alloc)?)))
}

/// Whether it is known of the target that the store doesn't trap.
fn is_known_to_store<S: FactSet>(
    alloc: Global,
    types: &NamedTypes,
    known: &Sides<S>,
    store: &Store,
) -> Result<bool, AllocError>
    ensures { IfOk result (λ there. there ≡ is_known_to_store types.now known.now.tgt store.now) }
{
    let fact = access(alloc, types, &store.pointer, &store.value.ty, store.align)?;
    Ok(known.has_fact(Side::Tgt, &fact))
}

/// Why a store of the source alone isn't allowed, if it isn't.
pub(crate) fn source_store_fault<S: FactSet>(
    alloc: Global,
    known: &Sides<S>,
    store: &Store,
) -> Result<Option<Reason>, AllocError>
    ensures { IfOk result (λ reason. reason ≡ source_store_fault known.now store.now) }
{
    if is_to_private(alloc, Side::Src, known, store)? {
        return Ok(None);
    }
    not_private(alloc, store)
}

/// Why a store of the target alone isn't allowed, if it isn't.
pub(crate) fn target_store_fault<S: FactSet>(
    alloc: Global,
    types: &NamedTypes,
    known: &Sides<S>,
    store: &Store,
) -> Result<Option<Reason>, AllocError>
    ensures { IfOk result (λ reason. reason ≡ target_store_fault types.now known.now store.now) }
{
    if !is_to_private(alloc, Side::Tgt, known, store)? {
        return not_private(alloc, store);
    }
    if is_known_to_store(alloc, types, known, store)? {
        return Ok(None);
    }
    Ok(Some(Reason::TargetMayTrap))
}

/// The operands, if they aren't matched.
fn unmatched<S: FactSet>(
    alloc: Global,
    known: &Sides<S>,
    a: &Operand<Name>,
    b: &Operand<Name>,
) -> Result<Option<Reason>, AllocError>
    ensures { IfOk result (λ reason. reason ≡ first_unmatched known.now (a.now ∷ []) (b.now ∷ [])) }
{
    if matched(a, b, known) {
        return Ok(None);
    }
    Ok(Some(Reason::Unmatched(a.copy(alloc)?, b.copy(alloc)?)))
}

/// Why a store beside another isn't allowed, if it isn't.
pub(crate) fn store_fault<S: FactSet>(
    alloc: Global,
    types: &NamedTypes,
    known: &Sides<S>,
    s: &Store,
    t: &Store,
) -> Result<Option<Reason>, AllocError>
    ensures { IfOk result (λ reason. reason ≡ store_fault types.now known.now s.now t.now) }
{
    if !same_access(types, s, t) {
        return Ok(Some(Reason::KindsDiffer));
    }
    if !matched(&s.value, &t.value, known) {
        return unmatched(alloc, known, &s.value, &t.value);
    }
    unmatched(alloc, known, &s.pointer, &t.pointer)
}

// ---- allocas

/// How many bytes an alloca makes, where they are those of a block.
fn size_made(types: &NamedTypes, line: &Alloca) -> Result<u64, SizeFault>
    ensures { result ≡ size_made types.now line.now }
{
    fits_block(types, &line.of, count_made(line))
}

fn is_one_size(s: Result<u64, SizeFault>, t: Result<u64, SizeFault>) -> bool
    ensures { result ≡ is_one_size s t }
{
    match (s, t) {
        (Ok(m), Ok(n)) => m == n,
        _ => false,
    }
}

/// Whether both make a block of one size and one alignment.
pub(crate) fn same_slot(types: &NamedTypes, s: &Alloca, t: &Alloca) -> bool
    ensures { result ≡ same_slot types.now s.now t.now }
{
    is_one_size(size_made(types, s), size_made(types, t))
        && align_or(types, &s.of, s.align) == align_or(types, &t.of, t.align)
}

/// Why an alloca of the source isn't allowed, alone or beside one that makes a block like it, or another one.
pub(crate) fn slot_fault(s: &Alloca, alike: bool) -> Option<Reason>
    ensures { result ≡ slot_fault s.now alike }
{
    if is_pointer(&s.to) && alike {
        None
    } else {
        Some(Reason::KindsDiffer)
    }
}
