//! What is known on an edge, behind the phis of the block that it enters.
ghost use Rattle.std.specs.Prelude.{◌≡◌, ◌++◌, ◌+◌, ◌||◌, [], ◌∷◌, None, Some, false, true, not, filter, length, IfOk, IfErr, OnOk};
ghost use Rattle.ir_core.specs.declared.limits.Limit.{Limit};
ghost use Rattle.ir_core.specs.declared.limits.Limit.TheVariants.{Facts};
ghost use Rattle.ir_core.specs.declared.expressions.Reg.TheVariants.{Now};
ghost use Rattle.ir_core.specs.declared.expressions.Reg.TheVariants.{Old};
ghost use Rattle.ir_types.specs.declared.names.Name.{Name};
ghost use Rattle.ir_core.specs.declared.expressions.Expr.TheVariants as expr;
ghost use Rattle.ir_core.specs.Expressions.{map_atom};
ghost use Rattle.std.specs.Option.{option_to_list};
ghost use Rattle.erhl_assert.specs.declared.facts.Fact.TheVariants.{Unique};
ghost use Rattle.erhl_assert.specs.declared.verdict.Reason.{Reason};
ghost use Rattle.erhl_assert.specs.Facts.{fact_has, with_facts, on_side};
ghost use Rattle.erhl_assert.specs.Course.{Gives, and_then, are_too_many, within};
ghost use Rattle.erhl_assert.specs.Growth.{adds_all, over_edge};
ghost use Rattle.erhl_assert.specs.Edges.{register_at, phi_fact, phi_facts, phi_registers, is_alike, is_of_phi, as_old, diff_over, after_edge};
ghost use Rattle.ir_machine.specs.Machine.{entry_from};
ghost use Rattle.fact_sets.specs.ErhlSides.Beside.{adds_all_beside};
ghost use Rattle.fact_sets.specs.declared.added_facts.ends.AddEnd.TheVariants as add_end;
ghost use Rattle.fact_sets.specs.declared.added_facts.ends.LineEnd.TheVariants as line_end;
ghost use Rattle.fact_sets.specs.AddedFacts.Ends.{Follows};
ghost use Rattle.postcondition.specs.EdgeCrossing.Crossing.{at_place, copies, goes, has_given, is_of_entry, is_shared, is_taken, stays, stays_apart, over_staying, AreGiven};

use crate::block_phis::{IndexedPhi, Phis, sets_alike};
use contents::Exact;
use erhl_assert::{Fact, FactSet, Side};
use fact_sets::{
    AddEnd, LineEnd, RegisterSet, Sides, add_equal, fact_has, names_old, old_atom, old_fact,
};
use ir_core::{Atom, Entry, Expr, Expr0, Limit, Name, Operand, PlaceIndex, Reg};
use std::alloc::{AllocError, Global};
use std::marker::Model;

/// An edge: the block that it leaves, and on both sides the phis of the block that it enters.
#[derive(Drop, Clone, Copy)]
pub struct Edge<'b, 'a> {
    pub from: &'b Name,
    pub source: &'b Phis<'a>,
    pub target: &'b Phis<'a>,
}

// ---- what stays

/// The phis of a block, seen from a block before it.
struct PhisFrom<'b, 'a> {
    from: &'b Name,
    phis: &'b Phis<'a>,
    /// The registers that they are given from there, each found without a walk.
    given: PlaceIndex<'a>,
}

impl<'b, 'a> Model for PhisFrom<'b, 'a> {
    ghost use Rattle.ir_types.specs.declared.names.Name.{Name};
    ghost use Rattle.ir_core.specs.declared.functions.Phi.{Phi};
    ghost use Rattle.postcondition.specs.EdgeCrossing.Crossing.{AreGiven};
    ghost use Rattle.std.specs.Prelude.{List};
    ghost use Rattle.std.specs.Coded.{codes};
    ghost use Rattle.ir_types.specs.contracts.ty.Ty as ty;
    ghost use Rattle.ir_core.specs.contracts.operands.Const as constant;

    ghost Value = { Name × List Phi };

    ghost coded = { Prim.hlevel (codes, ty.the_row.coded, constant.the_row.coded) };

    ghost view = { λ it. (it.from.now, it.phis.now) };

    ghost invariant = { λ it. AreGiven it.given it.from.now it.phis.now };
}

impl<'b, 'a> Drop for PhisFrom<'b, 'a> {
    fn drop(self) {
        let PhisFrom {
            from: _,
            phis: _,
            given: _,
        } = self;
    }
}

/// Keeps the register that the phi is given.
#[tactic(auto, using(crate::proofs::EdgeCrossing::Sharing::one_given, crate::proofs::EdgeCrossing::Sharing::constant_given, crate::proofs::EdgeCrossing::Sharing::nothing_given))]
fn add_given<'a>(
    from: &Name,
    phi: &IndexedPhi<'a>,
    given: &mut PlaceIndex<'a>,
) -> Result<(), AllocError>
    ensures { OnOk result
        ((x : Name) → has_given given.new x ≡ (has_given given.old x || is_of_entry (Unique (Now x)) (entry_from from.now phi.now.entries))) }
{
    match phi.entry_from(from) {
        None => Ok(()),
        Some(entry) => match &entry.value {
            Atom::Constant(_) => Ok(()),
            Atom::Register(name) => given.put(name, 0),
        },
    }
}

/// The registers that the phis are given from the block.
fn given_from<'a>(
    alloc: Global,
    from: &Name,
    phis: &[IndexedPhi<'a>],
) -> Result<PlaceIndex<'a>, AllocError>
    ensures { IfOk result (λ given. AreGiven given from.now phis.now) }
{
    let mut given = PlaceIndex::with_room(alloc, phis.len())?;
    for phi in phis {
        add_given(from, phi, &mut given)?;
    }
    Ok(given)
}

impl<'b, 'a> PhisFrom<'b, 'a> {
    fn of(alloc: Global, from: &'b Name, phis: &'b Phis<'a>) -> Result<PhisFrom<'b, 'a>, AllocError>
        ensures { IfOk result (λ it. it ≡ (from.now, phis.now)) }
    {
        let given = given_from(alloc, from, phis.all())?;
        Ok(PhisFrom { from, phis, given })
    }

    /// Whether the fact names a register of theirs.
    fn are_named_by(&self, fact: &Fact) -> bool
        ensures { result ≡ fact_has (is_of_phi self.now.1) fact.now }
    {
        fact_has(self.phis, fact)
    }

    /// Whether one of them is given the register.
    #[tactic(auto, using(crate::proofs::EdgeCrossing::Sharing::found_given, crate::proofs::EdgeCrossing::Sharing::not_found_given))]
    fn are_given(&self, name: &Name) -> bool
        ensures { result ≡ is_shared self.now.0 self.now.1 (Unique (Now name.now)) }
    {
        match self.given.position(name) {
            Some(_) => true,
            None => false,
        }
    }
}

/// Whether the fact is that what a phi is given is unique.
#[tactic(auto, using(crate::proofs::EdgeCrossing::Sharing::not_shared, crate::proofs::EdgeCrossing::Sharing::old_not_shared, crate::proofs::EdgeCrossing::Sharing::ghost_not_shared))]
fn is_shared(phis: &PhisFrom<'_, '_>, fact: &Fact) -> bool
    ensures { result ≡ is_shared phis.now.0 phis.now.1 fact.now }
{
    match fact {
        Fact::Unique(Reg::Now(name)) => phis.are_given(name),
        _ => false,
    }
}

/// Whether the phis take the fact away.
fn is_taken(phis: &PhisFrom<'_, '_>, fact: &Fact) -> bool
    ensures { result ≡ is_taken phis.now.0 phis.now.1 fact.now }
{
    phis.are_named_by(fact) || is_shared(phis, fact)
}

fn goes(phis: &PhisFrom<'_, '_>, fact: &Fact) -> bool
    ensures { result ≡ goes phis.now.0 phis.now.1 fact.now }
{
    !names_old(fact) && is_taken(phis, fact)
}

fn stays(phis: &PhisFrom<'_, '_>, fact: &Fact) -> bool
    ensures { result ≡ stays phis.now.0 phis.now.1 fact.now }
{
    !names_old(fact) && !is_taken(phis, fact)
}

/// 1 where the fact of that number goes, else 0.
#[tactic(auto, using(crate::proofs::EdgeCrossing::Staying::gone_here, crate::proofs::EdgeCrossing::Staying::not_gone_here, crate::proofs::EdgeCrossing::Staying::none_here))]
fn gone_at<S: FactSet>(facts: &S, k: usize, phis: &PhisFrom<'_, '_>) -> usize
    ensures { result ≡ length (filter (goes phis.now.0 phis.now.1) (at_place k (S.contents facts.now))) }
{
    match facts.at(k) {
        None => 0,
        Some(fact) => { if goes(phis, fact) { 1 } else { 0 } }
    }
}

/// How many of the facts the phis take away.
#[tactic(auto, using(crate::proofs::EdgeCrossing::Staying::gone_on))]
fn count_gone<S: FactSet>(facts: &S, phis: &PhisFrom<'_, '_>) -> usize
    ensures { result ≡ length (filter (goes phis.now.0 phis.now.1) (S.contents facts.now)) }
{
    let mut gone = 0;
    for k in 0..facts.len() {
        gone += gone_at(facts, k, phis);
    }
    gone
}

/// Adds the fact of that number, if it stays.
#[tactic(auto, using(crate::proofs::EdgeCrossing::Staying::stays_here, crate::proofs::EdgeCrossing::Staying::doesnt_stay, crate::proofs::EdgeCrossing::Staying::nothing_stays))]
fn put_at<S: FactSet>(
    alloc: Global,
    side: Side,
    facts: &S,
    k: usize,
    phis: &PhisFrom<'_, '_>,
    after: &mut Sides<S>,
) -> Result<(), AllocError>
    ensures { OnOk result
        (after.new ≡ on_side side (with_facts (filter (stays phis.now.0 phis.now.1) (at_place k (S.contents facts.now)))) after.old) }
{
    match facts.at(k) {
        None => Ok(()),
        Some(fact) => {
            if stays(phis, fact) {
                after.add_fact(side, fact.copy(alloc)?)
            } else {
                Ok(())
            }
        }
    }
}

/// Adds the facts that stay.
#[tactic(auto, using(crate::proofs::EdgeCrossing::Staying::more_put))]
fn put_staying<S: FactSet>(
    alloc: Global,
    side: Side,
    facts: &S,
    phis: &PhisFrom<'_, '_>,
    after: &mut Sides<S>,
) -> Result<(), AllocError>
    ensures { OnOk result
        (after.new ≡ on_side side (with_facts (filter (stays phis.now.0 phis.now.1) (S.contents facts.now))) after.old) }
{
    for k in 0..facts.len() {
        put_at(alloc, side, facts, k, phis, after)?;
    }
    Ok(())
}

// ---- what is added

/// Adds the fact as it was before the edge, if it is one of expressions.
#[tactic(auto, using(crate::proofs::EdgeCrossing::Copying::one_added, crate::proofs::EdgeCrossing::Copying::one_too_many))]
fn add_copy<S: FactSet>(
    alloc: Global,
    others: u128,
    side: Side,
    fact: &Fact,
    after: &mut Sides<S>,
) -> Result<(), AddEnd>
    ensures { Follows result after.new (adds_all_beside others side (option_to_list (as_old fact.now)) after.old) }
{
    match old_fact(alloc, fact)? {
        None => Ok(()),
        Some(copy) => {
            if after.add_beside(others, side, copy)? {
                Ok(())
            } else {
                Err(AddEnd::Limit(Limit::Facts))
            }
        }
    }
}

/// Adds the fact of that number as it was before the edge, unless it names an old register.
#[tactic(auto, using(crate::proofs::EdgeCrossing::Copying::copied_here, crate::proofs::EdgeCrossing::Copying::not_copied, crate::proofs::EdgeCrossing::Copying::nothing_copied))]
fn add_copy_at<S: FactSet>(
    alloc: Global,
    others: u128,
    side: Side,
    facts: &S,
    k: usize,
    after: &mut Sides<S>,
) -> Result<(), AddEnd>
    ensures { Follows result after.new
        (adds_all_beside others side (copies (at_place k (S.contents facts.now))) after.old) }
{
    match facts.at(k) {
        None => Ok(()),
        Some(fact) => {
            if names_old(fact) {
                Ok(())
            } else {
                add_copy(alloc, others, side, fact, after)
            }
        }
    }
}

/// Adds the facts as they were before the edge. Those that name old registers are passed over.
#[tactic(auto, using(crate::proofs::EdgeCrossing::Copying::copied_on, crate::proofs::EdgeCrossing::Copying::copied_over))]
fn add_copies<S: FactSet>(
    alloc: Global,
    others: u128,
    side: Side,
    facts: &S,
    after: &mut Sides<S>,
) -> Result<(), AddEnd>
    ensures { Follows result after.new (adds_all_beside others side (copies (S.contents facts.now)) after.old) }
{
    for k in 0..facts.len() {
        add_copy_at(alloc, others, side, facts, k, after)?;
    }
    Ok(())
}

/// The register of a phi, at its type.
fn register_of(alloc: Global, phi: &IndexedPhi<'_>) -> Result<Expr0, AllocError>
    ensures { IfOk result (λ made. made ≡ register_at phi.now.ty (Now phi.now.name)) }
{
    let ty = phi.ty().copy(alloc)?;
    let name = phi.name().copy(alloc)?;
    let atom = Atom::Register(Reg::Now(name));
    Ok(Expr::Plain(Operand { ty, atom }))
}

/// The operand of a phi as it was before the edge, at its type.
fn operand_of(alloc: Global, phi: &IndexedPhi<'_>, entry: &Entry) -> Result<Expr0, AllocError>
    ensures { IfOk result
        (λ made. made ≡ expr.Plain (record { ty = phi.now.ty; atom = map_atom Old entry.now.value })) }
{
    let ty = phi.ty().copy(alloc)?;
    let atom = old_atom(alloc, &entry.value)?;
    Ok(Expr::Plain(Operand { ty, atom }))
}

/// Adds that a phi's register and its operand before the edge are less defined than each other.
#[tactic(auto, using(crate::proofs::EdgeCrossing::Copying::both_added))]
fn add_entry<S: FactSet>(
    alloc: Global,
    side: Side,
    phi: &IndexedPhi<'_>,
    entry: &Entry,
    after: &mut Sides<S>,
) -> Result<(), AddEnd>
    ensures { Follows result after.new (adds_all side (phi_fact phi.now (Some entry.now)) after.old) }
{
    let register = register_of(alloc, phi)?;
    let operand = operand_of(alloc, phi, entry)?;
    add_equal(alloc, side, register, operand, after)
}

/// Adds the facts of a phi. Without an entry for the block there are none.
fn add_phi<S: FactSet>(
    alloc: Global,
    side: Side,
    from: &Name,
    phi: &IndexedPhi<'_>,
    after: &mut Sides<S>,
) -> Result<(), AddEnd>
    ensures { Follows result after.new (adds_all side (phi_fact phi.now (entry_from from.now phi.now.entries)) after.old) }
{
    match phi.entry_from(from) {
        None => Ok(()),
        Some(entry) => add_entry(alloc, side, phi, entry, after),
    }
}

#[tactic(auto, using(crate::proofs::EdgeCrossing::Copying::phi_on, crate::proofs::EdgeCrossing::Copying::phi_over))]
fn add_phis<S: FactSet>(
    alloc: Global,
    side: Side,
    from: &Name,
    phis: &[IndexedPhi<'_>],
    after: &mut Sides<S>,
) -> Result<(), AddEnd>
    ensures { Follows result after.new (adds_all side (phi_facts from.now phis.now) after.old) }
{
    for phi in phis {
        add_phi(alloc, side, from, phi, after)?;
    }
    Ok(())
}

/// Adds the facts of both sides' phis.
#[tactic(auto, using(erhl_assert::proofs::Courses::within_more, erhl_assert::proofs::Courses::within_none))]
fn add_all_phis<S: FactSet>(
    alloc: Global,
    edge: &Edge<'_, '_>,
    after: &mut Sides<S>,
) -> Result<(), AddEnd>
    ensures { Follows result after.new
        (and_then
        (adds_all Side.Src (phi_facts edge.now.from.now edge.now.source.now) after.old)
        (adds_all Side.Tgt (phi_facts edge.now.from.now edge.now.target.now))) }
{
    add_phis(alloc, Side::Src, edge.from, edge.source.all(), after)?;
    add_phis(alloc, Side::Tgt, edge.from, edge.target.all(), after)
}

/// What is added over the edge, to what stays.
#[tactic(auto, using(erhl_assert::proofs::Courses::within_more, erhl_assert::proofs::Courses::within_none))]
fn add_over<S: FactSet>(
    alloc: Global,
    others: u128,
    known: &Sides<S>,
    edge: &Edge<'_, '_>,
    after: &mut Sides<S>,
) -> Result<(), AddEnd>
    ensures { Follows result after.new
        (over_staying others
        (record { from = edge.now.from.now; source = edge.now.source.now; target = edge.now.target.now })
        known.now after.old) }
{
    add_copies(alloc, others, Side::Src, known.facts(Side::Src), after)?;
    add_copies(alloc, others, Side::Tgt, known.facts(Side::Tgt), after)?;
    add_all_phis(alloc, edge, after)
}

// ---- registers that may differ

/// Takes out the phi's register, if it is set alike.
#[tactic(auto, using(crate::proofs::EdgeCrossing::Differing::one_taken, crate::proofs::EdgeCrossing::Differing::none_taken))]
fn take_one_alike<S: FactSet>(
    alloc: Global,
    known: &Sides<S>,
    from: &Name,
    source: &Phis<'_>,
    target: &Phis<'_>,
    name: &Name,
    diff: &mut RegisterSet<'_, '_>,
) -> Result<(), AllocError>
    ensures { OnOk result
        (diff.new
        ≡ filter (stays_apart known.now (record { from = from.now; source = source.now; target = target.now }) (Now name.now ∷ [])) diff.old) }
{
    if sets_alike(known, from, source, target, name) {
        diff.remove(&Reg::Now(name.copy(alloc)?));
    }
    Ok(())
}

/// Takes out the registers of phis that are set alike.
#[tactic(auto, using(crate::proofs::EdgeCrossing::Differing::taken_on))]
fn take_alike<S: FactSet>(
    alloc: Global,
    known: &Sides<S>,
    from: &Name,
    source: &Phis<'_>,
    target: &Phis<'_>,
    phis: &[IndexedPhi<'_>],
    diff: &mut RegisterSet<'_, '_>,
) -> Result<(), AllocError>
    ensures { OnOk result
        (diff.new
        ≡ filter (stays_apart known.now (record { from = from.now; source = source.now; target = target.now }) (phi_registers phis.now)) diff.old) }
{
    for phi in phis {
        take_one_alike(alloc, known, from, source, target, phi.name(), diff)?;
    }
    Ok(())
}

/// Adds the phi's register, if it isn't set alike.
#[tactic(auto, using(crate::proofs::EdgeCrossing::Differing::is_set, crate::proofs::EdgeCrossing::Differing::alike_goes_too))]
fn add_one_set<S: FactSet>(
    alloc: Global,
    known: &Sides<S>,
    from: &Name,
    source: &Phis<'_>,
    target: &Phis<'_>,
    name: &Name,
    diff: &mut RegisterSet<'_, '_>,
) -> Result<(), AllocError>
    ensures { OnOk result
        (diff.new
        ≡ diff.old
        ++ filter (λ r. not (is_alike known.now (record { from = from.now; source = source.now; target = target.now }) r))
        (Now name.now ∷ [])) }
{
    if sets_alike(known, from, source, target, name) {
        return Ok(());
    }
    diff.push(alloc, Reg::Now(name.copy(alloc)?))
}

/// Adds the registers of phis that aren't set alike.
#[tactic(auto, using(crate::proofs::EdgeCrossing::Differing::set_on))]
fn add_set<S: FactSet>(
    alloc: Global,
    known: &Sides<S>,
    from: &Name,
    source: &Phis<'_>,
    target: &Phis<'_>,
    phis: &[IndexedPhi<'_>],
    diff: &mut RegisterSet<'_, '_>,
) -> Result<(), AllocError>
    ensures { OnOk result
        (diff.new
        ≡ diff.old
        ++ filter (λ r. not (is_alike known.now (record { from = from.now; source = source.now; target = target.now }) r))
        (phi_registers phis.now)) }
{
    for phi in phis {
        add_one_set(alloc, known, from, source, target, phi.name(), diff)?;
    }
    Ok(())
}

/// The registers that may differ behind the phis.
fn diff_over<'l, 'a, S: FactSet>(
    alloc: Global,
    known: &Sides<'l, 'a, S>,
    from: &Name,
    source: &Phis<'_>,
    target: &Phis<'_>,
) -> Result<RegisterSet<'l, 'a>, AllocError>
    ensures { IfOk result
        (λ diff. diff
        ≡ diff_over (record { from = from.now; source = source.now; target = target.now }) known.now) }
{
    let mut diff = known.diff().old_too(alloc)?;
    take_alike(alloc, known, from, source, target, source.all(), &mut diff)?;
    add_set(alloc, known, from, source, target, source.all(), &mut diff)?;
    add_set(alloc, known, from, source, target, target.all(), &mut diff)?;
    Ok(diff)
}

// ---- the edge

/// What stays, where each fact stands once: without facts that name old registers, and without those that the phis take away.
#[tactic(auto, using(crate::proofs::EdgeCrossing::Staying::all_stay))]
fn staying<'l, 'a, S: FactSet>(
    alloc: Global,
    known: &Sides<'l, 'a, S>,
    source: &PhisFrom<'_, '_>,
    target: &PhisFrom<'_, '_>,
) -> Result<Sides<'l, 'a, S>, AllocError>
    requires source_once { with_facts known.now.src [] ≡ known.now.src }
    requires target_once { with_facts known.now.tgt [] ≡ known.now.tgt }
    ensures { IfOk result
        (λ after. after
        ≡ record {
          src = filter (stays source.now.0 source.now.1) known.now.src;
          tgt = filter (stays target.now.0 target.now.1) known.now.tgt;
          diff = [];
        }) }
{
    let mut after = Sides::empty(alloc)?;
    put_staying(alloc, Side::Src, known.facts(Side::Src), source, &mut after)?;
    put_staying(alloc, Side::Tgt, known.facts(Side::Tgt), target, &mut after)?;
    Ok(after)
}

/// What is known behind the phis, with the registers that may differ, of sides in which each fact stands once.
fn over<'l, 'a, S: FactSet>(
    alloc: Global,
    known: &Sides<'l, 'a, S>,
    edge: &Edge<'_, '_>,
) -> Result<Sides<'l, 'a, S>, AddEnd>
    requires source_once { with_facts known.now.src [] ≡ known.now.src }
    requires target_once { with_facts known.now.tgt [] ≡ known.now.tgt }
    ensures ok { IfOk result
        (λ after. within
        (over_edge (record { from = edge.now.from.now; source = edge.now.source.now; target = edge.now.target.now }) known.now)
        ≡ Some (Gives after)) }
    ensures limit { IfErr result
        (λ fault. (l : Limit) → fault ≡ add_end.Limit l
        → (l ≡ Facts)
        × (within
        (over_edge (record { from = edge.now.from.now; source = edge.now.source.now; target = edge.now.target.now }) known.now)
        ≡ None)) }
{
    let source = PhisFrom::of(alloc, edge.from, edge.source)?;
    let target = PhisFrom::of(alloc, edge.from, edge.target)?;
    let gone_source = count_gone(known.facts(Side::Src), &source) as u128;
    let gone_target = count_gone(known.facts(Side::Tgt), &target) as u128;
    let mut after = staying(alloc, known, &source, &target)?;
    add_over(alloc, gone_source + gone_target, known, edge, &mut after)?;
    let diff = diff_over(alloc, known, edge.from, edge.source, edge.target)?;
    after.set_differing(diff);
    Ok(after)
}

/// What is known on an edge, behind the phis of the block that it enters, of what was known at the end of the block that it leaves.
#[tactic(auto, using(crate::proofs::EdgeCrossing::Crossing::few_over, crate::proofs::EdgeCrossing::Crossing::too_many_over))]
pub fn after_edge<'l, 'a, S: FactSet>(
    alloc: Global,
    sides: &Sides<'l, 'a, S>,
    edge: &Edge<'_, '_>,
) -> Result<Sides<'l, 'a, S>, LineEnd>
    ensures after { IfOk result
        (λ after. after
        ≡ after_edge sides.now
        (record { from = edge.now.from.now; source = edge.now.source.now; target = edge.now.target.now })) }
    // Where each fact is added, no more are known than the limit allows.
    ensures few { OnOk result
        (are_too_many
        (over_edge (record { from = edge.now.from.now; source = edge.now.source.now; target = edge.now.target.now }) sides.now).sizes
        ≡ false) }
    // No edge is refused.
    ensures refused { IfErr result (λ fault. (r : Reason) → fault ≡ line_end.Refused r → ⊥) }
    // Somewhere on it more facts would be known.
    ensures limit { IfErr result
        (λ fault. (l : Limit) → fault ≡ line_end.Limit l
        → (l ≡ Facts)
        × (are_too_many
        (over_edge (record { from = edge.now.from.now; source = edge.now.source.now; target = edge.now.target.now }) sides.now).sizes
        ≡ true)) }
{
    // Where memory was refused to a fact before, nothing is known of the sides.
    if !sides.is_whole(Side::Src) || !sides.is_whole(Side::Tgt) {
        return Err(LineEnd::Memory);
    }
    match over(alloc, sides, edge) {
        Ok(after) => Ok(after),
        Err(AddEnd::Limit(limit)) => Err(LineEnd::Limit(limit)),
        Err(AddEnd::Memory) => Err(LineEnd::Memory),
    }
}
