//! What is wrong with a phi.
ghost use Rattle.std.specs.Prelude.{◌≡◌, ◌<◌, ◌&&◌, true, length, IfOk};
ghost use Rattle.std.specs.List.{list_all};
ghost use Rattle.ir_shape.specs.ShapeTests.Counted.{agree_at, count_in, counts_of};
ghost use Rattle.ir_shape.specs.ShapeTests.Edges.{named};
ghost use Rattle.ir_shape.specs.ShapeTests.Kinds as meaning;

use crate::shape_tests::counts::{Counts, are_alike, count_edges, count_entries};
use crate::shape_tests::few::{FEW, few_fit};
use ir_core::{Entry, Name, same_name};
use std::alloc::{AllocError, Global};

fn edges_agree(counts: &Counts, others: &Counts, edges: &[&Name]) -> bool
    ensures { result ≡ list_all (agree_at (count_in counts.now) (count_in others.now)) (named edges.now) }
{
    for edge in edges {
        if counts.get(edge) != others.get(edge) {
            return false;
        }
    }
    true
}

fn entries_agree(counts: &Counts, others: &Counts, entries: &[Entry]) -> bool
    ensures { result ≡ list_all (agree_at (count_in counts.now) (count_in others.now)) (meaning.froms_of entries.now) }
{
    for entry in entries {
        if counts.get(&entry.from) != others.get(&entry.from) {
            return false;
        }
    }
    true
}

/// Whether each block stands among the entries as often as among the edges.
fn counts_agree(
    alloc: Global,
    edges: &[&Name],
    counts: &Counts,
    entries: &[Entry],
) -> Result<bool, AllocError>
    requires { count_in counts.now ≡ counts_of (named edges.now) }
    ensures { IfOk result (λ agree. agree ≡ meaning.same_counts (named edges.now) (meaning.froms_of entries.now)) }
{
    let others = count_entries(alloc, entries)?;
    Ok(edges_agree(counts, &others, edges) && entries_agree(counts, &others, entries))
}

/// Whether there is one entry for each of the edges, in their order.
fn are_in_order(edges: &[&Name], entries: &[Entry]) -> bool
    ensures { result ≡ true → meaning.froms_of entries.now ≡ named edges.now }
{
    if edges.len() != entries.len() {
        return false;
    }
    for at in 0..edges.len() {
        if !same_name(edges[at], &entries[at].from) {
            return false;
        }
    }
    true
}

/// Whether each block stands among the entries as often as among the edges, which is seen at once where they are in one order.
#[tactic(auto, using(crate::proofs::ShapeTests::Counted::counts_alike))]
fn are_as_often(
    alloc: Global,
    edges: &[&Name],
    counts: &Counts,
    entries: &[Entry],
) -> Result<bool, AllocError>
    requires { count_in counts.now ≡ counts_of (named edges.now) }
    ensures { IfOk result (λ agree. agree ≡ meaning.same_counts (named edges.now) (meaning.froms_of entries.now)) }
{
    if are_in_order(edges, entries) {
        return Ok(true);
    }
    counts_agree(alloc, edges, counts, entries)
}

/// Where they are many, by indexes.
#[tactic(auto, using(crate::proofs::ShapeTests::Counted::alike_along_none))]
fn many_fit(
    alloc: Global,
    edges: &[&Name],
    counts: &Counts,
    entries: &[Entry],
) -> Result<bool, AllocError>
    requires { count_in counts.now ≡ counts_of (named edges.now) }
    ensures { IfOk result (λ fit. fit ≡ (meaning.same_counts (named edges.now) (meaning.froms_of entries.now) && meaning.are_alike entries.now)) }
{
    if !are_as_often(alloc, edges, counts, entries)? {
        return Ok(false);
    }
    are_alike(alloc, entries)
}

/// How many edges come from each block, where they are many.
pub fn counts_of<'a>(alloc: Global, edges: &[&'a Name]) -> Result<Counts<'a>, AllocError>
    ensures { IfOk result (λ counts. 8 < length edges.now → count_in counts ≡ counts_of (named edges.now)) }
{
    if edges.len() > FEW {
        return count_edges(alloc, edges);
    }
    Ok(Counts::new(alloc))
}

pub fn fits_edges(
    alloc: Global,
    edges: &[&Name],
    counts: &Counts,
    entries: &[Entry],
) -> Result<bool, AllocError>
    requires { 8 < length edges.now → count_in counts.now ≡ counts_of (named edges.now) }
    ensures { IfOk result (λ fit. fit ≡ meaning.phi_fits (named edges.now) entries.now) }
{
    if entries.is_empty() {
        return Ok(false);
    }
    if edges.len() > FEW {
        return many_fit(alloc, edges, counts, entries);
    }
    if entries.len() > FEW {
        let own = count_edges(alloc, edges)?;
        return many_fit(alloc, edges, &own, entries);
    }
    Ok(few_fit(edges, entries))
}
