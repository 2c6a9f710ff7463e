//! Few edges and entries of a phi, compared one by one.
ghost use Rattle.std.specs.Prelude.{◌≡◌, ◌&&◌, IsTrue, true};
ghost use Rattle.std.specs.List.{list_all};
ghost use Rattle.ir_shape.specs.ShapeTests.Edges.{agrees, alike_with, named};
ghost use Rattle.ir_shape.specs.ShapeTests.Kinds as meaning;

use ir_core::{Entry, Name, same_name, same_name_atom};

/// So many are compared without an index.
pub(crate) const FEW: usize = 8;

/// How many of the edges come from the block of that name.
fn edges_from(name: &Name, edges: &[&Name]) -> usize
    ensures { result ≡ meaning.count_of name.now (named edges.now) }
{
    let mut count = 0;
    for edge in edges {
        if same_name(name, edge) {
            count += 1;
        }
    }
    count
}

fn entries_from(name: &Name, entries: &[Entry]) -> usize
    ensures { result ≡ meaning.count_of name.now (meaning.froms_of entries.now) }
{
    let mut count = 0;
    for entry in entries {
        if same_name(name, &entry.from) {
            count += 1;
        }
    }
    count
}

/// Whether a block has as many entries as edges.
fn agrees(edges: &[&Name], entries: &[Entry], name: &Name) -> bool
    ensures { result ≡ agrees (named edges.now) (meaning.froms_of entries.now) name.now }
{
    edges_from(name, edges) == entries_from(name, entries)
}

fn edges_agree(edges: &[&Name], entries: &[Entry]) -> bool
    ensures { result ≡ list_all (agrees (named edges.now) (meaning.froms_of entries.now)) (named edges.now) }
{
    for edge in edges {
        if !agrees(edges, entries, edge) {
            return false;
        }
    }
    true
}

fn entries_agree(edges: &[&Name], entries: &[Entry]) -> bool
    ensures { result ≡ list_all (agrees (named edges.now) (meaning.froms_of entries.now)) (meaning.froms_of entries.now) }
{
    for entry in entries {
        if !agrees(edges, entries, &entry.from) {
            return false;
        }
    }
    true
}

/// Whether an entry has the value of each of these that are of its block.
fn is_alike(one: &Entry, entries: &[Entry]) -> bool
    ensures { result ≡ list_all (alike_with one.now) entries.now }
{
    for entry in entries {
        if same_name(&one.from, &entry.from) && !same_name_atom(&one.value, &entry.value) {
            return false;
        }
    }
    true
}

fn are_alike(entries: &[Entry]) -> bool
    ensures { result ≡ meaning.are_alike entries.now }
{
    for entry in entries {
        if !is_alike(entry, entries) {
            return false;
        }
    }
    true
}

/// Whether there are two entries, of two blocks, one for each of two edges in their order.
fn two_fit(edges: &[&Name], entries: &[Entry]) -> bool
    ensures { IsTrue result → (meaning.same_counts (named edges.now) (meaning.froms_of entries.now) && meaning.are_alike entries.now) ≡ true }
{
    match (edges, entries) {
        ([one, two], [first, second]) => {
            if !same_name(one, &first.from) || !same_name(two, &second.from) {
                return false;
            }
            !same_name(&first.from, &second.from)
        }
        _ => false,
    }
}

/// Whether there is an entry for each of the edges and no other, and entries of one block have one value.
pub(crate) fn few_fit(edges: &[&Name], entries: &[Entry]) -> bool
    ensures { result ≡ (meaning.same_counts (named edges.now) (meaning.froms_of entries.now) && meaning.are_alike entries.now) }
{
    two_fit(edges, entries) || each_fit(edges, entries)
}

#[tactic(auto, using(crate::proofs::ShapeTests::Edges::counts_joined))]
fn each_fit(edges: &[&Name], entries: &[Entry]) -> bool
    ensures { result ≡ (meaning.same_counts (named edges.now) (meaning.froms_of entries.now) && meaning.are_alike entries.now) }
{
    edges_agree(edges, entries) && entries_agree(edges, entries) && are_alike(entries)
}
