ghost use Rattle.std.specs.Prelude.{◌≡◌, ℕ, List, ◌<◌, ◌↔◌, IsTrue, MatchOption, false, length, slice_index_or, IfOk};
ghost use Rattle.flow_solver.specs.Ways.{IsFirstWay, IsReached, Leads, nodes_on};
ghost use Rattle.flow_solver.specs.Searched.{HasSearched, node_at};

use crate::Graph;
use crate::search::{Search, searched};
use std::alloc::{AllocError, Global};

/// Of each node whether a path from the first one ends there.
pub fn reachable(alloc: Global, graph: &Graph) -> Result<Vec<bool>, AllocError>
    ensures many { IfOk result (λ marks. length marks.items ≡ length graph.now) }
    ensures marks { IfOk result
        (λ marks. (n : ℕ) → n < length graph.now → IsTrue (slice_index_or marks.items n false) ↔ IsReached graph.now n) }
{
    let mut marks = Vec::new(alloc);
    if graph.len() == 0 {
        return Ok(marks);
    }
    let found = searched(alloc, graph, &[])?;
    for place in &found.places {
        marks.push(place.is_some())?;
    }
    Ok(marks)
}

/// The nodes by which the search came to the one at a place.
fn path_to(
    alloc: Global,
    graph: &Graph,
    closed: &[bool],
    found: &Search,
    place: usize,
) -> Result<Vec<usize>, AllocError>
    requires place { place < length found.now.steps.items }
    requires searched { HasSearched graph.now closed.now found.now.steps.items found.now.places.items (length found.now.steps.items) 0 }
    ensures { IfOk result
        (λ path. (turns : List ℕ) × IsFirstWay graph.now closed.now (node_at found.now.steps.items place) turns × (path.items ≡ nodes_on graph.now 0 turns)) }
{
    let mut path = Vec::new(alloc);
    let mut at = place;
    while at != 0 {
        path.push(found.steps[at].node)?;
        at = found.steps[at].from;
    }
    path.push(0)?;
    path.reverse();
    Ok(path)
}

/// The first way from the first node to another one that passes no closed node, as the nodes by which it comes; none, where no way
/// leads there.
pub fn first_way(
    alloc: Global,
    graph: &Graph,
    closed: &[bool],
    to: usize,
) -> Result<Option<Vec<usize>>, AllocError>
    requires { to < length graph.now }
    ensures { IfOk result
        (λ found. MatchOption found ((turns : List ℕ) → Leads graph.now closed.now 0 turns to → ⊥)
        (λ path. (turns : List ℕ) × IsFirstWay graph.now closed.now to turns × (path.items ≡ nodes_on graph.now 0 turns))) }
{
    let found = searched(alloc, graph, closed)?;
    match found.places[to] {
        Some(place) => Ok(Some(path_to(alloc, graph, closed, &found, place)?)),
        None => Ok(None),
    }
}
