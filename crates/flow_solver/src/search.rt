//! A search through a graph, breadth first.
ghost use Rattle.std.specs.Prelude.{◌≡◌, List, Bool, ℕ, ◌+◌, ◌<◌, IsTrue, ◌↔◌, length, IfOk, OnOk};
ghost use Rattle.flow_solver.specs.Ways.{IsOpen, LeadsWithin, led_to};
ghost use Rattle.flow_solver.specs.Searched.{Comes, HasSearched, node_at};

use crate::Graph;
use std::alloc::{AllocError, Global};

/// A node that the search has come to, and the place among the steps of the one that led to it.
#[derive(Drop, Clone, Copy)]
pub(crate) struct Step {
    pub(crate) node: usize,
    pub(crate) from: usize,
}

/// The steps of a search, in the order in which it came to them, and of each node its place among them.
#[derive(Drop)]
pub(crate) struct Search {
    pub(crate) steps: Vec<Step>,
    pub(crate) places: Vec<Option<usize>>,
}

pub(crate) fn is_open(closed: &[bool], node: usize) -> bool
    ensures { IsTrue result ↔ IsOpen closed.now node }
{
    match closed.get(node) {
        Some(mark) => !*mark,
        None => true,
    }
}

/// The search comes to a node, from the one at a place.
fn come(search: &mut Search, node: usize, from: usize) -> Result<(), AllocError>
    requires { node < length search.old.places.items }
    ensures { OnOk result (Comes search.old.steps.items search.old.places.items node from search.new.steps.items search.new.places.items) }
{
    if search.places[node].is_none() {
        search.places[node] = Some(search.steps.len());
        search.steps.push(Step { node, from })?;
    }
    Ok(())
}

/// It comes to all nodes to which the one at a place leads.
fn come_to_all(
    graph: &Graph,
    closed: &[bool],
    at: usize,
    search: &mut Search,
) -> Result<(), AllocError>
    requires within { LeadsWithin graph.now }
    requires at { at < length search.old.steps.items }
    requires passes { IsOpen closed.now (node_at search.old.steps.items at) }
    requires searched { HasSearched graph.now closed.now search.old.steps.items search.old.places.items at 0 }
    ensures searched { OnOk result
        (HasSearched graph.now closed.now search.new.steps.items search.new.places.items at (length (led_to graph.now (node_at search.old.steps.items at)))) }
    ensures same { OnOk result (node_at search.new.steps.items at ≡ node_at search.old.steps.items at) }
    ensures grows { OnOk result (at < length search.new.steps.items) }
{
    let node = search.steps[at].node;
    for next in graph.led_to(node) {
        come(search, *next, at)?;
    }
    Ok(())
}

/// It goes through the step at a place: it comes to all nodes to which that leads, unless it is closed.
fn leave(graph: &Graph, closed: &[bool], at: usize, search: &mut Search) -> Result<(), AllocError>
    requires within { LeadsWithin graph.now }
    requires at { at < length search.old.steps.items }
    requires searched { HasSearched graph.now closed.now search.old.steps.items search.old.places.items at 0 }
    ensures searched { OnOk result (HasSearched graph.now closed.now search.new.steps.items search.new.places.items (at + 1) 0) }
    ensures grows { OnOk result (at < length search.new.steps.items) }
{
    if !is_open(closed, search.steps[at].node) {
        return Ok(());
    }
    come_to_all(graph, closed, at, search)?;
    Ok(())
}

/// Where it begins: with the first node.
fn begun(alloc: Global, graph: &Graph, nodes: usize) -> Result<Search, AllocError>
    requires some { 0 < nodes }
    requires nodes { nodes ≡ length graph.now }
    ensures { IfOk result (λ search. (closed : List Bool) → HasSearched graph.now closed search.steps.items search.places.items 0 0) }
{
    let mut places = vec![in alloc; None; nodes]?;
    places[0] = Some(0);
    let mut steps = Vec::new(alloc);
    steps.push(Step { node: 0, from: 0 })?;
    Ok(Search { steps, places })
}

/// All nodes to which a way leads from the first one through nodes that aren't closed.
pub(crate) fn searched(alloc: Global, graph: &Graph, closed: &[bool]) -> Result<Search, AllocError>
    requires { 0 < length graph.now }
    ensures { IfOk result (λ search. HasSearched graph.now closed.now search.steps.items search.places.items (length search.steps.items) 0) }
{
    let mut search = begun(alloc, graph, graph.len())?;
    let mut at = 0;
    while at < search.steps.len() {
        leave(graph, closed, at, &mut search)?;
        at += 1;
    }
    Ok(search)
}
