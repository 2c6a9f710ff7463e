//! What marks find, worked out by hand from the equations.
use crate::flow_tests::graphs::{Form, graph};
use flow_solver::solve;
use std::alloc::{AllocError, Global};
use std::test::*;
use test_support::Gathered;

/// Whether a thing has come to a node, in a graph of four nodes that give the things 0, 1, 1 and 2.
fn comes(
    alloc: Global,
    edges: &[(usize, usize)],
    node: usize,
    thing: usize,
) -> Result<Option<bool>, AllocError> {
    let mut gives = Vec::new(alloc);
    for given in [0, 1, 1, 2] {
        gives.push(given)?;
    }
    let graph = graph(alloc, Form::Edges(edges), 4)?;
    let sets = solve(alloc, &graph, &Gathered { many: 3, gives })?;
    Ok(match sets.get(node) {
        Some(set) => Some(set.has(thing)),
        None => None,
    })
}

fn is_told(
    alloc: Global,
    edges: &[(usize, usize)],
    node: usize,
    thing: usize,
    wanted: bool,
) -> bool {
    match comes(alloc, edges, node, thing) {
        Ok(come) => come == Some(wanted),
        Err(_) => false,
    }
}

#[test]
fn what_both_arms_give_has_come_where_they_meet(rt: HostRuntime) {
    let edges = [(0, 1), (0, 2), (1, 3), (2, 3), (3, 3)];
    for (node, thing, wanted) in [
        (0, 0, false),
        (1, 0, true),
        (1, 1, false),
        (2, 1, false),
        (3, 0, true),
        (3, 1, true),
        (3, 2, false),
    ] {
        assert!(rt; is_told(rt.alloc(), &edges, node, thing, wanted));
    }
}
