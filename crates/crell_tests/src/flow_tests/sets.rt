//! What small sets find, worked out by hand from the equations.
use crate::flow_tests::graphs::{Form, graph};
use flow_solver::solve;
use std::alloc::{AllocError, Global};
use std::test::*;
use test_support::{Effect, Small};

/// Three things.
const A: u64 = 1;

const B: u64 = 2;

const C: u64 = 4;

const ALL: u64 = 7;

/// Keeps all, and gives these.
fn gives(gives: u64) -> Effect {
    Effect { keeps: ALL, gives }
}

/// Whether these edges and effects have this solution.
fn finds(alloc: Global, edges: &[(usize, usize)], effects: &[Effect], wanted: &[u64]) -> bool {
    match found(alloc, edges, effects) {
        Ok(sets) => sets.as_slice() == wanted,
        Err(_) => false,
    }
}

fn found(
    alloc: Global,
    edges: &[(usize, usize)],
    effects: &[Effect],
) -> Result<Vec<u64>, AllocError> {
    let mut all = Vec::new(alloc);
    for effect in effects {
        all.push(*effect)?;
    }
    let graph = graph(alloc, Form::Edges(edges), effects.len())?;
    solve(
        alloc,
        &graph,
        &Small {
            all: ALL,
            effects: all,
        },
    )
}

#[test]
fn what_came_on_one_arm_alone_is_lost_where_they_meet(rt: HostRuntime) {
    let edges = [(0, 1), (0, 2), (1, 3), (2, 3)];
    let effects = [gives(0), gives(A), gives(A | B), gives(0)];
    assert!(rt; finds(rt.alloc(), &edges, &effects, &[0, 0, 0, A]));
}

#[test]
fn a_chain_gathers(rt: HostRuntime) {
    let effects = [gives(A), gives(B), gives(C), gives(0)];
    assert!(rt;
        finds(
            rt.alloc(),
            &[(0, 1), (1, 2), (2, 3)],
            &effects,
            &[0, A, A | B, ALL]
        )
    );
    assert!(rt;
        finds(
            rt.alloc(),
            &[(0, 3), (3, 2), (2, 1)],
            &effects,
            &[0, A | C, A, A]
        )
    );
}

#[test]
fn a_loop_that_is_entered_at_two_nodes_has_its_greatest_solution(rt: HostRuntime) {
    let edges = [(0, 1), (0, 2), (1, 2), (2, 1)];
    assert!(rt;
        finds(
            rt.alloc(),
            &edges,
            &[gives(A), gives(B), gives(C)],
            &[0, A, A]
        )
    );
    assert!(rt;
        finds(
            rt.alloc(),
            &edges,
            &[gives(ALL), gives(0), gives(0)],
            &[0, ALL, ALL]
        )
    );
    let drops = Effect {
        keeps: A | B,
        gives: 0,
    };
    assert!(rt;
        finds(
            rt.alloc(),
            &edges,
            &[gives(ALL), gives(0), drops],
            &[0, A | B, A | B]
        )
    );
}

#[test]
fn a_node_that_leads_to_itself_keeps_what_enters_it(rt: HostRuntime) {
    let edges = [(0, 1), (1, 1), (1, 2)];
    assert!(rt;
        finds(
            rt.alloc(),
            &edges,
            &[gives(A), gives(B), gives(0)],
            &[0, A, A | B]
        )
    );
    let drops = Effect { keeps: B, gives: C };
    assert!(rt;
        finds(
            rt.alloc(),
            &edges,
            &[gives(A | B), drops, gives(0)],
            &[0, B, B | C]
        )
    );
}

#[test]
fn the_start_counts_however_often_the_first_node_is_entered(rt: HostRuntime) {
    assert!(rt; finds(rt.alloc(), &[(0, 0)], &[gives(A)], &[0]));
    assert!(rt;
        finds(
            rt.alloc(),
            &[(0, 1), (1, 0)],
            &[gives(A), gives(B)],
            &[0, A]
        )
    );
}

#[test]
fn a_node_that_only_it_itself_leads_to_loses_what_it_drops(rt: HostRuntime) {
    assert!(rt; finds(rt.alloc(), &[(1, 1)], &[gives(0), gives(0)], &[0, ALL]));
    let drops = Effect {
        keeps: A | C,
        gives: 0,
    };
    assert!(rt; finds(rt.alloc(), &[(1, 1)], &[gives(0), drops], &[0, A | C]));
}

#[test]
fn a_node_that_none_reaches_counts_by_what_it_drops_alone(rt: HostRuntime) {
    let edges = [(0, 1), (2, 1)];
    assert!(rt;
        finds(
            rt.alloc(),
            &edges,
            &[gives(A), gives(0), gives(C)],
            &[0, A, ALL]
        )
    );
    let drops = Effect {
        keeps: B | C,
        gives: 0,
    };
    assert!(rt;
        finds(
            rt.alloc(),
            &edges,
            &[gives(A | B), gives(0), drops],
            &[0, B, ALL]
        )
    );
}

#[test]
fn a_graph_without_nodes_has_no_sets(rt: HostRuntime) {
    assert!(rt; finds(rt.alloc(), &[], &[], &[]));
}
