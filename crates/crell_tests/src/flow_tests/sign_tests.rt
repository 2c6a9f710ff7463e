//! What is found of signs, worked out by hand from the equations.
use crate::flow_tests::graphs::{Form, graph};
use flow_solver::solve;
use std::alloc::{AllocError, Global};
use std::test::*;
use test_support::{Act, Known, Sign, Signs, is_same};

fn found(alloc: Global, edges: &[(usize, usize)], acts: &[Act]) -> Result<Vec<Known>, AllocError> {
    let mut all = Vec::new(alloc);
    for act in acts {
        all.push(*act)?;
    }
    let graph = graph(alloc, Form::Edges(edges), acts.len())?;
    solve(alloc, &graph, &Signs { acts: all })
}

/// Whether these edges and acts have this solution.
fn finds(alloc: Global, edges: &[(usize, usize)], acts: &[Act], wanted: &[Known]) -> bool {
    let Ok(sets) = found(alloc, edges, acts) else {
        return false;
    };
    if sets.len() != wanted.len() {
        return false;
    }
    for (set, known) in sets.iter().zip(wanted.iter()) {
        if !is_same(set, known) {
            return false;
        }
    }
    true
}

const POSITIVE: Known = Known::One(Sign::Positive);

const NEGATIVE: Known = Known::One(Sign::Negative);

const ZERO: Known = Known::One(Sign::Zero);

#[test]
fn a_sign_holds_around_a_loop_that_keeps_it(rt: HostRuntime) {
    let edges = [(0, 1), (1, 2), (2, 1), (1, 3)];
    let make = Act::Make(Sign::Positive);
    let keeps = [make, Act::Keep, Act::Keep, Act::Keep];
    assert!(rt;
        finds(
            rt.alloc(),
            &edges,
            &keeps,
            &[Known::Any, POSITIVE, POSITIVE, POSITIVE]
        )
    );
    let turns = [make, Act::Keep, Act::Negate, Act::Keep];
    assert!(rt;
        finds(
            rt.alloc(),
            &edges,
            &turns,
            &[Known::Any, Known::Any, Known::Any, Known::Any]
        )
    );
    let twice = [make, Act::Negate, Act::Negate, Act::Keep];
    assert!(rt;
        finds(
            rt.alloc(),
            &edges,
            &twice,
            &[Known::Any, POSITIVE, NEGATIVE, NEGATIVE]
        )
    );
    let zero = [Act::Make(Sign::Zero), Act::Keep, Act::Negate, Act::Keep];
    assert!(rt; finds(rt.alloc(), &edges, &zero, &[Known::Any, ZERO, ZERO, ZERO]));
}

/// What it would make of the number counts for nothing.
#[test]
fn a_node_that_none_reaches_tells_nothing(rt: HostRuntime) {
    let acts = [Act::Make(Sign::Zero), Act::Make(Sign::Negative), Act::Keep];
    assert!(rt;
        finds(
            rt.alloc(),
            &[(0, 2), (1, 2)],
            &acts,
            &[Known::Any, Known::Unseen, ZERO]
        )
    );
    assert!(rt;
        finds(
            rt.alloc(),
            &[(0, 1), (1, 2)],
            &acts,
            &[Known::Any, ZERO, NEGATIVE]
        )
    );
}
