//! Large graphs take a few steps for each node.
use crate::flow_tests::graphs::{Form, graph};
use flow_solver::solve;
use std::alloc::{AllocError, Global};
use std::cell::Cell;
use std::test::*;
use test_support::Reached;

const NODES: usize = 100_000;

/// How many times a node is left, if a path comes to all.
fn steps(alloc: Global, form: Form<'_>) -> Result<Option<u64>, AllocError> {
    let reached = Reached {
        steps: Cell::new(0),
    };
    let sets = solve(alloc, &graph(alloc, form, NODES)?, &reached)?;
    for none in &sets {
        if *none {
            return Ok(None);
        }
    }
    Ok(Some(reached.steps.get()))
}

fn takes(alloc: Global, form: Form<'_>, wanted: u64) -> bool {
    match steps(alloc, form) {
        Ok(steps) => steps == Some(wanted),
        Err(_) => false,
    }
}

#[test]
fn each_node_is_left_once_where_no_edge_leads_back(rt: HostRuntime) {
    for form in [Form::Chain, Form::BackChain, Form::Ladder, Form::Fan] {
        assert!(rt; takes(rt.alloc(), form, 100_000));
    }
}

#[test]
fn an_edge_that_changes_nothing_costs_no_step(rt: HostRuntime) {
    assert!(rt; takes(rt.alloc(), Form::BothWays, 100_000));
}
