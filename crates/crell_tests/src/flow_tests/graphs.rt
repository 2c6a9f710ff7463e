//! Graphs for the tests.
ghost use Rattle.std.specs.Prelude.{◌≡◌, ◌<◌, length, map, IfOk, OnOk};
ghost use Rattle.crell_tests.specs.FlowTests.Graphs.{AreBelow};
ghost use Rattle.std.specs.List.{AllByRecursion};

use flow_solver::Graph;
use std::alloc::{AllocError, Global};

/// Which graph.
#[derive(Drop, Clone, Copy)]
pub(crate) enum Form<'a> {
    /// From the first of each pair to the second.
    Edges(&'a [(usize, usize)]),
    /// Each leads to the next one.
    Chain,
    /// The first leads to the last, and each other one to the one before it.
    BackChain,
    /// Each leads to the next two.
    Ladder,
    /// Each leads to the next one, and back to the one before it.
    BothWays,
    /// The first leads to all others, and all to the last.
    Fan,
}

/// Adds a node, if it is one.
fn add(row: &mut Vec<usize>, node: usize, nodes: usize) -> Result<(), AllocError>
    requires { AreBelow nodes row.old.items }
    ensures { OnOk result (AreBelow nodes row.new.items) }
{
    if node < nodes {
        row.push(node)?;
    }
    Ok(())
}

fn add_edges(
    row: &mut Vec<usize>,
    edges: &[(usize, usize)],
    node: usize,
    nodes: usize,
) -> Result<(), AllocError>
    requires { AreBelow nodes row.old.items }
    ensures { OnOk result (AreBelow nodes row.new.items) }
{
    for (from, to) in edges {
        if *from == node {
            add(row, *to, nodes)?;
        }
    }
    Ok(())
}

fn add_all(row: &mut Vec<usize>, nodes: usize) -> Result<(), AllocError>
    requires { AreBelow nodes row.old.items }
    ensures { OnOk result (AreBelow nodes row.new.items) }
{
    for node in 1..nodes {
        add(row, node, nodes)?;
    }
    Ok(())
}

/// The nodes to which one leads.
fn row(alloc: Global, form: Form<'_>, node: usize, nodes: usize) -> Result<Vec<usize>, AllocError>
    ensures { IfOk result (λ row. AreBelow nodes row.items) }
{
    let mut row = Vec::new(alloc);
    match form {
        Form::Edges(edges) => add_edges(&mut row, edges, node, nodes)?,
        Form::Chain => add(&mut row, node.saturating_add(1), nodes)?,
        Form::BackChain if node == 0 => add(&mut row, nodes.saturating_sub(1), nodes)?,
        Form::BackChain => add(&mut row, node.saturating_sub(1), nodes)?,
        Form::Ladder => {
            add(&mut row, node.saturating_add(1), nodes)?;
            add(&mut row, node.saturating_add(2), nodes)?;
        }
        Form::BothWays => {
            add(&mut row, node.saturating_add(1), nodes)?;
            add(&mut row, node.saturating_sub(1), nodes)?;
        }
        Form::Fan if node == 0 => add_all(&mut row, nodes)?,
        Form::Fan => add(&mut row, nodes.saturating_sub(1), nodes)?,
    }
    Ok(row)
}

/// A graph of that form over so many nodes.
pub(crate) fn graph(alloc: Global, form: Form<'_>, nodes: usize) -> Result<Graph, AllocError>
    ensures { IfOk result (λ graph. length graph ≡ nodes) }
{
    let mut successors = Vec::new(alloc);
    for node in 0..nodes {
        successors.push(row(alloc, form, node, nodes)?)?;
    }
    Ok(Graph::new(successors))
}
