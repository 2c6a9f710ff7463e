ghost use Rattle.std.specs.Prelude.{◌≡◌, ◌<◌, length, map};
ghost use Rattle.flow_solver.specs.Rows.{rows_in};
ghost use Rattle.flow_solver.specs.Ways.{LeadsWithin, led_to};

use crate::successors::Successors;
use std::marker::Model;

/// Of each node those that it leads to: all in memory of their own, or up to two of them in place.
#[derive(Drop)]
enum Rows {
    Long(Vec<Vec<usize>>),
    Short(Vec<Successors>),
}

/// Nodes, counted from 0, each with those that it leads to, in their order. Contracts see a graph as the list of these lists.
#[derive(Drop)]
pub struct Graph {
    rows: Rows,
}

impl Model for Graph {
    ghost use Rattle.std.specs.Prelude.{List, ℕ};
    ghost use Rattle.flow_solver.specs.Rows.{rows_in};
    ghost use Rattle.flow_solver.specs.Ways.{LeadsWithin};

    ghost Value = { List (List ℕ) };

    ghost view = { λ it. rows_in it.rows };

    ghost invariant = { λ it. LeadsWithin (rows_in it.rows) };
}

fn rows_len(rows: &Rows) -> usize
    ensures { result ≡ length (rows_in rows.now) }
{
    match rows {
        Rows::Long(rows) => rows.len(),
        Rows::Short(rows) => rows.len(),
    }
}

fn row_at(rows: &Rows, node: usize) -> &[usize]
    requires { node < length (rows_in rows.now) }
    ensures { result.now ≡ led_to (rows_in rows.now) node }
{
    match rows {
        Rows::Long(rows) => rows[node].as_slice(),
        Rows::Short(rows) => rows[node].as_slice(),
    }
}

impl Graph {
    /// Takes no memory. Each node leads to nodes alone.
    pub fn new(successors: Vec<Vec<usize>>) -> Graph
        requires { LeadsWithin (map (λ nodes. nodes.items) successors.items) }
        ensures { result ≡ map (λ nodes. nodes.items) successors.items }
    {
        Graph {
            rows: Rows::Long(successors),
        }
    }

    /// The same of lists that are short as a rule.
    pub fn of_short(successors: Vec<Successors>) -> Graph
        requires { LeadsWithin successors.items }
        ensures { result ≡ successors.items }
    {
        Graph {
            rows: Rows::Short(successors),
        }
    }

    /// How many nodes it has.
    pub(crate) fn len(&self) -> usize
        ensures many { result ≡ length self.now }
        ensures within { LeadsWithin self.now }
    {
        rows_len(&self.rows)
    }

    /// The nodes that a node leads to.
    pub(crate) fn led_to(&self, node: usize) -> &[usize]
        requires { node < length self.now }
        ensures { result.now ≡ led_to self.now node }
    {
        row_at(&self.rows, node)
    }
}
