ghost use Rattle.std.specs.Prelude.{◌≡◌, [], ◌∷◌, IfOk};

use flow_solver::{Graph, dominators_of};
use std::alloc::{AllocError, Global};
use std::test::*;

fn leads_to(alloc: Global, left: usize, right: usize) -> Result<Vec<usize>, AllocError>
    ensures { IfOk result (λ nodes. nodes.items ≡ left ∷ right ∷ []) }
{
    let mut nodes = Vec::new(alloc);
    nodes.push(left)?;
    nodes.push(right)?;
    Ok(nodes)
}

/// 0 to 1 and 2, both to 3.
fn parting(alloc: Global) -> Result<Graph, AllocError> {
    let mut successors = Vec::new(alloc);
    successors.push(leads_to(alloc, 1, 2)?)?;
    successors.push(leads_to(alloc, 3, 3)?)?;
    successors.push(leads_to(alloc, 3, 3)?)?;
    successors.push(Vec::new(alloc))?;
    Ok(Graph::new(successors))
}

/// 0 to 1 and 2, which lead to each other, 2 to 3 too, 4 to 3.
fn looping(alloc: Global) -> Result<Graph, AllocError> {
    let mut successors = Vec::new(alloc);
    successors.push(leads_to(alloc, 1, 2)?)?;
    successors.push(leads_to(alloc, 2, 2)?)?;
    successors.push(leads_to(alloc, 1, 3)?)?;
    successors.push(Vec::new(alloc))?;
    successors.push(leads_to(alloc, 3, 3)?)?;
    Ok(Graph::new(successors))
}

/// Whether a node is said to be passed; nothing, where no dominators are found.
fn says(
    alloc: Global,
    graph: Result<Graph, AllocError>,
    through: usize,
    to: usize,
) -> Option<bool> {
    match graph {
        Ok(graph) => match dominators_of(alloc, &graph) {
            Ok(Some(found)) => Some(found.is_passed(through, to)),
            _ => None,
        },
        Err(_) => None,
    }
}

/// What is found, of which no contract says that it is: where ways part and meet, and in a loop that is entered at two nodes.
#[test]
fn nodes_that_each_way_passes_are_found(rt: HostRuntime) {
    let alloc = rt.alloc();
    for (through, to, wanted) in [(0, 3, true), (1, 3, false), (3, 3, false)] {
        assert!(rt; says(alloc, parting(alloc), through, to) == Some(wanted));
    }
    for (through, to, wanted) in [
        (0, 2, true),
        (1, 2, false),
        (2, 1, false),
        (2, 3, true),
        (3, 4, true),
    ] {
        assert!(rt; says(alloc, looping(alloc), through, to) == Some(wanted));
    }
}
