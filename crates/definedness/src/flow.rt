//! The graph of a function's blocks.
ghost use Rattle.std.specs.Prelude.{◌≡◌, ◌++◌, [], ◌∷◌, map, IfOk, OnOk};
ghost use Rattle.ir_core.specs.declared.functions.Block.{Block};
ghost use Rattle.ir_core.specs.declared.functions.Case.{Case};
ghost use Rattle.ir_core.specs.Functions.{names_in, phi_registers, set_by, successors_of};
ghost use Rattle.ir_core.specs.NameIndexes.Among.{is_among, place_among};
ghost use Rattle.ir_core.specs.NameIndexes.Places.{ArePlaces};
ghost use Rattle.definedness.specs.Flow.{closed_for, defines, places_by};
ghost use Rattle.definedness.specs.Graph.{graph_in, labels_in};

use flow_solver::{Graph, Successors};
use ir_core::{Block, Case, Instr, Name, Phi, PlaceIndex, Switch, Term, same_name};
use std::alloc::{AllocError, Global};

/// Where the names of blocks stand first among them.
pub(crate) fn labels_of<'a>(
    alloc: Global,
    blocks: &'a [Block],
) -> Result<PlaceIndex<'a>, AllocError>
    ensures { IfOk result (λ labels. ArePlaces labels (labels_in blocks.now)) }
{
    let mut labels = PlaceIndex::with_room(alloc, blocks.len())?;
    let mut at = blocks.len();
    while at > 0 {
        at -= 1;
        labels.put(&blocks[at].name, at)?;
    }
    Ok(labels)
}

/// Puts the place of a block behind the others.
fn add_place(labels: &PlaceIndex, label: &Name, places: &mut Successors) -> Result<(), AllocError>
    ensures { OnOk result (places.new ≡ places.old ++ places_by labels.now (label.now ∷ [])) }
{
    if let Some(place) = labels.position(label) {
        places.push(place)?;
    }
    Ok(())
}

fn add_cases(labels: &PlaceIndex, cases: &[Case], places: &mut Successors) -> Result<(), AllocError>
    ensures { OnOk result
        (places.new ≡ places.old ++ places_by labels.now (map (λ (c : Case). c.label) cases.now)) }
{
    for case in cases {
        add_place(labels, &case.label, places)?;
    }
    Ok(())
}

/// The place of the block of that name, the first one.
pub(crate) fn place_of(blocks: &[Block], labels: &PlaceIndex, name: &Name) -> Option<usize>
    requires { ArePlaces labels.now (labels_in blocks.now) }
    ensures { result ≡ place_among name.now (labels_in blocks.now) }
{
    let place = labels.position(name);
    place
}

/// How many edges lead from a terminator.
fn successor_count(term: &Term) -> usize {
    match term {
        Term::Br(_) => 1,
        Term::CondBr(_) => 2,
        Term::Switch(switch) => switch.cases.len().saturating_add(1),
        Term::Ret(_) | Term::RetVoid | Term::Unreachable => 0,
    }
}

fn add_two(
    labels: &PlaceIndex,
    one: &Name,
    two: &Name,
    places: &mut Successors,
) -> Result<(), AllocError>
    ensures { OnOk result (places.new ≡ places.old ++ places_by labels.now (one.now ∷ two.now ∷ [])) }
{
    add_place(labels, one, places)?;
    add_place(labels, two, places)
}

fn add_switch(
    labels: &PlaceIndex,
    switch: &Switch,
    places: &mut Successors,
) -> Result<(), AllocError>
    ensures { OnOk result
        (places.new ≡ places.old ++ places_by labels.now (switch.now.default ∷ map (λ (c : Case). c.label) switch.now.cases)) }
{
    add_place(labels, &switch.default, places)?;
    add_cases(labels, switch.cases.as_slice(), places)
}

/// Puts the places of the blocks to which a terminator leads behind the others.
fn add_successors(
    labels: &PlaceIndex,
    term: &Term,
    places: &mut Successors,
) -> Result<(), AllocError>
    ensures { OnOk result (places.new ≡ places.old ++ places_by labels.now (successors_of term.now)) }
{
    match term {
        Term::Br(label) => add_place(labels, label, places),
        Term::CondBr(branch) => add_two(labels, &branch.on_true, &branch.on_false, places),
        Term::Switch(switch) => add_switch(labels, switch, places),
        Term::Ret(_) | Term::RetVoid | Term::Unreachable => Ok(()),
    }
}

/// The places of the blocks to which a terminator leads.
fn places_of(alloc: Global, labels: &PlaceIndex, term: &Term) -> Result<Successors, AllocError>
    ensures { IfOk result (λ places. places ≡ places_by labels.now (successors_of term.now)) }
{
    let mut places = Successors::with_room(alloc, successor_count(term))?;
    add_successors(labels, term, &mut places)?;
    Ok(places)
}

/// The graph of blocks of these names.
pub(crate) fn graph_of(
    alloc: Global,
    blocks: &[Block],
    labels: &PlaceIndex,
) -> Result<Graph, AllocError>
    requires { ArePlaces labels.now (labels_in blocks.now) }
    ensures { IfOk result (λ graph. graph ≡ graph_in (labels_in blocks.now) blocks.now) }
{
    let mut successors = Vec::with_capacity(alloc, blocks.len())?;
    for block in blocks {
        successors.push(places_of(alloc, labels, &block.term)?)?;
    }
    Ok(Graph::of_short(successors))
}

fn phis_define(phis: &[Phi], name: &Name) -> bool
    ensures { result ≡ is_among name.now (names_in (phi_registers phis.now)) }
{
    for phi in phis {
        if same_name(name, &phi.name) {
            return true;
        }
    }
    false
}

/// Whether the line sets the register.
#[tactic(auto, using(crate::proofs::Setting::sets_one, crate::proofs::Setting::sets_none))]
pub(crate) fn sets(line: &Instr, name: &Name) -> bool
    ensures { result ≡ is_among name.now (names_in (set_by (line.now ∷ []))) }
{
    match line.name() {
        Some(own) => same_name(name, own),
        None => false,
    }
}

#[tactic(auto, using(crate::proofs::Setting::among_more))]
fn lines_define(lines: &[Instr], name: &Name) -> bool
    ensures { result ≡ is_among name.now (names_in (set_by lines.now)) }
{
    for line in lines {
        if sets(line, name) {
            return true;
        }
    }
    false
}

fn defines(block: &Block, name: &Name) -> bool
    ensures { result ≡ defines name.now block.now }
{
    phis_define(block.phis.as_slice(), name) || lines_define(block.body.as_slice(), name)
}

/// Which blocks define a register.
pub(crate) fn closed_for(
    alloc: Global,
    blocks: &[Block],
    name: &Name,
) -> Result<Vec<bool>, AllocError>
    ensures { IfOk result (λ marks. marks.items ≡ closed_for name.now blocks.now) }
{
    let mut marks = Vec::new(alloc);
    for block in blocks {
        marks.push(defines(block, name))?;
    }
    Ok(marks)
}
