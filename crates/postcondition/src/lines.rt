//! What is known after an aligned line.
ghost use Rattle.std.specs.Prelude.{◌≡◌, [], ◌∷◌, ◌++◌, map, IfErr, IfOk, OnOk, None, Some, true, false};
ghost use Rattle.std.specs.List.{flat_map};
ghost use Rattle.std.specs.Option.{is_none, option_copied};
ghost use Rattle.ir_types.specs.declared.names.Name.{Name};
ghost use Rattle.ir_core.specs.declared.operands.Operand.{Operand};
ghost use Rattle.ir_core.specs.declared.expressions.Reg.TheVariants.{Now};
ghost use Rattle.ir_core.specs.declared.functions.Argument.{Argument};
ghost use Rattle.ir_core.specs.declared.functions.Instr.TheVariants as instr;
ghost use Rattle.ir_machine.specs.Machine as machine;
ghost use Rattle.ir_machine.specs.Registers as registers;
ghost use Rattle.ir_types.specs.declared.ty.Ty.{Ptr};
ghost use Rattle.ir_core.specs.declared.limits.Limit.{Limit};
ghost use Rattle.ir_core.specs.declared.limits.Limit.TheVariants.{Facts};
ghost use Rattle.erhl_assert.specs.declared.verdict.Reason.{Reason};
ghost use Rattle.erhl_assert.specs.Facts.{both_ways, on_side};
ghost use Rattle.erhl_assert.specs.Kills.{all_killed, unique_of};
ghost use Rattle.ir_core.specs.Types.{kind_of};
ghost use Rattle.erhl_assert.specs.Allowed.{line_fault_of};
ghost use Rattle.erhl_assert.specs.Course.{are_too_many};
ghost use Rattle.erhl_assert.specs.Growth.{adds_all, over_allowed, over_line, over_side};
ghost use Rattle.erhl_assert.specs.Matched.{now_operand};
ghost use Rattle.erhl_assert.specs.Postcondition.{calm_adds, changing, copied_by, copied_in, line_adds, line_kills, naming, now_at, private_if, slot_adds, store_adds, with_align, right_side, left_side, without_reg, with_reg, after_line};
ghost use Rattle.fact_sets.specs.declared.added_facts.ends.LineEnd.TheVariants as line_end;
ghost use Rattle.fact_sets.specs.AddedFacts.Ends.{Follows};
ghost use Rattle.postcondition.specs.LineCourses.{access_at, access_in, are_agreed, diff_by, is_slot, with_both};

use crate::allowed_lines::{access, line_fault, lines_agree};
use contents::Exact;
use erhl_assert::{Fact, FactSet, Kill, Side};
use fact_sets::{AddEnd, LineEnd, Sides, add_equal, left_side, names, now_expr, now_operand};
use ir_core::{
    Alloca, Argument, Atom, Calm, Const, Expr, Expr0, Instr, Limit, Load, Module, Name, Operand,
    Reg, Shared, Store, Ty, kind_of, same_name,
};
use ir_machine::{align_or, count_made};
use ir_types::NamedTypes;
use std::alloc::{AllocError, Global};

// ---- what goes

/// That what the atom holds is unique goes.
#[tactic(auto, using(crate::proofs::LineFacts::nothing_killed))]
fn share<S: FactSet>(
    alloc: Global,
    side: Side,
    atom: &Atom<Name>,
    sides: &mut Sides<S>,
) -> Result<(), AllocError>
    ensures { OnOk result
        (sides.new ≡ on_side side (all_killed (flat_map unique_of (atom.now ∷ []))) sides.old) }
{
    match atom {
        Atom::Constant(_) => Ok(()),
        Atom::Register(name) => {
            sides.kill(side, &Kill::Unique(Reg::Now(name.copy(alloc)?)));
            Ok(())
        }
    }
}

#[tactic(auto, using(crate::proofs::LineFacts::shared_two))]
fn share_two<S: FactSet>(
    alloc: Global,
    side: Side,
    a: &Atom<Name>,
    b: &Atom<Name>,
    sides: &mut Sides<S>,
) -> Result<(), AllocError>
    ensures { OnOk result
        (sides.new ≡ on_side side (all_killed (flat_map unique_of (a.now ∷ b.now ∷ []))) sides.old) }
{
    share(alloc, side, a, sides)?;
    share(alloc, side, b, sides)
}

fn share_operands<S: FactSet>(
    alloc: Global,
    side: Side,
    operands: &[Operand<Name>],
    sides: &mut Sides<S>,
) -> Result<(), AllocError>
    ensures { OnOk result
        (sides.new ≡ on_side side (all_killed (flat_map unique_of (map (λ (o : Operand Name). o.atom) operands.now))) sides.old) }
{
    for operand in operands {
        share(alloc, side, &operand.atom, sides)?;
    }
    Ok(())
}

/// That what a right side copies is unique goes.
#[tactic(auto, using(crate::proofs::LineFacts::nothing_killed, crate::proofs::LineFacts::shared_three, crate::proofs::LineFacts::shared_more))]
fn share_right<S: FactSet>(
    alloc: Global,
    side: Side,
    right: &Expr<Name>,
    sides: &mut Sides<S>,
) -> Result<(), AllocError>
    ensures { OnOk result
        (sides.new ≡ on_side side (all_killed (flat_map unique_of (copied_in right.now))) sides.old) }
{
    match right {
        Expr::Plain(operand) => share(alloc, side, &operand.atom, sides),
        Expr::Binary(binary) => share_two(alloc, side, &binary.left, &binary.right, sides),
        Expr::Cast(cast) => share(alloc, side, &cast.operand.atom, sides),
        Expr::Select(select) => {
            let select = select.get();
            share(alloc, side, &select.condition.atom, sides)?;
            share_two(alloc, side, &select.left.atom, &select.right.atom, sides)
        }
        Expr::Element(element) => {
            let element = element.get();
            share(alloc, side, &element.base.atom, sides)?;
            share_operands(alloc, side, element.indices.as_slice(), sides)
        }
        Expr::Icmp(_) | Expr::Load(_) => Ok(()),
    }
}

#[tactic(auto, using(crate::proofs::LineFacts::passed_on, crate::proofs::LineFacts::nothing_killed))]
fn share_arguments<S: FactSet>(
    alloc: Global,
    side: Side,
    arguments: &[Argument],
    sides: &mut Sides<S>,
) -> Result<(), AllocError>
    ensures { OnOk result
        (sides.new ≡ on_side side (all_killed (flat_map unique_of (map (λ (a : Argument). a.operand.atom) arguments.now))) sides.old) }
{
    for argument in arguments {
        share(alloc, side, &argument.operand.atom, sides)?;
    }
    Ok(())
}

/// That what a line copies is unique goes. Mostly nothing is, and then no operand is looked at.
#[tactic(auto, using(crate::proofs::LineFacts::nothing_killed, crate::proofs::LineFacts::none_shared))]
fn share_copied<S: FactSet>(
    alloc: Global,
    side: Side,
    line: &Instr,
    sides: &mut Sides<S>,
) -> Result<(), AllocError>
    ensures { OnOk result
        (sides.new ≡ on_side side (all_killed (flat_map unique_of (copied_by line.now))) sides.old) }
{
    if !sides.joined(side).may_be_unique() {
        return Ok(());
    }
    match line {
        Instr::Calm(calm) => share_right(alloc, side, &calm.right, sides),
        Instr::Alloca(_) => Ok(()),
        Instr::Store(store) => share(alloc, side, &store.value.atom, sides),
        Instr::Call(call) => share_arguments(alloc, side, call.get().arguments.as_slice(), sides),
    }
}

/// What names the register goes.
#[tactic(auto, using(crate::proofs::LineFacts::nothing_killed))]
fn forget_named<S: FactSet>(
    alloc: Global,
    side: Side,
    name: Option<&Name>,
    sides: &mut Sides<S>,
) -> Result<(), AllocError>
    ensures { OnOk result
        (sides.new ≡ on_side side (all_killed (naming (option_copied name.entry))) sides.old) }
{
    if let Some(name) = name {
        sides.kill(side, &Kill::Naming(Reg::Now(name.copy(alloc)?)));
    }
    Ok(())
}

/// What is known of loads goes, where a store or a call may change it.
#[tactic(auto, using(crate::proofs::LineFacts::nothing_killed))]
fn forget_changed<S: FactSet>(
    alloc: Global,
    side: Side,
    line: &Instr,
    sides: &mut Sides<S>,
) -> Result<(), AllocError>
    ensures { OnOk result (sides.new ≡ on_side side (all_killed (changing line.now)) sides.old) }
{
    match line {
        Instr::Store(store) => {
            let address = now_operand(alloc, &store.pointer)?;
            sides.kill(side, &Kill::Stored(address, store.value.ty.copy(alloc)?));
        }
        Instr::Call(_) => sides.kill(side, &Kill::Called),
        Instr::Calm(_) | Instr::Alloca(_) => {}
    }
    Ok(())
}

/// What the line takes away of a side goes.
#[tactic(auto, using(crate::proofs::LineFacts::line_killed))]
fn forget<S: FactSet>(
    alloc: Global,
    side: Side,
    line: &Instr,
    sides: &mut Sides<S>,
) -> Result<(), AllocError>
    ensures { OnOk result (sides.new ≡ on_side side (all_killed (line_kills line.now)) sides.old) }
{
    forget_named(alloc, side, line.name(), sides)?;
    share_copied(alloc, side, line, sides)?;
    forget_changed(alloc, side, line, sides)
}

// ---- what comes

/// The alignment as a load states it. That of each type is below 2^32; one that isn't is answered as where no memory is left.
fn stated(align: u64) -> Result<u32, AllocError>
    ensures { IfOk result (λ stated. stated ≡ align) }
{
    match u32::try_from(align) {
        Ok(align) => Ok(align),
        Err(_) => Err(AllocError),
    }
}

/// A load that states no alignment gets its type's.
fn state_align(types: &NamedTypes, expr: &mut Expr0) -> Result<(), AllocError>
    ensures { OnOk result (expr.new ≡ with_align types.now expr.old) }
{
    if let Expr::Load(load) = expr {
        let align = stated(align_or(types, &load.of, load.align))?;
        load.align = Some(align);
    }
    Ok(())
}

/// Adds that the two are less defined than each other.
#[tactic(auto, using(crate::proofs::EdgeCrossing::Copying::both_added))]
fn add_both<S: FactSet>(
    alloc: Global,
    side: Side,
    a: Expr0,
    b: Expr0,
    sides: &mut Sides<S>,
) -> Result<(), AddEnd>
    ensures { Follows result sides.new (adds_all side (both_ways a b) sides.old) }
{
    add_equal(alloc, side, a, b, sides)
}

/// Adds that the register of the line and its right side are less defined than each other.
fn add_equation<S: FactSet>(
    alloc: Global,
    types: &NamedTypes,
    side: Side,
    line: &Calm,
    sides: &mut Sides<S>,
) -> Result<(), AddEnd>
    ensures { Follows result sides.new
        (adds_all side (both_ways (left_side line.now) (right_side types.now line.now)) sides.old) }
{
    let register = left_side(alloc, line)?;
    let mut right = now_expr(alloc, &line.right)?;
    state_align(types, &mut right)?;
    add_both(alloc, side, register, right, sides)
}

/// Adds the fact to the side's.
#[tactic(auto, using(crate::proofs::LineFacts::one_added, crate::proofs::LineFacts::one_too_many))]
fn add_one<S: FactSet>(side: Side, fact: Fact, sides: &mut Sides<S>) -> Result<(), AddEnd>
    ensures { Follows result sides.new (adds_all side (fact ∷ []) sides.old) }
{
    if sides.add_within(side, fact)? {
        Ok(())
    } else {
        Err(AddEnd::Limit(Limit::Facts))
    }
}

/// Adds that another access doesn't trap, at a type that has values.
fn add_load<S: FactSet>(
    alloc: Global,
    types: &NamedTypes,
    side: Side,
    load: &Load<Name>,
    sides: &mut Sides<S>,
) -> Result<(), AddEnd>
    ensures { Follows result sides.new (adds_all side (access_at (kind_of load.now.of) types.now load.now) sides.old) }
{
    match kind_of(&load.of) {
        None => Ok(()),
        Some(_) => {
            let fact = access(alloc, types, &load.pointer, &load.of, load.align)?;
            add_one(side, fact, sides)
        }
    }
}

/// Adds what is known of the access, if the right side is one.
fn add_access<S: FactSet>(
    alloc: Global,
    types: &NamedTypes,
    side: Side,
    right: &Expr<Name>,
    sides: &mut Sides<S>,
) -> Result<(), AddEnd>
    ensures { Follows result sides.new (adds_all side (access_in types.now right.now) sides.old) }
{
    match right {
        Expr::Load(load) => add_load(alloc, types, side, load, sides),
        _ => Ok(()),
    }
}

/// Adds what is known of a line that doesn't name the register that it sets.
#[tactic(auto, using(crate::proofs::LineFacts::all_added, crate::proofs::LineFacts::first_over))]
fn add_line<S: FactSet>(
    alloc: Global,
    types: &NamedTypes,
    side: Side,
    line: &Calm,
    sides: &mut Sides<S>,
) -> Result<(), AddEnd>
    ensures { Follows result sides.new
        (adds_all side
        (both_ways (left_side line.now) (right_side types.now line.now) ++ access_in types.now line.now.right)
        sides.old) }
{
    add_equation(alloc, types, side, line, sides)?;
    add_access(alloc, types, side, &line.right, sides)
}

/// Adds what a calm line adds.
#[tactic(auto, using(crate::proofs::LineFacts::line_added, crate::proofs::LineFacts::line_not_added))]
fn add_calm<S: FactSet>(
    alloc: Global,
    types: &NamedTypes,
    side: Side,
    line: &Calm,
    sides: &mut Sides<S>,
) -> Result<(), AddEnd>
    ensures { Follows result sides.new (adds_all side (calm_adds types.now line.now) sides.old) }
{
    if names(&line.name, &line.right) {
        Ok(())
    } else {
        add_line(alloc, types, side, line, sides)
    }
}

/// Adds a fact, and that two expressions are less defined than each other.
#[tactic(auto, using(crate::proofs::LineFacts::then_added, crate::proofs::LineFacts::fact_over, crate::proofs::LineFacts::then_over))]
fn add_with_both<S: FactSet>(
    alloc: Global,
    side: Side,
    fact: Fact,
    a: Expr0,
    b: Expr0,
    sides: &mut Sides<S>,
) -> Result<(), AddEnd>
    ensures { Follows result sides.new (adds_all side (fact ∷ both_ways a b) sides.old) }
{
    add_one(side, fact, sides)?;
    add_both(alloc, side, a, b, sides)
}

/// Adds that an access of the type through the pointer doesn't trap, and what is loaded there.
fn add_stored<S: FactSet>(
    alloc: Global,
    side: Side,
    value: Operand<Reg>,
    pointer: Operand<Reg>,
    align: u64,
    sides: &mut Sides<S>,
) -> Result<(), AddEnd>
    ensures { Follows result sides.new (adds_all side (store_adds value.ty value pointer align) sides.old) }
{
    let address = Expr::Plain(pointer.copy(alloc)?);
    let fact = Fact::Ok(address, value.ty.copy(alloc)?, align);
    let load = Expr::Load(Load {
        of: value.ty.copy(alloc)?,
        pointer,
        align: Some(stated(align)?),
    });
    add_with_both(alloc, side, fact, load, Expr::Plain(value), sides)
}

fn add_store<S: FactSet>(
    alloc: Global,
    types: &NamedTypes,
    side: Side,
    store: &Store,
    sides: &mut Sides<S>,
) -> Result<(), AddEnd>
    ensures { Follows result sides.new
        (adds_all side
        (store_adds store.now.value.ty (now_operand store.now.value) (now_operand store.now.pointer) (registers.align_or types.now store.now.value.ty store.now.align))
        sides.old) }
{
    let value = now_operand(alloc, &store.value)?;
    let pointer = now_operand(alloc, &store.pointer)?;
    let align = align_or(types, &store.value.ty, store.align);
    add_stored(alloc, side, value, pointer, align, sides)
}

/// Adds that the block of the register is private, where the line is of one side alone.
fn add_private<S: FactSet>(
    alloc: Global,
    one_sided: bool,
    side: Side,
    name: &Name,
    sides: &mut Sides<S>,
) -> Result<(), AddEnd>
    ensures { Follows result sides.new (adds_all side (private_if one_sided name.now) sides.old) }
{
    if !one_sided {
        return Ok(());
    }
    add_one(side, Fact::Private(Reg::Now(name.copy(alloc)?)), sides)
}

/// Whether an alloca makes a slot of at least one value, at an alignment above 0.
fn is_slot(types: &NamedTypes, line: &Alloca) -> bool
    ensures { result
        ≡ is_slot (kind_of line.now.of) (machine.count_made line.now.count) (registers.align_or types.now line.now.of line.now.align) }
{
    match kind_of(&line.of) {
        None => false,
        Some(_) => count_made(line) != 0 && align_or(types, &line.of, line.align) != 0,
    }
}

/// Adds what is known of the slot that an alloca makes.
#[tactic(auto, using(crate::proofs::LineFacts::slots))]
fn add_slot<S: FactSet>(
    alloc: Global,
    types: &NamedTypes,
    side: Side,
    line: &Alloca,
    sides: &mut Sides<S>,
) -> Result<(), AddEnd>
    ensures { Follows result sides.new
        (adds_all side
        (slot_adds (kind_of line.now.of) (machine.count_made line.now.count) line.now.of (now_at (Ptr line.now.of) line.now.name) (registers.align_or types.now line.now.of line.now.align))
        sides.old) }
{
    if !is_slot(types, line) {
        return Ok(());
    }
    let undef = Operand {
        ty: line.of.copy(alloc)?,
        atom: Atom::Constant(Const::Undef),
    };
    let pointer = Operand {
        ty: Ty::Ptr(Shared::new(alloc, line.of.copy(alloc)?)?),
        atom: Atom::Register(Reg::Now(line.name.copy(alloc)?)),
    };
    let align = align_or(types, &line.of, line.align);
    add_stored(alloc, side, undef, pointer, align, sides)
}

/// Adds that the block of an alloca is private, where the line is of one side alone, and what is known of its slot.
#[tactic(auto, using(crate::proofs::LineFacts::all_added, crate::proofs::LineFacts::first_over, crate::proofs::LineFacts::second_over))]
fn add_block<S: FactSet>(
    alloc: Global,
    types: &NamedTypes,
    one_sided: bool,
    side: Side,
    line: &Alloca,
    sides: &mut Sides<S>,
) -> Result<(), AddEnd>
    ensures { Follows result sides.new
        (adds_all side
        (private_if one_sided line.now.name
        ++ slot_adds (kind_of line.now.of) (machine.count_made line.now.count) line.now.of (now_at (Ptr line.now.of) line.now.name) (registers.align_or types.now line.now.of line.now.align))
        sides.old) }
{
    add_private(alloc, one_sided, side, &line.name, sides)?;
    add_slot(alloc, types, side, line, sides)
}

/// Adds what an alloca adds.
#[tactic(auto, using(crate::proofs::LineFacts::then_added, crate::proofs::LineFacts::fact_over, crate::proofs::LineFacts::then_over))]
fn add_alloca<S: FactSet>(
    alloc: Global,
    types: &NamedTypes,
    one_sided: bool,
    side: Side,
    line: &Alloca,
    sides: &mut Sides<S>,
) -> Result<(), AddEnd>
    ensures { Follows result sides.new
        (adds_all side (line_adds types.now one_sided (instr.Alloca line.now)) sides.old) }
{
    add_one(side, Fact::Unique(Reg::Now(line.name.copy(alloc)?)), sides)?;
    add_block(alloc, types, one_sided, side, line, sides)
}

/// What is known of a side after its line, which is of this side alone or of both.
#[tactic(auto, using(crate::proofs::LineFacts::killed_and_added))]
fn facts_after<S: FactSet>(
    alloc: Global,
    types: &NamedTypes,
    one_sided: bool,
    side: Side,
    line: &Instr,
    sides: &mut Sides<S>,
) -> Result<(), AddEnd>
    ensures { Follows result sides.new (over_side types.now one_sided side (Some line.now) sides.old) }
{
    forget(alloc, side, line, sides)?;
    match line {
        Instr::Calm(calm) => add_calm(alloc, types, side, calm, sides),
        Instr::Alloca(alloca) => add_alloca(alloc, types, one_sided, side, alloca, sides),
        Instr::Store(store) => add_store(alloc, types, side, store, sides),
        Instr::Call(_) => Ok(()),
    }
}

fn is_absent(line: Option<&Instr>) -> bool
    ensures { result ≡ is_none (option_copied line.entry) }
{
    match line {
        Some(_) => false,
        None => true,
    }
}

/// What is known of a side after its line, if it has one, beside the line of the other side.
fn side_after<S: FactSet>(
    alloc: Global,
    types: &NamedTypes,
    side: Side,
    line: Option<&Instr>,
    other: Option<&Instr>,
    sides: &mut Sides<S>,
) -> Result<(), AddEnd>
    ensures { Follows result sides.new
        (over_side types.now (is_none (option_copied other.entry)) side (option_copied line.entry) sides.old) }
{
    match line {
        Some(line) => facts_after(alloc, types, is_absent(other), side, line, sides),
        None => Ok(()),
    }
}

// ---- lines

fn differ<S: FactSet>(alloc: Global, name: &Name, sides: &mut Sides<S>) -> Result<(), AllocError>
    ensures { OnOk result
        (sides.new ≡ record sides.old { diff = with_reg (Now name.now) sides.old.diff }) }
{
    sides.add_differing(alloc, Reg::Now(name.copy(alloc)?))
}

fn agree<S: FactSet>(alloc: Global, name: &Name, sides: &mut Sides<S>) -> Result<(), AllocError>
    ensures { OnOk result
        (sides.new ≡ record sides.old { diff = without_reg (Now name.now) sides.old.diff }) }
{
    sides.remove_differing(&Reg::Now(name.copy(alloc)?));
    Ok(())
}

/// Whether both lines set one register, which may not differ then.
fn are_agreed<S: FactSet>(known: &Sides<S>, s: Option<&Instr>, t: Option<&Instr>) -> bool
    ensures { result ≡ are_agreed known.now (option_copied s.entry) (option_copied t.entry) }
{
    match (s, t) {
        (Some(Instr::Calm(s)), Some(Instr::Calm(t))) => lines_agree(known, s, t),
        (Some(Instr::Alloca(s)), Some(Instr::Alloca(t))) => same_name(&s.name, &t.name),
        _ => false,
    }
}

/// The registers that may differ after two lines that set registers.
fn diff_after_both<S: FactSet>(
    alloc: Global,
    agreed: bool,
    s: &Name,
    t: &Name,
    sides: &mut Sides<S>,
) -> Result<(), AllocError>
    ensures { OnOk result (sides.new ≡ record sides.old { diff = with_both agreed s.now t.now sides.old.diff }) }
{
    if agreed {
        agree(alloc, s, sides)
    } else {
        differ(alloc, s, sides)?;
        differ(alloc, t, sides)
    }
}

/// The registers that may differ after an aligned line.
fn diff_after<S: FactSet>(
    alloc: Global,
    agreed: bool,
    s: Option<&Instr>,
    t: Option<&Instr>,
    sides: &mut Sides<S>,
) -> Result<(), AllocError>
    ensures { OnOk result
        (sides.new ≡ record sides.old { diff = diff_by agreed (option_copied s.entry) (option_copied t.entry) sides.old.diff }) }
{
    match (s, t) {
        (Some(Instr::Calm(s)), Some(Instr::Calm(t))) => {
            diff_after_both(alloc, agreed, &s.name, &t.name, sides)
        }
        (Some(Instr::Alloca(s)), Some(Instr::Alloca(t))) => {
            diff_after_both(alloc, agreed, &s.name, &t.name, sides)
        }
        (Some(Instr::Calm(l)), None) | (None, Some(Instr::Calm(l))) => differ(
            alloc, &l.name, sides,
        ),
        (Some(Instr::Alloca(l)), None) | (None, Some(Instr::Alloca(l))) => {
            differ(alloc, &l.name, sides)
        }
        _ => Ok(()),
    }
}

/// A line of the source and a line of the target, of which one may be absent.
#[derive(Drop, Clone, Copy)]
pub struct Line<'a> {
    pub source: Option<&'a Instr>,
    pub target: Option<&'a Instr>,
}

/// What is known after an aligned line that is allowed: first the source's facts come, then the target's.
#[tactic(auto, using(crate::proofs::LineFacts::all_done, crate::proofs::LineFacts::source_over, crate::proofs::LineFacts::target_over))]
fn past<S: FactSet>(
    alloc: Global,
    types: &NamedTypes,
    sides: &mut Sides<S>,
    source: Option<&Instr>,
    target: Option<&Instr>,
) -> Result<(), AddEnd>
    ensures { Follows result sides.new
        (over_allowed types.now (record { source = option_copied source.entry; target = option_copied target.entry }) sides.old) }
{
    let agreed = are_agreed(sides, source, target);
    side_after(alloc, types, Side::Src, source, target, sides)?;
    side_after(alloc, types, Side::Tgt, target, source, sides)?;
    diff_after(alloc, agreed, source, target, sides)?;
    Ok(())
}

/// What is known after a line of modules with these types, of what was known before it, where the line is allowed. After an error nothing is
/// said of the sides, which are to be given up.
#[tactic(auto, using(crate::proofs::LineFacts::known_after, crate::proofs::LineFacts::few_after, crate::proofs::LineFacts::too_many_after))]
pub fn after_line<S: FactSet>(
    alloc: Global,
    module: &Module,
    sides: &mut Sides<S>,
    line: &Line<'_>,
) -> Result<(), LineEnd>
    ensures after { OnOk result
        (sides.new
        ≡ after_line «module».now.types sides.old (record {
          source = option_copied line.now.source;
          target = option_copied line.now.target;
        })) }
    // The line is allowed.
    ensures allowed { OnOk result
        (line_fault_of «module».now.types sides.old (option_copied line.now.source) (option_copied line.now.target) ≡ None) }
    // Where each fact of the line is added, no more are known than the limit allows.
    ensures few { OnOk result
        (are_too_many
        (over_line «module».now.types (record { source = option_copied line.now.source; target = option_copied line.now.target }) sides.old).sizes
        ≡ false) }
    // The line isn't allowed, for the reason that is told.
    ensures refused { IfErr result
        (λ fault. (r : Reason) → fault ≡ line_end.Refused r
        → line_fault_of «module».now.types sides.old (option_copied line.now.source) (option_copied line.now.target) ≡ Some r) }
    // The line is allowed, and somewhere on it more facts would be known.
    ensures limit { IfErr result
        (λ fault. (l : Limit) → fault ≡ line_end.Limit l
        → (l ≡ Facts)
        × (are_too_many
        (over_line «module».now.types (record { source = option_copied line.now.source; target = option_copied line.now.target }) sides.old).sizes
        ≡ true)) }
{
    if let Some(reason) = line_fault(alloc, &module.types, sides, line.source, line.target)? {
        return Err(LineEnd::Refused(reason));
    }
    match past(alloc, &module.types, sides, line.source, line.target) {
        Ok(()) => Ok(()),
        Err(AddEnd::Limit(limit)) => Err(LineEnd::Limit(limit)),
        Err(AddEnd::Memory) => Err(LineEnd::Memory),
    }
}
