//! Where the names of a function stand, which all differ.
ghost use Rattle.std.specs.Prelude.{◌≡◌, [], ◌∷◌, true, map, IfOk, IfSome, IsTrue, OnOk};
ghost use Rattle.std.specs.List.{Contains, flat_map};
ghost use Rattle.ir_core.specs.declared.functions.Block.{Block};
ghost use Rattle.ir_core.specs.Expressions.{type_of};
ghost use Rattle.ir_types.specs.Same.{same_ty};
ghost use Rattle.ir_core.specs.Functions.{block_names, names_in, names_of, phi_registers, registers_of, set_by, typed_of};
ghost use Rattle.ir_core.specs.NameIndexes.Among.{is_among, place_among};
ghost use Rattle.ir_shape.specs.ShapeTests.Kinds.{are_new, with_name, with_names};
ghost use Rattle.ir_shape.specs.ShapeTests.Typed.{param_names};
ghost use Rattle.whole_shapes.specs.Whole.{home_at, param_registers};

use ir_core::{
    BitType, Block, Calm, Expr, Function, Instr, Name, Param, Phi, Ty, same_name, same_ty,
};
use ir_shape::LentNames;
use std::alloc::{AllocError, Global};

/// Where a name stands: a parameter's, a block's, or that of the register that a line of a block sets, its phis and body counted
/// from 0.
#[derive(Drop, Clone, Copy)]
pub enum Home {
    Param(usize),
    Block(usize),
    Line { block: usize, line: usize },
}

/// The names of a function in their order, and where each stands. That it stands there is to be looked up.
pub struct Sight<'a> {
    pub(crate) names: LentNames<'a>,
    pub(crate) homes: Vec<Home>,
}

impl<'a> Drop for Sight<'a> {
    fn drop(self) {
        let Sight { names: _, homes: _ } = self;
    }
}

/// Puts a name behind the others, and says whether it is new.
fn put<'a>(sight: &mut Sight<'a>, name: &'a Name, home: Home) -> Result<bool, AllocError>
    ensures new { IfOk result (λ new. new ≡ are_new sight.old.names (name.now ∷ [])) }
    ensures names { OnOk result (sight.new.names ≡ with_name sight.old.names name.now) }
{
    sight.homes.push(home)?;
    let taken = sight.names.take(name)?;
    Ok(!taken)
}

fn put_params<'a>(sight: &mut Sight<'a>, params: &'a [Param]) -> Result<bool, AllocError>
    ensures new { IfOk result (λ new. new ≡ are_new sight.old.names (param_names params.now)) }
    ensures names { IfOk result (λ new. new ≡ true → sight.new.names ≡ with_names sight.old.names (param_names params.now)) }
{
    let mut place: usize = 0;
    for param in params {
        if !put(sight, &param.name, Home::Param(place))? {
            return Ok(false);
        }
        place = place.saturating_add(1);
    }
    Ok(true)
}

fn put_phis<'a>(sight: &mut Sight<'a>, block: usize, phis: &'a [Phi]) -> Result<bool, AllocError>
    ensures new { IfOk result (λ new. new ≡ are_new sight.old.names (names_in (phi_registers phis.now))) }
    ensures names { IfOk result (λ new. new ≡ true → sight.new.names ≡ with_names sight.old.names (names_in (phi_registers phis.now))) }
{
    let mut line: usize = 0;
    for phi in phis {
        if !put(sight, &phi.name, Home::Line { block, line })? {
            return Ok(false);
        }
        line = line.saturating_add(1);
    }
    Ok(true)
}

/// Puts the name of the register that a line sets, if it sets one, and says whether it is new.
#[tactic(auto, using(ir_core::proofs::Lines::names_one, ir_core::proofs::Lines::names_none))]
fn put_line<'a>(sight: &mut Sight<'a>, line: &'a Instr, home: Home) -> Result<bool, AllocError>
    ensures new { IfOk result (λ new. new ≡ are_new sight.old.names (names_in (set_by (line.now ∷ [])))) }
    ensures names { OnOk result (sight.new.names ≡ with_names sight.old.names (names_in (set_by (line.now ∷ [])))) }
{
    match line.name() {
        Some(name) => put(sight, name, home),
        None => Ok(true),
    }
}

fn put_lines<'a>(
    sight: &mut Sight<'a>,
    block: usize,
    first: usize,
    lines: &'a [Instr],
) -> Result<bool, AllocError>
    ensures new { IfOk result (λ new. new ≡ are_new sight.old.names (names_in (set_by lines.now))) }
    ensures names { IfOk result (λ new. new ≡ true → sight.new.names ≡ with_names sight.old.names (names_in (set_by lines.now))) }
{
    let mut line = first;
    for instr in lines {
        if !put_line(sight, instr, Home::Line { block, line })? {
            return Ok(false);
        }
        line = line.saturating_add(1);
    }
    Ok(true)
}

/// Puts the names of a block's registers.
#[tactic(auto, using(ir_shape::proofs::ShapeTests::Taken::new_joined, ir_shape::proofs::ShapeTests::Taken::names_joined, ir_shape::proofs::ShapeTests::Taken::registers_joined))]
fn put_registers<'a>(
    sight: &mut Sight<'a>,
    place: usize,
    block: &'a Block,
) -> Result<bool, AllocError>
    ensures new { IfOk result (λ new. new ≡ are_new sight.old.names (names_in (registers_of block.now))) }
    ensures names { IfOk result (λ new. new ≡ true → sight.new.names ≡ with_names sight.old.names (names_in (registers_of block.now))) }
{
    if !put_phis(sight, place, block.phis.as_slice())? {
        return Ok(false);
    }
    put_lines(sight, place, block.phis.len(), block.body.as_slice())
}

fn put_block<'a>(sight: &mut Sight<'a>, place: usize, block: &'a Block) -> Result<bool, AllocError>
    ensures new { IfOk result (λ new. new ≡ are_new sight.old.names (block_names block.now)) }
    ensures names { IfOk result (λ new. new ≡ true → sight.new.names ≡ with_names sight.old.names (block_names block.now)) }
{
    if !put(sight, &block.name, Home::Block(place))? {
        return Ok(false);
    }
    put_registers(sight, place, block)
}

#[tactic(auto, using(ir_shape::proofs::ShapeTests::Taken::new_joined, ir_shape::proofs::ShapeTests::Taken::names_joined))]
fn put_blocks<'a>(sight: &mut Sight<'a>, blocks: &'a [Block]) -> Result<bool, AllocError>
    ensures new { IfOk result (λ new. new ≡ are_new sight.old.names (flat_map block_names blocks.now)) }
    ensures names { IfOk result (λ new. new ≡ true → sight.new.names ≡ with_names sight.old.names (flat_map block_names blocks.now)) }
{
    let mut place: usize = 0;
    for block in blocks {
        if !put_block(sight, place, block)? {
            return Ok(false);
        }
        place = place.saturating_add(1);
    }
    Ok(true)
}

/// How many names a function has.
fn count_of(function: &Function) -> usize {
    let mut count = function.params.len();
    for block in function.blocks.as_slice() {
        count = count
            .saturating_add(block.phis.len())
            .saturating_add(block.body.len())
            .saturating_add(1);
    }
    count
}

/// Where a function's names stand; none, where one stands twice.
#[tactic(auto, using(ir_shape::proofs::ShapeTests::Taken::new_joined, ir_shape::proofs::ShapeTests::Taken::names_joined))]
pub fn sight_of<'a>(alloc: Global, function: &'a Function) -> Result<Option<Sight<'a>>, AllocError>
    ensures new { IfOk result (λ found. IfSome found (λ _. are_new [] (names_of «function».now) ≡ true)) }
    ensures names { IfOk result (λ found. IfSome found (λ sight. sight.names ≡ with_names [] (names_of «function».now))) }
{
    let many = count_of(function);
    let mut sight = Sight {
        names: LentNames::with_room(alloc, many)?,
        homes: Vec::with_capacity(alloc, many)?,
    };
    if !put_params(&mut sight, function.params.as_slice())? {
        return Ok(None);
    }
    if !put_blocks(&mut sight, function.blocks.as_slice())? {
        return Ok(None);
    }
    Ok(Some(sight))
}

/// The place of a name among all.
fn place_of(sight: &Sight, name: &Name) -> Option<usize>
    ensures { result ≡ place_among name.now sight.now.names }
{
    sight.names.position(name)
}

/// Where a name may stand. That it stands there is to be looked up.
pub fn home_of(sight: &Sight, name: &Name) -> Option<Home>
    ensures { result ≡ home_at (place_among name.now sight.now.names) sight.now.homes.items }
{
    match place_of(sight, name) {
        Some(place) => sight.homes.get(place).copied(),
        None => None,
    }
}

/// Whether this parameter is the register of that name and type.
pub fn is_param(params: &[Param], place: usize, name: &Name, ty: &Ty) -> bool
    ensures { IsTrue result → Contains (param_registers params.now) (name.now, ty.now) }
{
    match params.get(place) {
        Some(param) => same_name(name, &param.name) && same_ty(ty, &param.ty),
        None => false,
    }
}

/// Whether this phi sets the register of that name and type.
pub fn is_phi(phis: &[Phi], place: usize, name: &Name, ty: &Ty) -> bool
    ensures { IsTrue result → Contains (phi_registers phis.now) (name.now, ty.now) }
{
    match phis.get(place) {
        Some(phi) => same_name(name, &phi.name) && same_ty(ty, &phi.ty),
        None => false,
    }
}

/// Whether the type is that of what the right side gives.
fn is_given(ty: &Ty, right: &Expr<Name>) -> bool
    ensures { result ≡ same_ty ty.now (type_of right.now) }
{
    let bit = BitType::new();
    same_ty(ty, right.ty(&bit))
}

fn calm_sets(calm: &Calm, name: &Name, ty: &Ty) -> bool
    ensures { IsTrue result → Contains (set_by (Instr.Calm calm.now ∷ [])) (name.now, ty.now) }
{
    same_name(name, &calm.name) && is_given(ty, &calm.right)
}

fn sets(line: &Instr, name: &Name, ty: &Ty) -> bool
    ensures { IsTrue result → Contains (set_by (line.now ∷ [])) (name.now, ty.now) }
{
    match line {
        Instr::Calm(calm) => calm_sets(calm, name, ty),
        Instr::Alloca(_) | Instr::Store(_) | Instr::Call(_) => false,
    }
}

/// Whether this line sets the register of that name and type.
pub fn is_line(body: &[Instr], place: usize, name: &Name, ty: &Ty) -> bool
    ensures { IsTrue result → Contains (set_by body.now) (name.now, ty.now) }
{
    match body.get(place) {
        Some(line) => sets(line, name, ty),
        None => false,
    }
}

/// Whether this phi or line of a block, counted together from 0, sets the register of that name and type.
pub fn is_in_block(block: &Block, line: usize, name: &Name, ty: &Ty) -> bool
    ensures { IsTrue result → Contains (registers_of block.now) (name.now, ty.now) }
{
    match line.checked_sub(block.phis.len()) {
        Some(place) => is_line(block.body.as_slice(), place, name, ty),
        None => is_phi(block.phis.as_slice(), line, name, ty),
    }
}
