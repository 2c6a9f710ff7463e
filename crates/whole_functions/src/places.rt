//! What stands where an index says that a name stands.
ghost use Rattle.std.specs.Prelude.{◌≡◌, IfSome, IsTrue, false, slice_index_or, take, true};
ghost use Rattle.std.specs.List.{Contains, flat_map};
ghost use Rattle.ir_core.specs.Functions.{registers_of, set_by};
ghost use Rattle.definedness.specs.Flow.{closed_for};
ghost use Rattle.definedness.specs.Settled.{IsNamed};
ghost use Rattle.definedness.specs.Undefined.{defined_before};

use ir_core::{Block, Name, Ty, same_name};
use whole_shapes::{Home, Sight, home_of, is_in_block, is_line, is_phi};

/// Whether the block at that place has the name.
fn is_named(blocks: &[Block], place: usize, name: &Name) -> bool
    ensures { IsTrue result → IsNamed blocks.now place name.now }
{
    match blocks.get(place) {
        Some(block) => same_name(name, &block.name),
        None => false,
    }
}

/// The place of the block of that name.
pub(crate) fn block_of(blocks: &[Block], sight: &Sight, name: &Name) -> Option<usize>
    ensures { IfSome result (λ to. IsNamed blocks.now to name.now) }
{
    match home_of(sight, name) {
        Some(Home::Block(place)) => {
            if is_named(blocks, place, name) {
                Some(place)
            } else {
                None
            }
        }
        _ => None,
    }
}

/// The same, where the block at a place may have it.
pub(crate) fn block_tried(
    blocks: &[Block],
    sight: &Sight,
    place: usize,
    name: &Name,
) -> Option<usize>
    ensures { IfSome result (λ to. IsNamed blocks.now to name.now) }
{
    if is_named(blocks, place, name) {
        Some(place)
    } else {
        block_of(blocks, sight, name)
    }
}

/// Whether one of the first so many lines of a block's body, the one at that place, sets the register of that name and type.
fn is_line_before(block: &Block, many: usize, place: usize, name: &Name, ty: &Ty) -> bool
    ensures { IsTrue result → Contains (set_by (take many block.now.body)) (name.now, ty.now) }
{
    let body = block.body.as_slice();
    many <= body.len() && is_line(&body[..many], place, name, ty)
}

/// Whether a phi or line of a block that stands before another one sets the register of that name and type.
pub(crate) fn is_set_before(block: &Block, home: usize, line: usize, name: &Name, ty: &Ty) -> bool
    ensures typed { IsTrue result → Contains (registers_of block.now) (name.now, ty.now) }
    ensures before { IsTrue result → Contains (defined_before block.now line) name.now }
{
    let phis = block.phis.len();
    match home.checked_sub(phis) {
        None => is_phi(block.phis.as_slice(), home, name, ty),
        Some(place) => is_line_before(block, line.saturating_sub(phis), place, name, ty),
    }
}

/// Whether that phi or line of the block at that place sets the register of that name and type.
pub(crate) fn is_set_in(blocks: &[Block], place: usize, line: usize, name: &Name, ty: &Ty) -> bool
    ensures typed { IsTrue result → Contains (flat_map registers_of blocks.now) (name.now, ty.now) }
    ensures closed { IsTrue result → slice_index_or (closed_for name.now blocks.now) place false ≡ true }
{
    match blocks.get(place) {
        Some(block) => is_in_block(block, line, name, ty),
        None => false,
    }
}
