//! What a line of a block does.
ghost use Rattle.std.specs.Prelude.{◌≡◌, ◌<◌, ◌*◌, [], ◌∷◌, Some, IfOk, IfSome, OnErr};
ghost use Rattle.ir_machine.specs.declared.items.Item.TheVariants as item;
ghost use Rattle.ir_machine.specs.declared.machine.Progress.TheVariants as progress;
ghost use Rattle.ir_core.specs.Expressions.{type_of};
ghost use Rattle.ir_core.specs.Types.{kind_of};
ghost use Rattle.ir_types.specs.Named as lies;
ghost use Rattle.ir_machine.specs.Registers as registers;
ghost use Rattle.ir_machine.specs.Machine as machine;
ghost use Rattle.ir_machine.specs.State.{scope_of};
ghost use Rattle.ir_machine.specs.Places as places;
ghost use Rattle.ir_machine.specs.Places.{registers_in};
ghost use Rattle.ir_machine.specs.Stepping.{DoesLine, IsAsBefore, left_by, left_in, left_made, left_with};

use crate::jumping::number_at;
use crate::operands::{operand_value, outcome};
use crate::{Item, KeptFrame, KeptWorld, Place, Progress, Stepped};
use contents::Seq;
use ir_core::{Alloca, BitType, Calm, Kind, Module, Store, Ty, Value, kind_of};
use ir_types::{NamedTypes, SizeFault, align_of, fits_block, is_sized};
use ir_values::Outcome;
use std::alloc::{AllocError, Global};

pub(crate) fn one_item(alloc: Global, first: Item) -> Result<Seq<Item>, AllocError>
    ensures { IfOk result (λ items. items ≡ first ∷ []) }
{
    let mut items = Seq::new(alloc);
    items.push(first)?;
    Ok(items)
}

/// A step that is undefined behaviour.
pub(crate) fn go_wrong(alloc: Global) -> Result<Stepped, AllocError>
    ensures items { IfOk result (λ stepped. stepped.items ≡ item.Wrong ∷ []) }
    ensures progress { IfOk result (λ stepped. stepped.progress ≡ progress.IsWrong) }
{
    Ok(Stepped {
        items: one_item(alloc, Item::Wrong)?,
        progress: Progress::IsWrong,
    })
}

/// A step that shows nothing, and after which the run goes on.
fn quiet(alloc: Global) -> Stepped
    ensures items { result.items ≡ [] }
    ensures progress { result.progress ≡ progress.Goes }
{
    Stepped {
        items: Seq::new(alloc),
        progress: Progress::Goes,
    }
}

pub(crate) fn next_line(place: Place) -> Place
    requires { place.line < usize.MAX }
    ensures { result ≡ places.next_line place }
{
    Place {
        function: place.function,
        block: place.block,
        line: place.line + 1,
    }
}

/// The alignment of an access or of a block: its type's, where none is stated.
pub fn align_or(types: &NamedTypes, ty: &Ty, stated: Option<u32>) -> u64
    ensures { result ≡ registers.align_or types.now ty.now stated }
{
    match stated {
        Some(align) => u64::from(align),
        None => {
            if is_sized(types, ty) {
                align_of(types, ty)
            } else {
                1
            }
        }
    }
}

/// How many an alloca makes: one, where no count is stated.
pub fn count_made(line: &Alloca) -> u64
    ensures { result ≡ machine.count_made line.now.count }
{
    match &line.count {
        Some((ty, count)) => number_at(ty, count.get()),
        None => 1,
    }
}

/// How many bytes the line makes, where they aren't too many for one block.
fn size_made(types: &NamedTypes, line: &Alloca) -> Option<u64>
    ensures { IfSome result (λ size. size ≡ lies.size_of types.now line.now.of * machine.count_made line.now.count) }
{
    match fits_block(types, &line.of, count_made(line)) {
        Ok(size) => Some(size),
        Err(SizeFault::Unsized) => Some(0),
        Err(SizeFault::TooLarge) => None,
    }
}

/// A line that does nothing but set its register is done: the frame stands after it, or the line is wrong.
pub(crate) fn do_calm(
    alloc: Global,
    module: &Module,
    line: &Calm,
    frame: &mut KeptFrame,
    world: &KeptWorld,
) -> Result<Stepped, AllocError>
    requires room { frame.old.place.line < usize.MAX }
    ensures done { DoesLine frame.old.place
        (left_by (kind_of (type_of line.now.right)) line.now.name
        (registers.outcome (scope_of «module».now) (registers.read (registers_in frame.old.registers)) world.now.blocks line.now.right)
        (left_in frame.old world.now)) result frame.new world.now }
    ensures same { OnErr result (IsAsBefore frame.old frame.new) }
{
    let bit = BitType::new();
    match outcome(module, &frame.registers, world, &line.right) {
        Outcome::Gives(value) => {
            let kind = kind_of(line.right.ty(&bit));
            frame.registers.set(alloc, &line.name, kind, value)?;
            frame.place = next_line(frame.place);
            Ok(quiet(alloc))
        }
        Outcome::Trap => go_wrong(alloc),
    }
}

/// A line that makes a block is done. Where memory is refused, all is as before.
pub(crate) fn do_alloca(
    alloc: Global,
    module: &Module,
    line: &Alloca,
    frame: &mut KeptFrame,
    world: &mut KeptWorld,
) -> Result<Stepped, AllocError>
    requires room { frame.old.place.line < usize.MAX }
    ensures done { DoesLine frame.old.place (Some (left_made (scope_of «module».now) line.now (left_in frame.old world.old))) result frame.new world.new }
    ensures same { OnErr result (IsAsBefore frame.old frame.new) }
    ensures same_world { OnErr result (world.new ≡ world.old) }
{
    let Some(size) = size_made(&module.types, line) else {
        return Err(AllocError);
    };
    let align = align_or(&module.types, &line.of, line.align);
    let block = world.blocks.count();
    frame.own.push(block)?;
    let Ok(_) = world.blocks.new_block(size, align, &[]) else {
        frame.own.pop();
        return Err(AllocError);
    };
    let address = Value::Ptr(block, 0);
    let Ok(()) = frame
        .registers
        .set(alloc, &line.name, Some(Kind::Ptr), address)
    else {
        world.blocks.drop_last();
        frame.own.pop();
        return Err(AllocError);
    };
    frame.place = next_line(frame.place);
    Ok(quiet(alloc))
}

/// A line that stores a value is done; where it isn't allowed it is wrong, and memory stays.
pub(crate) fn do_store(
    alloc: Global,
    module: &Module,
    line: &Store,
    frame: &mut KeptFrame,
    world: &mut KeptWorld,
) -> Result<Stepped, AllocError>
    requires room { frame.old.place.line < usize.MAX }
    ensures done { DoesLine frame.old.place
        (left_with (machine.stored_by (scope_of «module».now) line.now (registers_in frame.old.registers) world.old.blocks)
        (left_in frame.old world.old)) result frame.new world.new }
    ensures same { OnErr result (IsAsBefore frame.old frame.new) }
    ensures same_world { OnErr result (world.new ≡ world.old) }
{
    let value = operand_value(module, &frame.registers, &line.value);
    let pointer = operand_value(module, &frame.registers, &line.pointer);
    let align = align_or(&module.types, &line.value.ty, line.align);
    match world.blocks.store(&line.value.ty, &value, &pointer, align) {
        Ok(()) => {
            frame.place = next_line(frame.place);
            Ok(quiet(alloc))
        }
        Err(_) => go_wrong(alloc),
    }
}
