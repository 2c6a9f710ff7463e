//! The arguments of a call, shown to the outside.
ghost use Rattle.std.specs.Prelude.{◌≡◌, [], List, OnErr};
ghost use Rattle.block_memory.specs.declared.items.Shown.{Shown};
ghost use Rattle.ir_machine.specs.Choices.{answer, Leaves, TakesAsked};
ghost use Rattle.ir_machine.specs.Machine as machine;
ghost use Rattle.ir_machine.specs.Places.{registers_in, world_in};
ghost use Rattle.ir_machine.specs.Showing.{ShowsAll};
ghost use Rattle.ir_machine.specs.State.{World, scope_of};

use crate::choosing::show;
use crate::operands::operand_value;
use crate::registers::RegisterFile;
use crate::{Chooser, KeptWorld};
use block_memory::{ShowEnd, Shown};
use contents::Seq;
use ir_core::{Argument, Module, kind_of};
use std::alloc::Global;

/// Shows the arguments from the left, in a world in which more names may come. After an error all is as before.
pub(crate) fn show_all<C: Chooser>(
    alloc: Global,
    module: &Module,
    registers: &RegisterFile,
    arguments: &[Argument],
    world: &mut KeptWorld,
    chooser: &mut C,
) -> Result<Seq<Shown>, ShowEnd>
    ensures answers { (next : List Shown → World → machine.Asks)
        → ShowsAll result (machine.show_all (machine.arguments_of (scope_of «module».now) (registers_in registers.now) arguments.now) (world_in world.old) next)
        (C.script chooser.old) next (world_in world.new) (C.script chooser.new) }
    ensures told { (next : List Shown → World → machine.Asks) → ((ss : List Shown) (w : World) → Leaves (answer (next ss w) []) [])
        → TakesAsked (machine.show_all (machine.arguments_of (scope_of «module».now) (registers_in registers.now) arguments.now) (world_in world.old) next)
        (C.script chooser.old) (C.script chooser.new) }
    ensures memory { world.new.blocks ≡ world.old.blocks }
    ensures same { OnErr result (world.new ≡ world.old) }
{
    let known = world.names.count();
    let mut shown = Seq::new(alloc);
    for argument in arguments {
        let value = operand_value(module, registers, &argument.operand);
        match show(kind_of(&argument.operand.ty), value, world, chooser) {
            Ok(next) => {
                let Ok(()) = shown.push(next) else {
                    world.names.cut_to(known);
                    return Err(ShowEnd::Memory);
                };
            }
            Err(end) => {
                world.names.cut_to(known);
                return Err(end);
            }
        }
    }
    Ok(shown)
}
