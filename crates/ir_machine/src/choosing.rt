ghost use Rattle.std.specs.Prelude.{◌≡◌, List, OnErr, length, take};
ghost use Rattle.block_memory.specs.declared.items.Choice.{Choice};
ghost use Rattle.block_memory.specs.declared.items.Shown.{Shown};
ghost use Rattle.ir_machine.specs.State.{World};
ghost use Rattle.ir_machine.specs.Machine as machine;
ghost use Rattle.ir_machine.specs.Choices.{TakesNext};
ghost use Rattle.ir_machine.specs.Places.{world_in};
ghost use Rattle.ir_machine.specs.Showing.{ShowingAnswers, ShowingLeads};

use crate::KeptWorld;
use block_memory::{Choice, ShowEnd, Shown};
use ir_core::{Kind, Value};

/// Who chooses where a step leaves a choice. Its script is a finite list, whose end is what makes `NoChoice`
/// exact.
pub trait Chooser {
    /// The choices that are still to be told, the next first.
    ghost script: { Self → List Choice };

    /// The next choice, or none.
    fn take(&mut self) -> Option<Choice>
        ensures { TakesNext result (script self.old) (script self.new) };
}

/// Shows undef of a kind as the next choice takes it.
fn show_undef<C: Chooser>(
    kind: Option<Kind>,
    world: &mut KeptWorld,
    chooser: &mut C,
) -> Result<Shown, ShowEnd>
    ensures answers { (poison : machine.Asks) (next : Shown → World → machine.Asks)
        → ShowingAnswers result (machine.show_undef kind (world_in world.old) poison next)
        (C.script chooser.old) poison next (world_in world.new) (C.script chooser.new) }
    ensures leads { (poison : machine.Asks) (next : Shown → World → machine.Asks)
        → ShowingLeads result (machine.show_undef kind (world_in world.old) poison next)
        (C.script chooser.old) poison next (world_in world.new) (C.script chooser.new) }
    ensures kept { take (length world.old.names) world.new.names ≡ world.old.names }
    ensures memory { world.new.blocks ≡ world.old.blocks }
    ensures same { OnErr result (world.new ≡ world.old) }
{
    let Some(own) = kind else {
        return Err(ShowEnd::Wrong);
    };
    let choice = chooser.take();
    world
        .names
        .show(&Value::Undef, own, &world.blocks, choice.as_ref())
}

/// Shows a value to the outside, at a kind.
pub(crate) fn show<C: Chooser>(
    kind: Option<Kind>,
    value: Value,
    world: &mut KeptWorld,
    chooser: &mut C,
) -> Result<Shown, ShowEnd>
    ensures answers { (poison : machine.Asks) (next : Shown → World → machine.Asks)
        → ShowingAnswers result (machine.show kind value (world_in world.old) poison next)
        (C.script chooser.old) poison next (world_in world.new) (C.script chooser.new) }
    ensures leads { (poison : machine.Asks) (next : Shown → World → machine.Asks)
        → ShowingLeads result (machine.show kind value (world_in world.old) poison next)
        (C.script chooser.old) poison next (world_in world.new) (C.script chooser.new) }
    ensures kept { take (length world.old.names) world.new.names ≡ world.old.names }
    ensures memory { world.new.blocks ≡ world.old.blocks }
    ensures same { OnErr result (world.new ≡ world.old) }
{
    match value {
        Value::Undef => show_undef(kind, world, chooser),
        _ => world.names.show(&value, Kind::Ptr, &world.blocks, None),
    }
}
