//! What the outside does while a call waits.
ghost use Rattle.std.specs.Prelude.{◌≡◌, ◌≢◌, List, Option, Ok, IfOk, OnErr, slice_get};
ghost use Rattle.ir_core.specs.declared.values.Kind.{Kind};
ghost use Rattle.ir_core.specs.declared.values.Value.{Value};
ghost use Rattle.ir_machine.specs.declared.acting.Acted.TheVariants.{Replied};
ghost use Rattle.ir_machine.specs.declared.items.Item.{Item};
ghost use Rattle.ir_core.specs.declared.values.Byte.TheVariants as byte;
ghost use Rattle.std.specs.List.{list_all};
ghost use Rattle.block_memory.specs.declared.items.Choice.{Choice};
ghost use Rattle.block_memory.specs.declared.items.Choice.TheVariants as choice;
ghost use Rattle.block_memory.specs.declared.items.ShownByte.{ShownByte};
ghost use Rattle.ir_machine.specs.Acting.{Answered, ByteAnswers, IsActedInKind, answer_to};
ghost use Rattle.ir_machine.specs.Choices.{answer, TakesAsked};
ghost use Rattle.ir_machine.specs.Machine as machine;
ghost use Rattle.ir_machine.specs.Places.{world_in};
ghost use Rattle.ir_machine.specs.State.{Pending, World};

use crate::given::{byte_given, bytes_given, resolve};
use crate::{Chooser, Item, KeptWorld, StepEnd};
use block_memory::{Choice, ShowEnd, Shown, ShownByte};
use contents::Seq;
use ir_core::{BlockId, Byte, Kind, Value};
use std::alloc::Global;

/// What an act leads to.
#[derive(Drop)]
pub(crate) enum Acted {
    /// The call still waits.
    Stays(Item),
    /// The call is answered by a value of that kind.
    Replied(Item, Option<Kind>, Value),
    Wrong,
}

// ---- bytes

/// The block of that name.
fn block_named(world: &KeptWorld, name: u64) -> Option<BlockId>
    ensures { result ≡ machine.block_of (slice_get world.now.names name) }
{
    match world.names.resolve(name, 0) {
        Value::Ptr(block, _) => Some(block),
        _ => None,
    }
}

/// The byte that the outside reaches by a name and an offset.
fn byte_reached(world: &KeptWorld, name: u64, offset: i64) -> Option<Byte>
    ensures { result ≡ machine.byte_reached (world_in world.now) name offset }
{
    let block = block_named(world, name)?;
    if offset < 0 {
        return None;
    }
    match world.blocks.is_live(block) {
        Some(true) => world.blocks.byte(block, offset.unsigned_abs()),
        _ => None,
    }
}

/// Whether there is the name that the byte gives.
fn is_byte_of(world: &KeptWorld, byte: ShownByte) -> bool
    ensures { result ≡ machine.is_byte_of (world_in world.now) byte }
{
    match byte {
        ShownByte::Num(_) => true,
        ShownByte::Frag(name, _, _) => name < world.names.count(),
    }
}

fn are_bytes_of(world: &KeptWorld, bytes: &[ShownByte]) -> bool
    ensures { result ≡ list_all (machine.is_byte_of (world_in world.now)) bytes.now }
{
    bytes.iter().all(|byte| is_byte_of(world, *byte))
}

/// Shows a part of a pointer, by its block's name, or by the next.
fn show_part<C: Chooser>(
    block: BlockId,
    offset: i64,
    place: u8,
    world: &mut KeptWorld,
    chooser: &mut C,
) -> Result<ShownByte, ShowEnd>
    ensures answers { (next : ShownByte → World → machine.Asks)
        → ByteAnswers result (machine.show_byte (byte.Frag block offset place) (world_in world.old) next) (C.script chooser.old) next (world_in world.new) (C.script chooser.new) }
    ensures same { OnErr result (world.new ≡ world.old) }
{
    match world.names.name_of(block) {
        Some(name) => Ok(ShownByte::Frag(name, offset, place)),
        None => match world.names.bind(Some(block)) {
            Ok(name) => Ok(ShownByte::Frag(name, offset, place)),
            Err(_) => Err(ShowEnd::Memory),
        },
    }
}

/// Shows an undef byte as the next choice takes it.
fn pick_byte<C: Chooser>(world: &KeptWorld, chooser: &mut C) -> Result<ShownByte, ShowEnd>
    ensures { (next : ShownByte → World → machine.Asks)
        → ByteAnswers result (machine.show_byte byte.Undef (world_in world.now) next) (C.script chooser.old) next (world_in world.now) (C.script chooser.new) }
{
    match chooser.take() {
        Some(Choice::PickByte(byte)) => {
            if is_byte_of(world, byte) {
                Ok(byte)
            } else {
                Err(ShowEnd::NoChoice)
            }
        }
        _ => Err(ShowEnd::NoChoice),
    }
}

/// Shows a byte that the outside reads.
fn show_byte<C: Chooser>(
    byte: Byte,
    world: &mut KeptWorld,
    chooser: &mut C,
) -> Result<ShownByte, ShowEnd>
    ensures answers { (next : ShownByte → World → machine.Asks)
        → ByteAnswers result (machine.show_byte byte (world_in world.old) next) (C.script chooser.old) next (world_in world.new) (C.script chooser.new) }
    ensures same { OnErr result (world.new ≡ world.old) }
{
    match byte {
        Byte::Poison => Err(ShowEnd::Wrong),
        Byte::Num(number) => Ok(ShownByte::Num(number)),
        Byte::Frag(block, offset, place) => show_part(block, offset, place, world, chooser),
        Byte::Undef => pick_byte(world, chooser),
    }
}

// ---- acts

fn reply(kind: Option<Kind>, shown: Option<Shown>, world: &KeptWorld) -> Result<Acted, StepEnd>
    ensures answers { (p : Pending) (ps : List Pending) (left : List Choice) → p.kind ≡ kind
        → Answered result (answer_to (choice.Reply shown) p ps (world_in world.now) left) p ps (world_in world.now) left }
    ensures in_kind { IfOk result IsActedInKind }
{
    match (kind, shown) {
        (None, None) => Ok(Acted::Replied(Item::Replied(None), None, Value::Poison)),
        (Some(own), Some(given)) => {
            if world.names.may_pick(own, given) {
                let value = resolve(&world.names, given);
                Ok(Acted::Replied(Item::Replied(shown), kind, value))
            } else {
                Err(StepEnd::NoChoice)
            }
        }
        _ => Err(StepEnd::NoChoice),
    }
}

fn do_wrong(world: &KeptWorld) -> Result<Acted, StepEnd>
    ensures answers { (p : Pending) (ps : List Pending) (left : List Choice)
        → Answered result (answer_to choice.Wrong p ps (world_in world.now) left) p ps (world_in world.now) left }
    ensures stays { (item : Item) (k : Option Kind) (v : Value) → result ≢ Ok (Replied item k v) }
    ensures in_kind { IfOk result IsActedInKind }
{
    if world.names.has_loose() {
        Ok(Acted::Wrong)
    } else {
        Err(StepEnd::NoChoice)
    }
}

fn read<C: Chooser>(
    name: u64,
    offset: i64,
    world: &mut KeptWorld,
    chooser: &mut C,
) -> Result<Acted, StepEnd>
    ensures answers { (p : Pending) (ps : List Pending)
        → Answered result (answer_to (choice.Read name offset) p ps (world_in world.old) (C.script chooser.old)) p ps (world_in world.new) (C.script chooser.new) }
    ensures stays { (item : Item) (k : Option Kind) (v : Value) → result ≢ Ok (Replied item k v) }
    ensures in_kind { IfOk result IsActedInKind }
    ensures same { OnErr result (world.new ≡ world.old) }
{
    let Some(byte) = byte_reached(world, name, offset) else {
        return Err(StepEnd::NoChoice);
    };
    match show_byte(byte, world, chooser) {
        Ok(shown) => Ok(Acted::Stays(Item::EnvRead(name, offset, shown))),
        Err(ShowEnd::Wrong) => Ok(Acted::Wrong),
        Err(ShowEnd::NoChoice) => Err(StepEnd::NoChoice),
        Err(ShowEnd::Memory) => Err(StepEnd::Memory),
    }
}

fn write(name: u64, offset: i64, byte: ShownByte, world: &mut KeptWorld) -> Result<Acted, StepEnd>
    ensures answers { (p : Pending) (ps : List Pending) (left : List Choice)
        → Answered result (answer_to (choice.Write name offset byte) p ps (world_in world.old) left) p ps (world_in world.new) left }
    ensures stays { (item : Item) (k : Option Kind) (v : Value) → result ≢ Ok (Replied item k v) }
    ensures in_kind { IfOk result IsActedInKind }
    ensures same { OnErr result (world.new ≡ world.old) }
{
    if byte_reached(world, name, offset).is_none() || !is_byte_of(world, byte) {
        return Err(StepEnd::NoChoice);
    }
    if let Some(block) = block_named(world, name) {
        let given = byte_given(&world.names, byte);
        world.blocks.write_byte(block, offset.unsigned_abs(), given);
    }
    Ok(Acted::Stays(Item::EnvWrite(name, offset, byte)))
}

/// A block of these bytes is made, under the next name.
fn make_block(
    alloc: Global,
    align: u64,
    bytes: Seq<ShownByte>,
    world: &mut KeptWorld,
) -> Result<Acted, StepEnd>
    ensures answers { (p : Pending) (ps : List Pending) (left : List Choice)
        → Answered result (answer_to (choice.New align bytes) p ps (world_in world.old) left) p ps (world_in world.new) left }
    ensures stays { (item : Item) (k : Option Kind) (v : Value) → result ≢ Ok (Replied item k v) }
    ensures in_kind { IfOk result IsActedInKind }
    ensures same { OnErr result (world.new ≡ world.old) }
{
    if !are_bytes_of(world, bytes.as_slice()) {
        return Err(StepEnd::NoChoice);
    }
    let given = bytes_given(alloc, &world.names, bytes.as_slice())?;
    let known = world.names.count();
    let block = world.blocks.count();
    world.names.bind(Some(block))?;
    let Ok(_) = world.blocks.new_block(given.len() as u64, align, &given) else {
        world.names.cut_to(known);
        return Err(StepEnd::Memory);
    };
    Ok(Acted::Stays(Item::EnvNew(align, bytes)))
}

/// The outside does what is chosen next.
fn choose_act<C: Chooser>(
    alloc: Global,
    kind: Option<Kind>,
    world: &mut KeptWorld,
    chooser: &mut C,
) -> Result<Acted, StepEnd>
    ensures answers { (p : Pending) (ps : List Pending) → p.kind ≡ kind
        → Answered result (answer (machine.Ask (machine.is_act p (world_in world.old)) (λ c. machine.act c p ps (world_in world.old))) (C.script chooser.old))
        p ps (world_in world.new) (C.script chooser.new) }
    ensures replied { (item : Item) (k : Option Kind) (v : Value) → result ≡ Ok (Replied item k v) → world.new ≡ world.old }
    ensures in_kind { IfOk result IsActedInKind }
    ensures same { OnErr result (world.new ≡ world.old) }
{
    match chooser.take() {
        Some(Choice::Reply(shown)) => reply(kind, shown, world),
        Some(Choice::Read(name, offset)) => read(name, offset, world, chooser),
        Some(Choice::Write(name, offset, byte)) => write(name, offset, byte, world),
        Some(Choice::New(align, bytes)) => make_block(alloc, align, bytes, world),
        Some(Choice::Wrong) => do_wrong(world),
        _ => Err(StepEnd::NoChoice),
    }
}

/// The outside does what is chosen next, while a call of that kind waits. After an error all is as before.
pub(crate) fn take_act<C: Chooser>(
    alloc: Global,
    kind: Option<Kind>,
    world: &mut KeptWorld,
    chooser: &mut C,
) -> Result<Acted, StepEnd>
    ensures answers { (p : Pending) (ps : List Pending) → p.kind ≡ kind
        → Answered result (answer (machine.Ask (machine.is_act p (world_in world.old)) (λ c. machine.act c p ps (world_in world.old))) (C.script chooser.old))
        p ps (world_in world.new) (C.script chooser.new) }
    ensures told { (p : Pending) (ps : List Pending) → p.kind ≡ kind
        → TakesAsked (machine.Ask (machine.is_act p (world_in world.old)) (λ c. machine.act c p ps (world_in world.old))) (C.script chooser.old) (C.script chooser.new) }
    ensures replied { (item : Item) (k : Option Kind) (v : Value) → result ≡ Ok (Replied item k v) → world.new ≡ world.old }
    ensures in_kind { IfOk result IsActedInKind }
    ensures same { OnErr result (world.new ≡ world.old) }
{
    choose_act(alloc, kind, world, chooser)
}
