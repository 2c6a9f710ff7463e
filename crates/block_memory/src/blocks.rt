ghost use Rattle.std.specs.Prelude.{◌≡◌, ◌≤◌, ◌<◌, ◌+◌, ◌-◌, ◌++◌, [], ◌∷◌, pos, true, false, Some, IfNone, IfSome, IfOk, OnOk, OnErr, length, take, drop, IsTrue, ◌↔◌};
ghost use Rattle.std.specs.Prelude.{slice_get};
ghost use Rattle.std.specs.Option.{option_and_then, option_map};
ghost use Rattle.ir_core.specs.Types.{kind_of as kind_meant};
ghost use Rattle.ir_core.specs.declared.values.Value.TheVariants as value;
ghost use Rattle.ir_values.specs.Values.{HasWidth, IsInKind};
ghost use Rattle.ir_values.specs.Operations.{GivesInKind};
ghost use Rattle.block_memory.specs.Bytes.{byte_count as byte_number, bytes_of, value_of as value_meant};
ghost use Rattle.block_memory.specs.Memory.{Cell, Memory, cell_at, fits_in, fits_maybe, can_access, loaded_of, put, with_bytes, updated, stored, stored_of, loaded, new_cell, filled, or_undef, ended};
ghost use Rattle.block_memory.specs.Blocks.{Stores};

use crate::bytes::{byte_at, byte_count, value_of};
use ir_core::{BlockId, Byte, Kind, Ty, Value, kind_of};
use ir_values::Outcome;
use std::alloc::{AllocError, Global};
use std::marker::Model;

/// An access that isn't allowed.
#[derive(Drop, Clone, Copy)]
pub struct Trap;

/// A block: its alignment, whether it has not ended, and its bytes.
#[derive(Drop)]
struct Block {
    align: u64,
    live: bool,
    bytes: Vec<Byte>,
}

impl Model for Block {
    ghost Value = { Cell };

    ghost view = { λ b. record { align = b.align; live = b.live; bytes = b.bytes.items } };
}

impl Block {
    fn fits(&self, count: usize, start: u64, align: u64) -> bool
        requires few { count ≤ 8 }
        ensures { result ≡ fits_in self.now count start align }
    {
        0 < align
            && self.live
            && self.align % align == 0
            && start % align == 0
            && self.bytes.len() >= count
            && start <= (self.bytes.len() - count) as u64
    }

    fn size(&self) -> u64
        ensures { result ≡ length self.now.bytes }
    {
        self.bytes.len() as u64
    }

    fn align(&self) -> u64
        ensures { result ≡ self.now.align }
    {
        self.align
    }

    fn is_live(&self) -> bool
        ensures { result ≡ self.now.live }
    {
        self.live
    }

    fn byte(&self, place: u64) -> Option<Byte>
        ensures { result ≡ slice_get self.now.bytes place }
    {
        self.bytes.get(place as usize).copied()
    }

    fn put(&mut self, place: u64, byte: Byte)
        ensures { self.new ≡ with_bytes place (byte ∷ []) self.old }
    {
        if (place as usize) < self.bytes.len() {
            self.bytes[place as usize] = byte;
        }
    }

    fn end(&mut self)
        ensures { self.new ≡ ended self.old }
    {
        self.live = false;
    }

    fn read(&self, kind: Kind, start: u64) -> Value
        requires kind { HasWidth kind }
        requires inside { start + byte_number kind ≤ length self.now.bytes }
        ensures value { result ≡ value_meant kind (take (byte_number kind) (drop start self.now.bytes)) }
        ensures in_kind { IsInKind kind result }
    {
        let from = start as usize;
        value_of(kind, &self.bytes[from..from + byte_count(kind)])
    }

    fn write(&mut self, value: Value, count: usize, start: u64)
        requires few { count ≤ 8 }
        requires inside { start + count ≤ length self.old.bytes }
        ensures { self.new ≡ with_bytes start (bytes_of count value) self.old }
    {
        put_at(&mut self.bytes, value, count, start as usize);
    }
}

fn byte_or_undef(bytes: &[Byte], place: usize) -> Byte
    ensures { result ≡ or_undef (slice_get bytes.now place) }
{
    match bytes.get(place) {
        Some(byte) => *byte,
        None => Byte::Undef,
    }
}

/// So many bytes: first these, and undef behind them.
#[tactic(auto, using(crate::proofs::Places::filled_more))]
fn filled_with(alloc: Global, size: usize, bytes: &[Byte]) -> Result<Vec<Byte>, AllocError>
    ensures { IfOk result (λ v. v.items ≡ filled size bytes.now) }
{
    let mut contents = Vec::new(alloc);
    for place in 0..size {
        contents.push(byte_or_undef(bytes, place))?;
    }
    Ok(contents)
}

fn put_at(bytes: &mut [Byte], value: Value, count: usize, start: usize)
    requires few { count ≤ 8 }
    requires inside { start + count ≤ length bytes.old }
    ensures { bytes.new ≡ put bytes.old start (bytes_of count value) }
{
    put_value(&mut bytes[start..start + count], value);
}

fn put_value(bytes: &mut [Byte], value: Value)
    requires { length bytes.old ≤ 8 }
    ensures { bytes.new ≡ bytes_of (length bytes.old) value }
{
    for place in 0..bytes.len() {
        bytes[place] = byte_at(value, place);
    }
}

/// Memory: blocks, each known by its number.
#[derive(Drop)]
pub struct Blocks {
    cells: Vec<Block>,
}

impl Model for Blocks {
    ghost Value = { Memory };

    ghost view = { λ s. s.cells.items };
}

impl Blocks {
    /// No blocks.
    pub fn new(alloc: Global) -> Blocks
        ensures { result ≡ [] }
    {
        Blocks {
            cells: Vec::new(alloc),
        }
    }

    /// A new block of that size, live, and its number: first these bytes, and undef behind them.
    pub fn new_block(
        &mut self,
        size: u64,
        align: u64,
        bytes: &[Byte],
    ) -> Result<BlockId, AllocError>
        ensures ok { OnOk result (self.new ≡ self.old ++ (new_cell size align bytes.now ∷ [])) }
        ensures number { IfOk result (λ b. b ≡ length self.old) }
        ensures err { OnErr result (self.new ≡ self.old) }
    {
        let number = self.cells.len() as u64;
        let bytes = filled_with(*self.cells.allocator(), size as usize, bytes)?;
        self.cells.push(Block {
            align,
            live: true,
            bytes,
        })?;
        Ok(number)
    }

    /// The last block is there no more.
    pub fn drop_last(&mut self)
        requires { 0 < length self.old }
        ensures { self.new ≡ take (length self.old - 1) self.old }
    {
        self.cells.pop();
    }

    /// How many blocks there are. Their numbers are below that.
    pub fn count(&self) -> u64
        ensures { result ≡ length self.now }
    {
        self.cells.len() as u64
    }

    /// How many bytes the block has. They stay when it ends.
    pub fn size(&self, block: BlockId) -> Option<u64>
        ensures { result ≡ option_map (λ (c : Cell). length c.bytes) (cell_at self.now block) }
    {
        match self.cells.get(block as usize) {
            Some(cell) => Some(cell.size()),
            None => None,
        }
    }

    /// The block's alignment.
    pub fn align(&self, block: BlockId) -> Option<u64>
        ensures { result ≡ option_map (λ (c : Cell). c.align) (cell_at self.now block) }
    {
        match self.cells.get(block as usize) {
            Some(cell) => Some(cell.align()),
            None => None,
        }
    }

    /// Whether the block has not ended.
    pub fn is_live(&self, block: BlockId) -> Option<bool>
        ensures { result ≡ option_map (λ (c : Cell). c.live) (cell_at self.now block) }
    {
        match self.cells.get(block as usize) {
            Some(cell) => Some(cell.is_live()),
            None => None,
        }
    }

    /// The block's byte at that place.
    pub fn byte(&self, block: BlockId, place: u64) -> Option<Byte>
        ensures { result ≡ option_and_then (λ (c : Cell). slice_get c.bytes place) (cell_at self.now block) }
    {
        match self.cells.get(block as usize) {
            Some(cell) => cell.byte(place),
            None => None,
        }
    }

    /// Writes a byte of the block, if it has that place.
    pub fn write_byte(&mut self, block: BlockId, place: u64, byte: Byte)
        ensures { self.new ≡ updated (with_bytes place (byte ∷ [])) self.old block }
    {
        if (block as usize) < self.cells.len() {
            self.cells[block as usize].put(place, byte);
        }
    }

    /// Ends a block.
    pub fn end_block(&mut self, block: BlockId)
        requires { block < length self.old }
        ensures { self.new ≡ updated ended self.old block }
    {
        self.cells[block as usize].end();
    }

    /// Loads a value of the type. At a type without values it is poison.
    #[tactic(auto, using(ir_values::proofs::KindLaws::kind_has_width))]
    pub fn load(&self, ty: &Ty, ptr: &Value, align: u64) -> Outcome
        ensures value { result ≡ loaded_of self.now (kind_meant ty.now) ptr.now align }
        ensures in_kind { GivesInKind (kind_meant ty.now) result }
    {
        match kind_of(ty) {
            Some(kind) => self.load_at(kind, ptr, align),
            None => Outcome::Gives(Value::Poison),
        }
    }

    /// Stores a value of the type, which at a type without values isn't allowed.
    #[tactic(auto, using(ir_values::proofs::KindLaws::kind_has_width))]
    pub fn store(&mut self, ty: &Ty, value: &Value, ptr: &Value, align: u64) -> Result<(), Trap>
        ensures { Stores self.old (stored_of self.old (kind_meant ty.now) value.now ptr.now align) result self.new }
    {
        match kind_of(ty) {
            Some(kind) => self.store_at(kind, value, ptr, align),
            None => Err(Trap),
        }
    }

    fn load_at(&self, kind: Kind, ptr: &Value, align: u64) -> Outcome
        requires kind { HasWidth kind }
        ensures value { result ≡ loaded self.now kind ptr.now align }
        ensures in_kind { GivesInKind (Some kind) result }
    {
        match self.place(kind, ptr, align) {
            Some((block, start)) => Outcome::Gives(self.cells[block].read(kind, start)),
            None => Outcome::Trap,
        }
    }

    fn store_at(&mut self, kind: Kind, value: &Value, ptr: &Value, align: u64) -> Result<(), Trap>
        requires kind { HasWidth kind }
        ensures { Stores self.old (stored self.old kind value.now ptr.now align) result self.new }
    {
        match self.place(kind, ptr, align) {
            Some((block, start)) => {
                self.cells[block].write(*value, byte_count(kind), start);
                Ok(())
            }
            None => Err(Trap),
        }
    }

    fn fits(&self, block: BlockId, count: usize, start: u64, align: u64) -> bool
        requires few { count ≤ 8 }
        ensures { result ≡ fits_maybe (cell_at self.now block) count start align }
    {
        match self.cells.get(block as usize) {
            Some(cell) => cell.fits(count, start, align),
            None => false,
        }
    }

    // The block and the offset of an access that doesn't trap.
    fn place(&self, kind: Kind, ptr: &Value, align: u64) -> Option<(usize, u64)>
        requires kind { HasWidth kind }
        ensures none { IfNone result (can_access self.now kind ptr.now align ≡ false) }
        ensures some { IfSome result (λ p. (ptr.now ≡ value.Ptr p.0 (pos p.1)) × (can_access self.now kind ptr.now align ≡ true)) }
    {
        let Value::Ptr(block, offset) = ptr else {
            return None;
        };
        if *offset < 0 {
            return None;
        }
        let start = offset.unsigned_abs();
        if self.fits(*block, byte_count(kind), start, align) {
            Some((*block as usize, start))
        } else {
            None
        }
    }
}
