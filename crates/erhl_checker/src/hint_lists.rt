//! The registers that a hint says may differ: each distinct list of them made findable once, and lent to its blocks.
ghost use Rattle.std.specs.Prelude.{◌≡◌, true, map, Some, IfOk, IfSome, IfNone, OnOk};
ghost use Rattle.erhl_assert.specs.Held.{bare};
ghost use Rattle.erhl_checker.specs.HintLists.{diff_of, listed_at, AreNumbered, IsNumbered, Keeps};

use contents::{Exact, Seq};
use erhl_assert::{HeldBlock, HintBlock};
use fact_sets::{LentRegisters, ListedRegisters};
use indexmap::IndexMap;
use ir_core::{Name, Reg};
use line_align::Named;
use std::alloc::{AllocError, Global};
use std::marker::Model;

/// One part more in a hash.
fn mixed(hash: u64, part: u64) -> u64 {
    (hash ^ part).wrapping_mul(0x0000_0100_0000_01b3)
}

fn mixed_bytes(hash: u64, bytes: &[u8]) -> u64 {
    let mut mix = hash;
    for byte in bytes {
        mix = mixed(mix, *byte as u64);
    }
    mix
}

fn mixed_register(hash: u64, register: &Reg) -> u64 {
    match register {
        Reg::Now(name) => mixed_name(mixed(hash, 256), name),
        Reg::Old(name) => mixed_name(mixed(hash, 257), name),
        Reg::Ghost(name) => mixed_name(mixed(hash, 258), name),
    }
}

fn mixed_name(hash: u64, name: &Name) -> u64 {
    match name {
        Name::Text(text) => mixed_bytes(hash, text.as_slice()),
        Name::Number(number) => mixed(hash, *number as u64 + 259),
    }
}

/// A number by which lists are told apart mostly: those that have one number are compared.
fn hash_of(registers: &[Reg]) -> u64 {
    let mut hash = 0xcbf2_9ce4_8422_2325;
    for register in registers {
        hash = mixed_register(hash, register);
    }
    hash
}

/// The number of a list among those that were seen, by its hash.
struct Seen {
    numbers: IndexMap<u64, usize>,
}

impl Drop for Seen {
    fn drop(self) {
        let Seen { numbers: _ } = self;
    }
}

impl Seen {
    fn get(&self, hash: u64) -> Option<usize> {
        self.numbers.get(&hash).copied()
    }

    fn put(&mut self, hash: u64, number: usize) -> Result<(), AllocError> {
        self.numbers.insert(hash, number)?;
        Ok(())
    }
}

/// Whether the list of that number has these registers.
#[tactic(auto, using(crate::proofs::Numbering::numbered_here))]
fn is_list(lists: &[ListedRegisters<'_>], number: usize, registers: &Seq<Reg>) -> bool
    ensures { result ≡ true → IsNumbered lists.now (Some number) registers.now }
{
    match lists.get(number) {
        Some(list) => list.registers().is(registers),
        None => false,
    }
}

/// The number, if it is that of a list with these registers.
fn if_list(
    lists: &[ListedRegisters<'_>],
    number: Option<usize>,
    registers: &Seq<Reg>,
) -> Option<usize>
    ensures { IfSome result (λ n. IsNumbered lists.now (Some n) registers.now) }
{
    match number {
        Some(number) => {
            if is_list(lists, number, registers) {
                Some(number)
            } else {
                None
            }
        }
        None => None,
    }
}

/// Makes one list more findable. Its number.
#[tactic(auto, using(crate::proofs::Numbering::last_numbered, crate::proofs::Numbering::one_more_keeps))]
fn list_more<'a>(
    alloc: Global,
    registers: &'a Seq<Reg>,
    lists: &mut Vec<ListedRegisters<'a>>,
) -> Result<usize, AllocError>
    ensures numbered { IfOk result (λ n. IsNumbered lists.new.items (Some n) registers.now) }
    ensures keeps { OnOk result (Keeps lists.old.items lists.new.items) }
{
    let number = lists.len();
    lists.push(ListedRegisters::of(alloc, registers)?)?;
    Ok(number)
}

/// The number of the list with these registers, which is made findable where it wasn't seen yet.
#[tactic(auto, using(crate::proofs::Numbering::same_keeps))]
fn number_of<'a>(
    alloc: Global,
    registers: &'a Seq<Reg>,
    seen_ones: &mut Seen,
    lists: &mut Vec<ListedRegisters<'a>>,
) -> Result<usize, AllocError>
    ensures numbered { IfOk result (λ n. IsNumbered lists.new.items (Some n) registers.now) }
    ensures keeps { OnOk result (Keeps lists.old.items lists.new.items) }
{
    let hash = hash_of(registers.as_slice());
    match if_list(lists.as_slice(), seen_ones.get(hash), registers) {
        Some(number) => Ok(number),
        None => {
            let number = list_more(alloc, registers, lists)?;
            seen_ones.put(hash, number)?;
            Ok(number)
        }
    }
}

/// The number of a block's list, where it has registers.
#[tactic(auto, using(crate::proofs::Numbering::same_keeps, crate::proofs::Numbering::none_numbered, crate::proofs::Numbering::empty_numbered))]
fn number_for<'a>(
    alloc: Global,
    block: &'a HeldBlock,
    seen_ones: &mut Seen,
    lists: &mut Vec<ListedRegisters<'a>>,
) -> Result<Option<usize>, AllocError>
    ensures numbered { IfOk result (λ n. IsNumbered lists.new.items n (diff_of block.now)) }
    ensures keeps { OnOk result (Keeps lists.old.items lists.new.items) }
{
    match block.whole() {
        None => Ok(None),
        Some(hint) => {
            if hint.entry.diff.is_empty() {
                return Ok(None);
            }
            let number = number_of(alloc, &hint.entry.diff, seen_ones, lists)?;
            Ok(Some(number))
        }
    }
}

/// The blocks of a hint, each with the number of its list.
pub(crate) struct HintLists<'a> {
    blocks: &'a [HeldBlock],
    lists: Vec<ListedRegisters<'a>>,
    numbers: Vec<Option<usize>>,
}

impl<'a> Model for HintLists<'a> {
    ghost use Rattle.std.specs.Prelude.{List, map};
    ghost use Rattle.erhl_assert.specs.declared.hints.HintBlock.{HintBlock};
    ghost use Rattle.erhl_checker.specs.HintLists.{diff_of, AreNumbered};
    ghost use Rattle.std.specs.Coded.{codes};
    ghost use Rattle.ir_types.specs.contracts.ty.Ty as ty;
    ghost use Rattle.ir_core.specs.contracts.operands.Const as constant;

    ghost Value = { List HintBlock };

    ghost coded = { Prim.hlevel (codes, ty.the_row.coded, constant.the_row.coded) };

    ghost view = { λ it. it.blocks.now };

    ghost invariant = { λ it. AreNumbered it.lists.items it.numbers.items (map diff_of it.blocks.now) };
}

impl<'a> Drop for HintLists<'a> {
    fn drop(self) {
        let HintLists {
            blocks: _,
            lists: _,
            numbers: _,
        } = self;
    }
}

impl<'a> HintLists<'a> {
    #[tactic(auto, using(crate::proofs::Numbering::numbered_on, crate::proofs::Numbering::none_yet))]
    pub(crate) fn of(alloc: Global, blocks: &'a [HeldBlock]) -> Result<HintLists<'a>, AllocError>
        ensures { IfOk result (λ lists. lists ≡ blocks.now) }
    {
        let mut seen_ones = Seen {
            numbers: IndexMap::new(alloc),
        };
        let mut lists = Vec::new(alloc);
        let mut numbers = Vec::new(alloc);
        for block in blocks {
            let number = number_for(alloc, block, &mut seen_ones, &mut lists)?;
            numbers.push(number)?;
        }
        Ok(HintLists {
            blocks,
            lists,
            numbers,
        })
    }
}

/// The hint of a block, with the list that is lent to it.
pub(crate) struct ListedBlock<'l, 'a> {
    block: &'a HeldBlock,
    list: LentRegisters<'l, 'a>,
}

impl<'l, 'a> Model for ListedBlock<'l, 'a> {
    ghost use Rattle.std.specs.Prelude.{◌≡◌};
    ghost use Rattle.erhl_assert.specs.declared.hints.HintBlock.{HintBlock};
    ghost use Rattle.std.specs.Coded.{codes};
    ghost use Rattle.ir_types.specs.contracts.ty.Ty as ty;
    ghost use Rattle.ir_core.specs.contracts.operands.Const as constant;

    ghost Value = { HintBlock };

    ghost coded = { Prim.hlevel (codes, ty.the_row.coded, constant.the_row.coded) };

    ghost view = { λ it. it.block.now };

    ghost invariant = { λ it. it.list ≡ it.block.now.entry.diff };
}

impl<'l, 'a> Drop for ListedBlock<'l, 'a> {
    fn drop(self) {
        let ListedBlock { block: _, list: _ } = self;
    }
}

impl<'l, 'a> Named for ListedBlock<'l, 'a> {
    ghost named = { λ block. block.at };

    fn name(&self) -> &Name {
        self.block.name()
    }
}

impl<'l, 'a> ListedBlock<'l, 'a> {
    /// The hint, if it says more than the block's name.
    pub(crate) fn whole(&self) -> Option<&'a HintBlock>
        ensures some { IfSome result (λ hint. hint.now ≡ self.now) }
        ensures none { IfNone result (self.now ≡ bare self.now.at) }
    {
        self.block.whole()
    }

    /// The registers that it says may differ at the block's start.
    pub(crate) fn list(&self) -> LentRegisters<'l, 'a>
        ensures { result ≡ self.now.entry.diff }
    {
        self.list.again()
    }
}

/// The list of that number.
fn lent<'l, 'a>(lists: &'l [ListedRegisters<'a>], number: Option<usize>) -> LentRegisters<'l, 'a>
    ensures { result ≡ listed_at lists.now number }
{
    let Some(k) = number else {
        return LentRegisters::none();
    };
    let Some(list) = lists.get(k) else {
        return LentRegisters::none();
    };
    LentRegisters::of(list)
}

/// The blocks, each with the list of its number.
fn list_all<'l, 'a>(
    alloc: Global,
    blocks: &'a [HeldBlock],
    lists: &'l [ListedRegisters<'a>],
    numbers: &[Option<usize>],
) -> Result<Vec<ListedBlock<'l, 'a>>, AllocError>
    requires { AreNumbered lists.now numbers.now (map diff_of blocks.now) }
    ensures { IfOk result (λ listed. listed.items ≡ blocks.now) }
{
    let mut listed = Vec::new(alloc);
    let mut rest = numbers;
    for block in blocks {
        let Some((number, after)) = rest.split_first() else {
            return Ok(listed);
        };
        let list = lent(lists, *number);
        listed.push(ListedBlock { block, list })?;
        rest = after;
    }
    Ok(listed)
}

/// The blocks, each with the list that is lent to it.
pub(crate) fn listed_blocks<'l, 'a>(
    alloc: Global,
    hint: &'l HintLists<'a>,
) -> Result<Vec<ListedBlock<'l, 'a>>, AllocError>
    ensures { IfOk result (λ listed. listed.items ≡ hint.now) }
{
    list_all(
        alloc,
        hint.blocks,
        hint.lists.as_slice(),
        hint.numbers.as_slice(),
    )
}
