//! The alignment of two functions: their headers, and each block's lines under its hint's letters.
ghost use Rattle.std.specs.Prelude.{◌≡◌, IfOk, length, replicate};
ghost use Rattle.std.specs.List.{zip};
ghost use Rattle.std.specs.Option.{option_map};
ghost use Rattle.erhl_assert.specs.declared.hints.Letter.TheVariants.{Both};
ghost use Rattle.erhl_assert.specs.Alignment as alignment;
ghost use Rattle.line_align.specs.Cursor.{is_aligned};
ghost use Rattle.line_align.specs.Lent.{Answers, lent_block};

use crate::alike::{Likeness, all_alike};
use crate::by_name::ByName;
use crate::cursor::{is_end, left, on_source, on_target, stands};
use contents::{Exact, Seq};
use erhl_assert::{HeldBlock, Letter};
use ir_core::{Block, Function, Instr, Name, Param, same_name, same_ty};
use std::alloc::{AllocError, Global};

/// Two blocks that align, lent, with the letters of their lines.
pub struct AlignedBlock<'a> {
    pub letters: Seq<Letter>,
    pub source: &'a Block,
    pub target: &'a Block,
}

impl<'a> Drop for AlignedBlock<'a> {
    fn drop(self) {
        let AlignedBlock {
            letters: _,
            source: _,
            target: _,
        } = self;
    }
}

/// Why two functions have no aligned blocks.
#[derive(Drop)]
pub enum AlignEnd {
    /// The block at fault.
    Differs(Name),
    /// No memory is left.
    Memory,
}

impl From<AllocError> for AlignEnd {
    ghost use Rattle.line_align.specs.declared.alignment.AlignEnd.TheVariants.{Memory};

    ghost from_gives = { λ _ end. end ≡ Memory };

    fn from(_refused: AllocError) -> AlignEnd {
        AlignEnd::Memory
    }
}

fn copy_of(alloc: Global, letters: &Seq<Letter>) -> Result<Seq<Letter>, AllocError>
    ensures { IfOk result (λ copy. copy ≡ letters.now) }
{
    let mut copy = Vec::new(alloc);
    copy.extend_from_slice(letters.as_slice())?;
    Ok(Seq::from_vec(copy))
}

fn all_both(alloc: Global, count: usize) -> Result<Seq<Letter>, AllocError>
    ensures { IfOk result (λ letters. letters ≡ replicate count Both) }
{
    Ok(Seq::from_vec(vec![in alloc; Letter::Both; count]?))
}

fn letters_or_both(
    alloc: Global,
    letters: &Option<Seq<Letter>>,
    count: usize,
) -> Result<Seq<Letter>, AllocError>
    ensures { IfOk result (λ all. all ≡ alignment.letters_or_both letters.now count) }
{
    match letters {
        Some(letters) => copy_of(alloc, letters),
        None => all_both(alloc, count),
    }
}

/// The letters that a hint gives to so many lines.
fn letters_of_hint(alloc: Global, hint: &HeldBlock, count: usize) -> Result<Seq<Letter>, AllocError>
    ensures { IfOk result (λ all. all ≡ alignment.letters_or_both hint.now.lines count) }
{
    match hint.whole() {
        Some(hint) => letters_or_both(alloc, &hint.lines, count),
        None => all_both(alloc, count),
    }
}

/// The letters of a block: those of its hint, or that all of its lines stand on both sides.
fn letters_of(
    alloc: Global,
    hints: &ByName<'_, HeldBlock>,
    block: &Block,
) -> Result<Seq<Letter>, AllocError>
    ensures { IfOk result
        (λ letters. letters
        ≡ alignment.letters_or_both (alignment.block_hint (record { blocks = hints.now }) block.now.name).lines (length block.now.body)) }
{
    match hints.first(&block.name) {
        Some(entry) => letters_of_hint(alloc, entry, block.body.len()),
        None => all_both(alloc, block.body.len()),
    }
}

/// Whether the letters give back both bodies.
#[tactic(auto, using(crate::proofs::Alignments::is_aligned_more, crate::proofs::Alignments::is_aligned_end))]
fn is_aligned(letters: &[Letter], source: &[Instr], target: &[Instr]) -> bool
    ensures { result ≡ is_aligned (alignment.aligned letters.now source.now target.now) }
{
    let mut xs = source;
    let mut ys = target;
    for letter in letters {
        if !stands(*letter, xs, ys) {
            return false;
        }
        xs = left(on_source(*letter), xs);
        ys = left(on_target(*letter), ys);
    }
    is_end(xs, ys)
}

/// One name and one type.
struct NameAndType;

impl Likeness<Param> for NameAndType {
    ghost use Rattle.erhl_assert.specs.Alignment.{same_param};

    ghost like = { λ _ p q. same_param p q };

    fn are_alike(&self, p: &Param, q: &Param) -> bool {
        same_name(&p.name, &q.name) && same_ty(&p.ty, &q.ty)
    }
}

fn same_header(source: &Function, target: &Function) -> bool
    ensures { result ≡ alignment.same_header source.now target.now }
{
    same_ty(&source.result, &target.result)
        && all_alike(
            &NameAndType,
            source.params.as_slice(),
            target.params.as_slice(),
        )
}

/// Two blocks, where they have one name and their lines align.
#[tactic(auto, using(crate::proofs::Lending::block_lent, crate::proofs::Lending::block_unaligned, crate::proofs::Lending::block_misnamed))]
fn align_block<'a>(
    alloc: Global,
    hints: &ByName<'_, HeldBlock>,
    source: &'a Block,
    target: &'a Block,
) -> Result<Option<AlignedBlock<'a>>, AllocError>
    ensures { IfOk result (λ block. option_map lent_block block ≡ alignment.block_aligned (record { blocks = hints.now }) source.now target.now) }
{
    if !same_name(&source.name, &target.name) {
        return Ok(None);
    }
    let letters = letters_of(alloc, hints, source)?;
    if !is_aligned(
        letters.as_slice(),
        source.body.as_slice(),
        target.body.as_slice(),
    ) {
        return Ok(None);
    }
    Ok(Some(AlignedBlock {
        letters,
        source,
        target,
    }))
}

/// Blocks in pairs, as far as both lists have some.
#[tactic(auto, using(crate::proofs::Lending::blocks_end, crate::proofs::Lending::blocks_short))]
fn align_blocks<'a>(
    alloc: Global,
    hints: &ByName<'_, HeldBlock>,
    source: &'a [Block],
    target: &'a [Block],
) -> Result<Seq<AlignedBlock<'a>>, AlignEnd>
    ensures { Answers result (alignment.blocks_aligned (record { blocks = hints.now }) (zip source.now target.now)) }
{
    let mut rest = target;
    let mut found = Seq::new(alloc);
    for b in source {
        let Some((c, after)) = rest.split_first() else {
            return Ok(found);
        };
        match align_block(alloc, hints, b, c)? {
            Some(block) => found.push(block)?,
            None => return Err(AlignEnd::Differs(b.name.copy(alloc)?)),
        }
        rest = after;
    }
    Ok(found)
}

fn first_block(alloc: Global, blocks: &[Block]) -> Result<Name, AllocError>
    ensures { IfOk result (λ name. name ≡ alignment.first_block blocks.now) }
{
    match blocks.first() {
        Some(block) => block.name.copy(alloc),
        None => Ok(Name::Number(0)),
    }
}

/// The blocks of two functions aligned under the blocks of a hint, or the block at fault: the first of the source where headers or the
/// numbers of blocks differ, else its first that isn't aligned with the target's.
pub fn align<'a>(
    alloc: Global,
    source: &'a Function,
    target: &'a Function,
    hints: &ByName<'_, HeldBlock>,
) -> Result<Seq<AlignedBlock<'a>>, AlignEnd>
    ensures { Answers result (alignment.alignment (record { blocks = hints.now }) source.now target.now) }
{
    if same_header(source, target) && source.blocks.len() == target.blocks.len() {
        align_blocks(
            alloc,
            hints,
            source.blocks.as_slice(),
            target.blocks.as_slice(),
        )
    } else {
        Err(AlignEnd::Differs(first_block(alloc, source.blocks.as_slice())?))
    }
}
