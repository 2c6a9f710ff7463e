ghost use Rattle.ir_printer.specs.Printed.{lines_text, label_line, first_label, later_label, first_block, later_block, blocks_text};
ghost use Rattle.ir_printer.specs.Told.{IsTold};

use crate::called::Declared;
use crate::expression_printer::push_name_text;
use crate::lines::{Instrs, Phis};
use crate::sink::{Prints, Sink, push_each};
use crate::terms::push_last_line;
use ir_core::{Block, Name};

/// The blocks of a function, with a blank line between any two.
pub(crate) fn push_blocks(text: &mut Sink, declared: &Declared, blocks: &[Block])
    ensures { IsTold text.old text.new (blocks_text declared.now blocks.now) }
{
    let Some((first, later)) = blocks.split_first() else {
        return;
    };
    push_first_block(text, declared, first);
    push_each(text, &LaterBlocks { declared }, later);
}

fn push_first_block(text: &mut Sink, declared: &Declared, block: &Block)
    ensures { IsTold text.old text.new (first_block declared.now block.now) }
{
    push_first_label(text, &block.name);
    push_lines(text, declared, block);
}

/// Blocks behind the first, beside what is declared.
#[derive(Drop)]
struct LaterBlocks<'a, 'b> {
    declared: &'a Declared<'b>,
}

impl<'a, 'b> Prints<Block> for LaterBlocks<'a, 'b> {
    ghost printed = { λ it block. later_block it.declared.now block };

    fn push(&self, text: &mut Sink, block: &Block) {
        push_later_block(text, self.declared, block);
    }
}

/// A block behind the first, behind a blank line.
fn push_later_block(text: &mut Sink, declared: &Declared, block: &Block)
    ensures { IsTold text.old text.new (later_block declared.now block.now) }
{
    text.put_byte(b'\n');
    push_later_label(text, &block.name);
    push_lines(text, declared, block);
}

/// The name on a line of its own.
fn push_label_line(text: &mut Sink, name: &Name)
    ensures { IsTold text.old text.new (label_line name.now) }
{
    push_name_text(text, name);
    text.put(b":\n");
}

/// The first block's label, where it has a name.
fn push_first_label(text: &mut Sink, name: &Name)
    ensures { IsTold text.old text.new (first_label name.now) }
{
    match name {
        Name::Text(_) => push_label_line(text, name),
        Name::Number(_) => {}
    }
}

/// The label of a block behind the first; without name, its number as a comment.
fn push_later_label(text: &mut Sink, name: &Name)
    ensures { IsTold text.old text.new (later_label name.now) }
{
    match name {
        Name::Text(_) => push_label_line(text, name),
        Name::Number(_) => {
            text.put(b"; <label>:");
            push_name_text(text, name);
            text.put(b"\n");
        }
    }
}

/// The phis, the lines and the terminator.
fn push_lines(text: &mut Sink, declared: &Declared, block: &Block)
    ensures { IsTold text.old text.new (lines_text declared.now block.now) }
{
    push_each(text, &Phis, block.phis.as_slice());
    push_each(text, &Instrs { declared }, block.body.as_slice());
    push_last_line(text, &block.term);
}
