ghost use Rattle.std.specs.Prelude.{◌≡◌, [], IfOk};
ghost use Rattle.json_forms.specs.JsonValues.View.{view};
ghost use Rattle.json_forms.specs.Answers.{Answers};
ghost use Rattle.hint_format.specs.Form.{block_form, block_names, letter_of, letters_of, named_block};
ghost use Rattle.hint_format.specs.Reading.{read_leaves};

use crate::facts::FactForm;
use crate::steps::{EdgeForm, PlacedStepForm};
use crate::texts::{NameText, RegisterText};
use contents::Seq;
use erhl_assert::{Assertion, HeldBlock, HintBlock, Letter};
use ir_core::{Name, NameIndex, Sigil};
use json_forms::{
    Failure, RowForm, Text, TextForm, Value, has_members, member, optional, optional_list,
    under_key, unfit,
};
use std::alloc::Global;

/// A block's hint. No two blocks have one name.
#[derive(Drop)]
pub(crate) struct BlockForm;

impl RowForm for BlockForm {
    type Value = HeldBlock;

    type Index = NameIndex;

    ghost row_form = { λ _. block_form read_leaves };

    ghost is_of = { λ names blocks. names ≡ block_names blocks };

    fn new_index(&self, alloc: Global) -> NameIndex {
        NameIndex::new(alloc)
    }

    fn read_row(
        &self,
        alloc: Global,
        index: &mut NameIndex,
        _before: &[HeldBlock],
        value: &Value<'_>,
    ) -> Result<HeldBlock, Failure> {
        let optional = ["diff", "edges", "lines", "src", "steps", "tgt"];
        if !has_members(value, &["at"], &optional) {
            return Err(unfit(alloc));
        }
        let sigil = Sigil::Local;
        let name = member(alloc, value, "at", &Text(NameText { sigil }))?;
        if !index.add(alloc, &name)? {
            return Err(under_key(alloc, "at", unfit(alloc)));
        }
        named_block(alloc, name, value)
    }
}

/// The hint of the block of that name.
fn named_block(alloc: Global, name: Name, value: &Value<'_>) -> Result<HeldBlock, Failure>
    ensures answers { Answers result (named_block read_leaves name (view value.now)) }
    ensures named { IfOk result (λ block. block.at ≡ name) }
{
    let may_be_old = false;
    let diff = optional_list(alloc, value, "diff", &Text(RegisterText { may_be_old }))?;
    let edges = optional_list(alloc, value, "edges", &EdgeForm)?;
    let lines = optional(alloc, value, "lines", &Text(LettersText))?;
    let src = optional_list(alloc, value, "src", &FactForm { may_be_old })?;
    let steps = optional_list(alloc, value, "steps", &PlacedStepForm)?;
    let tgt = optional_list(alloc, value, "tgt", &FactForm { may_be_old })?;
    let hint = HintBlock {
        at: name,
        lines,
        entry: Assertion { src, tgt, diff },
        steps,
        edges,
    };
    Ok(HeldBlock::new(alloc, hint)?)
}

/// One letter for each line.
#[derive(Drop)]
struct LettersText;

impl TextForm for LettersText {
    type Value = Seq<Letter>;

    ghost text_form = { λ _ text. letters_of [] text };

    fn read_text(&self, alloc: Global, text: &str) -> Result<Seq<Letter>, Failure> {
        let mut letters = Seq::new(alloc);
        for byte in text.as_bytes() {
            letters.push(letter(alloc, *byte)?)?;
        }
        Ok(letters)
    }
}

fn letter(alloc: Global, byte: u8) -> Result<Letter, Failure>
    ensures { Answers result (letter_of byte) }
{
    match byte {
        b'b' => Ok(Letter::Both),
        b's' => Ok(Letter::Source),
        b't' => Ok(Letter::Target),
        _ => Err(unfit(alloc)),
    }
}
