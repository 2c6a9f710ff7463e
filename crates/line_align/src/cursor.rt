//! A place in two bodies that are gone through letter by letter.
ghost use Rattle.std.specs.Prelude.{◌≡◌, ◌&&◌};
ghost use Rattle.std.specs.Option.{option_copied};
ghost use Rattle.line_align.specs.Cursor as cursor;

use erhl_assert::Letter;
use ir_core::Instr;

pub fn on_source(letter: Letter) -> bool
    ensures { result ≡ cursor.on_source letter }
{
    match letter {
        Letter::Both | Letter::Source => true,
        Letter::Target => false,
    }
}

pub fn on_target(letter: Letter) -> bool
    ensures { result ≡ cursor.on_target letter }
{
    match letter {
        Letter::Both | Letter::Target => true,
        Letter::Source => false,
    }
}

/// The first line, where one is taken.
pub fn taken(take: bool, lines: &[Instr]) -> Option<&Instr>
    ensures { option_copied result ≡ cursor.taken take lines.now }
{
    if take { lines.first() } else { None }
}

/// The lines after it.
pub fn left(take: bool, lines: &[Instr]) -> &[Instr]
    ensures { result.now ≡ cursor.left take lines.now }
{
    match lines.split_first() {
        Some((_, rest)) => { if take { rest } else { lines } }
        None => lines,
    }
}

fn is_none(lines: &[Instr]) -> bool
    ensures { result ≡ cursor.is_none lines.now }
{
    lines.is_empty()
}

/// Whether there is a line on each side that the letter takes one of.
pub(crate) fn stands(letter: Letter, source: &[Instr], target: &[Instr]) -> bool
    ensures { result ≡ cursor.stands letter source.now target.now }
{
    !(on_source(letter) && is_none(source)) && !(on_target(letter) && is_none(target))
}

/// Whether no line is left on either side.
pub(crate) fn is_end(source: &[Instr], target: &[Instr]) -> bool
    ensures { result ≡ (cursor.is_none source.now && cursor.is_none target.now) }
{
    is_none(source) && is_none(target)
}
