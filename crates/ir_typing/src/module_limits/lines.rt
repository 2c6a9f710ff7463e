//! The limit on the lines of a function.
ghost use Rattle.std.specs.Prelude.{◌≡◌, ◌≤◌, ◌<◌, ◌+◌, nat_le, IfSome, IfNone};
ghost use Rattle.std.specs.List.{list_all, sum_by};
ghost use Rattle.ir_core.specs.Limits.{line_limit};
ghost use Rattle.ir_typing.specs.ModuleLimits.Lines.{is_short, lines_in};

use ir_core::{Block, Function};

/// The limit `lines`.
const LINES: usize = 1_048_576;

/// The lines of a block that many more lines stand before, if they are within the limit.
fn lines_behind(lines: usize, block: &Block) -> Option<usize>
    requires { lines ≤ line_limit }
    ensures some { IfSome result (λ more. (more ≡ lines + lines_in block.now) × (more ≤ line_limit)) }
    ensures none { IfNone result (line_limit < lines + lines_in block.now) }
{
    let phis = block.phis.len();
    let body = block.body.len();
    if phis > LINES || body > LINES {
        return None;
    }
    let more = lines + phis + body + 1;
    if more > LINES { None } else { Some(more) }
}

/// Whether these blocks have no more lines than the limit allows.
fn are_within(blocks: &[Block]) -> bool
    ensures { result ≡ nat_le (sum_by lines_in blocks.now) line_limit }
{
    let mut lines = 0;
    for block in blocks {
        match lines_behind(lines, block) {
            None => return false,
            Some(more) => lines = more,
        }
    }
    true
}

pub(crate) fn is_short(function: &Function) -> bool
    ensures { result ≡ is_short «function».now }
{
    are_within(function.blocks.as_slice())
}

/// Whether none of the functions has more lines.
pub(crate) fn are_short(functions: &[Function]) -> bool
    ensures { result ≡ list_all is_short functions.now }
{
    for function in functions {
        if !is_short(function) {
            return false;
        }
    }
    true
}
