ghost use Rattle.std.specs.Prelude.{◌<◌, ◌^◌};

use crate::symbol::Symbol;

/// A rule that is begun: what is still wanted of its right side. Its number is as wide as that, so that no gap is copied with it.
#[derive(Drop, Clone, Copy)]
pub struct Frame<'a> {
    pub rest: &'a [Symbol],
    pub rule: usize,
    ghost fits: { rule < 2 ^ 16 },
}
