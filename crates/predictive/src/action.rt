ghost use Rattle.std.specs.Prelude.{◌≡◌, ℕ, OnOk};

use std::alloc::{AllocError, Global};

/// What is done as rules begin, tokens are shifted and rules reduced.
pub trait Action {
    /// What contracts see of it.
    type State;

    ghost state: { Self → Self.State };

    /// What of it changes with tokens alone, so that it can be told where nothing goes on.
    type Mark;

    ghost mark: { Self.State → Self.Mark };

    /// What the beginning of a rule does, before its right side.
    ghost begun: { Self.State → ℕ → Self.State };

    /// What a token of a kind does.
    ghost shifted: { Self.State → ℕ → Self.State };

    /// What a rule does, when all of its right side is there.
    ghost reduced: { Self.State → ℕ → Self.State };

    fn begin(&mut self, alloc: Global, rule: u16) -> Result<(), AllocError>
        ensures { OnOk result (state self.new ≡ begun (state self.old) rule) };

    fn shift(&mut self, alloc: Global, kind: u8) -> Result<(), AllocError>
        ensures { OnOk result (state self.new ≡ shifted (state self.old) kind) };

    fn reduce(&mut self, alloc: Global, rule: u16) -> Result<(), AllocError>
        ensures { OnOk result (state self.new ≡ reduced (state self.old) rule) };

    ghost begun_unmarked: { (s : Self.State) (rule : ℕ) → mark (begun s rule) ≡ mark s };

    ghost reduced_unmarked: { (s : Self.State) (rule : ℕ) → mark (reduced s rule) ≡ mark s };
}
