ghost use Rattle.std.specs.Prelude.{◌≡◌, ℕ, List, IfOk, Option};
ghost use Rattle.ir_core.specs.declared.modules.Module.{Module};
ghost use Rattle.ir_core.specs.declared.functions.Function.{Function};
ghost use Rattle.erhl_assert.specs.declared.hints.Hint.{Hint};
ghost use Rattle.erhl_assert.specs.declared.hints.LoopHints.{LoopHints};

use erhl_assert::{Hint, LoopHints};
use ir_core::{Function, Module};
use std::alloc::{AllocError, Global};

/// A pass. It has a name, and one meaning: what it may give for a function of a module, which is nothing, or another
/// function with a hint for the checker. Nothing is asked of what a pass gives, since the checker judges it.
pub trait Pass: Drop {
    ghost named: { Self → List ℕ };

    ghost may_give: { Self → Module → Function → LoopHints → Option (Function × Hint) → Type 0 };

    fn name(&self) -> &str
        ensures { result.now ≡ named self.now };

    fn attempt(
        &self,
        alloc: Global,
        module: &Module,
        function: &Function,
        loops: &LoopHints,
    ) -> Result<Option<(Function, Hint)>, AllocError>
        ensures { IfOk result (λ answer. may_give self.now «module».now function.now loops.now answer) };
}
