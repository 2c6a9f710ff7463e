ghost use Rattle.std.specs.Prelude.{◌≡◌, ℕ, List, Bool, true};
ghost use Rattle.ir_values.specs.Constants.{Scope};
ghost use Rattle.ir_machine.specs.State.{scope_of};
ghost use Rattle.erhl_assert.specs.declared.facts.Schema.{Schema};
ghost use Rattle.erhl_assert.specs.Facts.{IsSound};

use erhl_assert::Schema;
use ir_core::Module;

/// An inference rule. It has a name, and one meaning: the schemas that it takes beside a module's types and globals.
/// Whoever writes a rule proves that what it takes is sound.
pub trait InferRule: Drop {
    ghost called: { Self → List ℕ };

    ghost takes: { Self → Scope → Schema → Bool };

    fn name(&self) -> &str
        ensures { result.now ≡ called self.now };

    fn fits(&self, module: &Module, schema: &Schema) -> bool
        ensures { result ≡ takes self.now (scope_of «module».now) schema.now };

    ghost sound: { (rule : Self) (scope : Scope) (schema : Schema) → takes rule scope schema ≡ true → IsSound scope schema };
}
