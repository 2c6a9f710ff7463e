ghost use Rattle.std.specs.Prelude.{◌≡◌, IfOk, IfErr};
ghost use Rattle.ir_core.specs.declared.modules.Module.{Module};
ghost use Rattle.ir_core.specs.WellFormed.{IsWellFormed};
ghost use Rattle.module_spelling.specs.Spells.{Spells};
ghost use Rattle.ir_reader.specs.Faults.{IsModuleFault, SpellsWellFormed};

use crate::shapely::{fits, of_text};
use crate::{ModuleFault, read_module};
use ir_core::Module;
use ir_shape::faultless_modules_have_shape;
use module_texts::{spelled_modules_are_in_range, spelled_modules_are_within};
use std::alloc::Global;

/// Whether the module that the text spells is well-formed; if not, the text's first fault.
fn well_formed(alloc: Global, _text: &[u8], module: &Module) -> Result<(), ModuleFault>
    requires { Spells _text.now «module».now }
    ensures well_formed { IfOk result (λ _. IsWellFormed «module».now) }
    ensures fault { IfErr result (IsModuleFault _text.now) }
{
    faultless_modules_have_shape();
    spelled_modules_are_in_range();
    spelled_modules_are_within();
    fits(alloc, module)
}

/// The module that the text spells.
fn spelled(alloc: Global, text: &[u8]) -> Result<Module, ModuleFault>
    ensures spelled { IfOk result (Spells text.now) }
    ensures only { IfOk result (λ m. (other : Module) → Spells text.now other → other ≡ m) }
    ensures fault { IfErr result (IsModuleFault text.now) }
{
    match read_module(alloc, text) {
        Ok(module) => Ok(module),
        Err(fault) => Err(of_text(fault)),
    }
}

/// The module that the text spells, if it is well-formed.
pub fn read_well_formed(alloc: Global, text: &[u8]) -> Result<Module, ModuleFault>
    ensures spelled { IfOk result (SpellsWellFormed text.now) }
    // The text spells no other module.
    ensures only { IfOk result (λ m. (other : Module) → Spells text.now other → other ≡ m) }
    ensures fault { IfErr result (IsModuleFault text.now) }
{
    let module = spelled(alloc, text)?;
    well_formed(alloc, text, &module)?;
    Ok(module)
}
