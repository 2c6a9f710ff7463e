ghost use Rattle.std.specs.Prelude.{◌++◌};
ghost use Rattle.ir_machine.specs.Registers.{AreInKind};
ghost use Rattle.ir_machine.specs.Kept.{kept_registers, AreInKind-prop};

use indexmap::IndexMap;
use ir_core::{Kind, Name, Value};

/// The registers of a function: what each was set to last. It is the kind of the line or parameter that set it, and a value; none, where
/// that line has no kind. The first eight that are set stand in a list, and the others in a map behind it, so that none is found by a walk
/// through more than eight.
pub struct RegisterFile {
    pub(crate) few: Vec<(Name, Option<(Kind, Value)>)>,
    pub(crate) held: IndexMap<Name, Option<(Kind, Value)>>,
    ghost in_kind: { AreInKind (kept_registers (few.items ++ held.entries)) } by { AreInKind-prop (kept_registers (few.items ++ held.entries)) },
}

impl Drop for RegisterFile {
    fn drop(self) {
        let RegisterFile { few: _, held: _ } = self;
    }
}
