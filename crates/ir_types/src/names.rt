use contents::{Exact, Text};
use std::alloc::{AllocError, Global};
use std::hash::{Hash, Hasher};

/// The name of a global, a function, a parameter, a block or a register, without its sigil
/// (LangRef 3.7, Identifiers): the bytes of a named one, the number of an unnamed one.
pub enum Name {
    Text(Text),
    Number(u32),
}

impl Drop for Name {
    fn drop(self) {
        match self {
            Name::Text(_) => {}
            Name::Number(_) => {}
        }
    }
}

/// `%` before a local name, `@` before a global one.
#[derive(Drop, Clone, Copy, PartialEq, Eq)]
pub enum Sigil {
    Local,
    Global,
}

impl Exact for Name {
    fn is(&self, other: &Name) -> bool {
        match (self, other) {
            (Name::Text(mine), Name::Text(theirs)) => mine.is(theirs),
            (Name::Number(mine), Name::Number(theirs)) => *mine == *theirs,
            _ => false,
        }
    }

    fn copy(&self, alloc: Global) -> Result<Name, AllocError> {
        match self {
            Name::Text(bytes) => Ok(Name::Text(bytes.copy(alloc)?)),
            Name::Number(number) => Ok(Name::Number(*number)),
        }
    }
}

/// By contents, so that sets and maps may have names as keys.
impl PartialEq for Name {
    ghost use Rattle.std.specs.Cmp as cmp;
    ghost use Rattle.ir_types.specs.Same.{same_name};
    ghost use Rattle.ir_types.specs.NameLaws.{name_equivalence};

    ghost eq = { same_name };

    ghost laws = { cmp.partial_equiv_from_equiv name_equivalence };

    #[tactic(auto, using(crate::specs::NameLaws::same_name_true, crate::specs::NameLaws::same_name_refl))]
    fn eq(&self, other: &Name) -> bool {
        self.is(other)
    }
}

impl Eq for Name {
    ghost use Rattle.ir_types.specs.NameLaws.{name_equivalence};

    ghost laws = { name_equivalence };
}

impl Hash for Name {
    ghost use Rattle.std.proofs.Common.{ap};
    ghost use Rattle.ir_types.specs.Hashed.{hashed_name};
    ghost use Rattle.ir_types.specs.NameLaws.{same_name_true};

    ghost hash_input = { hashed_name };

    ghost respects_eq = { λ a b same. ap hashed_name (same_name_true a b same) };

    fn hash<H: Hasher>(&self, state: &mut H) {
        match self {
            Name::Text(bytes) => bytes.hash(state),
            Name::Number(number) => number.hash(state),
        }
    }
}
