ghost use Rattle.std.specs.Prelude.{◌≡◌};

use crate::Name;
use contents::Exact;
use indexmap::IndexSet;
use std::alloc::{AllocError, Global};
use std::marker::Model;

/// Names in the order of their definitions, each found without a walk through the others.
pub struct NameIndex {
    names: IndexSet<Name>,
}

impl Drop for NameIndex {
    fn drop(self) {
        let NameIndex { names: _ } = self;
    }
}

impl Model for NameIndex {
    ghost use Rattle.std.specs.Prelude.{List};
    ghost use Rattle.ir_types.specs.declared.names.Name.{Name};

    ghost Value = { List Name };

    ghost view = { λ it. it.names.keys };
}

impl NameIndex {
    ghost use Rattle.std.specs.Prelude.{[], ◌∷◌, ◌++◌, IfOk, not, true, false};
    ghost use Rattle.ir_core.specs.NameIndexes.Among.{is_among, place_among};

    /// No name is defined.
    pub fn new(alloc: Global) -> NameIndex
        ensures { result ≡ [] }
    {
        NameIndex {
            names: IndexSet::new(alloc),
        }
    }

    /// No name is defined, and there is room for so many.
    pub fn with_room(alloc: Global, names: usize) -> Result<NameIndex, AllocError>
        ensures { IfOk result (λ index. index ≡ []) }
    {
        Ok(NameIndex {
            names: IndexSet::with_capacity(alloc, names)?,
        })
    }

    pub fn has(&self, name: &Name) -> bool
        ensures { result ≡ is_among name.now self.now }
    {
        self.names.contains(name)
    }

    /// The place of the name among them, if it is one.
    pub fn position(&self, name: &Name) -> Option<usize>
        ensures { result ≡ place_among name.now self.now }
    {
        self.names.get_index_of(name)
    }

    /// Puts the name at the end if it is new, and says whether it is.
    pub fn add(&mut self, alloc: Global, name: &Name) -> Result<bool, AllocError>
        ensures added { IfOk result (λ added. added ≡ not (is_among name.now self.old)) }
        ensures grows { IfOk result (λ added. added ≡ true → self.new ≡ self.old ++ name.now ∷ []) }
        ensures stays { IfOk result (λ added. added ≡ false → self.new ≡ self.old) }
    {
        let name = name.copy(alloc)?;
        Ok(self.names.insert(name)?)
    }
}
