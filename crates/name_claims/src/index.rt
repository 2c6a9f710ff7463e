ghost use Rattle.std.specs.Prelude.{◌≡◌, IfOk};
ghost use Rattle.name_claims.specs.Indexes.{Indexes};

use crate::claims::Definition;
use indexmap::IndexMap;
use ir_core::Name;
use std::alloc::{AllocError, Global};

/// Where each name is defined first, found without a walk through the definitions, whose names it borrows.
pub struct Index<'a> {
    first: IndexMap<&'a Name, usize>,
    /// Whether no name is defined again.
    all_new: bool,
}

impl<'a> Drop for Index<'a> {
    fn drop(self) {
        let Index {
            first: _,
            all_new: _,
        } = self;
    }
}

impl<'a> Index<'a> {
    ghost use Rattle.std.specs.Prelude.{[], ◌&&◌, OnOk, is_none};
    ghost use Rattle.ir_types.specs.declared.names.Name.{Name};
    ghost use Rattle.name_claims.specs.Indexes.{position, or_else, at_name, Indexes};

    /// No name is defined, and there is room for so many.
    pub fn new(alloc: Global, names: usize) -> Result<Index<'a>, AllocError>
        ensures { IfOk result (λ index. Indexes index []) }
    {
        Ok(Index {
            first: IndexMap::with_capacity(alloc, names)?,
            all_new: true,
        })
    }

    pub fn is_all_new(&self) -> bool
        ensures { result ≡ self.now.all_new }
    {
        self.all_new
    }

    /// The index of the name's first definition, if it has one.
    pub fn position(&self, name: &Name) -> Option<usize>
        ensures { result ≡ position self.now name.now }
    {
        self.first.get(&name).copied()
    }

    /// The name is defined at the index, which comes before where it is defined so far.
    pub fn put(&mut self, name: &'a Name, at: usize) -> Result<(), AllocError>
        ensures first { OnOk result ((other : Name) → position self.new other ≡ or_else (at_name name.now at other) (position self.old other)) }
        ensures new { OnOk result (self.new.all_new ≡ (self.old.all_new && is_none (position self.old name.now))) }
    {
        let known = self.first.insert(name, at)?;
        self.all_new = self.all_new && known.is_none();
        Ok(())
    }
}

/// The index of all definitions, which are put from the last one to the first.
pub fn index_of<'a>(alloc: Global, definitions: &'a [Definition]) -> Result<Index<'a>, AllocError>
    ensures { IfOk result (λ index. Indexes index definitions.now) }
{
    let mut index = Index::new(alloc, definitions.len())?;
    let mut at = definitions.len();
    while at > 0 {
        at -= 1;
        index.put(&definitions[at].name, at)?;
    }
    Ok(index)
}
