use crate::Name;
use std::alloc::{AllocError, Global};
use std::collections::HashMap;

/// Values by name, each found without a walk through the others.
pub(crate) struct NameMap<V> {
    values: HashMap<Name, V>,
}

impl<V: Drop> Drop for NameMap<V> {
    fn drop(self) {
        let NameMap { values: _ } = self;
    }
}

impl<V: Drop> NameMap<V> {
    ghost use Rattle.std.specs.Prelude.{◌≡◌, None, IfOk, OnOk};
    ghost use Rattle.std.specs.Option.{option_copied};
    ghost use Rattle.ir_types.specs.declared.names.Name.{Name};
    ghost use Rattle.ir_types.specs.Kept.{value_of, and_value};

    /// No name has a value. Takes no memory.
    pub(crate) fn new(alloc: Global) -> NameMap<V>
        ensures { (name : Name) → value_of result name ≡ None }
    {
        NameMap {
            values: HashMap::new(alloc),
        }
    }

    /// No name has a value, and there is room for so many.
    pub(crate) fn with_room(alloc: Global, names: usize) -> Result<NameMap<V>, AllocError>
        ensures { IfOk result (λ map. (name : Name) → value_of map name ≡ None) }
    {
        Ok(NameMap {
            values: HashMap::with_capacity(alloc, names)?,
        })
    }

    pub(crate) fn get(&self, name: &Name) -> Option<&V>
        ensures { option_copied result ≡ value_of self.now name.now }
    {
        self.values.get(name)
    }

    /// The name has this value, and no other one.
    pub(crate) fn put(&mut self, name: Name, value: V) -> Result<(), AllocError>
        ensures { OnOk result ((other : Name) → value_of self.new other ≡ and_value name value (value_of self.old) other) }
    {
        self.values.insert(name, value)?;
        Ok(())
    }
}
