ghost use Rattle.std.specs.Prelude.{◌≡◌, ◌++◌, [], ◌∷◌, IfOk, OnOk, OnErr};
ghost use Rattle.ir_values.specs.Values.{IsInKind, IsInKindOf};
ghost use Rattle.ir_values.specs.Values as values;
ghost use Rattle.ir_machine.specs.Registers as meaning;
ghost use Rattle.ir_machine.specs.Kept.{held_of};
ghost use Rattle.ir_machine.specs.Kept as kept;
ghost use Rattle.ir_machine.specs.Places.{registers_in};

use crate::registers::RegisterFile;
use contents::Exact;
use indexmap::IndexMap;
use ir_core::{Kind, Name, Value, same_name};
use std::alloc::{AllocError, Global};

pub(crate) fn same_kind(a: &Kind, b: &Kind) -> bool
    ensures { result ≡ values.same_kind a.now b.now }
{
    match (a, b) {
        (Kind::Int(mine), Kind::Int(theirs)) => *mine == *theirs,
        (Kind::Ptr, Kind::Ptr) => true,
        (Kind::Int(_), Kind::Ptr) => false,
        (Kind::Ptr, Kind::Int(_)) => false,
    }
}

fn held_at(kind: &Kind, held: &Option<(Kind, Value)>) -> Value
    ensures { result ≡ meaning.held_at kind.now (held_of held.now) }
{
    match held {
        Some((own, value)) => {
            if same_kind(own, kind) {
                *value
            } else {
                Value::Poison
            }
        }
        None => Value::Poison,
    }
}

fn holding(kind: Option<Kind>, value: Value) -> Option<(Kind, Value)>
    ensures { held_of result ≡ meaning.holding kind value }
{
    match kind {
        Some(own) => Some((own, value)),
        None => None,
    }
}

/// So many registers are kept in a list.
const FEW: usize = 8;

/// Where the first entry of a name stands.
#[tactic(auto, using(crate::proofs::Few::place_here, crate::proofs::Few::place_later))]
fn place_in(name: &Name, few: &[(Name, Option<(Kind, Value)>)]) -> Option<usize>
    ensures { result ≡ kept.place_in name.now few.now }
{
    for at in 0..few.len() {
        if same_name(name, &few[at].0) {
            return Some(at);
        }
    }
    None
}

/// The same entries.
fn few_copied(
    alloc: Global,
    few: &[(Name, Option<(Kind, Value)>)],
) -> Result<Vec<(Name, Option<(Kind, Value)>)>, AllocError>
    ensures { IfOk result (λ copy. copy.items ≡ few.now) }
{
    let mut copy = Vec::with_capacity(alloc, few.len())?;
    for entry in few {
        copy.push((entry.0.copy(alloc)?, entry.1))?;
    }
    Ok(copy)
}

/// One entry more, in no more memory than it takes.
fn add(
    alloc: Global,
    few: &mut Vec<(Name, Option<(Kind, Value)>)>,
    name: &Name,
    held: Option<(Kind, Value)>,
) -> Result<(), AllocError>
    ensures ok { OnOk result (few.new.items ≡ few.old.items ++ (name.now, held) ∷ []) }
    ensures err { OnErr result (few.new.items ≡ few.old.items) }
{
    few.reserve_exact(1)?;
    few.push((name.copy(alloc)?, held))?;
    Ok(())
}

impl RegisterFile {
    pub(crate) fn empty(alloc: Global) -> RegisterFile
        ensures { registers_in result ≡ meaning.no_registers }
    {
        RegisterFile {
            few: Vec::new(alloc),
            held: IndexMap::new(alloc),
        }
    }

    /// The same registers.
    pub(crate) fn copied(&self, alloc: Global) -> Result<RegisterFile, AllocError>
        ensures { IfOk result (λ file. registers_in file ≡ registers_in self.now) }
    {
        let few = few_copied(alloc, self.few.as_slice())?;
        let mut held = IndexMap::with_capacity(alloc, self.held.len())?;
        let mut at = self.held.len();
        while at > 0 {
            at -= 1;
            if let Some((name, value)) = self.held.get_index(at) {
                held.insert(name.copy(alloc)?, *value)?;
            }
        }
        Ok(RegisterFile { few, held })
    }

    pub(crate) fn read(&self, kind: &Kind, name: &Name) -> Value
        ensures value { result ≡ meaning.read (registers_in self.now) kind.now name.now }
        ensures in_kind { IsInKind kind.now result }
    {
        if let Some(at) = place_in(name, self.few.as_slice()) {
            return held_at(kind, &self.few[at].1);
        }
        match self.held.get(name) {
            Some(held) => held_at(kind, held),
            None => Value::Poison,
        }
    }

    pub(crate) fn set(
        &mut self,
        alloc: Global,
        name: &Name,
        kind: Option<Kind>,
        value: Value,
    ) -> Result<(), AllocError>
        requires { IsInKindOf kind value }
        ensures ok { OnOk result
            (registers_in self.new ≡ meaning.set (registers_in self.old) name.now kind value) }
        ensures err { OnErr result (registers_in self.new ≡ registers_in self.old) }
    {
        if let Some(at) = place_in(name, self.few.as_slice()) {
            self.few[at].1 = holding(kind, value);
            return Ok(());
        }
        if self.few.len() < FEW {
            add(alloc, &mut self.few, name, holding(kind, value))?;
            return Ok(());
        }
        self.held.insert(name.copy(alloc)?, holding(kind, value))?;
        Ok(())
    }
}
