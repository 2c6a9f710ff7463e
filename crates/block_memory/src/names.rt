ghost use Rattle.std.specs.Prelude.{◌≡◌, ◌↔◌, ◌<◌, ◌-◌, ℕ, ℤ, ◌++◌, [], ◌∷◌, List, Option, None, Some, Err, length, take, not, is_some, IfOk, IfErr, OnOk, OnErr};
ghost use Rattle.std.specs.List.{list_any};
ghost use Rattle.std.specs.Option.{option_copied};
ghost use Rattle.ir_core.specs.declared.values.Value.TheVariants.{Poison, Undef};
ghost use Rattle.block_memory.specs.Names as meaning;
ghost use Rattle.block_memory.specs.FirstNames.{AreFirst, loose_count};
ghost use Rattle.std.specs.Coded.{codes};
ghost use Rattle.block_memory.specs.declared.names.ShowEnd.TheVariants as end;

use crate::blocks::Blocks;
use crate::items::{Choice, Shown};
use indexmap::IndexMap;
use ir_core::{BlockId, Kind, Value, fits};
use std::alloc::{AllocError, Global};
use std::marker::Model;

/// Why nothing was shown.
#[derive(Drop, Clone, Copy)]
pub enum ShowEnd {
    /// The value is poison.
    Wrong,
    /// The value is undef, and there is no choice, or none that fits.
    NoChoice,
    Memory,
}

/// The names, from 0 on, each bound to one block or to nothing.
pub struct Names {
    bound: Vec<Option<BlockId>>,
    /// How many are bound to nothing.
    loose: usize,
    /// The first name of each block that has one, so that it is found without a walk.
    first: IndexMap<BlockId, u64>,
    ghost counted: { loose ≡ loose_count bound.items },
    ghost found: { AreFirst bound.items first.entries } by { Prim.hlevel codes },
}

impl Drop for Names {
    fn drop(self) {
        let Names {
            bound: _,
            loose: _,
            first: _,
        } = self;
    }
}

impl Model for Names {
    ghost Value = { List (Option ℕ) };

    ghost view = { λ s. s.bound.items };
}

impl Names {
    /// No names.
    pub fn new(alloc: Global) -> Names
        ensures { result ≡ [] }
    {
        Names {
            bound: Vec::new(alloc),
            loose: 0,
            first: IndexMap::new(alloc),
        }
    }

    /// How many names there are. Each is below that number.
    pub fn count(&self) -> u64
        ensures { result ≡ length self.now }
    {
        self.bound.len() as u64
    }

    /// Binds the next name to an unnamed block, or to nothing.
    pub fn bind(&mut self, block: Option<BlockId>) -> Result<u64, AllocError>
        ensures ok { OnOk result (self.new ≡ self.old ++ (block ∷ [])) }
        ensures name { IfOk result (λ x. x ≡ length self.old) }
        ensures err { OnErr result (self.new ≡ self.old) }
    {
        let name = self.bound.len() as u64;
        self.bound.reserve(1)?;
        let Some(own) = block else {
            self.bound.push_reserved(None);
            self.loose += 1;
            return Ok(name);
        };
        if self.first.contains_key(&own) {
            self.bound.push_reserved(Some(own));
            return Ok(name);
        }
        self.first.insert(own, name)?;
        self.bound.push_reserved(Some(own));
        Ok(name)
    }

    /// The names from that many on are there no more.
    pub fn cut_to(&mut self, count: u64)
        ensures { self.new ≡ take count self.old }
    {
        while self.count() > count {
            self.drop_last();
        }
    }

    /// The last name is there no more.
    fn drop_last(&mut self)
        requires { 0 < length self.old }
        ensures { self.new ≡ take (length self.old - 1) self.old }
    {
        let Some(last) = self.bound.pop() else {
            return;
        };
        let Some(block) = last else {
            self.loose -= 1;
            return;
        };
        if self.first.get(&block).copied() == Some(self.bound.len() as u64) {
            self.first.swap_remove(&block);
        }
    }

    /// The first name that is bound to the block.
    pub fn name_of(&self, block: BlockId) -> Option<u64>
        ensures { result ≡ meaning.name_of self.now block }
    {
        self.first.get(&block).copied()
    }

    #[tactic(auto, using(crate::proofs::KeptNames::named_any))]
    fn is_named(&self, block: BlockId) -> bool
        ensures { result ≡ list_any (meaning.is_bound_to block) self.now }
    {
        self.first.contains_key(&block)
    }

    /// Whether a name is bound to nothing.
    #[tactic(auto, using(crate::proofs::KeptNames::any_loose))]
    pub fn has_loose(&self) -> bool
        ensures { result ≡ list_any (λ bound. not (is_some bound)) self.now }
    {
        self.loose > 0
    }

    /// The value that a name has at an offset: undef where it is bound to nothing.
    pub fn resolve(&self, name: u64, offset: i64) -> Value
        ensures { result ≡ meaning.resolved self.now name offset }
    {
        match self.bound.get(name as usize) {
            Some(Some(block)) => Value::Ptr(*block, offset),
            _ => Value::Undef,
        }
    }

    fn is_unnamed(&self, blocks: &Blocks, block: BlockId) -> bool
        ensures { result ≡ meaning.is_unnamed blocks.now self.now block }
    {
        block < blocks.count() && !self.is_named(block)
    }

    fn show_next(&mut self, bound: Option<BlockId>, offset: i64) -> Result<Shown, ShowEnd>
        ensures ok { IfOk result (λ s. meaning.under_next self.old bound offset ≡ (s, self.new)) }
        ensures err { IfErr result (λ e. (e ≡ end.Memory) × (self.new ≡ self.old)) }
    {
        match self.bind(bound) {
            Ok(name) => Ok(Shown::Name(name, offset)),
            Err(_) => Err(ShowEnd::Memory),
        }
    }

    /// Whether undef of the kind may be taken for that.
    pub fn may_pick(&self, kind: Kind, shown: Shown) -> bool
        ensures { meaning.picked kind self.now shown ≡ meaning.shown_if result shown self.now }
    {
        match (kind, shown) {
            (Kind::Int(width), Shown::Num(number)) => fits(number, width),
            (Kind::Ptr, Shown::Name(name, _)) => name < self.count(),
            (Kind::Ptr, Shown::Bare(_)) => true,
            (Kind::Int(_), Shown::Name(_, _)) => false,
            (Kind::Int(_), Shown::Bare(_)) => false,
            (Kind::Ptr, Shown::Num(_)) => false,
        }
    }

    /// Whether undef of the kind may be taken for the next name, bound so.
    fn may_bind(&self, kind: Kind, blocks: &Blocks, bound: Option<BlockId>) -> bool
        ensures { (offset : ℤ) → meaning.fresh kind blocks.now self.now bound offset ≡ meaning.next_if result self.now bound offset }
    {
        match (kind, bound) {
            (Kind::Int(_), _) => false,
            (Kind::Ptr, None) => true,
            (Kind::Ptr, Some(block)) => self.is_unnamed(blocks, block),
        }
    }

    fn show_chosen(
        &mut self,
        kind: Kind,
        blocks: &Blocks,
        choice: Option<&Choice>,
    ) -> Result<Shown, ShowEnd>
        ensures { meaning.Chooses self.old (meaning.chosen_maybe kind blocks.now self.old (option_copied choice.entry)) result self.new }
    {
        match choice {
            Some(Choice::Pick(shown)) => {
                if self.may_pick(kind, *shown) {
                    Ok(*shown)
                } else {
                    Err(ShowEnd::NoChoice)
                }
            }
            Some(Choice::Fresh(bound, offset)) => {
                if self.may_bind(kind, blocks, *bound) {
                    self.show_next(*bound, *offset)
                } else {
                    Err(ShowEnd::NoChoice)
                }
            }
            _ => Err(ShowEnd::NoChoice),
        }
    }

    /// Shows a value of the kind. Undef is shown as the choice takes it; a pointer to a block that has no name is shown by the next, which is
    /// then bound to it.
    #[tactic(auto, using(crate::proofs::NamesShown::taken_all, crate::proofs::NamesShown::chosen_keeps, crate::proofs::NamesShown::next_keeps, crate::proofs::NamesShown::shown_named, crate::proofs::NamesShown::shown_next, crate::proofs::NamesShown::chosen_ok, crate::proofs::NamesShown::chosen_wrong, crate::proofs::NamesShown::chosen_lacks, crate::proofs::NamesShown::chosen_err))]
    pub fn show(
        &mut self,
        value: &Value,
        kind: Kind,
        blocks: &Blocks,
        choice: Option<&Choice>,
    ) -> Result<Shown, ShowEnd>
        ensures ok { IfOk result (λ s. meaning.IsShown value.now kind blocks.now self.old s self.new) }
        ensures wrong { (result ≡ Err end.Wrong) ↔ (value.now ≡ Poison) }
        ensures no_choice { (result ≡ Err end.NoChoice) ↔ ((value.now ≡ Undef) × (meaning.chosen_maybe kind blocks.now self.old (option_copied choice.entry) ≡ None)) }
        ensures chosen { value.now ≡ Undef
            → meaning.Chooses self.old (meaning.chosen_maybe kind blocks.now self.old (option_copied choice.entry)) result self.new }
        ensures err { OnErr result (self.new ≡ self.old) }
        ensures kept { take (length self.old) self.new ≡ self.old }
    {
        match value {
            Value::Num(number) => Ok(Shown::Num(*number)),
            Value::Bare(address) => Ok(Shown::Bare(*address)),
            Value::Ptr(block, offset) => match self.name_of(*block) {
                Some(name) => Ok(Shown::Name(name, *offset)),
                None => self.show_next(Some(*block), *offset),
            },
            Value::Undef => self.show_chosen(kind, blocks, choice),
            Value::Poison => Err(ShowEnd::Wrong),
        }
    }
}
