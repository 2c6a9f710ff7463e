//! What is found by its name without a walk.
ghost use Rattle.std.specs.Prelude.{◌≡◌, [], ◌∷◌, ◌++◌, length, map, cond, slice_set, get_or, ◌<◌, find, filter, None, IfOk, OnOk};
ghost use Rattle.std.specs.Option.{option_copied};
ghost use Rattle.ir_types.specs.declared.names.Name.{Name};
ghost use Rattle.ir_types.specs.Same.{same_name};
ghost use Rattle.ir_core.specs.NameIndexes.Among.{place_among};
ghost use Rattle.line_align.specs.Grouped.{group_of};

use crate::named::Named;
use contents::Seq;
use ir_core::{Name, NameIndex};
use std::alloc::{AllocError, Global};
use std::marker::Model;

/// Things by their names. Several of one name stand in their order.
pub struct ByName<'a, T: Named> {
    items: &'a [T],
    names: NameIndex,
    groups: Vec<Seq<&'a T>>,
    none: Seq<&'a T>,
}

impl<'a, T: Named> Model for ByName<'a, T> {
    ghost use Rattle.std.specs.Prelude.{◌≡◌, List, [], filter, length};
    ghost use Rattle.ir_types.specs.declared.names.Name.{Name};
    ghost use Rattle.ir_types.specs.Same.{same_name};
    ghost use Rattle.line_align.specs.Grouped.{group_of};

    ghost Value = { List T };

    ghost view = { λ it. it.items.now };

    ghost invariant = { λ it. (it.none ≡ [])
        × (length it.groups.items ≡ length it.names)
        × ((x : Name) → group_of x it.names it.groups.items ≡ filter (λ item. same_name (T.named item) x) it.items.now) };
}

impl<'a, T: Named> Drop for ByName<'a, T> {
    fn drop(self) {
        let ByName {
            items: _,
            names: _,
            groups: _,
            none: _,
        } = self;
    }
}

/// Puts one thing behind those of its name.
fn join<'a, T: Named>(groups: &mut Vec<Seq<&'a T>>, k: usize, item: &'a T) -> Result<(), AllocError>
    requires { k < length groups.old.items }
    ensures { OnOk result
        (groups.new.items ≡ slice_set groups.old.items k (get_or groups.old.items k [] ++ item.entry ∷ [])) }
{
    let group = &mut groups[k];
    group.push(item)
}

/// Puts a group of one thing behind the others.
fn begin<'a, T: Named>(
    alloc: Global,
    groups: &mut Vec<Seq<&'a T>>,
    item: &'a T,
) -> Result<(), AllocError>
    ensures { OnOk result (groups.new.items ≡ groups.old.items ++ (item.entry ∷ []) ∷ []) }
{
    let mut group = Seq::new(alloc);
    group.push(item)?;
    groups.push(group)?;
    Ok(())
}

/// Puts a name that is new behind the others.
#[tactic(auto, using(crate::proofs::Grouping::not_among))]
fn add(alloc: Global, names: &mut NameIndex, name: &Name) -> Result<(), AllocError>
    requires { place_among name.now names.old ≡ None }
    ensures { OnOk result (names.new ≡ names.old ++ name.now ∷ []) }
{
    names.add(alloc, name)?;
    Ok(())
}

/// Puts a thing to those of its name.
#[tactic(auto, using(crate::proofs::Grouping::begun_at, crate::proofs::Grouping::one_longer))]
fn place<'a, T: Named>(
    alloc: Global,
    names: &mut NameIndex,
    groups: &mut Vec<Seq<&'a T>>,
    item: &'a T,
) -> Result<(), AllocError>
    requires { length groups.old.items ≡ length names.old }
    ensures many { OnOk result (length groups.new.items ≡ length names.new) }
    ensures grouped { OnOk result
        ((x : Name) → group_of x names.new groups.new.items
        ≡ group_of x names.old groups.old.items ++ cond (same_name (T.named item.now) x) (item.now ∷ []) []) }
{
    match names.position(item.name()) {
        Some(k) => {
            join(groups, k, item)?;
            Ok(())
        }
        None => {
            begin(alloc, groups, item)?;
            add(alloc, names, item.name())
        }
    }
}

/// The group at a place.
fn group_at<'b, 'a, T: Named>(
    groups: &'b [Seq<&'a T>],
    none: &'b Seq<&'a T>,
    k: usize,
) -> &'b Seq<&'a T>
    requires { none.now ≡ [] }
    ensures { result.now ≡ get_or groups.now k [] }
{
    if let Some(group) = groups.get(k) {
        return group;
    }
    none
}

impl<'a, T: Named> ByName<'a, T> {
    #[tactic(auto, using(crate::proofs::Grouping::one_more))]
    pub fn new(alloc: Global, items: &'a [T]) -> Result<ByName<'a, T>, AllocError>
        ensures { IfOk result (λ by. by ≡ items.now) }
    {
        let mut names = NameIndex::with_room(alloc, items.len())?;
        let mut groups = Vec::new(alloc);
        for item in items {
            place(alloc, &mut names, &mut groups, item)?;
        }
        Ok(ByName {
            items,
            names,
            groups,
            none: Seq::new(alloc),
        })
    }

    /// All of that name, in their order.
    pub fn all(&self, name: &Name) -> &[&'a T]
        ensures { map (λ item. item.now) result.now ≡ filter (λ item. same_name (T.named item) name.now) self.now }
    {
        let _ = &self.items;
        match self.names.position(name) {
            Some(k) => group_at(self.groups.as_slice(), &self.none, k).as_slice(),
            None => self.none.as_slice(),
        }
    }

    /// The first of that name.
    pub fn first(&self, name: &Name) -> Option<&'a T>
        ensures { option_copied result ≡ find (λ item. same_name (T.named item) name.now) self.now }
    {
        match self.all(name).first() {
            Some(item) => Some(*item),
            None => None,
        }
    }
}
