//! The phis of a block, and when those of two sides match.
ghost use Rattle.std.specs.Prelude.{◌≡◌, ◌++◌, [], IfOk, map, slice_get};
ghost use Rattle.std.specs.Option.{option_copied};
ghost use Rattle.ir_core.specs.declared.functions.Phi.{Phi};
ghost use Rattle.ir_core.specs.declared.expressions.Reg.TheVariants.{Now};
ghost use Rattle.ir_machine.specs.Machine.{entry_from};
ghost use Rattle.erhl_assert.specs.Edges.{entries_match, phis_match, phi_setting, is_alike};
ghost use Rattle.postcondition.specs.BlockPhis.Phis.{AreTheirNames, AreItsEntries};

use crate::allowed_lines::atoms_matched;
use contents::Boxed;
use erhl_assert::FactSet;
use fact_sets::{Sides, Sort};
use ir_core::{Entry, Name, NameIndex, Phi, Reg, Ty, same_name, same_ty};
use line_align::ByName;
use std::alloc::{AllocError, Global};
use std::marker::Model;

/// From so many phis, or entries of one, on they are found by hash.
const MANY: usize = 8;

/// A phi, of whose entries one is found without a walk.
pub struct IndexedPhi<'a> {
    phi: &'a Phi,
    /// Its entries by their blocks, where they are many.
    by_block: Option<Boxed<ByName<'a, Entry>>>,
}

impl<'a> Model for IndexedPhi<'a> {
    ghost use Rattle.ir_core.specs.declared.functions.Phi.{Phi};
    ghost use Rattle.postcondition.specs.BlockPhis.Phis.{AreItsEntries};
    ghost use Rattle.std.specs.Coded.{codes};
    ghost use Rattle.ir_types.specs.contracts.ty.Ty as ty;
    ghost use Rattle.ir_core.specs.contracts.operands.Const as constant;

    ghost Value = { Phi };

    ghost coded = { Prim.hlevel (codes, ty.the_row.coded, constant.the_row.coded) };

    ghost view = { λ it. it.phi.now };

    ghost invariant = { λ it. AreItsEntries it.by_block it.phi.now };
}

impl<'a> Drop for IndexedPhi<'a> {
    fn drop(self) {
        let IndexedPhi {
            phi: _,
            by_block: _,
        } = self;
    }
}

/// The entries of a phi by their blocks, unless they are few.
fn entries_by_block<'a>(
    alloc: Global,
    phi: &'a Phi,
) -> Result<Option<Boxed<ByName<'a, Entry>>>, AllocError>
    ensures { IfOk result (λ entries. AreItsEntries entries phi.now) }
{
    if phi.entries.len() < MANY {
        return Ok(None);
    }
    let by_block = ByName::new(alloc, phi.entries.as_slice())?;
    Ok(Some(Boxed::new(alloc, by_block)?))
}

/// The first entry for the block, by a walk.
fn first_from<'a>(from: &Name, entries: &'a [Entry]) -> Option<&'a Entry>
    ensures { option_copied result ≡ entry_from from.now entries.now }
{
    for entry in entries {
        if same_name(&entry.from, from) {
            return Some(entry);
        }
    }
    None
}

impl<'a> IndexedPhi<'a> {
    fn of(alloc: Global, phi: &'a Phi) -> Result<IndexedPhi<'a>, AllocError>
        ensures { IfOk result (λ it. it ≡ phi.now) }
    {
        let by_block = entries_by_block(alloc, phi)?;
        Ok(IndexedPhi { phi, by_block })
    }

    pub fn name(&self) -> &'a Name
        ensures { result.now ≡ self.now.name }
    {
        &self.phi.name
    }

    pub fn ty(&self) -> &'a Ty
        ensures { result.now ≡ self.now.ty }
    {
        &self.phi.ty
    }

    /// The first entry for the block.
    pub fn entry_from(&self, from: &Name) -> Option<&'a Entry>
        ensures { option_copied result ≡ entry_from from.now self.now.entries }
    {
        match &self.by_block {
            None => first_from(from, self.phi.entries.as_slice()),
            Some(by_block) => by_block.get().first(from),
        }
    }
}

/// The phis of a block, of which one is found without a walk.
pub struct Phis<'a> {
    phis: Vec<IndexedPhi<'a>>,
    /// The names of their registers, where they are many and no two are one.
    names: Option<Boxed<NameIndex>>,
}

impl<'a> Model for Phis<'a> {
    ghost use Rattle.std.specs.Prelude.{List};
    ghost use Rattle.ir_core.specs.declared.functions.Phi.{Phi};
    ghost use Rattle.postcondition.specs.BlockPhis.Phis.{AreTheirNames};
    ghost use Rattle.std.specs.Coded.{codes};
    ghost use Rattle.ir_types.specs.contracts.ty.Ty as ty;
    ghost use Rattle.ir_core.specs.contracts.operands.Const as constant;

    ghost Value = { List Phi };

    ghost coded = { Prim.hlevel (codes, ty.the_row.coded, constant.the_row.coded) };

    ghost view = { λ it. it.phis.items };

    ghost invariant = { λ it. AreTheirNames it.names it.phis.items };
}

impl<'a> Drop for Phis<'a> {
    fn drop(self) {
        let Phis { phis: _, names: _ } = self;
    }
}

/// The names of the phis' registers, unless the phis are few or two of the names are one.
fn names_of(alloc: Global, phis: &[Phi]) -> Result<Option<Boxed<NameIndex>>, AllocError>
    ensures { IfOk result (λ names. AreTheirNames names phis.now) }
{
    if phis.len() < MANY {
        return Ok(None);
    }
    let mut names = NameIndex::with_room(alloc, phis.len())?;
    for phi in phis {
        if !names.add(alloc, &phi.name)? {
            return Ok(None);
        }
    }
    Ok(Some(Boxed::new(alloc, names)?))
}

/// Each phi with its entries by their blocks.
fn indexed<'a>(alloc: Global, phis: &'a [Phi]) -> Result<Vec<IndexedPhi<'a>>, AllocError>
    ensures { IfOk result (λ found. found.items ≡ phis.now) }
{
    let mut found = Vec::new(alloc);
    for phi in phis {
        found.push(IndexedPhi::of(alloc, phi)?)?;
    }
    Ok(found)
}

/// The first phi that sets the register, by a walk.
fn first_setting<'b, 'a>(phis: &'b [IndexedPhi<'a>], name: &Name) -> Option<&'b IndexedPhi<'a>>
    ensures { option_copied result ≡ phi_setting name.now phis.now }
{
    for phi in phis {
        if same_name(phi.name(), name) {
            return Some(phi);
        }
    }
    None
}

/// The phi of that number.
fn phi_at<'b, 'a>(phis: &'b [IndexedPhi<'a>], place: usize) -> Option<&'b IndexedPhi<'a>>
    ensures { option_copied result ≡ slice_get phis.now place }
{
    phis.get(place)
}

/// The first phi that sets the register, by its name's place among the names.
#[tactic(auto, using(crate::proofs::BlockPhis::PhiLaws::set_there, crate::proofs::BlockPhis::PhiLaws::set_past))]
fn by_name<'b, 'a>(
    phis: &'b [IndexedPhi<'a>],
    names: &NameIndex,
    name: &Name,
) -> Option<&'b IndexedPhi<'a>>
    requires { names.now ≡ map (λ (p : Phi). p.name) phis.now }
    ensures { option_copied result ≡ phi_setting name.now phis.now }
{
    match names.position(name) {
        None => None,
        Some(place) => phi_at(phis, place),
    }
}

impl<'a> Phis<'a> {
    pub fn of(alloc: Global, phis: &'a [Phi]) -> Result<Phis<'a>, AllocError>
        ensures { IfOk result (λ it. it ≡ phis.now) }
    {
        let names = names_of(alloc, phis)?;
        let phis = indexed(alloc, phis)?;
        Ok(Phis { phis, names })
    }

    /// No phis.
    pub fn none(alloc: Global) -> Phis<'a>
        ensures { result ≡ [] }
    {
        Phis {
            phis: Vec::new(alloc),
            names: None,
        }
    }

    pub fn all(&self) -> &[IndexedPhi<'a>]
        ensures { result.now ≡ self.now }
    {
        self.phis.as_slice()
    }

    /// The first phi that sets the register.
    pub fn setting(&self, name: &Name) -> Option<&IndexedPhi<'a>>
        ensures { option_copied result ≡ phi_setting name.now self.now }
    {
        match &self.names {
            None => first_setting(self.phis.as_slice(), name),
            Some(names) => by_name(self.phis.as_slice(), names.get(), name),
        }
    }
}

impl<'a> Sort for Phis<'a> {
    ghost use Rattle.erhl_assert.specs.Edges.{is_of_phi};

    ghost is_of = { is_of_phi };

    #[tactic(auto, using(crate::proofs::BlockPhis::PhiLaws::is_set, crate::proofs::BlockPhis::PhiLaws::isnt_set))]
    fn is_of(&self, register: &Reg) -> bool {
        match register {
            Reg::Now(name) => match self.setting(name) {
                Some(_) => true,
                None => false,
            },
            Reg::Old(_) | Reg::Ghost(_) => false,
        }
    }
}

fn entries_match<S: FactSet>(
    known: &Sides<S>,
    ty: &Ty,
    source: Option<&Entry>,
    target: Option<&Entry>,
) -> bool
    ensures { result ≡ entries_match known.now ty.now (option_copied source.entry) (option_copied target.entry) }
{
    match (source, target) {
        (Some(d), Some(e)) => atoms_matched(ty, &d.value, ty, &e.value, known),
        _ => false,
    }
}

/// Whether two phis are of one type and their operands from the block match.
pub fn phis_match<S: FactSet>(
    known: &Sides<S>,
    from: &Name,
    source: Option<&IndexedPhi<'_>>,
    target: Option<&IndexedPhi<'_>>,
) -> bool
    ensures { result ≡ phis_match known.now from.now (option_copied source.entry) (option_copied target.entry) }
{
    match (source, target) {
        (Some(p), Some(q)) => {
            same_ty(p.ty(), q.ty())
                && entries_match(known, p.ty(), p.entry_from(from), q.entry_from(from))
        }
        _ => false,
    }
}

/// Whether both sides set the register by phis that match before the edge.
pub fn sets_alike<S: FactSet>(
    known: &Sides<S>,
    from: &Name,
    source: &Phis<'_>,
    target: &Phis<'_>,
    name: &Name,
) -> bool
    ensures { result
        ≡ is_alike known.now (record { from = from.now; source = source.now; target = target.now }) (Now name.now) }
{
    phis_match(known, from, source.setting(name), target.setting(name))
}
