//! The names of a function with what they are, the types of its registers, and what is at fault in names and numbers (LangRef 3.7,
//! Identifiers).
ghost use Rattle.std.specs.Prelude.{◌≡◌, ◌∷◌, [], None, Some, cond, is_some, map, IfOk, IfSome, OnOk};
ghost use Rattle.std.specs.List.{flat_map};
ghost use Rattle.std.specs.Option.{option_copied, option_map};
ghost use Rattle.derivation_cursor.specs.At.{Passes, PassesAll, ahead_of};
ghost use Rattle.module_derivations.specs.FlatMarks.Flat.{skip};
ghost use Rattle.ir_core.specs.Typing as typing;
ghost use Rattle.ir_types.specs.declared.names.Name.{Name as NameOf};
ghost use Rattle.module_derivations.specs.Blocks as see;
ghost use Rattle.module_derivations.specs.Empty.{made};
ghost use Rattle.module_derivations.specs.Functions.{param};
ghost use Rattle.module_walk.specs.Items as part;
ghost use Rattle.named_modules.specs.Built as built;
ghost use Rattle.named_modules.specs.Constants as constants;
ghost use Rattle.named_modules.specs.Faults as meaning;
ghost use Rattle.named_modules.specs.Faults.{thing_of};
ghost use Rattle.named_modules.specs.Functions as functions;
ghost use Rattle.fault_walk.specs.Names as kept;
ghost use Rattle.fault_walk.specs.Names.{also, counted_in, is_taken, place_of, thing_by, thing_seen, with_thing, with_things};
ghost use Rattle.fault_walk.specs.Told.{faults_more, noted};

use crate::constants::{Path, read_global_name};
use crate::sight::Sight;
use crate::told::{Told, at, note, note_unless};
use derivation_cursor::{Cursor, read_name, skip_part};
use ir_core::{BitType, Block, Element, Expr, Function, Instr, Name, Param, Phi, Ty};
use ir_typing::{LentNames, LentTypes, number_in};
use module_derivations::rule;
use module_grammar::Placed;
use module_walk::read_register;
use name_claims::{Fault, Reason};
use std::alloc::{AllocError, Global};
use std::collections::HashMap;
use std::marker::Model;

// ---- what names are

/// A block, or a register with its type, if it has one.
#[derive(Clone, Copy)]
pub(crate) enum Thing<'a> {
    Block,
    Register(Option<&'a Ty>),
}

/// The names of blocks, and those of registers with their types.
pub(crate) struct Names<'a> {
    labels: LentNames<'a>,
    types: LentTypes<'a>,
}

impl<'a> Drop for Names<'a> {
    fn drop(self) {
        let Names {
            labels: _,
            types: _,
        } = self;
    }
}

/// Whether the indices of an address lead somewhere.
fn leads_somewhere<'a>(sight: &Sight<'a>, element: &'a Element<Name>) -> bool
    ensures { result ≡ is_some (typing.element_type sight.now.types element.now.of (map typing.index_of element.now.indices)) }
{
    let mut path = Path::new(sight, &element.of);
    for index in element.indices.as_slice() {
        path.step(sight, &index.ty, number_in(&index.atom));
    }
    path.pointed().is_some()
}

/// Whether the line gives its register a type.
fn gives_type<'a>(sight: &Sight<'a>, line: &'a Instr) -> bool
    ensures { result ≡ functions.gives_type sight.now.types line.now }
{
    match line {
        Instr::Calm(calm) => match &calm.right {
            Expr::Element(element) => leads_somewhere(sight, element.get()),
            _ => true,
        },
        _ => true,
    }
}

/// The type of a line's register, where the line gives it.
fn given<'a>(sight: &Sight<'a>, line: &'a Instr, ty: &'a Ty) -> Option<&'a Ty>
    ensures { option_copied result ≡ cond (functions.gives_type sight.now.types line.now) (Some ty.now) None }
{
    if gives_type(sight, line) {
        Some(ty)
    } else {
        None
    }
}

impl<'a> Names<'a> {
    /// None is kept, and there is room for those of the function.
    #[tactic(auto, using(crate::proofs::Kept::none_there))]
    fn for_function(alloc: Global, function: &Function) -> Result<Names<'a>, AllocError>
        ensures { IfOk result (λ it. thing_by it ≡ kept.none_known) }
    {
        Ok(Names {
            labels: LentNames::with_room(alloc, function.blocks.len())?,
            types: LentTypes::for_function(alloc, function)?,
        })
    }

    /// What is kept of the name.
    #[tactic(auto, unfolding(crate::specs::Names::thing_by))]
    fn get(&self, name: &Name) -> Option<Thing<'a>>
        ensures { option_map thing_seen result ≡ thing_by self.now name.now }
    {
        if self.labels.has(name) {
            return Some(Thing::Block);
        }
        match self.types.get(name) {
            Some(ty) => Some(Thing::Register(ty)),
            None => None,
        }
    }

    /// The name of a block, unless it is there.
    fn put_label(&mut self, name: &'a Name) -> Result<(), AllocError>
        ensures { OnOk result (thing_by self.new ≡ with_thing (thing_by self.old) (name.now, meaning.Block')) }
    {
        if self.types.get(name).is_some() {
            return Ok(());
        }
        self.labels.take(name)?;
        Ok(())
    }

    /// The name of a register with its type, unless it is there.
    #[tactic(auto, using(crate::proofs::Kept::register_there, crate::proofs::Kept::register_put))]
    fn put_register(&mut self, name: &'a Name, ty: Option<&'a Ty>) -> Result<(), AllocError>
        ensures { OnOk result (thing_by self.new ≡ with_thing (thing_by self.old) (name.now, meaning.Register' (option_copied ty.entry))) }
    {
        if self.labels.has(name) {
            return Ok(());
        }
        self.types.put(name, ty)
    }

    fn put_params(&mut self, params: &'a [Param]) -> Result<(), AllocError>
        ensures { OnOk result (thing_by self.new ≡ with_things (thing_by self.old) (map kept.param_thing params.now)) }
    {
        for param in params {
            self.put_register(&param.name, Some(&param.ty))?;
        }
        Ok(())
    }

    fn put_phis(&mut self, phis: &'a [Phi]) -> Result<(), AllocError>
        ensures { OnOk result (thing_by self.new ≡ with_things (thing_by self.old) (map kept.phi_thing phis.now)) }
    {
        for phi in phis {
            self.put_register(&phi.name, Some(&phi.ty))?;
        }
        Ok(())
    }

    #[tactic(auto, using(crate::proofs::Kept::one_register, crate::proofs::Kept::no_register))]
    fn put_line(
        &mut self,
        sight: &Sight<'a>,
        bit: &'a BitType,
        line: &'a Instr,
    ) -> Result<(), AllocError>
        ensures { OnOk result (thing_by self.new ≡ with_things (thing_by self.old) (kept.line_things sight.now.types line.now)) }
    {
        match line.register(bit) {
            Some((name, ty)) => self.put_register(name, given(sight, line, ty)),
            None => Ok(()),
        }
    }

    fn put_lines(
        &mut self,
        sight: &Sight<'a>,
        bit: &'a BitType,
        lines: &'a [Instr],
    ) -> Result<(), AllocError>
        ensures { OnOk result (thing_by self.new ≡ with_things (thing_by self.old) (flat_map (kept.line_things sight.now.types) lines.now)) }
    {
        for line in lines {
            self.put_line(sight, bit, line)?;
        }
        Ok(())
    }

    #[tactic(auto, using(crate::proofs::Kept::block_put))]
    fn put_block(
        &mut self,
        sight: &Sight<'a>,
        bit: &'a BitType,
        block: &'a Block,
    ) -> Result<(), AllocError>
        ensures { OnOk result (thing_by self.new ≡ with_things (thing_by self.old) (meaning.things_in sight.now.types block.now)) }
    {
        self.put_label(&block.name)?;
        self.put_phis(block.phis.as_slice())?;
        self.put_lines(sight, bit, block.body.as_slice())
    }

    fn put_blocks(
        &mut self,
        sight: &Sight<'a>,
        bit: &'a BitType,
        blocks: &'a [Block],
    ) -> Result<(), AllocError>
        ensures { OnOk result (thing_by self.new ≡ with_things (thing_by self.old) (flat_map (meaning.things_in sight.now.types) blocks.now)) }
    {
        for block in blocks {
            self.put_block(sight, bit, block)?;
        }
        Ok(())
    }
}

/// A function that is built, and what is asked of its names beside the heads of its module. Contracts see it as these and the function's
/// things.
pub(crate) struct Within<'a> {
    sight: &'a Sight<'a>,
    function: &'a Function,
    names: Names<'a>,
}

impl<'a> Model for Within<'a> {
    ghost use Rattle.std.specs.Coded.{codes};
    ghost use Rattle.ir_types.specs.contracts.ty.Ty as ty;
    ghost use Rattle.ir_core.specs.contracts.operands.Const as constant;
    ghost use Rattle.ir_core.specs.contracts.modules.Init as init;
    ghost use Rattle.fault_walk.specs.Names.{IsKept, Place, place_of};

    ghost Value = { Place };

    ghost coded = { Prim.hlevel (codes, ty.the_row.coded, constant.the_row.coded, init.the_row.coded) };

    ghost view = { λ it. place_of it.sight.now it.function.now };

    ghost invariant = { λ it. IsKept it.names (place_of it.sight.now it.function.now).things };
}

impl<'a> Drop for Within<'a> {
    fn drop(self) {
        let Within {
            sight: _,
            function: _,
            names: _,
        } = self;
    }
}

impl<'a> Within<'a> {
    /// The function beside these heads.
    #[tactic(auto, using(crate::proofs::Kept::all_kept))]
    pub(crate) fn new(
        alloc: Global,
        sight: &'a Sight<'a>,
        function: &'a Function,
        bit: &'a BitType,
    ) -> Result<Within<'a>, AllocError>
        ensures { IfOk result (λ it. it ≡ place_of sight.now «function».now) }
    {
        let mut names = Names::for_function(alloc, function)?;
        names.put_params(function.params.as_slice())?;
        names.put_blocks(sight, bit, function.blocks.as_slice())?;
        Ok(Within {
            sight,
            function,
            names,
        })
    }

    /// The heads of the module.
    pub(crate) fn sight(&self) -> &'a Sight<'a>
        ensures { result.now ≡ self.now.heads }
    {
        self.sight
    }

    /// What the first of that name is.
    pub(crate) fn get(&self, name: &Name) -> Option<Thing<'a>>
        ensures { option_map thing_seen result ≡ thing_of self.now.things name.now }
    {
        let _ = &self.function;
        self.names.get(name)
    }
}

// ---- names that are taken

/// Names that are taken. Numbers are mostly taken one after the other from 0 on; those that aren't stand apart, as do names of text.
pub(crate) struct Taken {
    counted: u64,
    names: HashMap<Name, ()>,
}

impl Drop for Taken {
    fn drop(self) {
        let Taken {
            counted: _,
            names: _,
        } = self;
    }
}

impl Taken {
    #[tactic(auto, using(crate::proofs::Taken::none_there))]
    fn new(alloc: Global) -> Taken
        ensures { is_taken result ≡ kept.none_taken }
    {
        Taken {
            counted: 0,
            names: HashMap::new(alloc),
        }
    }

    #[tactic(auto, unfolding(crate::specs::Names::is_taken))]
    fn has(&self, name: &Name) -> bool
        ensures { result ≡ is_taken self.now name.now }
    {
        let is_apart = self.names.get(name).is_some();
        match name {
            Name::Text(_) => is_apart,
            Name::Number(number) => u64::from(*number) < self.counted || is_apart,
        }
    }

    /// A name more, where it isn't taken.
    #[tactic(auto, using(crate::proofs::Taken::counted_put, crate::proofs::Taken::put_apart))]
    fn put(&mut self, name: Name) -> Result<(), AllocError>
        ensures { OnOk result (is_taken self.new ≡ also (is_taken self.old) name) }
    {
        if let Name::Number(number) = &name {
            if u64::from(*number) == self.counted {
                self.counted = u64::from(*number) + 1;
                return Ok(());
            }
        }
        self.names.insert(name, ())?;
        Ok(())
    }

    /// A name more.
    #[tactic(auto, using(crate::proofs::Taken::there))]
    fn take(&mut self, name: Name) -> Result<(), AllocError>
        ensures { OnOk result (is_taken self.new ≡ also (is_taken self.old) name) }
    {
        if self.has(&name) {
            return Ok(());
        }
        self.put(name)
    }
}

// ---- what is written

/// The names that are taken, the number that is due, and the first fault.
pub(crate) struct Walk {
    taken: Taken,
    due: u64,
    told: Told,
}

impl Drop for Walk {
    fn drop(self) {
        let Walk {
            taken: _,
            due: _,
            told: _,
        } = self;
    }
}

/// A number is the one that is due.
pub(crate) fn note_number(due: u64, name: &Placed<Name>, told: &mut Told)
    ensures { told.new ≡ faults_more (meaning.number_faults due name.now name.now.what) told.old }
{
    match &name.what {
        Name::Text(_) => {}
        Name::Number(number) => {
            let fits = u64::from(*number) == due;
            note_unless(told, fits, at(name, Reason::WrongNumber(due)));
        }
    }
}

/// The number that is due behind a name, if it can be counted.
pub(crate) fn due_after(due: u64, name: &Name) -> Option<u64>
    ensures { IfSome result (λ next. next ≡ built.due_after due name.now) }
{
    match name {
        Name::Text(_) => Some(due),
        Name::Number(_) => due.checked_add(1),
    }
}

impl Walk {
    ghost use Rattle.module_grammar.specs.declared.places.Placed.{Placed as PlacedOf};

    fn new(alloc: Global) -> Walk
        ensures { counted_in result ≡ kept.none_counted }
    {
        Walk {
            taken: Taken::new(alloc),
            due: 0,
            told: Told {
                fault: None,
                large: None,
            },
        }
    }

    /// The name is taken, and this number is due behind it, if it can be counted.
    fn go_on(&mut self, name: Name, due: Option<u64>) -> Result<(), AllocError>
        ensures due { OnOk result (Some self.new.due ≡ due) }
        ensures taken { OnOk result (is_taken self.new.taken ≡ also (is_taken self.old.taken) name) }
        ensures told { self.new.told ≡ self.old.told }
    {
        match due {
            Some(due) => {
                self.due = due;
                self.taken.take(name)
            }
            None => Err(AllocError),
        }
    }

    /// A name that is written is new, and a number is the one that is due.
    fn define_name(&mut self, name: Placed<Name>) -> Result<(), AllocError>
        ensures { OnOk result ((whole : PlacedOf NameOf) → counted_in self.new ≡ kept.with_written whole (counted_in self.old) (meaning.defined (Some name))) }
    {
        let is_taken = self.taken.has(&name.what);
        note_unless(&mut self.told, !is_taken, at(&name, Reason::Twice));
        note_number(self.due, &name, &mut self.told);
        let due = due_after(self.due, &name.what);
        self.go_on(name.what, due)
    }

    /// A name that isn't written is the number that is due, which some name has.
    #[tactic(auto, using(crate::proofs::Written::one_numbered))]
    fn define_number(&mut self, whole: &Placed<Name>) -> Result<(), AllocError>
        ensures { OnOk result (counted_in self.new ≡ kept.with_written whole.now (counted_in self.old) (meaning.defined None)) }
    {
        let fits = self.due < 4_294_967_296;
        note_unless(&mut self.told, fits, at(whole, Reason::WrongType));
        let number = if fits { self.due as u32 } else { 0 };
        let due = self.due.checked_add(1);
        self.go_on(Name::Number(number), due)
    }

    /// A name that is defined.
    fn define(&mut self, whole: &Placed<Name>, name: Option<Placed<Name>>) -> Result<(), AllocError>
        ensures { OnOk result (counted_in self.new ≡ kept.with_written whole.now (counted_in self.old) (meaning.defined name)) }
    {
        match name {
            Some(name) => self.define_name(name),
            None => self.define_number(whole),
        }
    }

    /// What is written before a line without result.
    #[tactic(auto, using(crate::proofs::Written::none_passed))]
    fn pass(&mut self, name: Option<Placed<Name>>)
        ensures { (whole : PlacedOf NameOf) → counted_in self.new ≡ kept.with_written whole (counted_in self.old) (kept.undefined name) }
    {
        if let Some(name) = name {
            let is_taken = self.taken.has(&name.what);
            note_unless(&mut self.told, !is_taken, at(&name, Reason::Twice));
            note(&mut self.told, at(&name, Reason::WrongType));
        }
    }
}

// ---- what a definition writes

/// Passes four parts.
pub(crate) fn skip_four(c: &mut Cursor)
    ensures { PassesAll 4 c.old c.new }
{
    skip_part(c);
    skip_part(c);
    skip_part(c);
    skip_part(c);
}

/// `[LOCAL]`
fn read_param_name(alloc: Global, c: &mut Cursor) -> Result<Option<Placed<Name>>, AllocError>
    ensures said { IfOk result (λ it. it ≡ (made (ahead_of c.old)).param_name) }
    ensures passes { OnOk result (Passes c.old c.new) }
{
    match c.rule() {
        Some(rule::NAMED) => Ok(Some(read_name(alloc, c)?)),
        other => {
            c.pass(other);
            Ok(None)
        }
    }
}

/// `[LABEL]`, without its `:`
fn read_label(alloc: Global, c: &mut Cursor) -> Result<Option<Placed<Name>>, AllocError>
    ensures said { IfOk result (λ it. it ≡ built.label_name (made (ahead_of c.old)).block_label) }
    ensures passes { OnOk result (Passes c.old c.new) }
{
    match c.rule() {
        Some(rule::LABEL) => {
            let mut name = read_name(alloc, c)?;
            name.end = name.end.saturating_sub(1);
            Ok(Some(name))
        }
        other => {
            c.pass(other);
            Ok(None)
        }
    }
}

/// `T attributes [LOCAL]`
fn write_param(
    alloc: Global,
    whole: &Placed<Name>,
    c: &mut Cursor,
    walk: &mut Walk,
) -> Result<(), AllocError>
    ensures written { OnOk result (counted_in walk.new ≡ kept.with_written whole.now (counted_in walk.old) (meaning.defined (param (ahead_of c.old)).name)) }
    ensures passes { OnOk result (PassesAll 4 c.old c.new) }
{
    skip_part(c);
    skip_part(c);
    skip_part(c);
    let name = read_param_name(alloc, c)?;
    walk.define(whole, name)
}

#[tactic(auto, using(crate::proofs::Differ::differ, crate::proofs::Written::no_params, crate::proofs::Written::no_more_params))]
fn write_params(
    alloc: Global,
    whole: &Placed<Name>,
    c: &mut Cursor,
    walk: &mut Walk,
) -> Result<(), AllocError>
    ensures written { OnOk result (counted_in walk.new ≡ kept.with_all whole.now (counted_in walk.old) (kept.params_written (made (ahead_of c.old)).params)) }
    ensures passes { OnOk result (Passes c.old c.new) }
{
    match c.rule() {
        Some(rule::PARAMS) => write_param(alloc, whole, c, walk)?,
        other => {
            c.pass(other);
            return Ok(());
        }
    }
    loop {
        match c.rule() {
            Some(rule::MORE_PARAMS) => write_param(alloc, whole, c, walk)?,
            other => {
                c.pass(other);
                return Ok(());
            }
        }
    }
}

/// `void`, or the type of what a call gives.
#[tactic(auto, using(crate::proofs::Written::no_result))]
fn is_result_stated(c: &mut Cursor) -> bool
    ensures said { result ≡ is_some (made (ahead_of c.old)).result_type }
    ensures passes { Passes c.old c.new }
{
    match c.rule() {
        Some(rule::TYPED_RESULT) => {
            skip_part(c);
            skip_part(c);
            true
        }
        other => {
            c.pass(other);
            false
        }
    }
}

/// `callee call_end`: whether the result's type is stated.
fn read_callee_sets(c: &mut Cursor) -> bool
    ensures said { result ≡ is_some (made (ahead_of c.old)).result_type }
    ensures passes { PassesAll 5 c.old c.new }
{
    let sets = is_result_stated(c);
    skip_four(c);
    sets
}

/// The call behind `call` sets its result, but for `void`.
#[tactic(auto, using(crate::proofs::Written::no_call))]
fn read_call_sets(c: &mut Cursor) -> bool
    ensures said { result ≡ kept.call_sets (made (ahead_of c.old)).call_body }
    ensures passes { Passes c.old c.new }
{
    match c.rule() {
        Some(rule::CONVENTION_CALL) => {
            skip_part(c);
            read_callee_sets(c)
        }
        Some(rule::ATTRIBUTES_CALL) => {
            skip_part(c);
            skip_part(c);
            read_callee_sets(c)
        }
        Some(rule::TYPED_CALL) => {
            c.pass(Some(rule::TYPED_CALL));
            true
        }
        other => {
            c.pass(other);
            false
        }
    }
}

/// Whether a line sets something, which is passed.
#[tactic(auto, using(crate::proofs::Written::call_sets_so, crate::proofs::Written::sets_else))]
fn read_sets(c: &mut Cursor) -> bool
    ensures said { result ≡ meaning.sets (made (ahead_of c.old)).attach.instruction }
    ensures passes { Passes c.old c.new }
{
    match c.rule() {
        Some(rule::STORE) => {
            c.pass(Some(rule::STORE));
            false
        }
        Some(rule::TAIL_CALL) => {
            let sets = read_call_sets(c);
            skip_part(c);
            sets
        }
        Some(rule::CALL) => {
            let sets = read_call_sets(c);
            skip_part(c);
            sets
        }
        other => {
            c.pass(other);
            true
        }
    }
}

/// A line behind its register.
fn write_line_behind(
    whole: &Placed<Name>,
    register: Option<Placed<Name>>,
    c: &mut Cursor,
    walk: &mut Walk,
) -> Result<(), AllocError>
    ensures written { OnOk result (counted_in walk.new ≡ kept.with_written whole.now (counted_in walk.old) (kept.written_behind register (made (ahead_of c.old)).attach)) }
    ensures passes { OnOk result (Passes c.old c.new) }
{
    if read_sets(c) {
        walk.define(whole, register)
    } else {
        walk.pass(register);
        Ok(())
    }
}

#[tactic(auto, using(crate::proofs::Differ::differ, crate::proofs::Written::no_lines))]
fn write_lines(
    alloc: Global,
    whole: &Placed<Name>,
    c: &mut Cursor,
    walk: &mut Walk,
) -> Result<(), AllocError>
    ensures written { OnOk result (counted_in walk.new ≡ kept.with_all whole.now (counted_in walk.old) (kept.lines_written (made (ahead_of c.old)).lines)) }
    ensures passes { OnOk result (Passes c.old c.new) }
{
    loop {
        match c.rule() {
            Some(rule::LINES) => {
                let register = read_register(alloc, c)?;
                write_line_behind(whole, register, c, walk)?;
            }
            other => {
                c.pass(other);
                return Ok(());
            }
        }
    }
}

/// What stands in a block before its terminator.
#[tactic(auto, using(crate::proofs::Differ::differ, crate::proofs::Written::no_body, crate::proofs::Written::no_behind_register))]
fn write_body(
    alloc: Global,
    whole: &Placed<Name>,
    c: &mut Cursor,
    walk: &mut Walk,
) -> Result<(), AllocError>
    ensures written { OnOk result (counted_in walk.new ≡ kept.with_all whole.now (counted_in walk.old) (kept.body_written (made (ahead_of c.old)).body)) }
    ensures passes { OnOk result (Passes c.old c.new) }
{
    loop {
        match c.rule() {
            Some(rule::BODY) => {
                let register = read_register(alloc, c)?;
                match c.rule() {
                    Some(rule::BEHIND_PHI) => {
                        walk.define(whole, register)?;
                        skip_four(c);
                        skip_part(c);
                        skip_part(c);
                    }
                    Some(rule::BEHIND_LINE) => {
                        write_line_behind(whole, register, c, walk)?;
                        return write_lines(alloc, whole, c, walk);
                    }
                    other => {
                        c.pass(other);
                        return walk.define(whole, register);
                    }
                }
            }
            other => {
                c.pass(other);
                return Ok(());
            }
        }
    }
}

/// A block's label, its phi nodes and its lines.
fn write_block(
    alloc: Global,
    whole: &Placed<Name>,
    c: &mut Cursor,
    walk: &mut Walk,
) -> Result<(), AllocError>
    ensures written { OnOk result (counted_in walk.new ≡ kept.with_all whole.now (counted_in walk.old) (meaning.block_written (see.block (ahead_of c.old)))) }
    ensures passes { OnOk result (PassesAll 4 c.old c.new) }
{
    let label = read_label(alloc, c)?;
    walk.define(whole, label)?;
    write_body(alloc, whole, c, walk)?;
    skip_part(c);
    skip_part(c);
    Ok(())
}

/// Blocks one by one.
#[tactic(auto, using(crate::proofs::Differ::differ, crate::proofs::Written::no_blocks))]
fn write_blocks(
    alloc: Global,
    whole: &Placed<Name>,
    c: &mut Cursor,
    walk: &mut Walk,
) -> Result<(), AllocError>
    ensures written { OnOk result (counted_in walk.new ≡ kept.with_blocks whole.now (counted_in walk.old) (see.block (ahead_of c.old) ∷ (made (skip 4 (ahead_of c.old))).blocks)) }
    ensures passes { OnOk result (PassesAll 5 c.old c.new) }
{
    write_block(alloc, whole, c, walk)?;
    loop {
        match c.rule() {
            Some(rule::BLOCKS) => write_block(alloc, whole, c, walk)?,
            other => {
                c.pass(other);
                return Ok(());
            }
        }
    }
}

/// What is at fault in the names and numbers that a definition writes, where the walk stands behind its word.
pub(crate) fn note_names(alloc: Global, c: &mut Cursor) -> Result<Option<Fault>, AllocError>
    ensures { IfOk result (λ it. it ≡ noted (meaning.written_faults (constants.global_name (part.definition (ahead_of c.old)).head.name) [] 0 (meaning.function_written (part.definition (ahead_of c.old)))) None) }
{
    skip_four(c);
    let whole = read_global_name(alloc, c)?;
    let mut walk = Walk::new(alloc);
    write_params(alloc, &whole, c, &mut walk)?;
    skip_four(c);
    write_blocks(alloc, &whole, c, &mut walk)?;
    Ok(walk.told.fault)
}
