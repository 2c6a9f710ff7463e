//! The uses of registers that aren't defined before them in their own block.
ghost use Rattle.std.specs.Prelude.{◌≡◌, ◌++◌, [], ◌∷◌, ℕ, length, map, Some, None, IfOk, OnOk};
ghost use Rattle.std.specs.List.{flat_map};
ghost use Rattle.std.specs.Option.{option_copied};
ghost use Rattle.ir_core.specs.declared.functions.Argument.{Argument};
ghost use Rattle.ir_core.specs.declared.functions.Param.{Param};
ghost use Rattle.ir_core.specs.Expressions.{operands_in};
ghost use Rattle.ir_core.specs.Functions.{names_in, operands_at_end, operands_of, phi_registers, set_by};
ghost use Rattle.definedness.specs.Along.{is_known, left_along, left_by, left_by_entries, left_by_phis, left_in, left_in_block, use_of, with_name, with_names};

use ir_core::{
    Argument, Atom, Block, Element, Entry, Expr, Instr, Name, NameIndex, Operand, Param, Phi,
    Select, Term,
};
use std::alloc::{AllocError, Global};

/// A use of a register: where it is written, and for a phi's use the block at whose end it stands.
#[derive(Drop, Clone, Copy)]
pub(crate) struct Crossing<'a> {
    pub(crate) block: &'a Block,
    pub(crate) line: usize,
    pub(crate) name: &'a Name,
    pub(crate) end_of: Option<&'a Name>,
}

/// The registers that are defined at a place: the function's parameters, and those of the block before the place.
pub(crate) struct Known {
    pub(crate) params: NameIndex,
    pub(crate) own: NameIndex,
}

impl Drop for Known {
    fn drop(self) {
        let Known { params: _, own: _ } = self;
    }
}

pub(crate) fn add(alloc: Global, names: &mut NameIndex, name: &Name) -> Result<(), AllocError>
    ensures { OnOk result (names.new ≡ with_name names.old name.now) }
{
    names.add(alloc, name)?;
    Ok(())
}

/// Whether a register is defined at a place where these are.
fn is_known(known: &Known, name: &Name) -> bool
    ensures { result ≡ is_known known.now.params known.now.own name.now }
{
    known.params.has(name) || known.own.has(name)
}

/// Puts a use behind the others, where its register isn't known.
fn note<'a>(
    known: &Known,
    block: &'a Block,
    line: usize,
    end_of: Option<&'a Name>,
    atom: &'a Atom<Name>,
    uses: &mut Vec<Crossing<'a>>,
) -> Result<(), AllocError>
    ensures { OnOk result
        (map use_of uses.new.items
        ≡ map use_of uses.old.items ++ left_in known.now.params known.now.own block.now line (option_copied end_of.entry) atom.now) }
{
    if let Atom::Register(name) = atom {
        if !is_known(known, name) {
            uses.push(Crossing {
                block,
                line,
                name,
                end_of,
            })?;
        }
    }
    Ok(())
}

/// Those of an operand in a line.
fn note_atom<'a>(
    known: &Known,
    block: &'a Block,
    line: usize,
    atom: &'a Atom<Name>,
    uses: &mut Vec<Crossing<'a>>,
) -> Result<(), AllocError>
    ensures { OnOk result
        (map use_of uses.new.items ≡ map use_of uses.old.items ++ left_in known.now.params known.now.own block.now line None atom.now) }
{
    note(known, block, line, None, atom, uses)
}

fn note_two<'a>(
    known: &Known,
    block: &'a Block,
    line: usize,
    left: &'a Atom<Name>,
    right: &'a Atom<Name>,
    uses: &mut Vec<Crossing<'a>>,
) -> Result<(), AllocError>
    ensures { OnOk result
        (map use_of uses.new.items
        ≡ map use_of uses.old.items
        ++ (left_in known.now.params known.now.own block.now line None left.now ++ left_in known.now.params known.now.own block.now line None right.now)) }
{
    note_atom(known, block, line, left, uses)?;
    note_atom(known, block, line, right, uses)
}

fn note_select<'a>(
    known: &Known,
    block: &'a Block,
    line: usize,
    select: &'a Select<Name>,
    uses: &mut Vec<Crossing<'a>>,
) -> Result<(), AllocError>
    ensures { OnOk result
        (map use_of uses.new.items
        ≡ map use_of uses.old.items
        ++ left_by known.now.params known.now.own block.now line (select.now.condition ∷ select.now.left ∷ select.now.right ∷ [])) }
{
    note_atom(known, block, line, &select.condition.atom, uses)?;
    note_two(
        known,
        block,
        line,
        &select.left.atom,
        &select.right.atom,
        uses,
    )
}

fn note_operands<'a>(
    known: &Known,
    block: &'a Block,
    line: usize,
    operands: &'a [Operand<Name>],
    uses: &mut Vec<Crossing<'a>>,
) -> Result<(), AllocError>
    ensures { OnOk result
        (map use_of uses.new.items ≡ map use_of uses.old.items ++ left_by known.now.params known.now.own block.now line operands.now) }
{
    for operand in operands {
        note_atom(known, block, line, &operand.atom, uses)?;
    }
    Ok(())
}

fn note_arguments<'a>(
    known: &Known,
    block: &'a Block,
    line: usize,
    arguments: &'a [Argument],
    uses: &mut Vec<Crossing<'a>>,
) -> Result<(), AllocError>
    ensures { OnOk result
        (map use_of uses.new.items
        ≡ map use_of uses.old.items ++ left_by known.now.params known.now.own block.now line (map (λ (a : Argument). a.operand) arguments.now)) }
{
    for argument in arguments {
        note_atom(known, block, line, &argument.operand.atom, uses)?;
    }
    Ok(())
}

fn note_element<'a>(
    known: &Known,
    block: &'a Block,
    line: usize,
    element: &'a Element<Name>,
    uses: &mut Vec<Crossing<'a>>,
) -> Result<(), AllocError>
    ensures { OnOk result
        (map use_of uses.new.items
        ≡ map use_of uses.old.items ++ left_by known.now.params known.now.own block.now line (element.now.base ∷ element.now.indices)) }
{
    note_atom(known, block, line, &element.base.atom, uses)?;
    note_operands(known, block, line, element.indices.as_slice(), uses)
}

fn note_expr<'a>(
    known: &Known,
    block: &'a Block,
    line: usize,
    expr: &'a Expr<Name>,
    uses: &mut Vec<Crossing<'a>>,
) -> Result<(), AllocError>
    ensures { OnOk result
        (map use_of uses.new.items
        ≡ map use_of uses.old.items ++ left_by known.now.params known.now.own block.now line (operands_in expr.now)) }
{
    match expr {
        Expr::Plain(operand) => note_atom(known, block, line, &operand.atom, uses)?,
        Expr::Binary(binary) => note_two(known, block, line, &binary.left, &binary.right, uses)?,
        Expr::Icmp(icmp) => note_two(known, block, line, &icmp.left, &icmp.right, uses)?,
        Expr::Cast(cast) => note_atom(known, block, line, &cast.operand.atom, uses)?,
        Expr::Select(select) => note_select(known, block, line, select.get(), uses)?,
        Expr::Element(element) => note_element(known, block, line, element.get(), uses)?,
        Expr::Load(load) => note_atom(known, block, line, &load.pointer.atom, uses)?,
    }
    Ok(())
}

/// Those of a line.
fn note_line<'a>(
    known: &Known,
    block: &'a Block,
    line: usize,
    instr: &'a Instr,
    uses: &mut Vec<Crossing<'a>>,
) -> Result<(), AllocError>
    ensures { OnOk result
        (map use_of uses.new.items
        ≡ map use_of uses.old.items ++ left_by known.now.params known.now.own block.now line (operands_of instr.now)) }
{
    match instr {
        Instr::Calm(calm) => note_expr(known, block, line, &calm.right, uses)?,
        Instr::Alloca(_) => {}
        Instr::Store(store) => note_two(
            known,
            block,
            line,
            &store.value.atom,
            &store.pointer.atom,
            uses,
        )?,
        Instr::Call(call) => {
            note_arguments(known, block, line, call.get().arguments.as_slice(), uses)?
        }
    }
    Ok(())
}

/// Adds the name of the register that a line sets, if it sets one.
#[tactic(auto, using(ir_core::proofs::Lines::names_one, ir_core::proofs::Lines::names_none))]
fn add_line(alloc: Global, names: &mut NameIndex, line: &Instr) -> Result<(), AllocError>
    ensures { OnOk result (names.new ≡ with_names names.old (names_in (set_by (line.now ∷ [])))) }
{
    match line.name() {
        Some(name) => add(alloc, names, name),
        None => Ok(()),
    }
}

fn note_end<'a>(
    known: &Known,
    block: &'a Block,
    line: usize,
    uses: &mut Vec<Crossing<'a>>,
) -> Result<(), AllocError>
    ensures { OnOk result
        (map use_of uses.new.items
        ≡ map use_of uses.old.items ++ left_by known.now.params known.now.own block.now line (operands_at_end block.now.term)) }
{
    match &block.term {
        Term::Ret(operand) => note_atom(known, block, line, &operand.atom, uses),
        Term::CondBr(branch) => note_atom(known, block, line, &branch.condition.atom, uses),
        Term::Switch(switch) => note_atom(known, block, line, &switch.value.atom, uses),
        Term::RetVoid | Term::Br(_) | Term::Unreachable => Ok(()),
    }
}

/// Those of a block's lines and its terminator.
fn note_lines<'a>(
    alloc: Global,
    known: &mut Known,
    block: &'a Block,
    uses: &mut Vec<Crossing<'a>>,
) -> Result<(), AllocError>
    ensures noted { OnOk result
        (map use_of uses.new.items
        ≡ map use_of uses.old.items
        ++ left_along known.old.params known.old.own block.now (length block.now.phis) block.now.body block.now.term) }
    ensures same { OnOk result (known.new.params ≡ known.old.params) }
{
    let mut line = block.phis.len();
    for instr in block.body.as_slice() {
        note_line(known, block, line, instr, uses)?;
        add_line(alloc, &mut known.own, instr)?;
        // A block of so many lines stands in no memory.
        line = line.checked_add(1).ok_or(AllocError)?;
    }
    note_end(known, block, line, uses)
}

/// Those of a phi's entries.
fn note_entries<'a>(
    known: &Known,
    block: &'a Block,
    line: usize,
    entries: &'a [Entry],
    uses: &mut Vec<Crossing<'a>>,
) -> Result<(), AllocError>
    requires { known.now.own ≡ [] }
    ensures { OnOk result
        (map use_of uses.new.items ≡ map use_of uses.old.items ++ left_by_entries known.now.params block.now line entries.now) }
{
    for entry in entries {
        note(known, block, line, Some(&entry.from), &entry.value, uses)?;
    }
    Ok(())
}

fn note_phis<'a>(
    known: &Known,
    block: &'a Block,
    uses: &mut Vec<Crossing<'a>>,
) -> Result<(), AllocError>
    requires { known.now.own ≡ [] }
    ensures { OnOk result
        (map use_of uses.new.items ≡ map use_of uses.old.items ++ left_by_phis known.now.params block.now 0 block.now.phis) }
{
    let mut line = 0;
    for phi in block.phis.as_slice() {
        note_entries(known, block, line, phi.entries.as_slice(), uses)?;
        // A block of so many phis stands in no memory.
        line = line.checked_add(1).ok_or(AllocError)?;
    }
    Ok(())
}

fn with_phis(alloc: Global, phis: &[Phi], names: &mut NameIndex) -> Result<(), AllocError>
    ensures { OnOk result (names.new ≡ with_names names.old (names_in (phi_registers phis.now))) }
{
    for phi in phis {
        add(alloc, names, &phi.name)?;
    }
    Ok(())
}

fn note_block<'a>(
    alloc: Global,
    known: &mut Known,
    block: &'a Block,
    uses: &mut Vec<Crossing<'a>>,
) -> Result<(), AllocError>
    ensures noted { OnOk result (map use_of uses.new.items ≡ map use_of uses.old.items ++ left_in_block known.old.params block.now) }
    ensures same { OnOk result (known.new.params ≡ known.old.params) }
{
    known.own = NameIndex::with_room(alloc, block.phis.len().saturating_add(block.body.len()))?;
    note_phis(known, block, uses)?;
    with_phis(alloc, block.phis.as_slice(), &mut known.own)?;
    note_lines(alloc, known, block, uses)
}

/// The uses in all blocks, in the order of the text.
pub(crate) fn crossing_uses<'a>(
    alloc: Global,
    params: NameIndex,
    blocks: &'a [Block],
) -> Result<Vec<Crossing<'a>>, AllocError>
    ensures { IfOk result (λ uses. map use_of uses.items ≡ flat_map (left_in_block params) blocks.now) }
{
    let mut known = Known {
        params,
        own: NameIndex::new(alloc),
    };
    let mut uses = Vec::new(alloc);
    for block in blocks {
        note_block(alloc, &mut known, block, &mut uses)?;
    }
    Ok(uses)
}

/// The names of a function's parameters.
pub(crate) fn params_of(alloc: Global, params: &[Param]) -> Result<NameIndex, AllocError>
    ensures { IfOk result (λ names. names ≡ with_names [] (names_in (map (λ (p : Param). (p.name, p.ty)) params.now))) }
{
    let mut names = NameIndex::with_room(alloc, params.len())?;
    for param in params {
        add(alloc, &mut names, &param.name)?;
    }
    Ok(names)
}
