//! Each part of a function under the names of a renaming.
ghost use Rattle.std.specs.Prelude.{◌≡◌, map, option_map, IfOk};
ghost use Rattle.ir_core.specs.Expressions.{map_atom, map_binary, map_cast, map_element, map_expr, map_icmp, map_load, map_operand, map_select};
ghost use Rattle.ir_rename.specs.Lent.{renamed};
ghost use Rattle.ir_rename.specs.Renamed as under;

use crate::renaming::Renaming;
use contents::{Boxed, Exact, Seq};
use ir_core::{
    Alloca, Argument, Atom, Binary, Bits, Block, Call, Calm, Case, Cast, CondBr, Element, Entry,
    Expr, Function, Icmp, Instr, Load, Name, Operand, Param, Phi, Select, Store, Switch, Term, Ty,
};
use std::alloc::{AllocError, Global};

// ---- expressions

fn rename_atom(alloc: Global, names: &Renaming, atom: &Atom<Name>) -> Result<Atom<Name>, AllocError>
    ensures { IfOk result (λ it. it ≡ map_atom (renamed names.now) atom.now) }
{
    match atom {
        Atom::Constant(constant) => Ok(Atom::Constant(constant.copy(alloc)?)),
        Atom::Register(name) => Ok(Atom::Register(names.get(alloc, name)?)),
    }
}

fn rename_operand(
    alloc: Global,
    names: &Renaming,
    operand: &Operand<Name>,
) -> Result<Operand<Name>, AllocError>
    ensures { IfOk result (λ it. it ≡ map_operand (renamed names.now) operand.now) }
{
    Ok(Operand {
        ty: operand.ty.copy(alloc)?,
        atom: rename_atom(alloc, names, &operand.atom)?,
    })
}

fn rename_binary(
    alloc: Global,
    names: &Renaming,
    binary: &Binary<Name>,
) -> Result<Binary<Name>, AllocError>
    ensures { IfOk result (λ it. it ≡ map_binary (renamed names.now) binary.now) }
{
    Ok(Binary {
        op: binary.op,
        flags: binary.flags,
        ty: binary.ty.copy(alloc)?,
        left: rename_atom(alloc, names, &binary.left)?,
        right: rename_atom(alloc, names, &binary.right)?,
    })
}

fn rename_icmp(alloc: Global, names: &Renaming, icmp: &Icmp<Name>) -> Result<Icmp<Name>, AllocError>
    ensures { IfOk result (λ it. it ≡ map_icmp (renamed names.now) icmp.now) }
{
    Ok(Icmp {
        pred: icmp.pred,
        ty: icmp.ty.copy(alloc)?,
        left: rename_atom(alloc, names, &icmp.left)?,
        right: rename_atom(alloc, names, &icmp.right)?,
    })
}

fn rename_cast(alloc: Global, names: &Renaming, cast: &Cast<Name>) -> Result<Cast<Name>, AllocError>
    ensures { IfOk result (λ it. it ≡ map_cast (renamed names.now) cast.now) }
{
    Ok(Cast {
        op: cast.op,
        operand: rename_operand(alloc, names, &cast.operand)?,
        to: cast.to.copy(alloc)?,
    })
}

fn rename_select(
    alloc: Global,
    names: &Renaming,
    select: &Select<Name>,
) -> Result<Select<Name>, AllocError>
    ensures { IfOk result (λ it. it ≡ map_select (renamed names.now) select.now) }
{
    Ok(Select {
        condition: rename_operand(alloc, names, &select.condition)?,
        left: rename_operand(alloc, names, &select.left)?,
        right: rename_operand(alloc, names, &select.right)?,
    })
}

fn rename_operands(
    alloc: Global,
    names: &Renaming,
    operands: &[Operand<Name>],
) -> Result<Seq<Operand<Name>>, AllocError>
    ensures { IfOk result (λ it. it ≡ map (map_operand (renamed names.now)) operands.now) }
{
    let mut renamed = Vec::with_capacity(alloc, operands.len())?;
    for operand in operands {
        renamed.push(rename_operand(alloc, names, operand)?)?;
    }
    Ok(Seq::from_vec(renamed))
}

fn rename_element(
    alloc: Global,
    names: &Renaming,
    element: &Element<Name>,
) -> Result<Element<Name>, AllocError>
    ensures { IfOk result (λ it. it ≡ map_element (renamed names.now) element.now) }
{
    Ok(Element {
        inbounds: element.inbounds,
        of: element.of.copy(alloc)?,
        base: rename_operand(alloc, names, &element.base)?,
        indices: rename_operands(alloc, names, element.indices.as_slice())?,
        to: element.to.copy(alloc)?,
    })
}

fn rename_load(alloc: Global, names: &Renaming, load: &Load<Name>) -> Result<Load<Name>, AllocError>
    ensures { IfOk result (λ it. it ≡ map_load (renamed names.now) load.now) }
{
    Ok(Load {
        of: load.of.copy(alloc)?,
        pointer: rename_operand(alloc, names, &load.pointer)?,
        align: load.align,
    })
}

fn rename_expr(alloc: Global, names: &Renaming, expr: &Expr<Name>) -> Result<Expr<Name>, AllocError>
    ensures { IfOk result (λ it. it ≡ map_expr (renamed names.now) expr.now) }
{
    match expr {
        Expr::Plain(operand) => Ok(Expr::Plain(rename_operand(alloc, names, operand)?)),
        Expr::Binary(binary) => Ok(Expr::Binary(rename_binary(alloc, names, binary)?)),
        Expr::Icmp(icmp) => Ok(Expr::Icmp(rename_icmp(alloc, names, icmp)?)),
        Expr::Cast(cast) => Ok(Expr::Cast(rename_cast(alloc, names, cast)?)),
        Expr::Select(select) => {
            let renamed = rename_select(alloc, names, select.get())?;
            Ok(Expr::Select(Boxed::new(alloc, renamed)?))
        }
        Expr::Element(element) => {
            let renamed = rename_element(alloc, names, element.get())?;
            Ok(Expr::Element(Boxed::new(alloc, renamed)?))
        }
        Expr::Load(load) => Ok(Expr::Load(rename_load(alloc, names, load)?)),
    }
}

// ---- lines and phis

fn copy_count(alloc: Global, count: &Option<(Ty, Bits)>) -> Result<Option<(Ty, Bits)>, AllocError>
    ensures { IfOk result (λ it. it ≡ count.now) }
{
    match count {
        Some((ty, number)) => Ok(Some((ty.copy(alloc)?, *number))),
        None => Ok(None),
    }
}

fn rename_alloca(alloc: Global, names: &Renaming, alloca: &Alloca) -> Result<Alloca, AllocError>
    ensures { IfOk result (λ it. it ≡ under.rename_alloca (renamed names.now) alloca.now) }
{
    Ok(Alloca {
        name: names.get(alloc, &alloca.name)?,
        of: alloca.of.copy(alloc)?,
        to: alloca.to.copy(alloc)?,
        count: copy_count(alloc, &alloca.count)?,
        align: alloca.align,
    })
}

fn rename_store(alloc: Global, names: &Renaming, store: &Store) -> Result<Store, AllocError>
    ensures { IfOk result (λ it. it ≡ under.rename_store (renamed names.now) store.now) }
{
    Ok(Store {
        value: rename_operand(alloc, names, &store.value)?,
        pointer: rename_operand(alloc, names, &store.pointer)?,
        align: store.align,
    })
}

fn rename_argument(
    alloc: Global,
    names: &Renaming,
    argument: &Argument,
) -> Result<Argument, AllocError>
    ensures { IfOk result (λ it. it ≡ under.rename_argument (renamed names.now) argument.now) }
{
    Ok(Argument {
        operand: rename_operand(alloc, names, &argument.operand)?,
        extensions: argument.extensions,
    })
}

fn rename_arguments(
    alloc: Global,
    names: &Renaming,
    arguments: &[Argument],
) -> Result<Seq<Argument>, AllocError>
    ensures { IfOk result (λ it. it ≡ map (under.rename_argument (renamed names.now)) arguments.now) }
{
    let mut renamed = Vec::with_capacity(alloc, arguments.len())?;
    for argument in arguments {
        renamed.push(rename_argument(alloc, names, argument)?)?;
    }
    Ok(Seq::from_vec(renamed))
}

/// A name that there may be.
fn rename_name(
    alloc: Global,
    names: &Renaming,
    name: &Option<Name>,
) -> Result<Option<Name>, AllocError>
    ensures { IfOk result (λ it. it ≡ option_map (renamed names.now) name.now) }
{
    match name {
        Some(name) => Ok(Some(names.get(alloc, name)?)),
        None => Ok(None),
    }
}

fn rename_call(alloc: Global, names: &Renaming, call: &Call) -> Result<Call, AllocError>
    ensures { IfOk result (λ it. it ≡ under.rename_call (renamed names.now) call.now) }
{
    Ok(Call {
        name: rename_name(alloc, names, &call.name)?,
        result: call.result.copy(alloc)?,
        result_extensions: call.result_extensions,
        callee: call.callee.copy(alloc)?,
        arguments: rename_arguments(alloc, names, call.arguments.as_slice())?,
    })
}

fn rename_line(alloc: Global, names: &Renaming, line: &Instr) -> Result<Instr, AllocError>
    ensures { IfOk result (λ it. it ≡ under.rename_line (renamed names.now) line.now) }
{
    match line {
        Instr::Calm(calm) => Ok(Instr::Calm(Calm {
            name: names.get(alloc, &calm.name)?,
            right: rename_expr(alloc, names, &calm.right)?,
        })),
        Instr::Alloca(alloca) => Ok(Instr::Alloca(rename_alloca(alloc, names, alloca)?)),
        Instr::Store(store) => Ok(Instr::Store(rename_store(alloc, names, store)?)),
        Instr::Call(call) => {
            let renamed = rename_call(alloc, names, call.get())?;
            Ok(Instr::Call(Boxed::new(alloc, renamed)?))
        }
    }
}

fn rename_lines(alloc: Global, names: &Renaming, lines: &[Instr]) -> Result<Seq<Instr>, AllocError>
    ensures { IfOk result (λ it. it ≡ map (under.rename_line (renamed names.now)) lines.now) }
{
    let mut renamed = Vec::with_capacity(alloc, lines.len())?;
    for line in lines {
        renamed.push(rename_line(alloc, names, line)?)?;
    }
    Ok(Seq::from_vec(renamed))
}

fn rename_entry(alloc: Global, names: &Renaming, entry: &Entry) -> Result<Entry, AllocError>
    ensures { IfOk result (λ it. it ≡ under.rename_entry (renamed names.now) entry.now) }
{
    Ok(Entry {
        value: rename_atom(alloc, names, &entry.value)?,
        from: names.get(alloc, &entry.from)?,
    })
}

fn rename_entries(
    alloc: Global,
    names: &Renaming,
    entries: &[Entry],
) -> Result<Seq<Entry>, AllocError>
    ensures { IfOk result (λ it. it ≡ map (under.rename_entry (renamed names.now)) entries.now) }
{
    let mut renamed = Vec::with_capacity(alloc, entries.len())?;
    for entry in entries {
        renamed.push(rename_entry(alloc, names, entry)?)?;
    }
    Ok(Seq::from_vec(renamed))
}

fn rename_phi(alloc: Global, names: &Renaming, phi: &Phi) -> Result<Phi, AllocError>
    ensures { IfOk result (λ it. it ≡ under.rename_phi (renamed names.now) phi.now) }
{
    Ok(Phi {
        name: names.get(alloc, &phi.name)?,
        ty: phi.ty.copy(alloc)?,
        entries: rename_entries(alloc, names, phi.entries.as_slice())?,
    })
}

fn rename_phis(alloc: Global, names: &Renaming, phis: &[Phi]) -> Result<Seq<Phi>, AllocError>
    ensures { IfOk result (λ it. it ≡ map (under.rename_phi (renamed names.now)) phis.now) }
{
    let mut renamed = Vec::with_capacity(alloc, phis.len())?;
    for phi in phis {
        renamed.push(rename_phi(alloc, names, phi)?)?;
    }
    Ok(Seq::from_vec(renamed))
}

// ---- terminators

fn rename_case(alloc: Global, names: &Renaming, case: &Case) -> Result<Case, AllocError>
    ensures { IfOk result (λ it. it ≡ under.rename_case (renamed names.now) case.now) }
{
    Ok(Case {
        ty: case.ty.copy(alloc)?,
        number: case.number,
        label: names.get(alloc, &case.label)?,
    })
}

fn rename_cases(alloc: Global, names: &Renaming, cases: &[Case]) -> Result<Seq<Case>, AllocError>
    ensures { IfOk result (λ it. it ≡ map (under.rename_case (renamed names.now)) cases.now) }
{
    let mut renamed = Vec::with_capacity(alloc, cases.len())?;
    for case in cases {
        renamed.push(rename_case(alloc, names, case)?)?;
    }
    Ok(Seq::from_vec(renamed))
}

fn rename_term(alloc: Global, names: &Renaming, term: &Term) -> Result<Term, AllocError>
    ensures { IfOk result (λ it. it ≡ under.rename_term (renamed names.now) term.now) }
{
    match term {
        Term::Ret(operand) => Ok(Term::Ret(rename_operand(alloc, names, operand)?)),
        Term::RetVoid => Ok(Term::RetVoid),
        Term::Br(label) => Ok(Term::Br(names.get(alloc, label)?)),
        Term::CondBr(branch) => Ok(Term::CondBr(CondBr {
            condition: rename_operand(alloc, names, &branch.condition)?,
            on_true: names.get(alloc, &branch.on_true)?,
            on_false: names.get(alloc, &branch.on_false)?,
        })),
        Term::Switch(switch) => Ok(Term::Switch(Switch {
            value: rename_operand(alloc, names, &switch.value)?,
            default: names.get(alloc, &switch.default)?,
            cases: rename_cases(alloc, names, switch.cases.as_slice())?,
        })),
        Term::Unreachable => Ok(Term::Unreachable),
    }
}

// ---- functions

fn rename_param(alloc: Global, names: &Renaming, param: &Param) -> Result<Param, AllocError>
    ensures { IfOk result (λ it. it ≡ under.rename_param (renamed names.now) param.now) }
{
    Ok(Param {
        name: names.get(alloc, &param.name)?,
        ty: param.ty.copy(alloc)?,
        extensions: param.extensions,
    })
}

fn rename_params(
    alloc: Global,
    names: &Renaming,
    params: &[Param],
) -> Result<Seq<Param>, AllocError>
    ensures { IfOk result (λ it. it ≡ map (under.rename_param (renamed names.now)) params.now) }
{
    let mut renamed = Vec::with_capacity(alloc, params.len())?;
    for param in params {
        renamed.push(rename_param(alloc, names, param)?)?;
    }
    Ok(Seq::from_vec(renamed))
}

fn rename_block(alloc: Global, names: &Renaming, block: &Block) -> Result<Block, AllocError>
    ensures { IfOk result (λ it. it ≡ under.rename_block (renamed names.now) block.now) }
{
    Ok(Block {
        name: names.get(alloc, &block.name)?,
        phis: rename_phis(alloc, names, block.phis.as_slice())?,
        body: rename_lines(alloc, names, block.body.as_slice())?,
        term: rename_term(alloc, names, &block.term)?,
    })
}

fn rename_blocks(
    alloc: Global,
    names: &Renaming,
    blocks: &[Block],
) -> Result<Seq<Block>, AllocError>
    ensures { IfOk result (λ it. it ≡ map (under.rename_block (renamed names.now)) blocks.now) }
{
    let mut renamed = Vec::with_capacity(alloc, blocks.len())?;
    for block in blocks {
        renamed.push(rename_block(alloc, names, block)?)?;
    }
    Ok(Seq::from_vec(renamed))
}

pub(crate) fn rename_function(
    alloc: Global,
    names: &Renaming,
    function: &Function,
) -> Result<Function, AllocError>
    ensures { IfOk result (λ it. it ≡ under.rename_function (renamed names.now) «function».now) }
{
    Ok(Function {
        linkage: function.linkage,
        result_extensions: function.result_extensions,
        result: function.result.copy(alloc)?,
        name: function.name.copy(alloc)?,
        params: rename_params(alloc, names, function.params.as_slice())?,
        blocks: rename_blocks(alloc, names, function.blocks.as_slice())?,
    })
}
