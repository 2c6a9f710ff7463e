//! Expressions and facts, as the logic names their registers.
ghost use Rattle.std.specs.Prelude.{◌≡◌, map, IfOk};
ghost use Rattle.std.specs.List.{list_any};
ghost use Rattle.ir_core.specs.declared.operands.Operand.{Operand};
ghost use Rattle.ir_core.specs.declared.expressions.Reg.{Reg};
ghost use Rattle.ir_core.specs.declared.expressions.Reg.TheVariants.{Now, Old};
ghost use Rattle.ir_core.specs.Same.{same_reg};
ghost use Rattle.ir_core.specs.Expressions.{map_atom, map_operand, map_binary, map_icmp, map_cast, map_select, map_element, map_load, map_expr, atom_has};
ghost use Rattle.erhl_assert.specs.declared.facts.Fact.TheVariants.{LessDef, Ok};
ghost use Rattle.erhl_assert.specs.Facts.{expr_names};
ghost use Rattle.erhl_assert.specs.Postcondition.{left_side};
ghost use Rattle.erhl_assert.specs.Edges.{old_of, as_old};

use contents::{Boxed, Exact, Seq};
use erhl_assert::Fact;
use ir_core::{
    Atom, Binary, BitType, Calm, Cast, Element, Expr, Expr0, Icmp, Load, Name, Operand, Reg,
    Select, Ty, same_name,
};
use std::alloc::{AllocError, Global};

/// A register as the logic names it: a function's is the one of now, and the logic's own is made old.
pub(crate) trait Named {
    ghost use Rattle.ir_core.specs.declared.expressions.Reg.{Reg};
    ghost use Rattle.std.specs.Prelude.{◌≡◌, IfOk};

    ghost named: { Self → Reg };

    fn named(&self, alloc: Global) -> Result<Reg, AllocError>
        ensures { IfOk result (λ register. register ≡ named self.now) };
}

impl Named for Name {
    ghost named = { Now };

    fn named(&self, alloc: Global) -> Result<Reg, AllocError> {
        Ok(Reg::Now(self.copy(alloc)?))
    }
}

impl Named for Reg {
    ghost use Rattle.erhl_assert.specs.Edges.{old_of};

    ghost named = { old_of };

    fn named(&self, alloc: Global) -> Result<Reg, AllocError> {
        match self {
            Reg::Now(name) => Ok(Reg::Old(name.copy(alloc)?)),
            Reg::Old(name) => Ok(Reg::Old(name.copy(alloc)?)),
            Reg::Ghost(name) => Ok(Reg::Ghost(name.copy(alloc)?)),
        }
    }
}

fn named_atom<R: Named>(alloc: Global, atom: &Atom<R>) -> Result<Atom<Reg>, AllocError>
    ensures { IfOk result (λ named. named ≡ map_atom R.named atom.now) }
{
    match atom {
        Atom::Constant(constant) => Ok(Atom::Constant(constant.copy(alloc)?)),
        Atom::Register(register) => Ok(Atom::Register(register.named(alloc)?)),
    }
}

fn named_operand<R: Named>(alloc: Global, operand: &Operand<R>) -> Result<Operand<Reg>, AllocError>
    ensures { IfOk result (λ named. named ≡ map_operand R.named operand.now) }
{
    Ok(Operand {
        ty: operand.ty.copy(alloc)?,
        atom: named_atom(alloc, &operand.atom)?,
    })
}

fn named_binary<R: Named>(alloc: Global, binary: &Binary<R>) -> Result<Binary<Reg>, AllocError>
    ensures { IfOk result (λ named. named ≡ map_binary R.named binary.now) }
{
    Ok(Binary {
        op: binary.op,
        flags: binary.flags,
        ty: binary.ty.copy(alloc)?,
        left: named_atom(alloc, &binary.left)?,
        right: named_atom(alloc, &binary.right)?,
    })
}

fn named_icmp<R: Named>(alloc: Global, icmp: &Icmp<R>) -> Result<Icmp<Reg>, AllocError>
    ensures { IfOk result (λ named. named ≡ map_icmp R.named icmp.now) }
{
    Ok(Icmp {
        pred: icmp.pred,
        ty: icmp.ty.copy(alloc)?,
        left: named_atom(alloc, &icmp.left)?,
        right: named_atom(alloc, &icmp.right)?,
    })
}

fn named_cast<R: Named>(alloc: Global, cast: &Cast<R>) -> Result<Cast<Reg>, AllocError>
    ensures { IfOk result (λ named. named ≡ map_cast R.named cast.now) }
{
    Ok(Cast {
        op: cast.op,
        operand: named_operand(alloc, &cast.operand)?,
        to: cast.to.copy(alloc)?,
    })
}

fn named_select<R: Named>(alloc: Global, select: &Select<R>) -> Result<Select<Reg>, AllocError>
    ensures { IfOk result (λ named. named ≡ map_select R.named select.now) }
{
    Ok(Select {
        condition: named_operand(alloc, &select.condition)?,
        left: named_operand(alloc, &select.left)?,
        right: named_operand(alloc, &select.right)?,
    })
}

fn named_operands<R: Named>(
    alloc: Global,
    operands: &[Operand<R>],
) -> Result<Seq<Operand<Reg>>, AllocError>
    ensures { IfOk result (λ named. named ≡ map (map_operand R.named) operands.now) }
{
    let mut named = Seq::new(alloc);
    for operand in operands {
        named.push(named_operand(alloc, operand)?)?;
    }
    Ok(named)
}

fn named_element<R: Named>(alloc: Global, element: &Element<R>) -> Result<Element<Reg>, AllocError>
    ensures { IfOk result (λ named. named ≡ map_element R.named element.now) }
{
    Ok(Element {
        inbounds: element.inbounds,
        of: element.of.copy(alloc)?,
        base: named_operand(alloc, &element.base)?,
        indices: named_operands(alloc, element.indices.as_slice())?,
        to: element.to.copy(alloc)?,
    })
}

fn named_load<R: Named>(alloc: Global, load: &Load<R>) -> Result<Load<Reg>, AllocError>
    ensures { IfOk result (λ named. named ≡ map_load R.named load.now) }
{
    Ok(Load {
        of: load.of.copy(alloc)?,
        pointer: named_operand(alloc, &load.pointer)?,
        align: load.align,
    })
}

fn named_expr<R: Named>(alloc: Global, expr: &Expr<R>) -> Result<Expr0, AllocError>
    ensures { IfOk result (λ named. named ≡ map_expr R.named expr.now) }
{
    match expr {
        Expr::Plain(operand) => Ok(Expr::Plain(named_operand(alloc, operand)?)),
        Expr::Binary(binary) => Ok(Expr::Binary(named_binary(alloc, binary)?)),
        Expr::Icmp(icmp) => Ok(Expr::Icmp(named_icmp(alloc, icmp)?)),
        Expr::Cast(cast) => Ok(Expr::Cast(named_cast(alloc, cast)?)),
        Expr::Select(select) => Ok(Expr::Select(Boxed::new(
            alloc,
            named_select(alloc, select.get())?,
        )?)),
        Expr::Element(element) => Ok(Expr::Element(Boxed::new(
            alloc,
            named_element(alloc, element.get())?,
        )?)),
        Expr::Load(load) => Ok(Expr::Load(named_load(alloc, load)?)),
    }
}

/// An expression of a function, as the logic names its registers.
pub fn now_expr(alloc: Global, expr: &Expr<Name>) -> Result<Expr0, AllocError>
    ensures { IfOk result (λ named. named ≡ map_expr Now expr.now) }
{
    named_expr(alloc, expr)
}

/// An operand of a function, as the logic names its register.
pub fn now_operand(alloc: Global, operand: &Operand<Name>) -> Result<Operand<Reg>, AllocError>
    ensures { IfOk result (λ named. named ≡ map_operand Now operand.now) }
{
    named_operand(alloc, operand)
}

/// The register as it was before the edge.
pub fn old_register(alloc: Global, register: &Reg) -> Result<Reg, AllocError>
    ensures { IfOk result (λ old. old ≡ old_of register.now) }
{
    register.named(alloc)
}

fn old_pair(alloc: Global, a: &Expr0, b: &Expr0) -> Result<(Expr0, Expr0), AllocError>
    ensures { IfOk result (λ pair. pair ≡ (map_expr old_of a.now, map_expr old_of b.now)) }
{
    let a = named_expr(alloc, a)?;
    Ok((a, named_expr(alloc, b)?))
}

fn old_access(alloc: Global, address: &Expr0, ty: &Ty, align: u64) -> Result<Fact, AllocError>
    ensures { IfOk result (λ fact. fact ≡ Ok (map_expr old_of address.now) ty.now align) }
{
    let address = named_expr(alloc, address)?;
    Ok(Fact::Ok(address, ty.copy(alloc)?, align))
}

/// The fact, of registers as they were before the edge, if it is one of expressions.
pub fn old_fact(alloc: Global, fact: &Fact) -> Result<Option<Fact>, AllocError>
    ensures { IfOk result (λ old. old ≡ as_old fact.now) }
{
    match fact {
        Fact::LessDef(a, b) => {
            let (a, b) = old_pair(alloc, a, b)?;
            Ok(Some(Fact::LessDef(a, b)))
        }
        Fact::NoAlias(a, b) => {
            let (a, b) = old_pair(alloc, a, b)?;
            Ok(Some(Fact::NoAlias(a, b)))
        }
        Fact::Ok(address, ty, align) => Ok(Some(old_access(alloc, address, ty, *align)?)),
        Fact::Unique(_) | Fact::Private(_) => Ok(None),
    }
}

/// A function's atom, of registers as they were before the edge.
pub fn old_atom(alloc: Global, atom: &Atom<Name>) -> Result<Atom<Reg>, AllocError>
    ensures { IfOk result (λ old. old ≡ map_atom Old atom.now) }
{
    match atom {
        Atom::Constant(constant) => Ok(Atom::Constant(constant.copy(alloc)?)),
        Atom::Register(name) => Ok(Atom::Register(Reg::Old(name.copy(alloc)?))),
    }
}

/// The register of a line, as an expression.
pub fn left_side(alloc: Global, line: &Calm) -> Result<Expr0, AllocError>
    ensures { IfOk result (λ register. register ≡ left_side line.now) }
{
    let bit = BitType::new();
    Ok(Expr::Plain(Operand {
        ty: line.right.ty(&bit).copy(alloc)?,
        atom: Atom::Register(Reg::Now(line.name.copy(alloc)?)),
    }))
}

pub(crate) fn less_def(alloc: Global, a: &Expr0, b: &Expr0) -> Result<Fact, AllocError>
    ensures { IfOk result (λ fact. fact ≡ LessDef a.now b.now) }
{
    let a = a.copy(alloc)?;
    Ok(Fact::LessDef(a, b.copy(alloc)?))
}

fn is_named(name: &Name, atom: &Atom<Name>) -> bool
    ensures { result ≡ atom_has (same_reg (Now name.now)) (map_atom Now atom.now) }
{
    match atom {
        Atom::Constant(_) => false,
        Atom::Register(other) => same_name(name, other),
    }
}

fn are_named(name: &Name, operands: &[Operand<Name>]) -> bool
    ensures { result ≡ list_any (λ (o : Operand Reg). atom_has (same_reg (Now name.now)) o.atom) (map (map_operand Now) operands.now) }
{
    for operand in operands {
        if is_named(name, &operand.atom) {
            return true;
        }
    }
    false
}

/// Whether the register stands in the expression.
pub fn names(name: &Name, expr: &Expr<Name>) -> bool
    ensures { result ≡ expr_names (Now name.now) (map_expr Now expr.now) }
{
    match expr {
        Expr::Plain(operand) => is_named(name, &operand.atom),
        Expr::Binary(binary) => is_named(name, &binary.left) || is_named(name, &binary.right),
        Expr::Icmp(icmp) => is_named(name, &icmp.left) || is_named(name, &icmp.right),
        Expr::Cast(cast) => is_named(name, &cast.operand.atom),
        Expr::Select(select) => {
            let select = select.get();
            is_named(name, &select.condition.atom)
                || is_named(name, &select.left.atom)
                || is_named(name, &select.right.atom)
        }
        Expr::Element(element) => {
            let element = element.get();
            is_named(name, &element.base.atom) || are_named(name, element.indices.as_slice())
        }
        Expr::Load(load) => is_named(name, &load.pointer.atom),
    }
}
