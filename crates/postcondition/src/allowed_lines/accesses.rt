//! That another access doesn't trap, and which alignments a load may have.
ghost use Rattle.std.specs.Prelude.{◌≡◌, IfOk};
ghost use Rattle.ir_core.specs.declared.expressions.Expr.TheVariants as expr;
ghost use Rattle.ir_machine.specs.Registers as registers;
ghost use Rattle.erhl_assert.specs.declared.facts.Fact.TheVariants.{Ok};
ghost use Rattle.erhl_assert.specs.Matched.{now_operand};
ghost use Rattle.erhl_assert.specs.Allowed.{divides, keeps_alignment, is_known_to_load};

use contents::Exact;
use erhl_assert::{Fact, FactSet, Side};
use fact_sets::{Sides, now_operand};
use ir_core::{Expr, Load, Name, Operand, Ty};
use ir_machine::align_or;
use ir_types::NamedTypes;
use std::alloc::{AllocError, Global};

/// That another access of the type through the pointer doesn't trap.
pub fn access(
    alloc: Global,
    types: &NamedTypes,
    pointer: &Operand<Name>,
    ty: &Ty,
    align: Option<u32>,
) -> Result<Fact, AllocError>
    ensures { IfOk result
        (λ fact. fact ≡ Ok (expr.Plain (now_operand pointer.now)) ty.now (registers.align_or types.now ty.now align)) }
{
    let address = Expr::Plain(now_operand(alloc, pointer)?);
    Ok(Fact::Ok(address, ty.copy(alloc)?, align_or(types, ty, align)))
}

/// Whether it is known of the target that the load doesn't trap.
pub(crate) fn is_known_to_load<S: FactSet>(
    alloc: Global,
    types: &NamedTypes,
    known: &Sides<S>,
    load: &Load<Name>,
) -> Result<bool, AllocError>
    ensures { IfOk result
        (λ there. there ≡ is_known_to_load types.now known.now.tgt (expr.Load load.now)) }
{
    let fact = access(alloc, types, &load.pointer, &load.of, load.align)?;
    Ok(known.has_fact(Side::Tgt, &fact))
}

/// Whether the target's alignment is one that divides the source's.
pub(crate) fn divides(target: u64, source: u64) -> bool
    ensures { result ≡ divides target source }
{
    target != 0 && source % target == 0
}

/// Whether the target's alignment divides the source's.
pub(crate) fn keeps_alignment(types: &NamedTypes, s: &Load<Name>, t: &Load<Name>) -> bool
    ensures { result ≡ keeps_alignment types.now (expr.Load s.now) (expr.Load t.now) }
{
    divides(
        align_or(types, &t.of, t.align),
        align_or(types, &s.of, s.align),
    )
}
