//! Whether a module's named types have different names, and name types that are there.
ghost use Rattle.std.specs.Prelude.{◌≡◌, [], IfOk, IfErr};
ghost use Rattle.ir_types.specs.Named.{fields_or_none};
ghost use Rattle.ir_typing.specs.OperandTests.Known.{are_types_known};
ghost use Rattle.ir_shape.specs.Shape as meaning;
ghost use Rattle.ir_shape.specs.Shape.{IsFirstOf};

use crate::{ShapeEnd, ShapeFault};
use contents::Exact;
use ir_core::{NamedTy, Sigil};
use ir_typing::{Beside, LentNames, ShapeKind, are_types_known};
use std::alloc::Global;

/// Whether each named type that stands in this one is the module's. An opaque one holds none.
fn is_named_known(beside: &Beside, named: &NamedTy) -> bool
    ensures { result ≡ are_types_known beside.now (fields_or_none named.now.fields) }
{
    match &named.fields {
        Some(fields) => are_types_known(beside, fields.get().as_slice()),
        None => true,
    }
}

/// Whether a named type has no fault, whose name may be taken.
fn type_fits(alloc: Global, beside: &Beside, taken: bool, named: &NamedTy) -> Result<(), ShapeEnd>
    ensures fits { IfOk result (λ _. meaning.in_type beside.now taken named.now ≡ []) }
    ensures fault { IfErr result (IsFirstOf (meaning.in_type beside.now taken named.now)) }
{
    if taken || !is_named_known(beside, named) {
        return Err(ShapeEnd::Fault(ShapeFault {
            sigil: Sigil::Local,
            function: named.name.copy(alloc)?,
            place: None,
            kind: ShapeKind::Name,
        }));
    }
    Ok(())
}

/// Whether none of a module's named types has a fault.
pub(crate) fn types_fit(alloc: Global, beside: &Beside, types: &[NamedTy]) -> Result<(), ShapeEnd>
    ensures fits { IfOk result (λ _. meaning.in_types beside.now [] types.now ≡ []) }
    ensures fault { IfErr result (IsFirstOf (meaning.in_types beside.now [] types.now)) }
{
    let mut names = LentNames::with_room(alloc, types.len())?;
    for named in types {
        let taken = names.take(&named.name)?;
        type_fits(alloc, beside, taken, named)?;
    }
    Ok(())
}
