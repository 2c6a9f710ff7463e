//! The module of a derivation.
ghost use Rattle.std.specs.Prelude.{◌≡◌, IfOk};
ghost use Rattle.derivation_cursor.specs.At.{ahead_of};
ghost use Rattle.module_derivations.specs.Empty.{made};
ghost use Rattle.ir_reader.specs.Naming.{IsJudged, IsNaming, first_of};
ghost use Rattle.named_modules.specs.Built.{module_of};
ghost use Rattle.named_modules.specs.Faults.{heads_of};

use crate::misnamed::Misnamed;
use derivation_cursor::{Cursor, Gaps};
use fault_walk::{Sight, note_module};
use ir_core::{Module, NamedTypes};
use module_walk::{read_module_of, read_named_types};
use name_claims::Fault;
use std::alloc::{AllocError, Global};

/// The module that is built of the derivation in front of a walk.
fn built<S: Gaps>(alloc: Global, c: &Cursor, around: &S) -> Result<Module, AllocError>
    ensures { IfOk result (λ m. m ≡ module_of (S.declared around.now) (made (ahead_of c.now)).whole) }
{
    let mut heads = c.fork();
    let types = NamedTypes::new(alloc, read_named_types(alloc, &mut heads)?)?;
    let mut whole = c.fork();
    let module = read_module_of(alloc, &mut whole, types, around)?;
    Ok(module)
}

/// Of a fault and a place where a block is too large, the one that stands first: the fault, where both stand at one place.
fn first_of(fault: Option<Fault>, large: Option<u32>) -> Option<Misnamed>
    ensures { result ≡ first_of fault large }
{
    match (fault, large) {
        (None, None) => None,
        (None, Some(_)) => Some(Misnamed::Block),
        (Some(fault), None) => Some(Misnamed::Fault(fault)),
        (Some(fault), Some(place)) => {
            if (place as usize) < fault.start {
                Some(Misnamed::Block)
            } else {
                Some(Misnamed::Fault(fault))
            }
        }
    }
}

/// What is first at fault in the derivation in front of a walk, beside these heads of the module that is built of it.
fn found<S: Gaps>(
    alloc: Global,
    c: &Cursor,
    sight: &Sight,
    module: &Module,
    around: &S,
) -> Result<Option<Misnamed>, AllocError>
    requires sight { sight.now ≡ heads_of «module».now }
    requires module { «module».now ≡ module_of (S.declared around.now) (made (ahead_of c.now)).whole }
    ensures { IfOk result (IsJudged (S.called around.now) (S.declared around.now) (made (ahead_of c.now)).whole) }
{
    let told = note_module(alloc, sight, module, around, c.fork())?;
    Ok(first_of(told.fault, told.large))
}

/// The same, from the module.
fn judged<S: Gaps>(
    alloc: Global,
    c: &Cursor,
    module: &Module,
    around: &S,
) -> Result<Option<Misnamed>, AllocError>
    requires { «module».now ≡ module_of (S.declared around.now) (made (ahead_of c.now)).whole }
    ensures { IfOk result (IsJudged (S.called around.now) (S.declared around.now) (made (ahead_of c.now)).whole) }
{
    let sight = Sight::new(alloc, module)?;
    found(alloc, c, &sight, module, around)
}

/// The module that the derivation in front of a walk names, with what stands around its names, or what is first at fault in it.
///
/// # Errors
///
/// Where memory runs out.
pub fn name_derivation<S: Gaps>(
    alloc: Global,
    c: &Cursor,
    around: &S,
) -> Result<Result<Module, Misnamed>, AllocError>
    ensures { IfOk result (IsNaming (S.called around.now) (S.declared around.now) (made (ahead_of c.now)).whole) }
{
    let named = built(alloc, c, around)?;
    match judged(alloc, c, &named, around)? {
        Some(misnamed) => Ok(Err(misnamed)),
        None => Ok(Ok(named)),
    }
}
