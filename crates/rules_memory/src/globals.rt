//! Accesses at the start of a global.
ghost use Rattle.std.specs.Prelude.{◌≡◌, ◌≤◌, nat_le};
ghost use Rattle.std.specs.Option.{option_copied};
ghost use Rattle.ir_types.specs.Named.{size_of};
ghost use Rattle.ir_core.specs.Types.{kind_of};
ghost use Rattle.ir_machine.specs.State.{scope_of};
ghost use Rattle.rules_memory.specs.Rows.{global_behind, global_in, global_named, is_ok_global, lies_in};

use crate::tests_of_operands::divides;
use block_memory::byte_count;
use erhl_assert::Fact;
use ir_core::{Atom, Const, Expr, GlobalVar, Module, Name, Reg, Ty, kind_of, same_name};
use ir_machine::align_or;
use ir_types::{NamedTypes, SizeFault, fits_block};
use rule_base::is_typed;

/// The first global of that name.
fn global_named<'a>(globals: &'a [GlobalVar], name: &Name) -> Option<&'a GlobalVar>
    ensures { option_copied result ≡ global_named globals.now name.now }
{
    for global in globals {
        if same_name(&global.name, name) {
            return Some(global);
        }
    }
    None
}

/// The global whose address the atom is.
fn global_behind<'a>(module: &'a Module, atom: &Atom<Reg>) -> Option<&'a GlobalVar>
    ensures { option_copied result ≡ global_behind (scope_of «module».now) (global_in atom.now) }
{
    match atom {
        Atom::Constant(Const::Global(name)) => {
            global_named(module.globals.as_slice(), name.get())
        }
        _ => None,
    }
}

/// Whether so few bytes lie in one of the type.
#[tactic(auto, using(crate::proofs::Room::in_block, crate::proofs::Room::in_large, crate::proofs::Room::in_none))]
fn has_room(types: &NamedTypes, ty: &Ty, bytes: u64) -> bool
    requires few { bytes ≤ 2147483648 }
    ensures { result ≡ nat_le bytes (size_of types.now ty.now) }
{
    match fits_block(types, ty, 1) {
        Ok(size) => bytes <= size,
        Err(SizeFault::TooLarge) => true,
        Err(SizeFault::Unsized) => bytes == 0,
    }
}

/// Whether an access of the type lies at the start of the global, if there is one.
#[tactic(auto, using(crate::proofs::Room::few_bytes))]
fn lies_in(module: &Module, ty: &Ty, align: u64, global: Option<&GlobalVar>) -> bool
    ensures { result ≡ lies_in (scope_of «module».now) (kind_of ty.now) align (option_copied global.entry) }
{
    match (kind_of(ty), global) {
        (Some(kind), Some(global)) => {
            has_room(&module.types, &global.ty, byte_count(kind) as u64)
                && divides(align, align_or(&module.types, &global.ty, global.align))
        }
        _ => false,
    }
}

pub(crate) fn is_ok_global(module: &Module, from: &[Fact], to: &Fact) -> bool
    ensures { result ≡ is_ok_global (scope_of «module».now) from.now to.now }
{
    if !from.is_empty() {
        return false;
    }
    let Fact::Ok(address, ty, align) = to else {
        return false;
    };
    match address {
        Expr::Plain(pointer) => {
            is_typed(module, address)
                && lies_in(module, ty, *align, global_behind(module, &pointer.atom))
        }
        _ => false,
    }
}
