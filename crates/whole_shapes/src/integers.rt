//! What is asked of a function over integers alone, but for its blocks.
ghost use Rattle.std.specs.Prelude.{◌≡◌, IsTrue};
ghost use Rattle.std.specs.List.{list_all};
ghost use Rattle.ir_core.specs.declared.functions.Param.{Param};
ghost use Rattle.ir_core.specs.Types.{is_integer};
ghost use Rattle.whole_shapes.specs.Whole as meaning;

use ir_core::{Const, Function, Param, Ty, is_integer};

/// Whether it is an integer type, or `void`.
fn is_result(ty: &Ty) -> bool
    ensures { result ≡ meaning.is_whole_result ty.now }
{
    match ty {
        Ty::Void => true,
        _ => is_integer(ty),
    }
}

fn are_integers(params: &[Param]) -> bool
    ensures { result ≡ list_all (λ (p : Param). is_integer p.ty) params.now }
{
    for param in params {
        if !is_integer(&param.ty) {
            return false;
        }
    }
    true
}

/// Whether a function takes integers alone, and gives one or nothing.
pub fn is_header_whole(function: &Function) -> bool
    ensures { result ≡ meaning.is_header_whole «function».now }
{
    is_result(&function.result) && are_integers(function.params.as_slice())
}

/// Whether it is a number, or undef.
pub fn is_plain(constant: &Const) -> bool
    ensures { IsTrue result → meaning.IsPlain constant.now }
{
    match constant {
        Const::Number(_) | Const::Undef => true,
        _ => false,
    }
}
