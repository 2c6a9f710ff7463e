use crate::Ty;
use std::marker::Model;

/// `i1`, the type of what a comparison gives, to lend where no text states it. To contracts there is one of it.
pub struct BitType {
    ty: Ty,
}

impl Drop for BitType {
    fn drop(self) {
        let BitType { ty: _ } = self;
    }
}

impl Model for BitType {
    ghost use Rattle.std.specs.Prelude.{◌≡◌, true};
    ghost use Rattle.ir_types.specs.declared.ty.Ty.{Int};
    ghost use Rattle.ir_types.specs.Same.{same_ty};

    ghost Value = { Unit {0} };

    ghost view = { λ it. tt };

    ghost invariant = { λ it. same_ty it.ty (Int 1) ≡ true };
}

impl BitType {
    ghost use Rattle.std.specs.Prelude.{◌≡◌};
    ghost use Rattle.ir_types.specs.declared.ty.Ty.{Int};

    pub fn new() -> BitType
        ensures { result ≡ tt }
    {
        BitType { ty: Ty::Int(1) }
    }

    #[tactic(auto, using(ir_types::proofs::SameLaws::same_ty_true))]
    pub fn get(&self) -> &Ty
        ensures { result.now ≡ Int 1 }
    {
        &self.ty
    }
}
