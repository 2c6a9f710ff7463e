//! The words of the language, as `specs/Words.antt` has them.
ghost use Rattle.std.specs.Prelude.{◌≡◌};
ghost use Rattle.ir_core.specs.Words as words;

use crate::{BinOp, CastOp, Pred};

/// The word of an operator.
pub fn op_word(op: BinOp) -> &'static [u8]
    ensures { result.now ≡ words.op_word op }
{
    match op {
        BinOp::Add => b"add",
        BinOp::Sub => b"sub",
        BinOp::Mul => b"mul",
        BinOp::Shl => b"shl",
        BinOp::UDiv => b"udiv",
        BinOp::SDiv => b"sdiv",
        BinOp::LShr => b"lshr",
        BinOp::AShr => b"ashr",
        BinOp::URem => b"urem",
        BinOp::SRem => b"srem",
        BinOp::And => b"and",
        BinOp::Or => b"or",
        BinOp::Xor => b"xor",
    }
}

/// The word of a conversion.
pub fn cast_word(op: CastOp) -> &'static [u8]
    ensures { result.now ≡ words.cast_word op }
{
    match op {
        CastOp::ZExt => b"zext",
        CastOp::SExt => b"sext",
        CastOp::Trunc => b"trunc",
        CastOp::BitCast => b"bitcast",
    }
}

/// The word of a predicate.
pub fn pred_word(pred: Pred) -> &'static [u8]
    ensures { result.now ≡ words.pred_word pred }
{
    match pred {
        Pred::Eq => b"eq",
        Pred::Ne => b"ne",
        Pred::Ugt => b"ugt",
        Pred::Uge => b"uge",
        Pred::Ult => b"ult",
        Pred::Ule => b"ule",
        Pred::Sgt => b"sgt",
        Pred::Sge => b"sge",
        Pred::Slt => b"slt",
        Pred::Sle => b"sle",
    }
}
