ghost use Rattle.std.specs.Prelude.{◌≡◌};
ghost use Rattle.module_grammar.specs.Operators.{exact_op, linkage_of, operator_op, overflow_op, plain_op, resize_op};

use crate::lines::OperatorText;
use ir_core::{BinOp, CastOp, Linkage};

/// A binary operator behind which `nuw` and `nsw` may stand (LangRef 3.7, Binary Operations).
#[derive(Drop, Clone, Copy)]
pub enum OverflowOp {
    Add,
    Sub,
    Mul,
    Shl,
}

/// A binary operator behind which `exact` may stand.
#[derive(Drop, Clone, Copy)]
pub enum ExactOp {
    UDiv,
    SDiv,
    LShr,
    AShr,
}

/// A binary operator without flags.
#[derive(Drop, Clone, Copy)]
pub enum PlainOp {
    URem,
    SRem,
    And,
    Or,
    Xor,
}

/// A conversion between integer types of other widths (LangRef 3.7, Conversion Operations).
#[derive(Drop, Clone, Copy)]
pub enum ResizeOp {
    ZExt,
    SExt,
    Trunc,
}

/// `nuw` or `nsw` where it is written.
#[derive(Drop, Clone, Copy)]
pub enum FlagWord {
    Nuw,
    Nsw,
}

/// A word of linkage but `external` (LangRef 3.7, Linkage Types).
#[derive(Drop, Clone, Copy)]
pub enum LinkageWord {
    Private,
    Internal,
    Common,
    AvailableExternally,
    LinkonceOdr,
    WeakOdr,
}

/// `signext` or `zeroext` (LangRef 3.7, Parameter Attributes).
#[derive(Drop, Clone, Copy)]
pub enum ExtensionWord {
    Signed,
    Zero,
}

impl OverflowOp {
    /// The operator that it is.
    pub fn op(self) -> BinOp
        ensures { result ≡ overflow_op self }
    {
        match self {
            OverflowOp::Add => BinOp::Add,
            OverflowOp::Sub => BinOp::Sub,
            OverflowOp::Mul => BinOp::Mul,
            OverflowOp::Shl => BinOp::Shl,
        }
    }
}

impl ExactOp {
    /// The operator that it is.
    pub fn op(self) -> BinOp
        ensures { result ≡ exact_op self }
    {
        match self {
            ExactOp::UDiv => BinOp::UDiv,
            ExactOp::SDiv => BinOp::SDiv,
            ExactOp::LShr => BinOp::LShr,
            ExactOp::AShr => BinOp::AShr,
        }
    }
}

impl ResizeOp {
    /// The conversion that it is.
    pub fn op(self) -> CastOp
        ensures { result ≡ resize_op self }
    {
        match self {
            ResizeOp::ZExt => CastOp::ZExt,
            ResizeOp::SExt => CastOp::SExt,
            ResizeOp::Trunc => CastOp::Trunc,
        }
    }
}

impl PlainOp {
    /// The operator that it is.
    pub fn op(self) -> BinOp
        ensures { result ≡ plain_op self }
    {
        match self {
            PlainOp::URem => BinOp::URem,
            PlainOp::SRem => BinOp::SRem,
            PlainOp::And => BinOp::And,
            PlainOp::Or => BinOp::Or,
            PlainOp::Xor => BinOp::Xor,
        }
    }
}

impl LinkageWord {
    /// The linkage that it is.
    pub fn linkage(self) -> Linkage
        ensures { result ≡ linkage_of self }
    {
        match self {
            LinkageWord::Private => Linkage::Private,
            LinkageWord::Internal => Linkage::Internal,
            LinkageWord::Common => Linkage::Common,
            LinkageWord::AvailableExternally => Linkage::AvailableExternally,
            LinkageWord::LinkonceOdr => Linkage::LinkonceOdr,
            LinkageWord::WeakOdr => Linkage::WeakOdr,
        }
    }
}

impl OperatorText {
    /// The operator that it is, whatever its flags are.
    pub fn op(&self) -> BinOp
        ensures { result ≡ operator_op self.now }
    {
        match self {
            OperatorText::Overflow { op, flags: _ } => op.op(),
            OperatorText::Exact { op, exact: _ } => op.op(),
            OperatorText::Plain(op) => op.op(),
        }
    }
}
