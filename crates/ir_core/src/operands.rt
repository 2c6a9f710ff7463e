ghost use Rattle.std.specs.Prelude.{◌≡◌, ◌↔◌, IsTrue};
ghost use Rattle.ir_core.specs.Same as same;

use crate::{Bits, Name, Shared, Ty};
use contents::{Exact, Seq};
use std::alloc::{AllocError, Global};

/// A constant (LangRef 3.7, Constants). What it is worth depends on the type that stands beside it.
pub enum Const {
    /// A number of `iN`, kept as it is modulo 2 to the N.
    Number(Bits),
    Undef,
    Null,
    /// The address of the global or function of that name.
    Global(Shared<Name>),
    Element(Shared<ConstElement>),
    Cast(Shared<ConstCast>),
}

/// A constant behind the type that is stated for it.
pub type TypedConst = (Ty, Const);

/// `getelementptr inbounds (of, base, indices)`, a constant (LangRef 3.7, Constant Expressions): whether it is `inbounds`, the type
/// behind that, and a list of the base and then the indices.
pub type ConstElement = (bool, Ty, Seq<TypedConst>);

/// `bitcast (constant to ty)`, a constant (LangRef 3.7, Constant Expressions): the type that stands behind `to`, and a list of the one
/// constant before it.
pub type ConstCast = (Ty, Seq<TypedConst>);

impl Drop for Const {
    fn drop(self) {
        match self {
            Const::Number(_) => {}
            Const::Undef => {}
            Const::Null => {}
            Const::Global(_) => {}
            Const::Element(_) => {}
            Const::Cast(_) => {}
        }
    }
}

/// What an operand names: a constant or a register. The registers of functions are names; those of
/// expressions are a `Reg`.
pub enum Atom<R> {
    Constant(Const),
    Register(R),
}

impl<R: Drop> Drop for Atom<R> {
    fn drop(self) {
        match self {
            Atom::Constant(_) => {}
            Atom::Register(_) => {}
        }
    }
}

/// An operand with the type that is stated for it.
pub struct Operand<R> {
    pub ty: Ty,
    pub atom: Atom<R>,
}

impl<R: Drop> Drop for Operand<R> {
    fn drop(self) {
        let Operand { ty: _, atom: _ } = self;
    }
}

/// The operator of a binary line (LangRef 3.7, Binary Operations).
#[derive(Drop, Clone, Copy)]
pub enum BinOp {
    Add,
    Sub,
    Mul,
    Shl,
    UDiv,
    SDiv,
    LShr,
    AShr,
    URem,
    SRem,
    And,
    Or,
    Xor,
}

/// `nuw`, `nsw` and `exact` of a binary line: no unsigned wrap, no signed wrap, nothing left over.
#[derive(Drop, Clone, Copy)]
pub struct Flags {
    pub nuw: bool,
    pub nsw: bool,
    pub exact: bool,
}

/// The operator of a conversion (LangRef 3.7, Conversion Operations).
#[derive(Drop, Clone, Copy)]
pub enum CastOp {
    ZExt,
    SExt,
    Trunc,
    BitCast,
}

/// The predicate of a comparison (LangRef 3.7, icmp Instruction).
#[derive(Drop, Clone, Copy)]
pub enum Pred {
    Eq,
    Ne,
    Ugt,
    Uge,
    Ult,
    Ule,
    Sgt,
    Sge,
    Slt,
    Sle,
}

impl Exact for Const {
    fn is(&self, other: &Const) -> bool {
        match (self, other) {
            (Const::Number(mine), Const::Number(theirs)) => *mine == *theirs,
            (Const::Undef, Const::Undef) => true,
            (Const::Null, Const::Null) => true,
            (Const::Global(mine), Const::Global(theirs)) => mine.get().is(theirs.get()),
            (Const::Element(mine), Const::Element(theirs)) => {
                let mine = mine.get();
                let theirs = theirs.get();
                if mine.0 != theirs.0 || !mine.1.is(&theirs.1) || mine.2.len() != theirs.2.len() {
                    return false;
                }
                for i in 0..mine.2.len() {
                    let one = &mine.2.as_slice()[i];
                    let other = &theirs.2.as_slice()[i];
                    if !one.0.is(&other.0) || !one.1.is(&other.1) {
                        return false;
                    }
                }
                true
            }
            (Const::Cast(mine), Const::Cast(theirs)) => {
                let mine = mine.get();
                let theirs = theirs.get();
                if !mine.0.is(&theirs.0) || mine.1.len() != theirs.1.len() {
                    return false;
                }
                for i in 0..mine.1.len() {
                    let one = &mine.1.as_slice()[i];
                    let other = &theirs.1.as_slice()[i];
                    if !one.0.is(&other.0) || !one.1.is(&other.1) {
                        return false;
                    }
                }
                true
            }
            _ => false,
        }
    }

    /// Takes no memory, and no walk through the constant.
    fn copy(&self, _alloc: Global) -> Result<Const, AllocError> {
        match self {
            Const::Number(number) => Ok(Const::Number(*number)),
            Const::Undef => Ok(Const::Undef),
            Const::Null => Ok(Const::Null),
            Const::Global(name) => Ok(Const::Global(name.share()?)),
            Const::Element(element) => Ok(Const::Element(element.share()?)),
            Const::Cast(cast) => Ok(Const::Cast(cast.share()?)),
        }
    }
}

impl<R: Exact> Exact for Atom<R> {
    fn is(&self, other: &Atom<R>) -> bool {
        match (self, other) {
            (Atom::Constant(mine), Atom::Constant(theirs)) => mine.is(theirs),
            (Atom::Register(mine), Atom::Register(theirs)) => mine.is(theirs),
            _ => false,
        }
    }

    fn copy(&self, alloc: Global) -> Result<Atom<R>, AllocError> {
        match self {
            Atom::Constant(constant) => Ok(Atom::Constant(constant.copy(alloc)?)),
            Atom::Register(register) => Ok(Atom::Register(register.copy(alloc)?)),
        }
    }
}

impl<R: Exact> Exact for Operand<R> {
    fn is(&self, other: &Operand<R>) -> bool {
        self.ty.is(&other.ty) && self.atom.is(&other.atom)
    }

    fn copy(&self, alloc: Global) -> Result<Operand<R>, AllocError> {
        Ok(Operand {
            ty: self.ty.copy(alloc)?,
            atom: self.atom.copy(alloc)?,
        })
    }
}

/// Alignments as they are read: one that is left out is the same as one that is left out alone.
pub(crate) fn is_align(mine: Option<u32>, theirs: Option<u32>) -> bool
    ensures { IsTrue result ↔ (mine ≡ theirs) }
{
    match (mine, theirs) {
        (Some(mine), Some(theirs)) => mine == theirs,
        (None, None) => true,
        _ => false,
    }
}

/// A number for each operator.
fn op_code(op: BinOp) -> u32
    ensures { result ≡ same.op_code op }
{
    match op {
        BinOp::Add => 0,
        BinOp::Sub => 1,
        BinOp::Mul => 2,
        BinOp::Shl => 3,
        BinOp::UDiv => 4,
        BinOp::SDiv => 5,
        BinOp::LShr => 6,
        BinOp::AShr => 7,
        BinOp::URem => 8,
        BinOp::SRem => 9,
        BinOp::And => 10,
        BinOp::Or => 11,
        BinOp::Xor => 12,
    }
}

/// A number for each conversion.
fn cast_code(op: CastOp) -> u32
    ensures { result ≡ same.cast_code op }
{
    match op {
        CastOp::ZExt => 0,
        CastOp::SExt => 1,
        CastOp::Trunc => 2,
        CastOp::BitCast => 3,
    }
}

/// A number for each predicate.
fn pred_code(pred: Pred) -> u32
    ensures { result ≡ same.pred_code pred }
{
    match pred {
        Pred::Eq => 0,
        Pred::Ne => 1,
        Pred::Ugt => 2,
        Pred::Uge => 3,
        Pred::Ult => 4,
        Pred::Ule => 5,
        Pred::Sgt => 6,
        Pred::Sge => 7,
        Pred::Slt => 8,
        Pred::Sle => 9,
    }
}

impl Exact for BinOp {
    fn is(&self, other: &BinOp) -> bool {
        op_code(*self) == op_code(*other)
    }

    fn copy(&self, _alloc: Global) -> Result<BinOp, AllocError> {
        Ok(*self)
    }
}

impl Exact for Flags {
    fn is(&self, other: &Flags) -> bool {
        self.nuw == other.nuw && self.nsw == other.nsw && self.exact == other.exact
    }

    fn copy(&self, _alloc: Global) -> Result<Flags, AllocError> {
        Ok(*self)
    }
}

impl Exact for CastOp {
    fn is(&self, other: &CastOp) -> bool {
        cast_code(*self) == cast_code(*other)
    }

    fn copy(&self, _alloc: Global) -> Result<CastOp, AllocError> {
        Ok(*self)
    }
}

impl Exact for Pred {
    fn is(&self, other: &Pred) -> bool {
        pred_code(*self) == pred_code(*other)
    }

    fn copy(&self, _alloc: Global) -> Result<Pred, AllocError> {
        Ok(*self)
    }
}
