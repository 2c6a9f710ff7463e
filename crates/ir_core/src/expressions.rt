ghost use Rattle.std.specs.Prelude.{◌≡◌};
ghost use Rattle.ir_core.specs.Expressions.{type_of};

use crate::operands::is_align;
use crate::{Atom, BinOp, BitType, CastOp, Flags, Name, Operand, Pred, Ty};
use contents::{Boxed, Exact, Seq};
use std::alloc::{AllocError, Global};

/// A register of the logic (Crellvm): as the function has it now, as it was before the edge that is being
/// crossed, or one that the proof alone has.
pub enum Reg {
    Now(Name),
    Old(Name),
    Ghost(Name),
}

impl Drop for Reg {
    fn drop(self) {
        match self {
            Reg::Now(_) => {}
            Reg::Old(_) => {}
            Reg::Ghost(_) => {}
        }
    }
}

/// The right side of a line, or an expression of the logic, over the registers that it names: one operand, or one
/// operator over operands. No text has a line of one operand alone. A selection and an element are boxed, so that the others take no more
/// room than they need.
pub enum Expr<R> {
    Plain(Operand<R>),
    Binary(Binary<R>),
    Icmp(Icmp<R>),
    Cast(Cast<R>),
    Select(Boxed<Select<R>>),
    Element(Boxed<Element<R>>),
    Load(Load<R>),
}

impl<R: Drop> Drop for Expr<R> {
    fn drop(self) {
        match self {
            Expr::Plain(_) => {}
            Expr::Binary(_) => {}
            Expr::Icmp(_) => {}
            Expr::Cast(_) => {}
            Expr::Select(_) => {}
            Expr::Element(_) => {}
            Expr::Load(_) => {}
        }
    }
}

impl<R> Expr<R> {
    /// The type of what it gives, as the text states it: a comparison's is `i1`, a conversion's the one that stands behind `to`, a
    /// selection's that of its first arm, and a load's the one that stands first; an element's, which no text states, is kept beside it.
    pub fn ty<'a>(&'a self, bit: &'a BitType) -> &'a Ty
        ensures { result.now ≡ type_of self.now }
    {
        match self {
            Expr::Plain(operand) => &operand.ty,
            Expr::Binary(binary) => &binary.ty,
            Expr::Icmp(_) => bit.get(),
            Expr::Cast(cast) => &cast.to,
            Expr::Select(select) => &select.get().left.ty,
            Expr::Element(element) => &element.get().to,
            Expr::Load(load) => &load.of,
        }
    }
}

/// An expression of the logic.
pub type Expr0 = Expr<Reg>;

/// `op flags ty left, right`: a binary operator over two operands of one type (LangRef 3.7, Binary Operations).
pub struct Binary<R> {
    pub op: BinOp,
    pub flags: Flags,
    pub ty: Ty,
    pub left: Atom<R>,
    pub right: Atom<R>,
}

impl<R: Drop> Drop for Binary<R> {
    fn drop(self) {
        let Binary {
            op: _,
            flags: _,
            ty: _,
            left: _,
            right: _,
        } = self;
    }
}

/// `icmp pred ty left, right`: a comparison of two operands of one type (LangRef 3.7, icmp Instruction).
pub struct Icmp<R> {
    pub pred: Pred,
    pub ty: Ty,
    pub left: Atom<R>,
    pub right: Atom<R>,
}

impl<R: Drop> Drop for Icmp<R> {
    fn drop(self) {
        let Icmp {
            pred: _,
            ty: _,
            left: _,
            right: _,
        } = self;
    }
}

/// `op operand to ty` (LangRef 3.7, Conversion Operations).
pub struct Cast<R> {
    pub op: CastOp,
    pub operand: Operand<R>,
    pub to: Ty,
}

impl<R: Drop> Drop for Cast<R> {
    fn drop(self) {
        let Cast {
            op: _,
            operand: _,
            to: _,
        } = self;
    }
}

/// `select condition, left, right` (LangRef 3.7, select Instruction).
pub struct Select<R> {
    pub condition: Operand<R>,
    pub left: Operand<R>,
    pub right: Operand<R>,
}

impl<R: Drop> Drop for Select<R> {
    fn drop(self) {
        let Select {
            condition: _,
            left: _,
            right: _,
        } = self;
    }
}

/// `getelementptr inbounds of, base, indices`: the address of a part, from the address of the base on (LangRef 3.7, getelementptr
/// Instruction).
pub struct Element<R> {
    pub inbounds: bool,
    pub of: Ty,
    pub base: Operand<R>,
    pub indices: Seq<Operand<R>>,
    /// The type of what it gives, which no text states: the indices lead to it through `of`, and through the types that the module names.
    pub to: Ty,
}

impl<R: Drop> Drop for Element<R> {
    fn drop(self) {
        let Element {
            inbounds: _,
            of: _,
            base: _,
            indices: _,
            to: _,
        } = self;
    }
}

/// `load of, pointer, align N` (LangRef 3.7, load Instruction). The alignment is kept as it is read; an expression of the logic has one
/// always.
pub struct Load<R> {
    pub of: Ty,
    pub pointer: Operand<R>,
    pub align: Option<u32>,
}

impl<R: Drop> Drop for Load<R> {
    fn drop(self) {
        let Load {
            of: _,
            pointer: _,
            align: _,
        } = self;
    }
}

impl Exact for Reg {
    fn is(&self, other: &Reg) -> bool {
        match (self, other) {
            (Reg::Now(mine), Reg::Now(theirs)) => mine.is(theirs),
            (Reg::Old(mine), Reg::Old(theirs)) => mine.is(theirs),
            (Reg::Ghost(mine), Reg::Ghost(theirs)) => mine.is(theirs),
            _ => false,
        }
    }

    fn copy(&self, alloc: Global) -> Result<Reg, AllocError> {
        match self {
            Reg::Now(name) => Ok(Reg::Now(name.copy(alloc)?)),
            Reg::Old(name) => Ok(Reg::Old(name.copy(alloc)?)),
            Reg::Ghost(name) => Ok(Reg::Ghost(name.copy(alloc)?)),
        }
    }
}

impl<R: Exact> Exact for Binary<R> {
    fn is(&self, other: &Binary<R>) -> bool {
        self.op.is(&other.op)
            && self.flags.is(&other.flags)
            && self.ty.is(&other.ty)
            && self.left.is(&other.left)
            && self.right.is(&other.right)
    }

    fn copy(&self, alloc: Global) -> Result<Binary<R>, AllocError> {
        Ok(Binary {
            op: self.op,
            flags: self.flags,
            ty: self.ty.copy(alloc)?,
            left: self.left.copy(alloc)?,
            right: self.right.copy(alloc)?,
        })
    }
}

impl<R: Exact> Exact for Icmp<R> {
    fn is(&self, other: &Icmp<R>) -> bool {
        self.pred.is(&other.pred)
            && self.ty.is(&other.ty)
            && self.left.is(&other.left)
            && self.right.is(&other.right)
    }

    fn copy(&self, alloc: Global) -> Result<Icmp<R>, AllocError> {
        Ok(Icmp {
            pred: self.pred,
            ty: self.ty.copy(alloc)?,
            left: self.left.copy(alloc)?,
            right: self.right.copy(alloc)?,
        })
    }
}

impl<R: Exact> Exact for Cast<R> {
    fn is(&self, other: &Cast<R>) -> bool {
        self.op.is(&other.op) && self.operand.is(&other.operand) && self.to.is(&other.to)
    }

    fn copy(&self, alloc: Global) -> Result<Cast<R>, AllocError> {
        Ok(Cast {
            op: self.op,
            operand: self.operand.copy(alloc)?,
            to: self.to.copy(alloc)?,
        })
    }
}

impl<R: Exact> Exact for Select<R> {
    fn is(&self, other: &Select<R>) -> bool {
        self.condition.is(&other.condition)
            && self.left.is(&other.left)
            && self.right.is(&other.right)
    }

    fn copy(&self, alloc: Global) -> Result<Select<R>, AllocError> {
        Ok(Select {
            condition: self.condition.copy(alloc)?,
            left: self.left.copy(alloc)?,
            right: self.right.copy(alloc)?,
        })
    }
}

impl<R: Exact> Exact for Element<R> {
    fn is(&self, other: &Element<R>) -> bool {
        self.inbounds == other.inbounds
            && self.of.is(&other.of)
            && self.base.is(&other.base)
            && self.indices.is(&other.indices)
            && self.to.is(&other.to)
    }

    fn copy(&self, alloc: Global) -> Result<Element<R>, AllocError> {
        Ok(Element {
            inbounds: self.inbounds,
            of: self.of.copy(alloc)?,
            base: self.base.copy(alloc)?,
            indices: self.indices.copy(alloc)?,
            to: self.to.copy(alloc)?,
        })
    }
}

impl<R: Exact> Exact for Load<R> {
    fn is(&self, other: &Load<R>) -> bool {
        self.of.is(&other.of)
            && self.pointer.is(&other.pointer)
            && is_align(self.align, other.align)
    }

    fn copy(&self, alloc: Global) -> Result<Load<R>, AllocError> {
        Ok(Load {
            of: self.of.copy(alloc)?,
            pointer: self.pointer.copy(alloc)?,
            align: self.align,
        })
    }
}

impl<R: Exact> Exact for Expr<R> {
    fn is(&self, other: &Expr<R>) -> bool {
        match (self, other) {
            (Expr::Plain(mine), Expr::Plain(theirs)) => mine.is(theirs),
            (Expr::Binary(mine), Expr::Binary(theirs)) => mine.is(theirs),
            (Expr::Icmp(mine), Expr::Icmp(theirs)) => mine.is(theirs),
            (Expr::Cast(mine), Expr::Cast(theirs)) => mine.is(theirs),
            (Expr::Select(mine), Expr::Select(theirs)) => mine.get().is(theirs.get()),
            (Expr::Element(mine), Expr::Element(theirs)) => mine.get().is(theirs.get()),
            (Expr::Load(mine), Expr::Load(theirs)) => mine.is(theirs),
            _ => false,
        }
    }

    fn copy(&self, alloc: Global) -> Result<Expr<R>, AllocError> {
        match self {
            Expr::Plain(operand) => Ok(Expr::Plain(operand.copy(alloc)?)),
            Expr::Binary(binary) => Ok(Expr::Binary(binary.copy(alloc)?)),
            Expr::Icmp(icmp) => Ok(Expr::Icmp(icmp.copy(alloc)?)),
            Expr::Cast(cast) => Ok(Expr::Cast(cast.copy(alloc)?)),
            Expr::Select(select) => {
                let copied = select.get().copy(alloc)?;
                Ok(Expr::Select(Boxed::new(alloc, copied)?))
            }
            Expr::Element(element) => {
                let copied = element.get().copy(alloc)?;
                Ok(Expr::Element(Boxed::new(alloc, copied)?))
            }
            Expr::Load(load) => Ok(Expr::Load(load.copy(alloc)?)),
        }
    }
}
