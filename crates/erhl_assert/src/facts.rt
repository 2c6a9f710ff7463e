ghost use Rattle.std.specs.Prelude.{◌≡◌, IfOk};
ghost use Rattle.ir_types.specs.Same.{IsEquality};
ghost use Rattle.erhl_assert.specs.Facts.{same_fact};

use contents::{Exact, Seq};
use ir_core::{Expr0, Reg, Ty};
use std::alloc::{AllocError, Global};

/// An expression of the logic.
pub type Expr = Expr0;

/// The source or the target.
#[derive(Drop, Clone, Copy)]
pub enum Side {
    Src,
    Tgt,
}

/// A fact of one side.
pub enum Fact {
    /// The first expression is less defined than the second: its value refines to the second's (`ge`).
    LessDef(Expr0, Expr0),
    /// Where the register of now holds a pointer into a block, nothing else that lasts holds one: no other register of now, none of
    /// another frame, no byte and no name (`unique`).
    Unique(Reg),
    /// Where the register of now holds a pointer into a block, the frame made that block, and the other side has none for it (`private`).
    Private(Reg),
    /// The two aren't both pointers into one block (`noalias`).
    NoAlias(Expr0, Expr0),
    /// An access of the type, at the alignment in bytes, through the expression doesn't trap (`ok`).
    Ok(Expr0, Ty, u64),
}

impl Drop for Fact {
    fn drop(self) {
        match self {
            Fact::LessDef(_, _) => {}
            Fact::Unique(_) => {}
            Fact::Private(_) => {}
            Fact::NoAlias(_, _) => {}
            Fact::Ok(_, _, _) => {}
        }
    }
}

/// What is known at a place: facts of the source, facts of the target, and the registers that may differ between the
/// two sides (Crellvm's maydiff).
#[derive(Drop)]
pub struct Assertion {
    pub src: Seq<Fact>,
    pub tgt: Seq<Fact>,
    pub diff: Seq<Reg>,
}

/// What an inference rule is asked to conclude: where all of `from` holds, so does `to`.
pub struct Schema {
    pub from: Seq<Fact>,
    pub to: Fact,
}

impl Drop for Schema {
    fn drop(self) {
        let Schema { from: _, to: _ } = self;
    }
}

impl Exact for Fact {
    fn is(&self, other: &Fact) -> bool {
        match (self, other) {
            (Fact::LessDef(a, b), Fact::LessDef(c, d)) => a.is(c) && b.is(d),
            (Fact::Unique(r), Fact::Unique(s)) => r.is(s),
            (Fact::Private(r), Fact::Private(s)) => r.is(s),
            (Fact::NoAlias(a, b), Fact::NoAlias(c, d)) => a.is(c) && b.is(d),
            (Fact::Ok(a, t, m), Fact::Ok(b, s, n)) => a.is(b) && t.is(s) && m.is(n),
            _ => false,
        }
    }

    fn copy(&self, alloc: Global) -> Result<Fact, AllocError> {
        Ok(match self {
            Fact::LessDef(a, b) => {
                let (a, b) = two_copies(alloc, a, b)?;
                Fact::LessDef(a, b)
            }
            Fact::Unique(register) => Fact::Unique(register.copy(alloc)?),
            Fact::Private(register) => Fact::Private(register.copy(alloc)?),
            Fact::NoAlias(a, b) => {
                let (a, b) = two_copies(alloc, a, b)?;
                Fact::NoAlias(a, b)
            }
            Fact::Ok(address, ty, align) => {
                let (address, ty) = access_copy(alloc, address, ty)?;
                Fact::Ok(address, ty, *align)
            }
        })
    }
}

fn two_copies(alloc: Global, a: &Expr0, b: &Expr0) -> Result<(Expr0, Expr0), AllocError>
    ensures { IfOk result (λ pair. pair ≡ (a.now, b.now)) }
{
    let a = a.copy(alloc)?;
    Ok((a, b.copy(alloc)?))
}

fn access_copy(alloc: Global, address: &Expr0, ty: &Ty) -> Result<(Expr0, Ty), AllocError>
    ensures { IfOk result (λ pair. pair ≡ (address.now, ty.now)) }
{
    let address = address.copy(alloc)?;
    Ok((address, ty.copy(alloc)?))
}

#[tactic(auto, using(crate::proofs::SameFact::same_fact_true, crate::proofs::SameFact::same_fact_refl))]
pub fn same_fact(a: &Fact, b: &Fact) -> bool
    ensures { result ≡ same_fact a.now b.now }
{
    a.is(b)
}

/// Empty on purpose: its contract is the law.
///
/// The test of two facts is true exactly of equal ones.
pub fn same_fact_is_equality()
    ensures { IsEquality same_fact }
{}
