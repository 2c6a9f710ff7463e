use crate::{Name, Shared};
use contents::{Exact, Seq};
use std::alloc::{AllocError, Global};

/// A type (LangRef 3.7, Type System): an integer of so many bits, a pointer to a type, so many elements of a type, a struct of
/// fields, a type that the module names, and `void`.
pub enum Ty {
    Int(u32),
    Ptr(Shared<Ty>),
    Array(u64, Shared<Ty>),
    Struct(Shared<Seq<Ty>>),
    Named(Shared<Name>),
    Void,
}

impl Drop for Ty {
    fn drop(self) {
        match self {
            Ty::Int(_) => {}
            Ty::Ptr(_) => {}
            Ty::Array(_, _) => {}
            Ty::Struct(_) => {}
            Ty::Named(_) => {}
            Ty::Void => {}
        }
    }
}

impl Exact for Ty {
    fn is(&self, other: &Ty) -> bool {
        match (self, other) {
            (Ty::Int(mine), Ty::Int(theirs)) => *mine == *theirs,
            (Ty::Ptr(mine), Ty::Ptr(theirs)) => mine.get().is(theirs.get()),
            (Ty::Array(mine, of_mine), Ty::Array(theirs, of_theirs)) => {
                *mine == *theirs && of_mine.get().is(of_theirs.get())
            }
            (Ty::Struct(mine), Ty::Struct(theirs)) => {
                let mine = mine.get();
                let theirs = theirs.get();
                if mine.len() != theirs.len() {
                    return false;
                }
                for i in 0..mine.len() {
                    if !mine.as_slice()[i].is(&theirs.as_slice()[i]) {
                        return false;
                    }
                }
                true
            }
            (Ty::Named(mine), Ty::Named(theirs)) => mine.get().is(theirs.get()),
            (Ty::Void, Ty::Void) => true,
            _ => false,
        }
    }

    /// Takes no memory, and no walk through the type.
    fn copy(&self, _alloc: Global) -> Result<Ty, AllocError> {
        match self {
            Ty::Int(width) => Ok(Ty::Int(*width)),
            Ty::Ptr(target) => Ok(Ty::Ptr(target.share()?)),
            Ty::Array(count, element) => Ok(Ty::Array(*count, element.share()?)),
            Ty::Struct(fields) => Ok(Ty::Struct(fields.share()?)),
            Ty::Named(name) => Ok(Ty::Named(name.share()?)),
            Ty::Void => Ok(Ty::Void),
        }
    }
}
