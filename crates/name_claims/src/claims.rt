use contents::Seq;
use ir_core::{Name, Ty};

/// What a name stands for: a parameter or register of that type, a block, a function.
pub enum Meaning {
    Register(Ty),
    Block,
    Function,
}

impl Drop for Meaning {
    fn drop(self) {
        match self {
            Meaning::Register(_) => {}
            Meaning::Block => {}
            Meaning::Function => {}
        }
    }
}

/// A name that is defined; what is written without a name has its number.
pub struct Definition {
    pub name: Name,
    pub meaning: Meaning,
}

impl Drop for Definition {
    fn drop(self) {
        let Definition {
            name: _,
            meaning: _,
        } = self;
    }
}

/// A number that is written as a name, and the one that is due there.
#[derive(Drop, Clone, Copy)]
pub struct Count {
    pub written: u32,
    pub due: u64,
}

/// A name that is used as a register of the type.
pub struct Use {
    pub name: Name,
    pub ty: Ty,
}

impl Drop for Use {
    fn drop(self) {
        let Use { name: _, ty: _ } = self;
    }
}

/// What a place of the text claims.
pub enum Says {
    /// The name of the item's definition of this index, counted from 0, is the name of none before it.
    New(usize),
    /// The number is the one that is due.
    Counted(Count),
    /// The name is defined, before or behind, as a register of the type.
    Register(Use),
    /// The name is defined, before or behind, as a block.
    Label(Name),
    /// What cannot be, as a number that its type does not have.
    Wrong,
}

impl Drop for Says {
    fn drop(self) {
        match self {
            Says::New(_) => {}
            Says::Counted(_) => {}
            Says::Register(_) => {}
            Says::Label(_) => {}
            Says::Wrong => {}
        }
    }
}

/// A claim of the bytes from `start` on, up to `end`.
pub struct Claim {
    pub start: usize,
    pub end: usize,
    pub says: Says,
}

impl Drop for Claim {
    fn drop(self) {
        let Claim {
            start: _,
            end: _,
            says: _,
        } = self;
    }
}

/// Names that must differ, in the order of the text, and what is claimed of them: those of one function, or those of the functions
/// of a module.
pub struct Item {
    pub definitions: Seq<Definition>,
    pub claims: Seq<Claim>,
}

impl Drop for Item {
    fn drop(self) {
        let Item {
            definitions: _,
            claims: _,
        } = self;
    }
}

/// Why a claim is at fault.
#[derive(Drop, Clone, Copy)]
pub enum Reason {
    /// The name is defined before.
    Twice,
    /// This number is due.
    WrongNumber(u64),
    /// The name is not defined.
    Unknown,
    /// The name stands for what is left out where it is used.
    LeftOut,
    /// The name or the number is not of the type.
    WrongType,
}

/// A fault of the bytes from `start` on, up to `end`.
#[derive(Drop, Clone, Copy)]
pub struct Fault {
    pub start: usize,
    pub end: usize,
    pub reason: Reason,
}
