ghost use Rattle.std.specs.Prelude.{◌≡◌, None, Some, IfNone, IfSome};
ghost use Rattle.std.specs.Option.{option_copied};
ghost use Rattle.ir_core.specs.Functions.{name_set, named_register, register_of};
ghost use Rattle.ir_core.specs.Modules.{not_extended};

use crate::{Atom, BitType, Bits, Expr, Linkage, Name, Operand, Ty};
use contents::{Boxed, Exact, Seq};
use std::alloc::{AllocError, Global};

/// `name = right`: a line that sets a register and does nothing else.
pub struct Calm {
    pub name: Name,
    pub right: Expr<Name>,
}

impl Drop for Calm {
    fn drop(self) {
        let Calm { name: _, right: _ } = self;
    }
}

/// A body line (LangRef 3.7, Memory Access and Addressing Operations, Other Operations).
pub enum Instr {
    Calm(Calm),
    Alloca(Alloca),
    Store(Store),
    Call(Boxed<Call>),
}

impl Drop for Instr {
    fn drop(self) {
        match self {
            Instr::Calm(_) => {}
            Instr::Alloca(_) => {}
            Instr::Store(_) => {}
            Instr::Call(_) => {}
        }
    }
}

impl Instr {
    /// The name of the register that it sets, if it sets one.
    pub fn name(&self) -> Option<&Name>
        ensures { option_copied result ≡ name_set self.now }
    {
        match self {
            Instr::Calm(calm) => Some(&calm.name),
            Instr::Alloca(alloca) => Some(&alloca.name),
            Instr::Store(_) => None,
            Instr::Call(call) => call.get().name.as_ref(),
        }
    }

    /// The register that it sets, with its type, if it sets one.
    pub fn register<'a>(&'a self, bit: &'a BitType) -> Option<(&'a Name, &'a Ty)>
        ensures some { IfSome result (λ it. register_of self.now ≡ Some (it.0.now, it.1.now)) }
        ensures none { IfNone result (register_of self.now ≡ None) }
    {
        match self {
            Instr::Calm(calm) => Some((&calm.name, calm.right.ty(bit))),
            Instr::Alloca(alloca) => Some((&alloca.name, &alloca.to)),
            Instr::Store(_) => None,
            Instr::Call(call) => call.get().register(),
        }
    }
}

/// `name = alloca of, ty count, align N`. The count stands behind its type; where it is left out it is 1. The alignment is kept as it is
/// read.
pub struct Alloca {
    pub name: Name,
    pub of: Ty,
    /// The type of its register, a pointer to what it is of, which no text states. It is kept here to be lent.
    pub to: Ty,
    pub count: Option<(Ty, Bits)>,
    pub align: Option<u32>,
}

impl Drop for Alloca {
    fn drop(self) {
        let Alloca {
            name: _,
            of: _,
            to: _,
            count: _,
            align: _,
        } = self;
    }
}

/// `store value, pointer, align N`. The alignment is kept as it is read.
pub struct Store {
    pub value: Operand<Name>,
    pub pointer: Operand<Name>,
    pub align: Option<u32>,
}

impl Drop for Store {
    fn drop(self) {
        let Store {
            value: _,
            pointer: _,
            align: _,
        } = self;
    }
}

/// `signext` and `zeroext`, as a set: how a parameter or a result is made wider (LangRef 3.7, Parameter Attributes).
#[derive(Drop, Clone, Copy)]
pub struct Extensions {
    pub signed: bool,
    pub zero: bool,
}

impl Extensions {
    /// Neither word.
    pub fn none() -> Extensions
        ensures { result ≡ not_extended }
    {
        Extensions {
            signed: false,
            zero: false,
        }
    }
}

impl Exact for Extensions {
    fn is(&self, other: &Extensions) -> bool {
        self.signed == other.signed && self.zero == other.zero
    }

    fn copy(&self, _alloc: Global) -> Result<Extensions, AllocError> {
        Ok(*self)
    }
}

/// `ty extensions value` of a call.
pub struct Argument {
    pub operand: Operand<Name>,
    pub extensions: Extensions,
}

impl Drop for Argument {
    fn drop(self) {
        let Argument {
            operand: _,
            extensions: _,
        } = self;
    }
}

/// `name = call result_extensions result @callee(arguments)`. One whose result is `void` sets no register.
pub struct Call {
    pub name: Option<Name>,
    pub result: Ty,
    pub result_extensions: Extensions,
    pub callee: Name,
    pub arguments: Seq<Argument>,
}

impl Call {
    fn register(&self) -> Option<(&Name, &Ty)>
        ensures some { IfSome result (λ it. named_register self.now.result self.now.name ≡ Some (it.0.now, it.1.now)) }
        ensures none { IfNone result (named_register self.now.result self.now.name ≡ None) }
    {
        match &self.name {
            Some(name) => Some((name, &self.result)),
            None => None,
        }
    }
}

impl Drop for Call {
    fn drop(self) {
        let Call {
            name: _,
            result: _,
            result_extensions: _,
            callee: _,
            arguments: _,
        } = self;
    }
}

/// A phi node: for each edge into its block, what the register gets.
pub struct Phi {
    pub name: Name,
    pub ty: Ty,
    pub entries: Seq<Entry>,
}

impl Drop for Phi {
    fn drop(self) {
        let Phi {
            name: _,
            ty: _,
            entries: _,
        } = self;
    }
}

/// `[ value, %from ]` of a phi node.
pub struct Entry {
    pub value: Atom<Name>,
    pub from: Name,
}

impl Drop for Entry {
    fn drop(self) {
        let Entry { value: _, from: _ } = self;
    }
}

/// `br i1 condition, label %on_true, label %on_false`.
pub struct CondBr {
    pub condition: Operand<Name>,
    pub on_true: Name,
    pub on_false: Name,
}

impl Drop for CondBr {
    fn drop(self) {
        let CondBr {
            condition: _,
            on_true: _,
            on_false: _,
        } = self;
    }
}

/// `ty number, label %label` of a switch. The number is kept as it is modulo 2 to the width of its type.
pub struct Case {
    pub ty: Ty,
    pub number: Bits,
    pub label: Name,
}

impl Drop for Case {
    fn drop(self) {
        let Case {
            ty: _,
            number: _,
            label: _,
        } = self;
    }
}

/// `switch value, label %default [ cases ]`.
pub struct Switch {
    pub value: Operand<Name>,
    pub default: Name,
    pub cases: Seq<Case>,
}

impl Drop for Switch {
    fn drop(self) {
        let Switch {
            value: _,
            default: _,
            cases: _,
        } = self;
    }
}

/// The last line of a block (LangRef 3.7, Terminator Instructions).
pub enum Term {
    Ret(Operand<Name>),
    RetVoid,
    /// `br label`, to the block of that name.
    Br(Name),
    CondBr(CondBr),
    Switch(Switch),
    Unreachable,
}

impl Drop for Term {
    fn drop(self) {
        match self {
            Term::Ret(_) => {}
            Term::RetVoid => {}
            Term::Br(_) => {}
            Term::CondBr(_) => {}
            Term::Switch(_) => {}
            Term::Unreachable => {}
        }
    }
}

/// A basic block.
pub struct Block {
    pub name: Name,
    pub phis: Seq<Phi>,
    pub body: Seq<Instr>,
    pub term: Term,
}

impl Drop for Block {
    fn drop(self) {
        let Block {
            name: _,
            phis: _,
            body: _,
            term: _,
        } = self;
    }
}

/// A parameter of a definition.
pub struct Param {
    pub name: Name,
    pub ty: Ty,
    pub extensions: Extensions,
}

impl Drop for Param {
    fn drop(self) {
        let Param {
            name: _,
            ty: _,
            extensions: _,
        } = self;
    }
}

/// A definition. Its first block is the entry.
pub struct Function {
    pub linkage: Linkage,
    pub result_extensions: Extensions,
    pub result: Ty,
    pub name: Name,
    pub params: Seq<Param>,
    pub blocks: Seq<Block>,
}

impl Drop for Function {
    fn drop(self) {
        let Function {
            linkage: _,
            result_extensions: _,
            result: _,
            name: _,
            params: _,
            blocks: _,
        } = self;
    }
}
