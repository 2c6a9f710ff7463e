use crate::places::Placed;
use crate::types::TypeText;
use contents::{Boxed, Seq, Text};
use ir_core::Name;
use ir_lexer::Number;

/// A number as it is written: by its digits, or as `true` or `false`.
pub enum IntText {
    Number(Placed<Number>),
    Truth(Placed<bool>),
}

impl Drop for IntText {
    fn drop(self) {
        match self {
            IntText::Number(_) => {}
            IntText::Truth(_) => {}
        }
    }
}

/// The name of a global or a function; one that begins with `llvm.dbg.` is apart (LangRef 3.7, Debugger intrinsic functions).
pub enum GlobalNameText {
    Plain(Placed<Name>),
    Debug(Placed<Name>),
}

impl Drop for GlobalNameText {
    fn drop(self) {
        match self {
            GlobalNameText::Plain(_) => {}
            GlobalNameText::Debug(_) => {}
        }
    }
}

/// A constant as it is written (LangRef 3.7, Constants): `null`, `getelementptr` and `bitcast` with the place of that word.
pub enum ConstText {
    Int(IntText),
    Null(u32),
    Undef,
    Global(GlobalNameText),
    /// `getelementptr inbounds (of, base, indices)`
    Element(u32, bool, Boxed<ElementConst>),
    /// `bitcast (T CONST to T)`
    Cast(u32, Boxed<CastConst>),
}

/// `of`, the type and the constant of the base, the indices.
pub type ElementConst = (TypeText, TypeText, ConstText, Seq<TypedConst>);

/// `T CONST to T`
pub type CastConst = (TypeText, ConstText, TypeText);

/// `T CONST`
pub type TypedConst = (TypeText, ConstText);

impl Drop for ConstText {
    fn drop(self) {
        match self {
            ConstText::Int(_) => {}
            ConstText::Null(_) => {}
            ConstText::Undef => {}
            ConstText::Global(_) => {}
            ConstText::Element(_, _, _) => {}
            ConstText::Cast(_, _) => {}
        }
    }
}

/// What a global holds, as it is written (LangRef 3.7, Complex Constants); lists with the place of their bracket.
pub enum InitText {
    Const(ConstText),
    Zero,
    /// `c"..."`, with the place of what stands behind the `c`.
    Bytes(Placed<Text>),
    Array(u32, Seq<TypedInit>),
    Struct(u32, Seq<TypedInit>),
}

/// `T INIT`
pub type TypedInit = (TypeText, InitText);

impl Drop for InitText {
    fn drop(self) {
        match self {
            InitText::Const(_) => {}
            InitText::Zero => {}
            InitText::Bytes(_) => {}
            InitText::Array(_, _) => {}
            InitText::Struct(_, _) => {}
        }
    }
}

/// The word before a register that the logic alone has (Crellvm): `old %x` is `%x` as it was before the edge that is being crossed,
/// `ghost %x` one that the proof alone has.
#[derive(Drop, Clone, Copy)]
pub enum Tag {
    Old,
    Ghost,
}

/// A value as it is written. A register with a tag stands in expressions of the logic alone.
pub enum ValueText {
    Const(ConstText),
    Local(Placed<Name>),
    Tagged { tag: Tag, name: Placed<Name> },
}

impl Drop for ValueText {
    fn drop(self) {
        match self {
            ValueText::Const(_) => {}
            ValueText::Local(_) => {}
            ValueText::Tagged { tag: _, name: _ } => {}
        }
    }
}

/// `T V` as it is written.
pub struct OperandText {
    pub ty: TypeText,
    pub value: ValueText,
}

impl Drop for OperandText {
    fn drop(self) {
        let OperandText { ty: _, value: _ } = self;
    }
}
