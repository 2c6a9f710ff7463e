use crate::places::Placed;
use contents::{Boxed, Seq};
use ir_core::Name;
use ir_lexer::Number;
use predictive::Stack;

/// A type as it is written (LangRef 3.7, Type System), from where its first token stands: `iN` by its width N, a type that the module
/// names, `T*` with the place of the star, `[N x T]` and `{T, ..}` with the place of the bracket.
pub enum TypeText {
    Int(Placed<u32>),
    Named(Placed<Name>),
    Ptr(u32, Boxed<TypeText>),
    Array(u32, Boxed<CountedType>),
    Struct(u32, Seq<TypeText>),
}

/// `N x T`
pub type CountedType = (Placed<Number>, TypeText);

impl Drop for TypeText {
    fn drop(self) {
        match self {
            TypeText::Int(_) => {}
            TypeText::Named(_) => {}
            TypeText::Ptr(_, _) => {}
            TypeText::Array(_, _) => {}
            TypeText::Struct(_, _) => {}
        }
    }
}

/// The types of a function's parameters as a call states them, and whether `...` stands behind them.
pub struct CalledText {
    pub types: Stack<TypeText>,
    pub is_open: bool,
}

impl Drop for CalledText {
    fn drop(self) {
        let CalledText {
            types: _,
            is_open: _,
        } = self;
    }
}

/// What stands there from a type on, or from `...` on.
#[derive(Drop)]
pub enum NextCalledText {
    Open,
    Type { ty: TypeText, more: CalledText },
}
