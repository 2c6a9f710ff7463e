use crate::attributes::{FunctionAttributeText, MetaText, ParamAttributeText};
use crate::constants::GlobalNameText;
use crate::flow::BlockText;
use crate::operators::LinkageWord;
use crate::places::Placed;
use crate::types::TypeText;
use contents::Boxed;
use ir_core::Name;
use predictive::Stack;

/// A parameter as it is written: a type, attributes, and a name that may be left out.
pub struct ParamText {
    pub ty: TypeText,
    pub attributes: Stack<ParamAttributeText>,
    pub name: Option<Placed<Name>>,
}

impl Drop for ParamText {
    fn drop(self) {
        let ParamText {
            ty: _,
            attributes: _,
            name: _,
        } = self;
    }
}

/// The parameters of a declaration, and whether `...` stands behind them.
pub struct DeclaredText {
    pub params: Stack<ParamText>,
    pub is_open: bool,
}

impl Drop for DeclaredText {
    fn drop(self) {
        let DeclaredText {
            params: _,
            is_open: _,
        } = self;
    }
}

/// What stands there from a parameter on, or from `...` on.
#[derive(Drop)]
pub enum NextDeclaredText {
    Open,
    Param {
        param: ParamText,
        more: DeclaredText,
    },
}

/// What stands in the head of a function before its name: whether `ccc`, attributes of the result, and its type, None for `void`.
pub struct ResultText {
    pub is_ccc: bool,
    pub attributes: Stack<ParamAttributeText>,
    pub ty: Option<TypeText>,
}

impl Drop for ResultText {
    fn drop(self) {
        let ResultText {
            is_ccc: _,
            attributes: _,
            ty: _,
        } = self;
    }
}

/// What stands in the head of a function behind its parameters.
pub struct HeadEndText {
    pub unnamed_addr: bool,
    pub attributes: Stack<FunctionAttributeText>,
}

impl Drop for HeadEndText {
    fn drop(self) {
        let HeadEndText {
            unnamed_addr: _,
            attributes: _,
        } = self;
    }
}

/// The name and the parameters of a declaration, and what stands behind them. What stands between the parentheses behind a name of
/// debugging isn't kept: such a declaration is of no function, unless `unnamed_addr` stands behind it.
pub enum DeclaredNameText {
    Plain {
        name: Placed<Name>,
        params: DeclaredText,
        end: HeadEndText,
    },
    Debug {
        name: Placed<Name>,
        end: HeadEndText,
    },
}

impl Drop for DeclaredNameText {
    fn drop(self) {
        match self {
            DeclaredNameText::Plain {
                name: _,
                params: _,
                end: _,
            } => {}
            DeclaredNameText::Debug { name: _, end: _ } => {}
        }
    }
}

/// `declare ..` as it is written (LangRef 3.7, Functions).
pub struct DeclarationText {
    pub result: ResultText,
    pub declared: DeclaredNameText,
}

impl Drop for DeclarationText {
    fn drop(self) {
        let DeclarationText {
            result: _,
            declared: _,
        } = self;
    }
}

/// The linkage of a definition as it is written.
#[derive(Drop, Clone, Copy)]
pub enum LinkageText {
    None,
    Word(LinkageWord),
    External,
}

/// `result GLOBAL ( params ) unnamed_addr attributes` as it is written.
pub struct HeadText {
    pub result: ResultText,
    pub name: GlobalNameText,
    pub params: Stack<ParamText>,
    pub end: HeadEndText,
}

impl Drop for HeadText {
    fn drop(self) {
        let HeadText {
            result: _,
            name: _,
            params: _,
            end: _,
        } = self;
    }
}

/// A definition as it is written: of one block at least, with the place of its brace.
pub struct DefinitionText {
    pub linkage: LinkageText,
    pub head: HeadText,
    pub attachment: Option<MetaText>,
    pub at: u32,
    pub entry: Boxed<BlockText>,
    pub others: Stack<Boxed<BlockText>>,
}

impl Drop for DefinitionText {
    fn drop(self) {
        let DefinitionText {
            linkage: _,
            head: _,
            attachment: _,
            at: _,
            entry: _,
            others: _,
        } = self;
    }
}
