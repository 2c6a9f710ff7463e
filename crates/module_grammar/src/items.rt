use crate::attributes::MetaText;
use crate::constants::{GlobalNameText, InitText};
use crate::functions::{DeclarationText, DefinitionText};
use crate::operators::LinkageWord;
use crate::places::Placed;
use crate::types::TypeText;
use contents::Boxed;
use ir_core::Name;
use ir_lexer::Number;
use predictive::Stack;

/// What a type's name stands for, as it is written: nothing that is known, or a struct with the place of its brace.
pub enum TypeBodyText {
    Opaque,
    Struct { at: u32, fields: Stack<TypeText> },
}

impl Drop for TypeBodyText {
    fn drop(self) {
        match self {
            TypeBodyText::Opaque => {}
            TypeBodyText::Struct { at: _, fields: _ } => {}
        }
    }
}

/// `global` or `constant`.
#[derive(Drop, Clone, Copy)]
pub enum HoldingWord {
    Global,
    Constant,
}

/// What a global holds, with its linkage: nothing that is known where it is `external`.
pub enum HeldText {
    External,
    Init {
        linkage: Option<LinkageWord>,
        init: InitText,
    },
}

impl Drop for HeldText {
    fn drop(self) {
        match self {
            HeldText::External => {}
            HeldText::Init {
                linkage: _,
                init: _,
            } => {}
        }
    }
}

/// What stands behind `GLOBAL =`, as it is written (LangRef 3.7, Global Variables).
pub struct GlobalBodyText {
    pub held: HeldText,
    pub unnamed_addr: bool,
    pub word: HoldingWord,
    pub ty: TypeText,
    pub align: Option<Placed<Number>>,
}

impl Drop for GlobalBodyText {
    fn drop(self) {
        let GlobalBodyText {
            held: _,
            unnamed_addr: _,
            word: _,
            ty: _,
            align: _,
        } = self;
    }
}

/// An item of a module as it is written (LangRef 3.7, High Level Structure). Of what plays no part it is kept how it is written, but not
/// what it says.
pub enum ItemText {
    /// `target datalayout = ".."`, `target triple = ".."`
    Target,
    /// `attributes #N = { .. }`, with the place of the brace.
    Attributes(u32),
    /// `!name = distinct METADATA`
    Metadata {
        is_distinct: bool,
        meta: MetaText,
    },
    Declaration(Boxed<DeclarationText>),
    /// `LOCAL = type ..`
    Type {
        name: Placed<Name>,
        body: TypeBodyText,
    },
    Global {
        name: GlobalNameText,
        body: Boxed<GlobalBodyText>,
    },
    Definition(Boxed<DefinitionText>),
}

impl Drop for ItemText {
    fn drop(self) {
        match self {
            ItemText::Target => {}
            ItemText::Attributes(_) => {}
            ItemText::Metadata {
                is_distinct: _,
                meta: _,
            } => {}
            ItemText::Declaration(_) => {}
            ItemText::Type { name: _, body: _ } => {}
            ItemText::Global { name: _, body: _ } => {}
            ItemText::Definition(_) => {}
        }
    }
}

/// The items of a module as they are written, in their order.
pub struct ModuleText {
    pub items: Stack<ItemText>,
}

impl Drop for ModuleText {
    fn drop(self) {
        let ModuleText { items: _ } = self;
    }
}
