use crate::operators::ExtensionWord;
use crate::places::Placed;
use ir_lexer::Number;

/// An attribute of a parameter or a result as it is written (LangRef 3.7, Parameter Attributes). Of those that play no part it isn't said
/// which word stands there.
pub enum ParamAttributeText {
    Extension(ExtensionWord),
    /// `noalias`, `nocapture`, `nonnull` or `returned`.
    Word,
    /// `readonly` or `readnone`.
    Access,
    /// `dereferenceable(N)` or `dereferenceable_or_null(N)`.
    Sized(Placed<Number>),
    /// `align N`.
    Align(Placed<Number>),
}

impl Drop for ParamAttributeText {
    fn drop(self) {
        match self {
            ParamAttributeText::Extension(_) => {}
            ParamAttributeText::Word => {}
            ParamAttributeText::Access => {}
            ParamAttributeText::Sized(_) => {}
            ParamAttributeText::Align(_) => {}
        }
    }
}

/// An attribute of a function as it is written (LangRef 3.7, Function Attributes); none plays a part.
pub enum FunctionAttributeText {
    /// `#N`.
    Group,
    /// A string, and whether `=` and another string stand behind it.
    Text { has_value: bool },
    /// `align N`.
    Align(Placed<Number>),
    /// `alignstack(N)`.
    AlignStack(Placed<Number>),
    /// A word that is an attribute of functions alone.
    Word,
    /// `readonly` or `readnone`.
    Access,
}

impl Drop for FunctionAttributeText {
    fn drop(self) {
        match self {
            FunctionAttributeText::Group => {}
            FunctionAttributeText::Text { has_value: _ } => {}
            FunctionAttributeText::Align(_) => {}
            FunctionAttributeText::AlignStack(_) => {}
            FunctionAttributeText::Word => {}
            FunctionAttributeText::Access => {}
        }
    }
}

/// Metadata behind `!` (LangRef 3.7, Metadata): a string, or a node with the place of its brace. What a node holds isn't kept.
#[derive(Drop, Clone, Copy)]
pub enum BangText {
    Text,
    Node(u32),
}

/// Metadata as it is written: `!name`, with or without something between parentheses, or what begins with `!` alone.
#[derive(Drop, Clone, Copy)]
pub enum MetaText {
    Named { has_arguments: bool },
    Bang(BangText),
}
