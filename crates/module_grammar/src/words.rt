use crate::items::HoldingWord;
use crate::operators::{
    ExactOp, ExtensionWord, FlagWord, LinkageWord, OverflowOp, PlainOp, ResizeOp,
};
use ir_core::Pred;

/// A word that says nothing but itself, or words that stand at the same places where it plays no part which one it is.
#[derive(Drop, Clone, Copy)]
pub enum KeyWord {
    Define,
    Void,
    Ret,
    Exact,
    Icmp,
    Select,
    To,
    Undef,
    Phi,
    Br,
    Label,
    Switch,
    Unreachable,
    Old,
    Ghost,
    Declare,
    TypeKey,
    Opaque,
    Inbounds,
    Alloca,
    Load,
    Store,
    Call,
    Tail,
    Ccc,
    Align,
    AlignStack,
    UnnamedAddr,
    External,
    Target,
    /// `datalayout` or `triple`.
    Property,
    Attributes,
    Distinct,
    /// `x`, between the count and the type of an array.
    Times,
    /// `c`, before the bytes of an array.
    Bytes,
    ZeroInitializer,
    /// A word that is an attribute of parameters alone and plays no part: `noalias`, `nocapture`, `nonnull`, `returned`.
    ParamWord,
    /// `readonly` or `readnone`.
    AccessWord,
    /// `dereferenceable` or `dereferenceable_or_null`.
    SizedWord,
    /// A word that is an attribute of functions alone.
    FunctionWord,
}

/// The language that a text is in: textual LLVM IR, or that of the logic's expressions, which has the words `old` and `ghost` besides.
#[derive(Drop, Clone, Copy)]
pub enum Language {
    Ir,
    Logic,
}

/// What a word is in the grammar: a type `iN` by its width, a word of a group, one whose place is kept, one that stands alone, or none of
/// the grammar's.
#[derive(Drop, Clone, Copy)]
pub enum Word {
    Width(u32),
    Truth(bool),
    Overflow(OverflowOp),
    Exact(ExactOp),
    Plain(PlainOp),
    Resize(ResizeOp),
    Pred(Pred),
    Flag(FlagWord),
    Linkage(LinkageWord),
    Extension(ExtensionWord),
    Holding(HoldingWord),
    Null,
    Element,
    BitCast,
    Key(KeyWord),
    Foreign,
}
