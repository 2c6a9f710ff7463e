//! How modules and expressions of textual LLVM IR are written as tokens, with places, and the rules of a parser's grammar with what they
//! make of what stands on its stack. What the trees name is not said here.
#![tactic(auto)]

mod attributes;
mod commas;
mod constants;
mod flow;
mod functions;
mod items;
mod laws;
mod lines;
mod operators;
mod parts;
mod places;
mod stars;
mod types;
mod words;

pub use attributes::{BangText, FunctionAttributeText, MetaText, ParamAttributeText};
pub use commas::{
    AlignBehindText, CountBehindText, EntriesBehindText, IndicesBehindText, NextAlignText,
    NextCountText, NextEntryText, NextIndexText,
};
pub use constants::{ConstText, GlobalNameText, InitText, IntText, OperandText, Tag, ValueText};
pub use flow::{
    BehindText, BlockText, BodyText, BranchText, CaseText, ConditionText, EndText, EntryText,
    NodeText, PhiText, SwitchText, TermText,
};
pub use functions::{
    DeclarationText, DeclaredNameText, DeclaredText, DefinitionText, HeadEndText, HeadText,
    LinkageText, NextDeclaredText, ParamText, ResultText,
};
pub use items::{GlobalBodyText, HeldText, HoldingWord, ItemText, ModuleText, TypeBodyText};
pub use laws::{
    examples_of_gaps, examples_of_words, examples_of_writing, grammar_is_predictive, written_once,
};
pub use lines::{
    AllocaText, ArgumentText, AttachedText, BinaryText, CallBodyText, CallEndText, CallText,
    CalleeText, CastText, CastWord, CompareText, CountText, ElementText, ExprText, InstructionText,
    LineText, LoadText, OperationText, OperatorText, SelectText, StoreText, VoidCallText,
    VoidCalleeText,
};
pub use operators::{ExactOp, ExtensionWord, FlagWord, LinkageWord, OverflowOp, PlainOp, ResizeOp};
pub use parts::{Atom, Flow, Item, Leaf, Line, List, Part, Piece};
pub use places::Placed;
pub use stars::Stars;
pub use types::{CalledText, NextCalledText, TypeText};
pub use words::{KeyWord, Language, Word};
