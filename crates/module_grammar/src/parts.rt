ghost use Rattle.std.specs.Prelude.{◌≡◌, ◌∷◌, OnOk};
ghost use Rattle.predictive.specs.Typed as stack;

use crate::attributes::{BangText, FunctionAttributeText, MetaText, ParamAttributeText};
use crate::commas::{
    AlignBehindText, CountBehindText, EntriesBehindText, IndicesBehindText, NextAlignText,
    NextCountText, NextEntryText, NextIndexText,
};
use crate::constants::{
    ConstText, GlobalNameText, InitText, IntText, OperandText, TypedConst, TypedInit, ValueText,
};
use crate::flow::{
    BehindText, BlockText, BodyText, BranchText, CaseText, EndText, EntryText, NodeText, TermText,
};
use crate::functions::{
    DeclaredNameText, DeclaredText, HeadEndText, HeadText, LinkageText, NextDeclaredText,
    ParamText, ResultText,
};
use crate::items::{GlobalBodyText, HoldingWord, ItemText, ModuleText, TypeBodyText};
use crate::lines::{
    ArgumentText, AttachedText, CallBodyText, CallEndText, CalleeText, ExprText, LineText,
    OperationText, OperatorText, VoidCallText, VoidCalleeText,
};
use crate::operators::{
    ExactOp, ExtensionWord, FlagWord, LinkageWord, OverflowOp, PlainOp, ResizeOp,
};
use crate::places::Placed;
use crate::stars::Stars;
use crate::types::{CalledText, NextCalledText, TypeText};
use contents::{Boxed, Text};
use ir_core::{Name, Pred};
use ir_lexer::Number;
use predictive::Stack;
use std::alloc::AllocError;

/// A token that says more than its kind. Of a mark or a word whose place is kept it is that place.
#[derive(Drop)]
pub enum Leaf {
    Local(Placed<Name>),
    Global(Placed<Name>),
    Label(Placed<Name>),
    Number(Placed<Number>),
    Width(Placed<u32>),
    Truth(Placed<bool>),
    Bytes(Placed<Text>),
    Overflow(OverflowOp),
    Exact(ExactOp),
    Plain(PlainOp),
    Resize(ResizeOp),
    Pred(Pred),
    Flag(FlagWord),
    Linkage(LinkageWord),
    Extension(ExtensionWord),
    Holding(HoldingWord),
    At(u32),
}

/// What a few tokens were read as.
#[derive(Drop)]
pub enum Atom {
    Name(Option<Placed<Name>>),
    Is(bool),
    Align(Option<Placed<Number>>),
    Linkage(LinkageText),
    Word(Option<LinkageWord>),
    Meta(MetaText),
    Bang(BangText),
    Attached(Option<MetaText>),
    Int(IntText),
    Global(GlobalNameText),
}

/// Things of one form, the first one on top.
#[derive(Drop)]
pub enum List {
    Stars(Stars),
    Types(Stack<TypeText>),
    Consts(Stack<TypedConst>),
    Inits(Stack<TypedInit>),
    Operands(Stack<OperandText>),
    ParamAttributes(Stack<ParamAttributeText>),
    FunctionAttributes(Stack<FunctionAttributeText>),
    Attachments(Stack<MetaText>),
    Arguments(Stack<ArgumentText>),
    Flags(Stack<FlagWord>),
    Params(Stack<ParamText>),
    Lines(Stack<LineText>),
    Cases(Stack<CaseText>),
    Blocks(Stack<Boxed<BlockText>>),
}

/// A type, a constant, a value or an attribute.
#[derive(Drop)]
pub enum Piece {
    Type(TypeText),
    Result(Option<TypeText>),
    Called(CalledText),
    NextCalled(Boxed<NextCalledText>),
    FunctionType(Option<CalledText>),
    Const(ConstText),
    Init(InitText),
    Value(ValueText),
    Operand(Boxed<OperandText>),
    ParamAttribute(ParamAttributeText),
    FunctionAttribute(FunctionAttributeText),
}

/// What a line is read as, or a part of one. The large ones are boxed, so that a part is small where it is moved.
#[derive(Drop)]
pub enum Line {
    Operator(OperatorText),
    Operation(Boxed<OperationText>),
    Attached(Boxed<AttachedText>),
    AlignBehind(AlignBehindText),
    NextAlign(NextAlignText),
    CountBehind(Boxed<CountBehindText>),
    NextCount(Boxed<NextCountText>),
    IndicesBehind(IndicesBehindText),
    NextIndex(Boxed<NextIndexText>),
    CallBody(Boxed<CallBodyText>),
    Callee(Boxed<CalleeText>),
    VoidCallee(Boxed<VoidCalleeText>),
    VoidCall(Boxed<VoidCallText>),
    CallEnd(CallEndText),
    Argument(Boxed<ArgumentText>),
    Line(LineText),
    Expr(Boxed<ExprText>),
}

/// What a block is read as, or a part of one.
#[derive(Drop)]
pub enum Flow {
    Block(Boxed<BlockText>),
    Body(BodyText),
    Behind(BehindText),
    Node(Boxed<NodeText>),
    EntriesBehind(EntriesBehindText),
    NextEntry(Boxed<NextEntryText>),
    Entry(Boxed<EntryText>),
    End(Boxed<EndText>),
    Term(Boxed<TermText>),
    Returned(Option<Boxed<OperandText>>),
    Branch(Boxed<BranchText>),
    Case(Boxed<CaseText>),
}

/// What an item is read as, or a part of one.
#[derive(Drop)]
pub enum Item {
    Module(ModuleText),
    Item(Boxed<ItemText>),
    TypeBody(TypeBodyText),
    GlobalBody(Boxed<GlobalBodyText>),
    Declared(Boxed<DeclaredNameText>),
    Params(DeclaredText),
    NextDeclared(Boxed<NextDeclaredText>),
    Result(Boxed<ResultText>),
    Head(Boxed<HeadText>),
    HeadEnd(HeadEndText),
    Param(Boxed<ParamText>),
}

/// What stands on the stack: a leaf, or what tokens were read as. In groups, so that each is taken by few cases.
#[derive(Drop)]
pub enum Part {
    Leaf(Leaf),
    Atom(Atom),
    List(List),
    Piece(Piece),
    Line(Line),
    Flow(Flow),
    Item(Item),
}

impl Part {
    /// The part on top.
    #[inline(always)]
    pub fn put(parts: &mut Stack<Part>, part: Part) -> Result<(), AllocError>
        ensures { OnOk result (parts.new ≡ part ∷ parts.old) }
    {
        parts.push(part)
    }

    /// The part on top dropped.
    #[inline(never)]
    pub fn drop_top(parts: &mut Stack<Part>)
        ensures { parts.new ≡ stack.below parts.old }
    {
        parts.pop();
    }
}
