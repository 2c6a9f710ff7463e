use crate::attributes::{FunctionAttributeText, MetaText, ParamAttributeText};
use crate::constants::{GlobalNameText, IntText, OperandText, ValueText};
use crate::operators::{ExactOp, FlagWord, OverflowOp, PlainOp, ResizeOp};
use crate::places::Placed;
use crate::types::{CalledText, TypeText};
use contents::Boxed;
use ir_core::{Name, Pred};
use ir_lexer::Number;
use predictive::Stack;

/// A binary operator with what it may say behind its word, as it is written: `add` with any number of `nuw` and `nsw`, `udiv` with
/// or without `exact`, `and` alone.
pub enum OperatorText {
    Overflow {
        op: OverflowOp,
        flags: Stack<FlagWord>,
    },
    Exact {
        op: ExactOp,
        exact: bool,
    },
    Plain(PlainOp),
}

impl Drop for OperatorText {
    fn drop(self) {
        match self {
            OperatorText::Overflow { op: _, flags: _ } => {}
            OperatorText::Exact { op: _, exact: _ } => {}
            OperatorText::Plain(_) => {}
        }
    }
}

/// `operator T left, right` as it is written.
pub struct BinaryText {
    pub operator: OperatorText,
    pub left: OperandText,
    pub right: ValueText,
}

impl Drop for BinaryText {
    fn drop(self) {
        let BinaryText {
            operator: _,
            left: _,
            right: _,
        } = self;
    }
}

/// `icmp pred T left, right` as it is written.
pub struct CompareText {
    pub pred: Pred,
    pub left: OperandText,
    pub right: ValueText,
}

impl Drop for CompareText {
    fn drop(self) {
        let CompareText {
            pred: _,
            left: _,
            right: _,
        } = self;
    }
}

/// A word of conversion: `zext`, `sext`, `trunc`, or `bitcast` with its place.
#[derive(Drop, Clone, Copy)]
pub enum CastWord {
    Resize(ResizeOp),
    BitCast(u32),
}

/// `word T V to T` as it is written.
pub struct CastText {
    pub word: CastWord,
    pub from: OperandText,
    pub to: TypeText,
}

impl Drop for CastText {
    fn drop(self) {
        let CastText {
            word: _,
            from: _,
            to: _,
        } = self;
    }
}

/// `select T V, T V, T V` as it is written.
pub struct SelectText {
    pub condition: OperandText,
    pub then: OperandText,
    pub other: OperandText,
}

impl Drop for SelectText {
    fn drop(self) {
        let SelectText {
            condition: _,
            then: _,
            other: _,
        } = self;
    }
}

/// An operation of values as it is written.
pub enum OperationText {
    Binary(BinaryText),
    Compare(CompareText),
    Cast(CastText),
    Select(Boxed<SelectText>),
}

impl Drop for OperationText {
    fn drop(self) {
        match self {
            OperationText::Binary(_) => {}
            OperationText::Compare(_) => {}
            OperationText::Cast(_) => {}
            OperationText::Select(_) => {}
        }
    }
}

/// `getelementptr inbounds of, base, indices` as it is written, with the place of that word.
pub struct ElementText {
    pub at: u32,
    pub inbounds: bool,
    pub of: TypeText,
    pub base: OperandText,
    pub indices: Stack<OperandText>,
}

impl Drop for ElementText {
    fn drop(self) {
        let ElementText {
            at: _,
            inbounds: _,
            of: _,
            base: _,
            indices: _,
        } = self;
    }
}

/// `T INT` of an `alloca` as it is written.
pub struct CountText {
    pub ty: TypeText,
    pub number: IntText,
}

impl Drop for CountText {
    fn drop(self) {
        let CountText { ty: _, number: _ } = self;
    }
}

/// `alloca T, count, align N` as it is written; count and alignment may be left out.
pub struct AllocaText {
    pub ty: TypeText,
    pub count: Option<CountText>,
    pub align: Option<Placed<Number>>,
}

impl Drop for AllocaText {
    fn drop(self) {
        let AllocaText {
            ty: _,
            count: _,
            align: _,
        } = self;
    }
}

/// `load T, T V, align N` as it is written; the alignment may be left out.
pub struct LoadText {
    pub ty: TypeText,
    pub address: OperandText,
    pub align: Option<Placed<Number>>,
}

impl Drop for LoadText {
    fn drop(self) {
        let LoadText {
            ty: _,
            address: _,
            align: _,
        } = self;
    }
}

/// `store T V, T V, align N` as it is written; the alignment may be left out.
pub struct StoreText {
    pub value: OperandText,
    pub address: OperandText,
    pub align: Option<Placed<Number>>,
}

impl Drop for StoreText {
    fn drop(self) {
        let StoreText {
            value: _,
            address: _,
            align: _,
        } = self;
    }
}

/// An argument as it is written: a type, attributes, a value.
pub struct ArgumentText {
    pub ty: TypeText,
    pub attributes: Stack<ParamAttributeText>,
    pub value: ValueText,
}

impl Drop for ArgumentText {
    fn drop(self) {
        let ArgumentText {
            ty: _,
            attributes: _,
            value: _,
        } = self;
    }
}

/// What stands behind the name of the function that is called: arguments between parentheses, attributes of the call.
pub struct CallEndText {
    pub arguments: Stack<ArgumentText>,
    pub attributes: Stack<FunctionAttributeText>,
}

impl Drop for CallEndText {
    fn drop(self) {
        let CallEndText {
            arguments: _,
            attributes: _,
        } = self;
    }
}

/// The result of a call, None for `void`, the types of the function's parameters where they are stated, and its name.
pub struct CalleeText {
    pub result: Option<TypeText>,
    pub called: Option<CalledText>,
    pub name: GlobalNameText,
}

impl Drop for CalleeText {
    fn drop(self) {
        let CalleeText {
            result: _,
            called: _,
            name: _,
        } = self;
    }
}

/// What stands behind `call void`, and behind the types of parameters there: a function's name and a call's end, or a call that
/// debugging alone wants, of which nothing is kept but the name and the attributes.
pub enum VoidCallText {
    Call {
        name: Placed<Name>,
        end: CallEndText,
    },
    Debug {
        name: Placed<Name>,
        attributes: Stack<FunctionAttributeText>,
    },
}

impl Drop for VoidCallText {
    fn drop(self) {
        match self {
            VoidCallText::Call { name: _, end: _ } => {}
            VoidCallText::Debug {
                name: _,
                attributes: _,
            } => {}
        }
    }
}

/// What stands behind `call void`, and whether something stands between parentheses there. It isn't kept, since only behind it is it known
/// whether these are types.
pub struct VoidCalleeText {
    pub is_stated: bool,
    pub call: VoidCallText,
}

impl Drop for VoidCalleeText {
    fn drop(self) {
        let VoidCalleeText {
            is_stated: _,
            call: _,
        } = self;
    }
}

/// What stands behind `call`, by how it begins: with `ccc`, with an attribute of the result, with the result's type, or with `void`.
pub enum CallBodyText {
    Convention {
        attributes: Stack<ParamAttributeText>,
        callee: CalleeText,
        end: CallEndText,
    },
    Attributes {
        first: ParamAttributeText,
        others: Stack<ParamAttributeText>,
        callee: CalleeText,
        end: CallEndText,
    },
    Typed {
        ty: TypeText,
        called: Option<CalledText>,
        name: GlobalNameText,
        end: CallEndText,
    },
    Void(VoidCalleeText),
}

impl Drop for CallBodyText {
    fn drop(self) {
        match self {
            CallBodyText::Convention {
                attributes: _,
                callee: _,
                end: _,
            } => {}
            CallBodyText::Attributes {
                first: _,
                others: _,
                callee: _,
                end: _,
            } => {}
            CallBodyText::Typed {
                ty: _,
                called: _,
                name: _,
                end: _,
            } => {}
            CallBodyText::Void(_) => {}
        }
    }
}

/// `tail call ..` as it is written; `tail` may be left out.
pub struct CallText {
    pub tail: bool,
    pub body: CallBodyText,
}

impl Drop for CallText {
    fn drop(self) {
        let CallText { tail: _, body: _ } = self;
    }
}

/// What stands behind the register of a line, as it is written (LangRef 3.7, Instruction Reference).
pub enum InstructionText {
    Operation(OperationText),
    Element(ElementText),
    Alloca(AllocaText),
    Load(LoadText),
    Store(StoreText),
    Call(CallText),
}

impl Drop for InstructionText {
    fn drop(self) {
        match self {
            InstructionText::Operation(_) => {}
            InstructionText::Element(_) => {}
            InstructionText::Alloca(_) => {}
            InstructionText::Load(_) => {}
            InstructionText::Store(_) => {}
            InstructionText::Call(_) => {}
        }
    }
}

/// An instruction and the metadata that is attached to it, as they are written.
pub struct AttachedText {
    pub instruction: InstructionText,
    pub attachments: Stack<MetaText>,
}

impl Drop for AttachedText {
    fn drop(self) {
        let AttachedText {
            instruction: _,
            attachments: _,
        } = self;
    }
}

/// `register = instruction` as it is written; the register may be left out.
pub struct LineText {
    pub register: Option<Placed<Name>>,
    pub attached: Boxed<AttachedText>,
}

impl Drop for LineText {
    fn drop(self) {
        let LineText {
            register: _,
            attached: _,
        } = self;
    }
}

/// An expression of the logic as it is written: `T V`, or an operation, an address of an element or a load.
pub enum ExprText {
    Plain(OperandText),
    Operation(Boxed<OperationText>),
    Element(Boxed<ElementText>),
    Load(Boxed<LoadText>),
}

impl Drop for ExprText {
    fn drop(self) {
        match self {
            ExprText::Plain(_) => {}
            ExprText::Operation(_) => {}
            ExprText::Element(_) => {}
            ExprText::Load(_) => {}
        }
    }
}
