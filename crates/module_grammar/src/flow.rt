use crate::attributes::MetaText;
use crate::constants::{IntText, OperandText, ValueText};
use crate::lines::{AttachedText, LineText};
use crate::places::Placed;
use crate::types::TypeText;
use contents::Boxed;
use ir_core::Name;
use predictive::Stack;

/// `[ V, LOCAL ]` as it is written, from where its bracket stands: a value, and the block from which control comes.
pub struct EntryText {
    pub at: u32,
    pub value: ValueText,
    pub from: Placed<Name>,
}

impl Drop for EntryText {
    fn drop(self) {
        let EntryText {
            at: _,
            value: _,
            from: _,
        } = self;
    }
}

/// `phi T [ V, LOCAL ], ..` as it is written, with the metadata behind it. It has one entry at least.
pub struct NodeText {
    pub ty: TypeText,
    pub first: EntryText,
    pub others: Stack<EntryText>,
    pub attachments: Stack<MetaText>,
}

impl Drop for NodeText {
    fn drop(self) {
        let NodeText {
            ty: _,
            first: _,
            others: _,
            attachments: _,
        } = self;
    }
}

/// `register = phi ..` as it is written; the register may be left out.
pub struct PhiText {
    pub register: Option<Placed<Name>>,
    pub node: Boxed<NodeText>,
}

impl Drop for PhiText {
    fn drop(self) {
        let PhiText {
            register: _,
            node: _,
        } = self;
    }
}

/// What stands in a block before its terminator, as it is written: its phi nodes, and behind them its lines.
pub struct BodyText {
    pub phis: Stack<PhiText>,
    pub lines: Stack<LineText>,
}

impl Drop for BodyText {
    fn drop(self) {
        let BodyText { phis: _, lines: _ } = self;
    }
}

/// What stands in a block from behind the register of a phi node or a line up to the terminator, the same where no register is written.
#[derive(Drop)]
pub enum BehindText {
    Phi {
        node: Boxed<NodeText>,
        body: BodyText,
    },
    Line {
        attached: Boxed<AttachedText>,
        lines: Stack<LineText>,
    },
}

/// `T V, label LOCAL, label LOCAL` behind `br` as it is written.
pub struct ConditionText {
    pub condition: OperandText,
    pub on_true: Placed<Name>,
    pub on_false: Placed<Name>,
}

impl Drop for ConditionText {
    fn drop(self) {
        let ConditionText {
            condition: _,
            on_true: _,
            on_false: _,
        } = self;
    }
}

/// What stands behind `br`, as it is written: `label LOCAL`, or a condition and two labels.
pub enum BranchText {
    Always(Placed<Name>),
    Condition(ConditionText),
}

impl Drop for BranchText {
    fn drop(self) {
        match self {
            BranchText::Always(_) => {}
            BranchText::Condition(_) => {}
        }
    }
}

/// `T INT, label LOCAL` of a switch as it is written.
pub struct CaseText {
    pub ty: TypeText,
    pub number: IntText,
    pub label: Placed<Name>,
}

impl Drop for CaseText {
    fn drop(self) {
        let CaseText {
            ty: _,
            number: _,
            label: _,
        } = self;
    }
}

/// `switch T V, label LOCAL [ cases ]` as it is written, with the place of the bracket.
pub struct SwitchText {
    pub value: OperandText,
    pub default: Placed<Name>,
    pub at: u32,
    pub cases: Stack<CaseText>,
}

impl Drop for SwitchText {
    fn drop(self) {
        let SwitchText {
            value: _,
            default: _,
            at: _,
            cases: _,
        } = self;
    }
}

/// A terminator as it is written. `ret T V` returns an operand, `ret void` None.
pub enum TermText {
    Ret(Option<OperandText>),
    Br(Boxed<BranchText>),
    Switch(SwitchText),
    Unreachable,
}

impl Drop for TermText {
    fn drop(self) {
        match self {
            TermText::Ret(_) => {}
            TermText::Br(_) => {}
            TermText::Switch(_) => {}
            TermText::Unreachable => {}
        }
    }
}

/// A terminator and the metadata that is attached to it, as they are written.
pub struct EndText {
    pub term: TermText,
    pub attachments: Stack<MetaText>,
}

impl Drop for EndText {
    fn drop(self) {
        let EndText {
            term: _,
            attachments: _,
        } = self;
    }
}

/// A block as it is written: its label, which may be left out, what stands before its terminator, and the terminator.
pub struct BlockText {
    pub label: Option<Placed<Name>>,
    pub body: BodyText,
    pub end: Boxed<EndText>,
}

impl Drop for BlockText {
    fn drop(self) {
        let BlockText {
            label: _,
            body: _,
            end: _,
        } = self;
    }
}
