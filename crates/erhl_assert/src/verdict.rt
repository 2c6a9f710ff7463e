use crate::Fact;
use contents::Seq;
use ir_core::{Name, Operand, Reg};

/// Where in a block a test failed.
pub enum Spot {
    /// At the block's start.
    Start,
    /// At the aligned line of that number, or a step before it; at the number of aligned lines, at the terminator.
    Line(u64),
    /// On the edge to the block of that name.
    Edge(Name),
}

impl Drop for Spot {
    fn drop(self) {
        match self {
            Spot::Start => {}
            Spot::Line(_) => {}
            Spot::Edge(_) => {}
        }
    }
}

/// Why a test failed.
pub enum Reason {
    /// The headers, the numbers of blocks or the names of blocks differ, or a block's lines don't give back both bodies.
    AlignmentDiffers,
    /// The terminators are of two kinds, or lead to other labels, or have other cases; or so do aligned lines: two stores of other types or
    /// alignments, two allocas of other sizes or alignments, whatever has a call, and lines of two kinds.
    KindsDiffer,
    /// These operands, the source's and the target's, aren't known to be related.
    Unmatched(Operand<Name>, Operand<Name>),
    /// The target's line may have undefined behaviour, and isn't known to have it only where the source's has.
    TargetMayTrap,
    /// A store of one side alone is through this address, which isn't known to be private.
    NotPrivate(Operand<Name>),
    /// The book has no rule of that name.
    UnknownRule(Seq<u8>),
    /// The rule of that name doesn't take the step. Of a ghost step and a same step the name is `ghost`.
    RuleUnfit(Seq<u8>),
    /// The step wants a fact that isn't there.
    MissingPremise(Fact),
    /// The place wants a fact that isn't there.
    MissingFact(Fact),
    /// The register may differ between the two sides, where it must not.
    DiffLeft(Reg),
}

impl Drop for Reason {
    fn drop(self) {
        match self {
            Reason::AlignmentDiffers => {}
            Reason::KindsDiffer => {}
            Reason::TargetMayTrap => {}
            Reason::Unmatched(_, _) => {}
            Reason::NotPrivate(_) => {}
            Reason::UnknownRule(_) => {}
            Reason::RuleUnfit(_) => {}
            Reason::MissingPremise(_) => {}
            Reason::MissingFact(_) => {}
            Reason::DiffLeft(_) => {}
        }
    }
}

/// What the checker says of two functions.
#[derive(Drop)]
pub enum Verdict {
    Valid,
    Refused {
        block: Name,
        spot: Spot,
        reason: Reason,
    },
}

/// In which list two modules differ.
#[derive(Drop, Clone, Copy)]
pub enum Difference {
    Types,
    Globals,
    Declarations,
    Functions,
}

/// What the checker says of two modules.
#[derive(Drop)]
pub enum ModuleVerdict {
    Valid,
    Differs(Difference),
    Refused {
        function: Name,
        block: Name,
        spot: Spot,
        reason: Reason,
    },
}
