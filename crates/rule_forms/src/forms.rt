use ir_core::{BinOp, CastOp, Pred};

/// What stands at an operand's place: a letter for an operand, a letter for a number, or a number that the type decides.
#[derive(Drop, Clone, Copy)]
pub enum Place {
    /// An operand, as Y and Z are. Z is what the premise is about.
    X,
    Y,
    Z,
    /// A number, as D and E are. E stands on the right alone, where the condition decides it.
    C,
    D,
    E,
    Zero,
    One,
    /// -1, all of whose bits are ones.
    Ones,
    /// The least number in two's complement.
    Least,
    /// The greatest number in two's complement.
    Most,
}

/// A type: one of three letters, or `i1`.
#[derive(Drop, Clone, Copy)]
pub enum TypePlace {
    S,
    M,
    T,
    Bit,
}

/// Flags: one of three letters, or none.
#[derive(Drop, Clone, Copy)]
pub enum FlagPlace {
    /// Those of the left side.
    F,
    /// Those of the premise.
    G,
    /// Those of the right side.
    H,
    Free,
}

/// An expression with letters in it.
#[derive(Drop, Clone, Copy)]
pub enum Pattern {
    Plain(TypePlace, Place),
    Binary(BinOp, FlagPlace, TypePlace, Place, Place),
    Icmp(Pred, TypePlace, Place, Place),
    /// An operator, the type and the place of its operand, and the type that it converts to.
    Cast(CastOp, TypePlace, Place, TypePlace),
    /// A condition of `i1`, and the type and the places of both arms.
    Select(Place, TypePlace, Place, Place),
}

/// What is asked of numbers, flags and N, the width of T.
#[derive(Drop, Clone, Copy)]
pub enum Condition {
    Always,
    /// `C + E = 2^N`, so E is -C and C isn't 0.
    Negated,
    /// `E = C + D` modulo 2^N.
    Sum,
    /// `E = C and D`, of bits.
    And,
    Or,
    Xor,
    /// `E = C + D`, below the width.
    Places,
    /// `C = 2^E`, E below the width, H among F, and `nsw` in H only where E + 1 is below the width.
    Factor,
    /// `C = 2^E`, E below the width, H among F.
    Divisor,
    /// `C = 2^k`, `E = C - 1`.
    Mask,
    /// The width is 2 or more, and H among F.
    Twice,
}

/// `z >= premise`, where there is one, to `left >= right`.
#[derive(Drop, Clone, Copy)]
pub struct Form {
    pub premise: Option<Pattern>,
    pub left: Pattern,
    pub right: Pattern,
    pub condition: Condition,
}
