ghost use Rattle.std.specs.Prelude.{◌≡◌};
ghost use Rattle.ir_typing.specs.ShapeKinds.Kinds.{kind_text, order_of};

/// What is wrong at a place of a module.
#[derive(Drop, Clone, Copy)]
pub enum ShapeKind {
    /// A name stands twice, and not as a block's both times, or names no register, type, global or callee that is there; or a function's begins
    /// with `llvm.dbg.`.
    Name,
    /// A block has an earlier one's name, a label names no block, or a function has no block.
    Label,
    /// An edge leads to the function's first block.
    EntryEntered,
    /// A phi has no entry, or not one for each edge into its block, or two of one block that differ.
    PhiEntries,
    /// An operand, or a part of a constant or an initialiser, isn't of the type that is due; an operator or a branch doesn't take it; a pointer
    /// points to another type than is stated; a register, a parameter or a result is of a type that none is of; or a call names a result that
    /// is `void`, or leaves another unnamed.
    OperandType,
    /// A call isn't for the result of what it calls, or with other arguments than it takes.
    CallType,
    /// A terminator returns what isn't of the function's result type.
    ReturnType,
    /// A switch has a case of another type, or two cases of one number.
    CaseTwice,
    /// A conversion doesn't lead from its operand's type to the one behind `to`.
    CastWidth,
    /// A type that has no size stands where one is wanted.
    Unsized,
    /// An index leads into nothing.
    GepIndex,
}

impl ShapeKind {
    /// The words in which it is told.
    pub fn text(self) -> &'static str
        ensures { result.now ≡ kind_text self }
    {
        match self {
            ShapeKind::Name => "name",
            ShapeKind::Label => "label",
            ShapeKind::EntryEntered => "entry entered",
            ShapeKind::PhiEntries => "phi entries",
            ShapeKind::OperandType => "operand type",
            ShapeKind::CallType => "call type",
            ShapeKind::ReturnType => "return type",
            ShapeKind::CaseTwice => "case twice",
            ShapeKind::CastWidth => "cast width",
            ShapeKind::Unsized => "unsized",
            ShapeKind::GepIndex => "gep index",
        }
    }

    /// Its place among the kinds: of several at one place of a module the first is told.
    pub(crate) fn order(self) -> u8
        ensures { result ≡ order_of self }
    {
        match self {
            ShapeKind::Name => 0,
            ShapeKind::Label => 1,
            ShapeKind::EntryEntered => 2,
            ShapeKind::PhiEntries => 3,
            ShapeKind::OperandType => 4,
            ShapeKind::CallType => 5,
            ShapeKind::ReturnType => 6,
            ShapeKind::CaseTwice => 7,
            ShapeKind::CastWidth => 8,
            ShapeKind::Unsized => 9,
            ShapeKind::GepIndex => 10,
        }
    }
}
