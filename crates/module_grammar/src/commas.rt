//! What stands behind a part of a line of which only behind a comma it is known what it is: a further operand, an alignment, or metadata.
use crate::attributes::MetaText;
use crate::constants::OperandText;
use crate::flow::EntryText;
use crate::lines::CountText;
use crate::places::Placed;
use ir_lexer::Number;
use predictive::Stack;

/// `, align N` or nothing, and metadata.
#[derive(Drop)]
pub struct AlignBehindText {
    pub align: Option<Placed<Number>>,
    pub attachments: Stack<MetaText>,
}

/// The same from behind a comma on.
#[derive(Drop)]
pub enum NextAlignText {
    Align {
        number: Placed<Number>,
        attachments: Stack<MetaText>,
    },
    Attachment {
        first: MetaText,
        others: Stack<MetaText>,
    },
}

/// What stands behind the type of an `alloca`.
#[derive(Drop)]
pub struct CountBehindText {
    pub count: Option<CountText>,
    pub behind: AlignBehindText,
}

/// The same from behind a comma on.
#[derive(Drop)]
pub enum NextCountText {
    Count {
        count: CountText,
        behind: AlignBehindText,
    },
    Other(NextAlignText),
}

/// Further indices of a `getelementptr`, and metadata.
#[derive(Drop)]
pub struct IndicesBehindText {
    pub indices: Stack<OperandText>,
    pub attachments: Stack<MetaText>,
}

/// The same from behind a comma on.
#[derive(Drop)]
pub enum NextIndexText {
    Index {
        index: OperandText,
        more: IndicesBehindText,
    },
    Attachment {
        first: MetaText,
        others: Stack<MetaText>,
    },
}

/// Further entries of a phi node, and metadata.
#[derive(Drop)]
pub struct EntriesBehindText {
    pub entries: Stack<EntryText>,
    pub attachments: Stack<MetaText>,
}

/// The same from behind a comma on.
#[derive(Drop)]
pub enum NextEntryText {
    Entry {
        entry: EntryText,
        more: EntriesBehindText,
    },
    Attachment {
        first: MetaText,
        others: Stack<MetaText>,
    },
}
