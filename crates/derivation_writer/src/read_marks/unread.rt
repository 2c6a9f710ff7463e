use ir_core::Limit;

/// Why tokens are no tree.
#[derive(Drop, Clone, Copy)]
pub enum Unread {
    /// The token of this index is the first that isn't expected: their number, where nothing ends with them.
    Stuck(usize),
    /// A token passes this limit, and up to it all is expected.
    Limit(Limit),
}
