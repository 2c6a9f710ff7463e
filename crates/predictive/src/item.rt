/// What the engine has yet to do.
#[derive(Drop, Clone, Copy)]
pub enum Item {
    /// The right side of this rule is there.
    Done(u16),
    /// A token of this kind is wanted.
    Kind(u8),
    /// A text of this nonterminal is wanted.
    Non(u8),
}
