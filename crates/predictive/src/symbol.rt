/// A symbol of a rule's right side.
#[derive(Drop, Clone, Copy)]
pub enum Symbol {
    /// A token of this kind.
    Kind(u8),
    /// A nonterminal.
    Non(u8),
}
