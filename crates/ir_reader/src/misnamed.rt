use name_claims::Fault;

/// Why a tree names no module.
#[derive(Drop, Clone, Copy)]
pub enum Misnamed {
    /// The first fault of its names and types, before which no block is too large.
    Fault(Fault),
    /// A block is too large, and before its type no name or type is at fault.
    Block,
}
