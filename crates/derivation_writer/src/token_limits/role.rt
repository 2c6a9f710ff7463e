/// What a rule has to do with depths and lines.
#[derive(Clone, Copy, Drop)]
pub enum Role {
    /// Nothing.
    Plain,
    /// A type: what stands before its stars, and these.
    Pointers,
    /// What stands before a type's stars.
    Base,
    /// A star, the fields of a named type, a constant or an initialiser.
    Part,
    /// A line of a function.
    Line,
    /// A function that is defined.
    Definition,
}
