/// The names of the three files of `check`, in their order.
#[derive(Drop)]
pub struct FileNames<'a> {
    pub source: &'a str,
    pub target: &'a str,
    pub hints: &'a str,
}

/// What a command lists of a module.
#[derive(Drop, Clone, Copy)]
pub enum Listing {
    /// The registers that are defined on every path to each of its blocks.
    Definitions,
    /// The module as text.
    ModuleItself,
    /// The module as text, with names for its numbers.
    NamedModule,
}

/// A command, with the names of its files.
#[derive(Drop)]
pub enum Request<'a> {
    Check(FileNames<'a>),
    Print(Listing, &'a str),
}
