// Why a table or a row can't be read.
ghost use Rattle.std.specs.Prelude.{◌≡◌, codes};
ghost use Rattle.test_support.specs.declared.row_table.fault.Fault.TheVariants.{Memory, Unlike};

use std::alloc::AllocError;

/// Memory was refused; or the table or the row isn't as it must be.
#[derive(Clone, Copy)]
pub enum Fault {
    Memory,
    Unlike(&'static str),
}

impl Fault {
    /// What is told of it; never nothing.
    pub fn told(self) -> &'static str
        ensures memory { self ≡ Memory → result.now ≡ codes "memory was refused" }
        ensures unlike { (what : _) → self ≡ Unlike what → result ≡ what }
    {
        match self {
            Fault::Memory => "memory was refused",
            Fault::Unlike(what) => what,
        }
    }
}

impl From<AllocError> for Fault {
    fn from(_: AllocError) -> Fault {
        Fault::Memory
    }
}
