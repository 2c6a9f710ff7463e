ghost use Rattle.std.specs.Prelude.{◌≡◌, ◌↔◌, IsTrue, IfOk};

use crate::{Name, Shared, Ty};
use contents::{Exact, Seq};
use std::alloc::{AllocError, Global};

/// The fields of a named type's struct: none where it is opaque.
pub(crate) type Fields = Option<Shared<Seq<Ty>>>;

/// A type that a module names: the fields of its struct, or none where it is opaque.
#[derive(Drop)]
pub struct NamedTy {
    pub name: Name,
    pub fields: Option<Shared<Seq<Ty>>>,
}

fn same_fields(mine: &Fields, theirs: &Fields) -> bool
    ensures { IsTrue result ↔ (mine.now ≡ theirs.now) }
{
    match (mine, theirs) {
        (Some(mine), Some(theirs)) => mine.is(theirs),
        (None, None) => true,
        _ => false,
    }
}

pub(crate) fn shared_fields(fields: &Fields) -> Result<Fields, AllocError>
    ensures { IfOk result (λ copied. copied ≡ fields.now) }
{
    match fields {
        Some(fields) => Ok(Some(fields.share()?)),
        None => Ok(None),
    }
}

impl Exact for NamedTy {
    fn is(&self, other: &NamedTy) -> bool {
        self.name.is(&other.name) && same_fields(&self.fields, &other.fields)
    }

    /// Takes no memory, and no walk through the fields.
    fn copy(&self, alloc: Global) -> Result<NamedTy, AllocError> {
        Ok(NamedTy {
            name: self.name.copy(alloc)?,
            fields: shared_fields(&self.fields)?,
        })
    }
}
