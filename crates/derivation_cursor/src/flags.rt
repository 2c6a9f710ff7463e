//! Words that stand there or not.
ghost use Rattle.std.specs.Prelude.{◌≡◌};
ghost use Rattle.derivation_cursor.specs.At.{Passes, ahead_of};
ghost use Rattle.module_derivations.specs.Empty.{made};

use crate::cursor::Cursor;
use module_derivations::rule;

/// `[inbounds]`
pub fn read_inbounds(c: &mut Cursor) -> bool
    ensures said { result ≡ (made (ahead_of c.old)).inbounds }
    ensures passes { Passes c.old c.new }
{
    match c.rule() {
        Some(rule::INBOUNDS) => true,
        other => {
            c.pass(other);
            false
        }
    }
}
