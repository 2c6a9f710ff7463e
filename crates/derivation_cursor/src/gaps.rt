//! What no derivation keeps of a text.
ghost use Rattle.std.specs.Prelude.{◌≡◌};
ghost use Rattle.derivation_cursor.specs.At.{ahead_of};
ghost use Rattle.ir_types.specs.declared.names.Name.{Name as NameOf};
ghost use Rattle.module_derivations.specs.Empty.{made};
ghost use Rattle.module_grammar.specs.declared.functions.DeclaredText.{DeclaredText};
ghost use Rattle.module_grammar.specs.declared.places.Placed.{Placed as PlacedAt};
ghost use Rattle.module_grammar.specs.declared.types.CalledText.{CalledText};

use crate::cursor::Cursor;
use ir_core::Name;
use module_grammar::Placed;

/// What stands between parentheses around a name at its place, where a derivation doesn't keep it.
pub trait Gaps {
    ghost called: { Self → PlacedAt NameOf → CalledText };

    ghost declared: { Self → PlacedAt NameOf → DeclaredText };

    /// Where the types of parameters stand before the name of a function that is called.
    fn called(&self, name: &Placed<Name>) -> Cursor<'_>
        ensures { (made (ahead_of result)).called ≡ called self.now name.now };

    /// Where the parameters stand behind the name of a function that is declared.
    fn declared(&self, name: &Placed<Name>) -> Cursor<'_>
        ensures { (made (ahead_of result)).declared_params ≡ declared self.now name.now };
}
