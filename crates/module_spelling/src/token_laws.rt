ghost use Rattle.module_spelling.specs.TokenLaws.{CalledNamesStand, DeclaredNamesStand, NamesRestOnTheseAlone, WithinTreesAreShort};

/// Empty on purpose: its contract is the law.
///
/// A module that is written within the limit on lines is built of functions within it.
pub fn within_trees_are_short()
    ensures { WithinTreesAreShort }
{}

/// Empty on purpose: its contract is the law.
///
/// Before a name that is called behind stated types, these stand between parentheses behind `void`.
pub fn called_names_stand()
    ensures { CalledNamesStand }
{}

/// Empty on purpose: its contract is the law.
///
/// Behind a name of debugging that is declared and kept, its parameters stand between parentheses.
pub fn declared_names_stand()
    ensures { DeclaredNamesStand }
{}

/// Empty on purpose: its contract is the law.
///
/// What a tree names rests on what stands around these names alone.
pub fn names_rest_on_these_alone()
    ensures { NamesRestOnTheseAlone }
{}
