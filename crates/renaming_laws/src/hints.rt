ghost use Rattle.renaming_laws.specs.HintLaws.{PrintedNamesAreRead, PrintedNamesAreApart, PrintedNamesAreKeys, PrintedExpressionsAreRead, PrintedExpressionsAreApart, PrintedTypesAreRead, PrintedFactsAreRead};

/// Empty on purpose: its contract is the law.
///
/// A printed name is read as that name: so no two names are printed alike, and hints can speak of each name.
pub fn printed_names_are_read()
    ensures read { PrintedNamesAreRead }
    ensures apart { PrintedNamesAreApart }
    ensures keys { PrintedNamesAreKeys }
{}

/// Empty on purpose: its contract is the law.
///
/// A printed expression, over registers as they are now, old ones and ghosts, is read as that expression.
pub fn printed_expressions_are_read()
    ensures read { PrintedExpressionsAreRead }
    ensures apart { PrintedExpressionsAreApart }
{}

/// Empty on purpose: its contract is the law.
///
/// A printed type is read as that type.
pub fn printed_types_are_read()
    ensures { PrintedTypesAreRead }
{}

/// Empty on purpose: its contract is the law.
///
/// A printed fact over such expressions, registers of now, types and alignments is read as that fact.
pub fn printed_facts_are_read()
    ensures { PrintedFactsAreRead }
{}
