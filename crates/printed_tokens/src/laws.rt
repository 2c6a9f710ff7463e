ghost use Rattle.printed_tokens.specs.Laws.{PrintedTypesAreWritten};

/// Empty on purpose: its contract is the law.
///
/// A printed type is cut into tokens that are written of a type which names it: one that can be written, and whose names can.
pub fn printed_types_are_written()
    ensures { PrintedTypesAreWritten }
{}
