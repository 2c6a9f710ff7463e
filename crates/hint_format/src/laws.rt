//! The laws of the form.
ghost use Rattle.hint_format.specs.Laws.{TextsAreRead, LeavesAreOne, ReadingsAreOne};

/// Empty on purpose: its contract is the law.
///
/// Expressions and names are read as the form wants it, which leaves no choice; so a file's bytes are read as one list of hints or as
/// one fault.
pub fn hint_files_are_read()
    ensures texts { TextsAreRead }
    ensures leaves { LeavesAreOne }
    ensures one { ReadingsAreOne }
{}
