ghost use Rattle.ir_rename.specs.Examples.{NamesOfExamples, NumbersOfExamples};
ghost use Rattle.ir_rename.specs.Laws.{NamedAreTexts, NamingRenames, NumberedIsInOrder, NumberingRenames, NumbersGetFreshNames, OrderStays, RenamedAreDefined, RenamedHaveShape};

/// Empty on purpose: its contract is the law.
///
/// Where the names of each function are in range and differ, numbering them renames the functions, and what is numbered is in order. What is
/// in order stays.
pub fn numbered_functions_are_renamed()
    ensures renamed { NumberingRenames }
    ensures ordered { NumberedIsInOrder }
    ensures kept { OrderStays }
{}

/// Empty on purpose: its contract is the law.
///
/// Where the names of each function are in range, naming them renames the functions, and each name is a text then. Where they differ, what a
/// number becomes is none of the function's names, and none that is given before it, with as few dots as may be.
pub fn named_functions_are_renamed()
    ensures renamed { NamingRenames }
    ensures texts { NamedAreTexts }
    ensures fresh { NumbersGetFreshNames }
{}

/// Empty on purpose: its contract is the law.
///
/// Under whatever other names, a function that has shape beside a module goes on to have it, also where the module's other functions are
/// renamed, and what it uses goes on to be defined.
pub fn renamed_functions_keep_their_shape()
    ensures shape { RenamedHaveShape }
    ensures defined { RenamedAreDefined }
{}

/// Empty on purpose: its contract is the law.
///
/// How functions are numbered, worked out by hand.
pub fn examples_of_numbers()
    ensures { NumbersOfExamples }
{}

/// Empty on purpose: its contract is the law.
///
/// Which names are given, worked out by hand.
pub fn examples_of_names()
    ensures { NamesOfExamples }
{}
