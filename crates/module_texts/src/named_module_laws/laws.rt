ghost use Rattle.module_texts.specs.NamedModuleLaws.BuiltModules.{ItemsAreBuilt, LinesAreBuilt};
ghost use Rattle.module_texts.specs.NamedModuleLaws.CallsAtFault.{CallsAreTested};
ghost use Rattle.module_texts.specs.NamedModuleLaws.ConstantsAtFault.{ConstantsAreTested, InitialisersAreTested};
ghost use Rattle.module_texts.specs.NamedModuleLaws.NamesAtFault.{NamesOfItemsAreTested, NamesOfLinesAreTested};
ghost use Rattle.module_texts.specs.NamedModuleLaws.Judged.{ConstantsAreJudged, InitialisersAreJudged, PartsAreJudged, TypesAreJudged};
ghost use Rattle.module_texts.specs.NamedModuleLaws.NamedLines.{EachKindOfLineIsNamed};
ghost use Rattle.module_texts.specs.NamedModuleLaws.NamedTrees.{EachSortIsNamed};
ghost use Rattle.module_texts.specs.NamedModuleLaws.NumbersAtFault.{NumbersAreTested};
ghost use Rattle.module_texts.specs.NamedModuleLaws.RegistersAtFault.{RegistersAreTested};
ghost use Rattle.module_texts.specs.NamedModuleLaws.TypesAtFault.{TypesAreTested, UnknownTypesAreTested};

/// Empty on purpose: its contract is the law.
///
/// A type names types that are there and counts that are counts, and is one of values where a value is; what is dropped isn't tested.
#[tactic(auto, using(crate::proofs::NamedModuleLaws::TypesTested::types_are_tested, crate::proofs::NamedModuleLaws::TypesTested::unknown_types_are_tested))]
pub fn examples_of_types()
    ensures types { TypesAreTested }
    ensures names { UnknownTypesAreTested }
{}

/// Empty on purpose: its contract is the law.
///
/// A number is in the range of its integer type, `true` is of `i1`, and an alignment is a power of two or 0.
#[tactic(auto, using(crate::proofs::NamedModuleLaws::NumbersTested::numbers_are_tested))]
pub fn examples_of_numbers()
    ensures { NumbersAreTested }
{}

/// Empty on purpose: its contract is the law.
///
/// A constant is of the type that is stated for it, and an initialiser has as many parts as its type, of their types.
#[tactic(auto, using(crate::proofs::NamedModuleLaws::ConstantsTested::constants_are_tested, crate::proofs::NamedModuleLaws::ConstantsTested::initialisers_are_tested))]
pub fn examples_of_constants()
    ensures constants { ConstantsAreTested }
    ensures initialisers { InitialisersAreTested }
{}

/// Empty on purpose: its contract is the law.
///
/// A register is known, and of the type that is stated for it if it has one; a label is a block.
#[tactic(auto, using(crate::proofs::NamedModuleLaws::RegistersTested::registers_are_tested))]
pub fn examples_of_registers()
    ensures { RegistersAreTested }
{}

/// Empty on purpose: its contract is the law.
///
/// A callee is a function of the module, and types of parameters that are stated are its own.
#[tactic(auto, using(crate::proofs::NamedModuleLaws::CallsTested::calls_are_tested))]
pub fn examples_of_calls()
    ensures { CallsAreTested }
{}

/// Empty on purpose: its contract is the law.
///
/// A name is new, a number is the one that is due, and a line without result has no name.
#[tactic(auto, using(crate::proofs::NamedModuleLaws::NamesTested::names_of_lines_are_tested, crate::proofs::NamedModuleLaws::NamesTested::names_of_items_are_tested))]
pub fn examples_of_names()
    ensures lines { NamesOfLinesAreTested }
    ensures items { NamesOfItemsAreTested }
{}

/// Empty on purpose: its contract is the law.
///
/// What is built of items and of lines in which nothing is at fault: numbers are counted, what plays no part is dropped, and attributes,
/// an alignment of 0 and a count of 1 are kept as what they say.
#[tactic(auto, using(crate::proofs::NamedModuleLaws::ModulesBuilt::items_are_built, crate::proofs::NamedModuleLaws::ModulesBuilt::lines_are_built))]
pub fn examples_of_modules()
    ensures items { ItemsAreBuilt }
    ensures lines { LinesAreBuilt }
{}

/// Empty on purpose: its contract is the law.
///
/// Which types, constants, initialisers, alignments, callees and names of lines name something beside a module.
#[tactic(auto, using(crate::proofs::NamedModuleLaws::PartsJudged::types_are_judged, crate::proofs::NamedModuleLaws::PartsJudged::constants_are_judged, crate::proofs::NamedModuleLaws::PartsJudged::initialisers_are_judged, crate::proofs::NamedModuleLaws::PartsJudged::parts_are_judged))]
pub fn examples_of_named_parts()
    ensures types { TypesAreJudged }
    ensures constants { ConstantsAreJudged }
    ensures initialisers { InitialisersAreJudged }
    ensures parts { PartsAreJudged }
{}

/// Empty on purpose: its contract is the law.
///
/// What module a tree with an item of each sort names, and one with a line of each kind.
#[tactic(auto, using(crate::proofs::NamedModuleLaws::TreesNamed::each_sort_is_named, crate::proofs::NamedModuleLaws::LinesNamed::each_kind_of_line_is_named))]
pub fn examples_of_named_trees()
    ensures sorts { EachSortIsNamed }
    ensures lines { EachKindOfLineIsNamed }
{}
