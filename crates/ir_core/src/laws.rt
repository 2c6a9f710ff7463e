ghost use Rattle.ir_core.specs.Laws.{TwoBlocksAreWellFormed, EmptyNamesAreNot, EarlyUsesAreNot, WideNumbersAreNot};
ghost use Rattle.ir_core.specs.Laws.{OtherWidthsAreNot, OtherResultsAreNot, VoidParametersAreNot, VoidNumbersAreNot};
ghost use Rattle.ir_core.specs.Laws.{LinesWithoutOperatorsAreNot, PhisOfNoEdgeAreNot, PhisOfNothingAreNot};
ghost use Rattle.ir_core.specs.Laws.{FunctionsOfOneNameAreNot, NamesSetTwiceAreNot, DebugNamesAreNot, FunctionsWithoutBlocksAreNot};
ghost use Rattle.ir_core.specs.Laws.{ConversionsChangeWidths, SelectionsHaveOneType, ComparisonsGiveBits, FlagsHaveOperators, OperatorsOfFlags, VoidReturns, ExpressionsAreRead, ExpressionsAreMapped};
ghost use Rattle.ir_core.specs.TypeLaws.{TypesHaveKinds, NamedTypesAreInRange, NamedTypesAreKnown, OtherTypesAreNot};
ghost use Rattle.ir_core.specs.MemoryLaws.{AddressesAreRead, MemoryLinesAreRead};
ghost use Rattle.ir_core.specs.Placed.{PlacesAreKept};
ghost use Rattle.ir_core.specs.RangeLaws.{AlignmentsAndCountsHaveRanges, ConstantsHaveRanges, DeclarationsHaveRanges, DeclarationsStandInOrder, GlobalsHaveRanges, LinesHaveRanges, TypesHaveRanges};
ghost use Rattle.ir_core.specs.FlowLaws.{JumpsGoToBlocks, PhisFollowEdges, CasesAreApart, PathsDefine, SuccessorsInOrder};
ghost use Rattle.ir_core.specs.TypingLaws.{AllocasAreTyped, AccessesAreTyped, ElementsAreTyped, IndicesLead, MemoryIsWellFormed};
ghost use Rattle.ir_core.specs.TypingLaws.{ArgumentsAreTyped, CallsAreTyped, ConstantsAreTyped, GlobalsAreTyped, InitialisersAreTyped};

/// Empty on purpose: its contract is the law.
///
/// A module of two blocks that return is well-formed. None is that has a function without a name, that uses a register before the
/// line that sets it, or that has a number of more bits than its type.
pub fn examples_of_well_formedness()
    ensures two_blocks { TwoBlocksAreWellFormed }
    ensures empty_name { EmptyNamesAreNot }
    ensures early_use { EarlyUsesAreNot }
    ensures wide_number { WideNumbersAreNot }
{}

/// Empty on purpose: its contract is the law.
///
/// No module has shape in which an operand is stated at another width than its register's, a function of `i32` returns an `i64`, a
/// parameter is of `void`, or so is a number.
pub fn examples_of_types()
    ensures other_width { OtherWidthsAreNot }
    ensures other_result { OtherResultsAreNot }
    ensures void_parameter { VoidParametersAreNot }
    ensures void_number { VoidNumbersAreNot }
{}

/// Empty on purpose: its contract is the law.
///
/// `i1`, `i64` and a pointer have a kind; `i0`, `i65`, `void`, an array, a struct and a named type have none. No module has shape in which
/// a parameter or a result is an array, a struct or of a named type. With a pointer for one a module is well-formed.
#[tactic(auto, using(crate::proofs::TypeExamples::types_have_kinds, crate::proofs::TypeExamples::other_types_are_not))]
pub fn examples_of_kinds()
    ensures kinds { TypesHaveKinds }
    ensures other_types { OtherTypesAreNot }
{}

/// Empty on purpose: its contract is the law.
///
/// A module may name types that hold one another or themselves, by pointers or without. None has shape of which two types have one name, or
/// one names a type, behind a pointer too, that isn't there. None is in range of which a type has an empty name or a field of `i65`.
#[tactic(auto, using(crate::proofs::NamedExamples::named_types_are_known, crate::proofs::NamedExamples::named_types_are_in_range))]
pub fn examples_of_named_types()
    ensures known { NamedTypesAreKnown }
    ensures range { NamedTypesAreInRange }
{}

/// Empty on purpose: its contract is the law.
///
/// No module has shape that has a line of one operand alone, a phi with an entry for an edge that isn't there, or one without entries.
pub fn examples_of_lines()
    ensures no_operator { LinesWithoutOperatorsAreNot }
    ensures no_edge { PhisOfNoEdgeAreNot }
    ensures no_entries { PhisOfNothingAreNot }
{}

/// Empty on purpose: its contract is the law.
///
/// No module has shape that has two functions of one name, a function in which two lines set one name, one of a name for debug
/// information, or one without blocks.
pub fn examples_of_names_and_blocks()
    ensures function_names { FunctionsOfOneNameAreNot }
    ensures names { NamesSetTwiceAreNot }
    ensures debug_name { DebugNamesAreNot }
    ensures no_blocks { FunctionsWithoutBlocksAreNot }
{}

/// Empty on purpose: its contract is the law.
///
/// Conversions change widths as they should, selections have arms of one type, comparisons give an `i1`, flags stand on operators that may
/// have them, and `ret void` in void functions.
pub fn examples_of_operations()
    ensures conversions { ConversionsChangeWidths }
    ensures selections { SelectionsHaveOneType }
    ensures comparisons { ComparisonsGiveBits }
    ensures flags { FlagsHaveOperators }
    ensures operators { OperatorsOfFlags }
    ensures void { VoidReturns }
{}

/// Empty on purpose: its contract is the law.
///
/// The type and the operands of expressions are those of the text, also over other registers.
#[tactic(auto, using(crate::proofs::Mapped::expressions_are_read, crate::proofs::Mapped::expressions_are_mapped))]
pub fn examples_of_expressions()
    ensures read { ExpressionsAreRead }
    ensures mapped { ExpressionsAreMapped }
{}

/// Empty on purpose: its contract is the law.
///
/// Labels are those of blocks other than the first, phis have an entry for each edge and equal ones for edges of one block, the cases of a
/// switch are different values of its type, and a register is defined where each path sets it.
#[tactic(auto, using(crate::proofs::Flow::jumps_go_to_blocks, crate::proofs::Flow::phis_follow_edges, crate::proofs::Flow::cases_are_apart, crate::proofs::Flow::paths_define))]
pub fn examples_of_control_flow()
    ensures jumps { JumpsGoToBlocks }
    ensures phis { PhisFollowEdges }
    ensures cases { CasesAreApart }
    ensures paths { PathsDefine }
    ensures successors { SuccessorsInOrder }
{}

/// Empty on purpose: its contract is the law.
///
/// The registers, types and operands of lines of memory are those of the text.
#[tactic(auto, using(crate::proofs::MemoryExamples::addresses_are_read, crate::proofs::MemoryExamples::memory_lines_are_read))]
pub fn examples_of_memory()
    ensures expressions { AddressesAreRead }
    ensures lines { MemoryLinesAreRead }
{}

/// Empty on purpose: its contract is the law.
///
/// Indices lead into arrays and to the fields of structs, also of named ones, and to nothing in an opaque type. What is allocated has a
/// size, and what is loaded or stored is a value behind a pointer to its type.
#[tactic(auto, using(crate::proofs::TypingExamples::indices_lead, crate::proofs::TypingExamples::elements_are_typed, crate::proofs::TypingExamples::allocas_are_typed, crate::proofs::TypingExamples::accesses_are_typed, crate::proofs::TypingExamples::memory_is_well_formed))]
pub fn examples_of_addresses()
    ensures indices { IndicesLead }
    ensures elements { ElementsAreTyped }
    ensures allocas { AllocasAreTyped }
    ensures accesses { AccessesAreTyped }
    ensures memory { MemoryIsWellFormed }
{}

/// Empty on purpose: its contract is the law.
///
/// `null` is of pointer types, and a global's address of the type of pointers to its contents. Arguments are as many as parameters, but
/// for `...`, and a result has a name unless it is `void`. Initialisers have as many parts as their types. A global has its own name, and
/// contents of a type that the module knows.
#[tactic(auto, using(crate::proofs::TypingExamples::constants_are_typed, crate::proofs::TypingExamples::arguments_are_typed, crate::proofs::TypingExamples::calls_are_typed, crate::proofs::TypingExamples::initialisers_are_typed, crate::proofs::TypingExamples::globals_are_typed))]
pub fn examples_of_typing()
    ensures constants { ConstantsAreTyped }
    ensures arguments { ArgumentsAreTyped }
    ensures calls { CallsAreTyped }
    ensures initialisers { InitialisersAreTyped }
    ensures globals { GlobalsAreTyped }
{}

/// Empty on purpose: its contract is the law.
///
/// Integers have 64 bits at most, arrays fewer than 2^64 elements, alignments are powers of two up to 2^29, and numbers have no more bits
/// than their types, each also inside of others. Lines and globals have such types, counts and alignments. A global without initialiser is
/// `external`. Declarations have a name and types in range, and stand in the order of the file.
#[tactic(auto, using(crate::proofs::RangeExamples::types_have_ranges, crate::proofs::RangeExamples::alignments_and_counts_have_ranges, crate::proofs::RangeExamples::constants_have_ranges, crate::proofs::RangeExamples::globals_have_ranges, crate::proofs::RangeExamples::declarations_stand_in_order, crate::proofs::RangeExamples::declarations_have_ranges, crate::proofs::RangeExamples::lines_have_ranges))]
pub fn examples_of_ranges()
    ensures types { TypesHaveRanges }
    ensures alignments { AlignmentsAndCountsHaveRanges }
    ensures constants { ConstantsHaveRanges }
    ensures globals { GlobalsHaveRanges }
    ensures declarations { DeclarationsStandInOrder }
    ensures declared { DeclarationsHaveRanges }
    ensures lines { LinesHaveRanges }
{}

/// Empty on purpose: its contract is the law.
///
/// A definition in its own place is itself, and one that is put in the place of another again stays as it is. Blocks, and the names and
/// types of parameters, are those of what is put there; the linkage, the name, the result, and what widens are those of what stood there.
#[tactic(auto, using(crate::proofs::Placed::places_are_kept))]
pub fn places_are_kept()
    ensures { PlacesAreKept }
{}
