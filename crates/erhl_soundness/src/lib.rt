//! The soundness of the checker's logic: what it accepts refines. Laws over definitions alone, each the contract of a function
//! that does nothing; callers take the law from the contract.
//!
//! This is the soundness theorem of Crellvm (Kang et al., PLDI 2018) for functions with control flow, proved for the definitions of
//! `erhl_assert` (the logic) and `ir_machine` (what a module can show). Checking each result of an optimiser by a proved checker,
//! in place of proving the optimiser, is credible compilation (Rinard).
#![tactic(auto)]

ghost use Rattle.erhl_soundness.specs.Laws.{ALineComesToWhatIsKnown, AnEdgeComesToWhatIsKnown, HintsArePutIn, SizesBoundWhatIsKnown, FactsAreCounted, LinesAreJudged, ALineKeepsWhatHolds, AnEdgeKeepsWhatHolds, MatchedOperandsAreRelated, ShapesKeepPhisApart, AcceptedModulesRefine};
ghost use Rattle.erhl_soundness.specs.FlowLaws.{ControlFlowIsJudged, PhisMustBeApart};
ghost use Rattle.erhl_soundness.specs.MemoryExamples.{KillsAreTold, NoAliasIsTold, OkIsTold, PrivateIsTold, UniqueIsTold};
ghost use Rattle.erhl_soundness.specs.MemoryLaws.{AllocasKeepWhatHolds, CalmLinesKeepWhatHolds, EdgesKeepWhatHolds, FineSidesAreThere, StoresKeepWhatHolds};

/// Empty on purpose: its contract is the law.
///
/// Over an aligned line that is allowed, fact by fact, a check comes to what the postcondition gives; and a line that isn't allowed it
/// refuses before any fact is added.
pub fn a_line_comes_to_what_is_known()
    ensures { ALineComesToWhatIsKnown }
{}

/// Empty on purpose: its contract is the law.
///
/// Over an edge, fact by fact, a check comes to what the postcondition gives, before the edge's steps.
pub fn an_edge_comes_to_what_is_known()
    ensures { AnEdgeComesToWhatIsKnown }
{}

/// Empty on purpose: its contract is the law.
///
/// The facts that a hint claims at a block's start are put in one by one, and each is known once.
pub fn hints_are_put_in()
    ensures { HintsArePutIn }
{}

/// Empty on purpose: its contract is the law.
///
/// Sizes tell of every assertion that a check comes to: none has more facts than the greatest size before it, or than were known
/// at the start.
pub fn sizes_bound_what_is_known()
    ensures { SizesBoundWhatIsKnown }
{}

/// Empty on purpose: its contract is the law.
///
/// How many facts are known in the course of a check, in checks that are written out.
pub fn facts_are_counted()
    ensures { FactsAreCounted }
{}

/// Empty on purpose: its contract is the law.
///
/// What is judged of edges, phis, ghost registers and loops, in checks that are written out: a line is moved out of a loop, steps on an edge
/// speak of registers before it, two phis change places, and a ghost register is chosen again.
pub fn control_flow_is_judged()
    ensures { ControlFlowIsJudged }
{}

/// Empty on purpose: its contract is the law.
///
/// Which lines are allowed, of lines that are written out.
pub fn lines_are_judged()
    ensures { LinesAreJudged }
{}

/// Empty on purpose: its contract is the law.
///
/// Two sides, each in a world of its own, of which an assertion holds by pairs of their blocks, come, by an aligned line that is allowed, to two
/// sides of which holds what the postcondition gives, by those pairs and perhaps others of new blocks, unless the source's line is undefined
/// behaviour; whatever their old and ghost registers are. So the target's line is undefined behaviour only where the source's is.
pub fn a_line_keeps_what_holds()
    ensures { ALineKeepsWhatHolds }
{}

/// Empty on purpose: its contract is the law.
///
/// Two sides of which an assertion holds by pairs of their blocks come, behind the phis of an edge that are apart, to two sides of which holds what
/// the postcondition gives, by the same pairs, in the same worlds; their old registers are those before the edge, and their ghost registers stay.
pub fn an_edge_keeps_what_holds()
    ensures { AnEdgeKeepsWhatHolds }
{}

/// Empty on purpose: its contract is the law.
///
/// Where an assertion holds of two sides by pairs of their blocks, and two operands are matched, the source's value and the target's are related by
/// those pairs.
pub fn matched_operands_are_related()
    ensures { MatchedOperandsAreRelated }
{}

/// Empty on purpose: its contract is the law.
///
/// The soundness theorem's premise on phis is met by every module of well-formed shape.
pub fn shapes_keep_phis_apart()
    ensures { ShapesKeepPhisApart }
{}

/// Empty on purpose: its contract is the law.
///
/// Where every step that the rules take is sound, two modules have the same types and globals, no two phis of a block set one register, and each
/// pair of functions is accepted under some hint, the target refines the source: whichever function is entered, on whatever input, what the
/// target can show the source can show too, or it has undefined behaviour after a first part of it.
pub fn accepted_modules_refine()
    ensures { AcceptedModulesRefine }
{}

/// Empty on purpose: its contract is the law.
///
/// The theorem needs its premise: there are modules that are accepted and don't refine, of which a block has two phis of one register.
pub fn phis_must_be_apart()
    ensures { PhisMustBeApart }
{}

/// Empty on purpose: its contract is the law.
///
/// Of a fine side a calm line that doesn't trap leaves true whatever its kills leave, and makes true what it adds; and the side is fine again.
pub fn a_calm_line_keeps_what_holds()
    ensures { CalmLinesKeepWhatHolds }
{}

/// Empty on purpose: its contract is the law.
///
/// Of a fine side what is known over an edge, behind phis that are apart, is true there, by itself and whatever the other side is; and the side is
/// fine again.
pub fn an_edge_of_one_side_keeps_what_holds()
    ensures { EdgesKeepWhatHolds }
{}

/// Empty on purpose: its contract is the law.
///
/// Of a fine side that holds pointers to blocks that there are alone, an alloca leaves true whatever its kills leave, and makes true what it adds: its
/// pointer is the only one to its block, which is private where the line is of one side alone, and its slot may be accessed and holds undef.
pub fn an_alloca_keeps_what_holds()
    ensures { AllocasKeepWhatHolds }
{}

/// Empty on purpose: its contract is the law.
///
/// Of a fine side a store that doesn't trap leaves true whatever its kills leave, loads among it that are spared, and makes true what it adds: another
/// access there doesn't trap, and gives what was stored.
pub fn a_store_keeps_what_holds()
    ensures { StoresKeepWhatHolds }
{}

/// Empty on purpose: its contract is the law.
///
/// Beside whatever types and globals there is a fine side, so that no rule is sound for want of one. Each start, of whatever module, is on a fine side
/// that holds pointers to blocks that there are alone; and in a module of well-formed shape the name of each global leads to it.
pub fn fine_sides_are_there()
    ensures { FineSidesAreThere }
{}

/// Empty on purpose: its contract is the law.
///
/// Of sides that are written out it is told which facts of memory are true and which are false, each for one reason; and which loads a store spares.
pub fn facts_of_memory_are_told()
    ensures unique { UniqueIsTold }
    ensures private { PrivateIsTold }
    ensures no_alias { NoAliasIsTold }
    ensures ok { OkIsTold }
    ensures kills { KillsAreTold }
{}
