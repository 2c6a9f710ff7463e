//! The laws of bytes, blocks and names. Each function is empty on purpose: its contract is the law.
ghost use Rattle.block_memory.specs.Examples as example;
ghost use Rattle.block_memory.specs.Laws as law;
ghost use Rattle.block_memory.specs.NameLaws as names;

/// The bytes of a value of the kind spell it. A pointer comes only of its eight parts in order, a number only of numbers; one poison byte
/// gives poison, and else one undef byte undef. More defined bytes spell a more defined value. The bytes of a new block spell undef.
#[tactic(auto, using(crate::proofs::BytesAgain::value_again, crate::proofs::ReadValues::come_of_their_bytes, crate::proofs::OneMemory::value_monotone, crate::proofs::ReadValues::fresh_undef))]
pub fn bytes_spell_values()
    ensures again { law.BytesSpellTheirValue }
    ensures only { law.ValuesComeOfTheirBytes }
    ensures monotone { law.ValuesOfBytesAreMonotone }
    ensures new { law.NewBytesAreUndef }
{}

/// A load of a source traps, or neither it nor the load of a related target through a related address does, and the values are related, where
/// the target's alignment divides the source's. Blocks in which related values are written stay related.
#[tactic(auto, using(crate::proofs::Accesses::loads_keep_related, crate::proofs::Accesses::stored_alike))]
pub fn loads_keep_related()
    ensures loads { law.LoadsKeepRelated }
    ensures stores { law.StoresKeepRelated }
{}

/// What was stored is loaded, and a store leaves each load of other bytes as it was.
#[tactic(auto, using(crate::proofs::Accesses::stored_loaded, crate::proofs::Accesses::loaded_still))]
pub fn stores_are_loaded()
    ensures same { law.StoredIsLoaded }
    ensures others { law.StoresLeaveOthers }
{}

/// A load gives a value of its kind where each byte is in range, and a store of such a value keeps them so.
#[tactic(auto, using(crate::proofs::Accesses::loaded_in_kind, crate::proofs::Accesses::stores_keep_bytes))]
pub fn loads_keep_kinds()
    ensures loads { law.LoadsGiveTheirKind }
    ensures stores { law.StoresKeepBytes }
{}

/// Whatever is shown, no block gets a second name, and a pointer that was shown is shown by the same name again.
#[tactic(auto, using(crate::proofs::NamesShown::names_stay_apart, crate::proofs::NamesShown::pointers_are_shown_again))]
pub fn blocks_have_one_name()
    ensures apart { names.NamesStayApart }
    ensures again { names.PointersAreShownAgain }
{}

/// What bytes, loads and stores are worth: an example of each case.
#[tactic(auto, using(crate::proofs::MemoryExamples::bytes_are_these, crate::proofs::MemoryExamples::accesses_are_these))]
pub fn examples_of_memory()
    ensures bytes { example.BytesAreThese }
    ensures accesses { example.AccessesAreThese }
{}

/// What is shown, and the names after it.
#[tactic(auto, using(crate::proofs::MemoryExamples::showings_are_these))]
pub fn examples_of_names()
    ensures { example.ShowingsAreThese }
{}
