//! The laws of operations on addresses, and of all operations over the blocks of two memories. Each function is empty on purpose: its contract
//! is the law.
ghost use Rattle.ir_values.specs.ConstantExamples.{ConstantsAreWorth};
ghost use Rattle.ir_values.specs.ConstantLaws as constants;
ghost use Rattle.ir_values.specs.PointerExamples as example;
ghost use Rattle.ir_values.specs.PointerLaws as law;

/// Where each block stands for itself, a value is related to another exactly where it is less defined, and so is a byte.
#[tactic(auto, using(crate::proofs::RelatedValues::less_is_related))]
pub fn less_defined_is_related()
    ensures { law.LessDefinedIsRelated }
{}

/// Related operands, and for a binary operation or an address fewer flags, give related outcomes. Of comparisons the pairs of blocks are one to
/// one, and paired blocks have one size.
#[tactic(auto, using(crate::proofs::Monotone::cast_related, crate::proofs::Monotone::select_related))]
pub fn operations_keep_related()
    ensures binary { law.OperationsKeepRelated }
    ensures comparisons { law.ComparisonsKeepRelated }
    ensures conversions { law.ConversionsKeepRelated }
    ensures selections { law.SelectionsKeepRelated }
    ensures addresses { law.AddressesKeepRelated }
{}

/// The address of a part is an address, whatever the operands are. The index 0 changes nothing. Indices lead somewhere exactly where the
/// address has a type.
#[tactic(auto, using(crate::proofs::Moved::gep_in_kind, crate::proofs::Moved::zero_keeps, crate::proofs::Moved::distances_follow))]
pub fn addresses_are_addresses()
    ensures kinds { law.AddressesStayInKind }
    ensures zero { law.ZeroKeepsAddresses }
    ensures types { law.AddressesFollowTypes }
{}

/// A constant is worth a value of the kind of its stated type.
pub fn constants_are_of_their_kind()
    ensures { constants.ConstantsAreInKind }
{}

/// What comparisons and conversions give of addresses, and what addresses of parts are: an example of each case.
#[tactic(auto, using(crate::proofs::PointerExamples::addresses_compare_so, crate::proofs::PointerExamples::other_kinds_are_undef, crate::proofs::PointerExamples::addresses_move_so, crate::proofs::PointerExamples::offsets_have_a_range))]
pub fn examples_of_pointers()
    ensures comparisons { example.AddressesCompareSo }
    ensures kinds { example.OtherKindsAreUndef }
    ensures addresses { example.AddressesMoveSo }
    ensures ranges { example.OffsetsHaveARange }
{}

/// What constants are worth: an example of each case.
#[tactic(auto, using(crate::proofs::ConstantExamples::constants_are_worth))]
pub fn examples_of_constants()
    ensures { ConstantsAreWorth }
{}
