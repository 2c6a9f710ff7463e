ghost use Rattle.ir_machine.specs.StartLaws.{ArgumentsFit, BytesFit, InitialisersAreBytes, StartsStand, WorldsAreMade};

/// Empty on purpose: its contract is the law.
///
/// The bytes of initialisers, with undef between and behind fields; the world that globals and an input make; each way in which an input doesn't
/// fit, and the first of two; and where runs start, worked out by hand.
#[tactic(auto, using(crate::proofs::StartExamples::initialisers_are_bytes, crate::proofs::StartExamples::worlds_are_made, crate::proofs::StartExamples::arguments_fit, crate::proofs::StartExamples::bytes_fit, crate::proofs::StartExamples::starts_stand))]
pub fn examples_of_starts()
    ensures bytes { InitialisersAreBytes }
    ensures worlds { WorldsAreMade }
    ensures arguments { ArgumentsFit }
    ensures fitting { BytesFit }
    ensures starts { StartsStand }
{}
