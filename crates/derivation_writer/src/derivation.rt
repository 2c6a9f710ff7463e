ghost use Rattle.std.specs.Prelude.{◌≡◌, IfOk};
ghost use Rattle.derivation_writer.specs.Watching.{stop_by};
ghost use Rattle.derivation_writer.specs.Writing.{IsDerived};
ghost use Rattle.module_grammar.specs.Sets.{sets};
ghost use Rattle.predictive.specs.Predictive.{MayEnd};
ghost use Rattle.derivation_writer.specs.TokenLimits.Laws.{base_number};

use crate::reading::Reading;
use crate::stop::Stop;
use contents::Seq;
use ir_core::Limit;
use module_derivations::TokenGrammar;
use predictive::parse;
use std::alloc::{AllocError, Global};

/// Why tokens have no derivation, by the limit that one passes and the first fault.
fn stop_by(limit: Option<Limit>, fault: Option<usize>) -> Option<Stop>
    ensures { result ≡ stop_by limit fault }
{
    match limit {
        Some(limit) => Some(Stop::Limit(limit)),
        None => Some(Stop::Stuck(fault?)),
    }
}

/// The derivation of a text of these kinds from a nonterminal, as numbers: a rule's is its own, and a token's is its place and 2^31. Else the
/// limit that a token passes, or the first token that isn't expected.
pub fn derivation_of(
    alloc: Global,
    start: u8,
    kinds: &[u8],
) -> Result<Result<Seq<u32>, Stop>, AllocError>
    requires may_end { MayEnd sets start }
    requires other { start ≡ base_number → ⊥ }
    ensures { IfOk result (IsDerived start kinds.now) }
{
    let mut reading = Reading::new(alloc);
    let fault = parse(alloc, &TokenGrammar, &mut reading, start, kinds)?;
    match stop_by(reading.limit(), fault) {
        Some(stop) => Ok(Err(stop)),
        None => Ok(Ok(reading.into_numbers())),
    }
}
