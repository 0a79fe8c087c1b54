//! The calls on the sealer.
ghost use Rattle.std.specs.Prelude.{◌≡◌, ◌+◌, ◌++◌, length, MatchResult, OnOk};
ghost use Rattle.weld.specs.Failures.{Fails, OfMemory, numbers_failure};
ghost use Rattle.weld.specs.Scenario.{message_calls, messages_from};

use crate::failure::Failure;
use crate::scenario::{Ending, Plan};
use link::{Call, Issuer, Nonce, SealerCall};
use std::alloc::Global;

/// Adds the calls that seal one message.
fn message(plan: &Plan, nonce: Nonce, calls: &mut Vec<Call>) -> Result<(), Failure>
    ensures { MatchResult result (λ _. calls.new.items ≡ calls.old.items ++ message_calls plan.now nonce) OfMemory }
{
    calls.push(Call::OnSealer(SealerCall::Begin(nonce)))?;
    calls.extend((0..plan.words).map(|place| Call::OnSealer(plan.word(place))))?;
    let end = match plan.ending {
        Ending::Finished => SealerCall::Finish,
        Ending::Abandoned => SealerCall::Abandon,
    };
    calls.push(Call::OnSealer(end))?;
    Ok(())
}

/// The calls that seal messages by their plans, each with a nonce of its own.
pub(crate) fn calls(heap: Global, plans: &[Plan], issuer: &mut Issuer) -> Result<Vec<Call>, Failure>
    ensures calls { MatchResult result (λ v. v.items ≡ messages_from issuer.old.run issuer.old.issued plans.now) (Fails (numbers_failure (issuer.old.issued + length plans.now))) }
    ensures issued { OnOk result (issuer.new ≡ record issuer.old { issued = issuer.old.issued + length plans.now }) }
{
    let mut calls = Vec::new(heap);
    for plan in plans {
        message(plan, issuer.draw()?, &mut calls)?;
    }
    Ok(calls)
}
