//! What a call answers, as a number.
ghost use Rattle.std.specs.Prelude.{◌≡◌};
ghost use Rattle.capi.specs.Calls.{number_answered};

use sss::Fault;

/// The number for an answer: 0, or that of the refusal.
pub(crate) fn number(answer: Result<(), Fault>) -> u32
    ensures { result ≡ number_answered answer }
{
    match answer {
        Ok(()) => 0,
        Err(fault) => u32::from(fault.number()),
    }
}
