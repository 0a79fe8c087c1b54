//! What can keep the program from its report.
ghost use Rattle.std.specs.Prelude.{◌≡◌};
ghost use Rattle.weld.specs.Failures.{OfMemory};
ghost use Rattle.weld.specs.declared.failure.Failure.TheVariants.{Refused};

use sss::Fault;
use std::alloc::{AllocError, AllocFailed};
use thiserror::Error;

/// Why there is no report.
#[derive(Clone, Copy, Debug, Error)]
pub enum Failure {
    /// This build does not work out the known figures.
    #[error("a known figure of the cipher or the link is not worked out as it is published")]
    Figures,
    /// There was no memory.
    #[error("no memory")]
    NoMemory(#[source] AllocError),
    /// A key, a nonce or a word was refused.
    #[error("refused with number {number}", number = .0.number())]
    Refused(#[source] Fault),
    /// A call of the scenario was not made as it stands there.
    #[error("a call of the scenario was not made as it stands there")]
    NotMade,
    /// A word was received that is no word of the sealer's.
    #[error("a word was received that was not sent")]
    NotSent,
}

// The contracts name the failure that `?` makes, and are not proved without `from_gives`, which no derive writes.
impl From<Fault> for Failure {
    ghost from_gives = { λ fault r. r ≡ Refused fault };

    fn from(fault: Fault) -> Failure {
        Failure::Refused(fault)
    }
}

impl From<AllocError> for Failure {
    ghost from_gives = { λ _ r. OfMemory r };

    fn from(e: AllocError) -> Failure {
        Failure::NoMemory(e)
    }
}

impl<T: Drop> From<AllocFailed<T>> for Failure {
    ghost from_gives = { λ _ r. OfMemory r };

    fn from(_e: AllocFailed<T>) -> Failure {
        Failure::NoMemory(AllocError)
    }
}
