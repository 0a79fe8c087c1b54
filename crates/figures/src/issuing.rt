//! The known figure of an issuer: the bytes of a nonce.
ghost use Rattle.std.specs.Prelude.{◌≡◌, true, MatchResult};

use link::{Issuer, Nonce};
use sss::Fault;

/// The third nonce of a run.
fn third_nonce(run: u32) -> Result<Nonce, Fault>
    ensures { MatchResult result (λ n. (n.run ≡ run) × (n.message ≡ 2)) (λ _. ⊥) }
{
    let mut issuer = Issuer::new(run);
    issuer.draw()?;
    issuer.draw()?;
    issuer.draw()
}

/// The third nonce of run 1 is that of message 2: both numbers with the low byte first.
pub(crate) fn third_of_run_one() -> Result<bool, Fault>
    ensures { result ≡ Ok true }
{
    Ok(third_nonce(1)?.bytes() == [1, 0, 0, 0, 2, 0])
}
