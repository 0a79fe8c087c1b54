//! The issuer of a run and a message's nonce, in the caller's memory.
ghost use Rattle.capi.specs.Issuers.{Draws};

use link::{Issuer, Nonce};
use sss::Fault;

/// Where the nonces of one run come from.
#[repr(C)]
pub struct FutsambolyIssuer {
    pub run: u32,
    pub next: u32,
}

/// The nonce that a message was sealed with.
#[repr(C)]
pub struct FutsambolyNonce {
    pub bytes: [u8; 6],
}

/// Draws the next nonce of a run, and puts its bytes down. Where all 65,536 are issued it refuses, and nothing is changed.
pub(crate) fn draw(
    issuer: &mut FutsambolyIssuer,
    nonce: &mut FutsambolyNonce,
) -> Result<Nonce, Fault>
    ensures { Draws issuer.old nonce.old result issuer.new nonce.new }
{
    let mut run = Issuer::resumed(issuer.run, issuer.next);
    let drawn = run.draw()?;
    issuer.next = run.issued();
    nonce.bytes = drawn.bytes();
    Ok(drawn)
}
