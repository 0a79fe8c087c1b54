//! What is looked at before a byte is touched.
ghost use Rattle.std.specs.Prelude.{◌≡◌, length, MatchResult, None, Some};
ghost use Rattle.sss.specs.Cipher.{NonceFits};
ghost use Rattle.message.specs.Checks.{LengthsFit, open_fault, seal_fault};

use sss::{Fault, refuse_unfit_nonce};

/// The most bytes that a message has: two for each of the most words that it has on the link.
pub const LONGEST: usize = 2 * link::LONGEST as usize;

/// Looks at the nonce first, and then at the lengths.
pub(crate) fn check_opening(
    nonce: &[u8],
    masks: &[u8],
    input: &[u8],
    output: &[u8],
    tag: &[u8],
) -> Result<(), Fault>
    ensures { MatchResult result (λ _. (open_fault nonce.now masks.now input.now output.now tag.now ≡ None) × NonceFits nonce.now × LengthsFit (length masks.now) (length input.now) (length output.now) (length tag.now)) (λ fault. open_fault nonce.now masks.now input.now output.now tag.now ≡ Some fault) }
{
    refuse_unfit_nonce(nonce)?;
    check_lengths(masks, input, output, tag)
}

/// Looks at the lengths of input, masks, output and tag, in this order, and refuses the first that does not fit.
#[tactic(auto, unfolding(crate::specs::Checks::seal_fault))]
pub(crate) fn check_lengths(
    masks: &[u8],
    input: &[u8],
    output: &[u8],
    tag: &[u8],
) -> Result<(), Fault>
    ensures { MatchResult result (λ _. (seal_fault masks.now input.now output.now tag.now ≡ None) × LengthsFit (length masks.now) (length input.now) (length output.now) (length tag.now)) (λ fault. seal_fault masks.now input.now output.now tag.now ≡ Some fault) }
{
    if input.len() % 2 != 0 || input.len() > LONGEST {
        return Err(Fault::Input);
    }
    if masks.len() != input.len() {
        return Err(Fault::Masks);
    }
    if output.len() < input.len() {
        return Err(Fault::Output);
    }
    if tag.len() != 16 {
        return Err(Fault::TagLength);
    }
    Ok(())
}
