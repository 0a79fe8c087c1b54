//! Sealing a whole message.
ghost use Rattle.std.specs.Prelude.{◌≡◌, length, drop};
ghost use Rattle.sss.specs.Asked.{Asked};
ghost use Rattle.sss.specs.Cipher.{NonceFits};
ghost use Rattle.link.specs.Issuing.{nonce_bytes};
ghost use Rattle.message.specs.Buffers.{written_over, sealed_tag, wire_bytes};
ghost use Rattle.message.specs.Checks.{LengthsFit, seal_fault};
ghost use Rattle.message.specs.Laws.{LikeSealer};
ghost use Rattle.message.specs.Outcomes.{SealsOrRefuses, left_by_seal, seal_outcome};

use crate::checks::check_lengths;
use crate::passing::pass_message;
use link::Nonce;
use sss::{Coefficient, Fault, KeyedFunction, Sealing};

/// Seals a message: the plaintext in `input`, two bytes to a word, each word under its mask. The wire words go to the front of `output`, the tag
/// to `tag`.
///
/// Refuses, in this order, an input of an odd number of bytes or of more than [`LONGEST`](crate::LONGEST), masks of another length, an output
/// shorter than the input, and a buffer for the tag that has not 16 bytes; then nothing is changed. The nonce is used up all the same.
pub fn seal<K: KeyedFunction, C: Coefficient>(
    f: &mut K,
    a: &C,
    nonce: Nonce,
    masks: &[u8],
    input: &[u8],
    output: &mut [u8],
    tag: &mut [u8],
) -> Result<(), Fault>
    ensures outcome { Asked K.KeyedFunction f.old f.new (λ g. left_by_seal result output.new tag.new ≡ seal_outcome g (C.image a.now) (nonce_bytes nonce) masks.now input.now output.old tag.old) }
    ensures refused { SealsOrRefuses (seal_fault masks.now input.now output.old tag.old) result ((output.new ≡ output.old) × (tag.new ≡ tag.old) × (f.new ≡ f.old)) }
    ensures rest { drop (length input.now) output.new ≡ drop (length input.now) output.old }
    ensures like_sealer { Asked K.KeyedFunction f.old f.new (λ g. LikeSealer g (C.image a.now) nonce masks.now input.now result output.new tag.new) }
{
    check_lengths(masks, input, output, tag)?;
    seal_fitting(f, a, &nonce.bytes(), masks, input, output, tag);
    Ok(())
}

/// Seals a message whose lengths fit.
fn seal_fitting<K: KeyedFunction, C: Coefficient>(
    f: &mut K,
    a: &C,
    nonce: &[u8],
    masks: &[u8],
    input: &[u8],
    output: &mut [u8],
    tag: &mut [u8],
)
    requires nonce { NonceFits nonce.now }
    requires lengths { LengthsFit (length masks.now) (length input.now) (length output.old) (length tag.old) }
    ensures rest { drop (length input.now) output.new ≡ drop (length input.now) output.old }
    ensures sealed { Asked K.KeyedFunction f.old f.new (λ g. (output.new ≡ written_over (wire_bytes g (C.image a.now) nonce.now masks.now input.now) output.old) × (tag.new ≡ sealed_tag g (C.image a.now) nonce.now masks.now input.now)) }
{
    let wire = &mut output[..input.len()];
    wire.copy_from_slice(input);
    let drawn = pass_message::<Sealing, K, C>(f, a, nonce, masks, wire);
    tag.copy_from_slice(&drawn);
}
