//! Opening a whole message.
ghost use Rattle.std.specs.Prelude.{◌≡◌, ◌≢◌, ◌%◌, length, drop, replicate, MatchResult, OnErr, IfErr};
ghost use Rattle.sss.specs.Asked.{Asked};
ghost use Rattle.sss.specs.Cipher.{NonceFits};
ghost use Rattle.message.specs.Buffers.{written_over, due_tag, plain_bytes};
ghost use Rattle.message.specs.Checks.{LengthsFit, open_fault};
ghost use Rattle.message.specs.Laws.{OpenLaws};
ghost use Rattle.message.specs.Outcomes.{OpensOrRefuses, left_by_open, open_outcome, tag_outcome};

use crate::checks::check_opening;
use crate::passing::pass_message;
use crate::unconfirmed::Unconfirmed;
use sss::{Coefficient, Fault, KeyedFunction, Opening};

/// Opens a message: the wire words in `input`, two bytes to a word, each word under its mask. Where `tag` is the one due, the plaintext goes to the
/// front of `output`. Any other tag is refused, and then `output` is zero over the input's length.
///
/// Refuses before that, in this order, a nonce of an odd number of bytes or of more than 32, an input of an odd number of bytes or of more than
/// [`LONGEST`](crate::LONGEST), masks of another length, an output shorter than the input, and a tag that has not 16 bytes; then nothing is changed.
pub fn open<K: KeyedFunction, C: Coefficient>(
    f: &mut K,
    a: &C,
    nonce: &[u8],
    masks: &[u8],
    input: &[u8],
    output: &mut [u8],
    tag: &[u8],
) -> Result<(), Fault>
    ensures outcome { Asked K.KeyedFunction f.old f.new (λ g. left_by_open result output.new ≡ open_outcome g (C.image a.now) nonce.now masks.now input.now output.old tag.now) }
    ensures refused { OpensOrRefuses (open_fault nonce.now masks.now input.now output.old tag.now) result ((output.new ≡ output.old) × (f.new ≡ f.old)) (output.new ≡ written_over (replicate (length input.now) 0) output.old) }
    ensures rest { drop (length input.now) output.new ≡ drop (length input.now) output.old }
    ensures laws { Asked K.KeyedFunction f.old f.new (λ g. OpenLaws g (C.image a.now) nonce.now masks.now input.now output.old tag.now result output.new) }
{
    check_opening(nonce, masks, input, output, tag)?;
    open_fitting(f, a, nonce, masks, input, output, tag)
}

/// Opens a message whose nonce and lengths fit.
fn open_fitting<K: KeyedFunction, C: Coefficient>(
    f: &mut K,
    a: &C,
    nonce: &[u8],
    masks: &[u8],
    input: &[u8],
    output: &mut [u8],
    tag: &[u8],
) -> Result<(), Fault>
    requires nonce { NonceFits nonce.now }
    requires lengths { LengthsFit (length masks.now) (length input.now) (length output.old) (length tag.now) }
    ensures rest { drop (length input.now) output.new ≡ drop (length input.now) output.old }
    ensures wiped { OnErr result (output.new ≡ written_over (replicate (length input.now) 0) output.old) }
    ensures fault { IfErr result (λ fault. fault ≡ Fault.TagDiffers) }
    ensures opened { Asked K.KeyedFunction f.old f.new (λ g. left_by_open result output.new ≡ tag_outcome g (C.image a.now) nonce.now masks.now input.now output.old tag.now) }
{
    open_into(f, a, nonce, masks, input, &mut output[..input.len()], tag)
}

/// Opens a message into bytes that are just as many. Where the tag is not the one due, nothing but zeros is left there.
fn open_into<K: KeyedFunction, C: Coefficient>(
    f: &mut K,
    a: &C,
    nonce: &[u8],
    masks: &[u8],
    input: &[u8],
    bytes: &mut [u8],
    tag: &[u8],
) -> Result<(), Fault>
    requires nonce { NonceFits nonce.now }
    requires masks { length masks.now ≡ length input.now }
    requires bytes { length bytes.old ≡ length input.now }
    requires even { length input.now % 2 ≡ 0 }
    ensures wiped { OnErr result (bytes.new ≡ replicate (length input.now) 0) }
    ensures fault { IfErr result (λ fault. fault ≡ Fault.TagDiffers) }
    ensures opened { Asked K.KeyedFunction f.old f.new (λ g. MatchResult result (λ _. (tag.now ≡ due_tag g (C.image a.now) nonce.now masks.now input.now) × (bytes.new ≡ plain_bytes g (C.image a.now) nonce.now masks.now input.now)) (λ _. tag.now ≢ due_tag g (C.image a.now) nonce.now masks.now input.now)) }
{
    let mut plain = Unconfirmed::new(bytes);
    plain.bytes.copy_from_slice(input);
    let due = pass_message::<Opening, K, C>(f, a, nonce, masks, plain.bytes);
    if due.as_slice() != tag {
        return Err(Fault::TagDiffers);
    }
    plain.confirm();
    Ok(())
}
