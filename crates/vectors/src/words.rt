//! Bytes as words.
ghost use Rattle.std.specs.Prelude.{MatchResult};
ghost use Rattle.vectors.specs.Fields.{Pairs, NotPaired};

use crate::flaw::Flaw;
use std::alloc::Global;

/// The words that bytes make, two bytes to a word, the low one first.
pub(crate) fn from_bytes(heap: Global, bytes: &[u8]) -> Result<Vec<u16>, Flaw>
    ensures value { MatchResult result (λ v. Pairs bytes.now v.items) (NotPaired bytes.now) }
{
    let (pairs, []) = bytes.as_chunks::<2>() else {
        return Err(Flaw::OddBytes);
    };
    let words = pairs
        .iter()
        .map(|pair| u16::from_le_bytes(*pair))
        .collect(heap)?;
    Ok(words)
}
