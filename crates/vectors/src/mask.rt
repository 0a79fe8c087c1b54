//! How many words have a mask of a kind.
ghost use Rattle.std.specs.Prelude.{◌≡◌, count_by};
ghost use Rattle.vectors.specs.Masks.{mask_is};

use sss::{MaskKind, MaskedWord};

/// How many words have a mask of this kind.
pub(crate) fn count(kind: MaskKind, words: &[MaskedWord]) -> usize
    ensures { result ≡ count_by (mask_is kind) words.now }
{
    words
        .iter()
        .filter(|word| MaskKind::of(word.mask) == kind)
        .count()
}
