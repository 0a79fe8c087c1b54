//! A key, and its table entry by entry.
ghost use Rattle.std.specs.Prelude.{◌≡◌, [], MatchResult};
ghost use Rattle.sss.specs.Cipher.{KeyFits, Lawful, key_entry, key_table};

use crate::tables::{qbox, skipjack};
use arrayvec::ArrayVec;
use sss::Fault;

/// The bytes of a key of 1 to 16 bytes, or no bytes where no key is loaded. Its table keeps the law of a keyed function.
#[derive(Drop)]
pub(crate) struct Key {
    bytes: ArrayVec<u8, 16>,
    ghost lawful: { Lawful (key_table bytes.items) },
}

impl TryFrom<&[u8]> for Key {
    ghost use Rattle.sss.specs.declared.Fault.TheVariants.{Key as UnfitKey};

    type Error = Fault;

    ghost try_from_gives = { λ s r. MatchResult r (λ key. KeyFits s.now × (key.bytes.items ≡ s.now)) (λ e. (KeyFits s.now → ⊥) × (e ≡ UnfitKey)) };

    /// A key has 1 to 16 bytes.
    fn try_from(bytes: &[u8]) -> Result<Self, Fault> {
        if bytes.is_empty() {
            return Err(Fault::Key);
        }
        let bytes = ArrayVec::try_from(bytes).map_err(|_| Fault::Key)?;
        Ok(Key { bytes })
    }
}

impl Key {
    /// No key.
    pub(crate) fn none() -> Self
        ensures { result.bytes.items ≡ [] }
    {
        Key {
            bytes: ArrayVec::new(),
        }
    }

    /// The entry at `x` of the table of this key.
    pub(crate) fn entry(&self, x: u8) -> u16
        ensures { result ≡ key_entry self.now.bytes.items x }
    {
        // A fold over both values at once is no plainer: each new word is read by the new byte.
        let mut byte = x;
        let mut word = 0u16;
        for (i, k) in self.bytes.as_slice().iter().enumerate() {
            byte = skipjack(byte ^ *k);
            word ^= qbox(byte).rotate_left(i as u32);
        }
        let [low, _] = word.to_le_bytes();
        u16::from_le_bytes([low, byte ^ x])
    }

    /// The table of this key.
    pub(crate) fn entries(&self) -> [u16; 256]
        ensures { result ≡ key_table self.now.bytes.items }
    {
        std::array::from_fn(|x| self.entry(x as u8))
    }
}
