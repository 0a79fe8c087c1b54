//! The parts of a tape that commands are read from.
ghost use Rattle.std.specs.Prelude.{◌≡◌, ◌<◌, ◌+◌, ◌*◌, slice_index, MatchResult, length, take, drop};
ghost use Rattle.sss.specs.Cipher.{words_of};
ghost use Rattle.sss.specs.Bytes.{Octets};

use crate::command::{BREAK, NONCE, OPEN, PART, SEALED, TAG};
use sss::{Fault, tag_of_bytes};

/// The part of a tape that one command was read from: its command byte, which is `COMMAND`, and its operands, `SIZE` bytes together.
#[derive(Clone, Copy, PartialEq, Eq, Debug)]
pub struct Piece<'a, const COMMAND: u8, const SIZE: usize> {
    place: usize,
    bytes: &'a [u8],
    ghost command: { slice_index bytes.now 0 ≡ COMMAND },
    ghost size: { length bytes.now ≡ SIZE },
    ghost octets: { Octets bytes.now },
}

impl<'a, const COMMAND: u8, const SIZE: usize> Piece<'a, COMMAND, SIZE> {
    /// The piece at the front of what is left of a tape from this place on, which begins with the command byte. Refuses where it is cut off.
    pub(crate) fn at(place: usize, rest: &'a [u8]) -> Result<Self, Fault>
        requires command { slice_index rest.now 0 ≡ COMMAND }
        requires size { 0 < SIZE }
        ensures { MatchResult result (λ piece. (piece.place ≡ place) × (piece.bytes.now ≡ take SIZE rest.now)) (λ fault. (fault ≡ Fault.CutOff place) × (length rest.now < SIZE)) }
    {
        let Some(bytes) = rest.get(..SIZE) else {
            return Err(Fault::CutOff(place));
        };
        Ok(Piece { place, bytes })
    }

    /// The offset of the command byte on the tape.
    pub fn place(&self) -> usize
        ensures { result ≡ self.now.place }
    {
        self.place
    }

    /// The command byte and the operands, as they stand on the tape.
    pub fn bytes(&self) -> &'a [u8]
        ensures { result.now ≡ self.now.bytes.now }
    {
        self.bytes
    }

    /// The word with this number among the operands.
    #[tactic(auto, using(crate::proofs::Operands::operand_at))]
    pub(crate) fn word(&self, i: usize) -> u16
        requires { 2 * i + 2 < SIZE }
        ensures { result ≡ slice_index (words_of (drop 1 self.now.bytes.now)) i }
    {
        u16::from_le_bytes([self.bytes[1 + 2 * i], self.bytes[2 + 2 * i]])
    }
}

/// A nonce on a tape.
pub type NonceItem<'a> = Piece<'a, NONCE, 7>;

/// A sealed word on a tape.
pub type SealedItem<'a> = Piece<'a, SEALED, 3>;

/// An open word on a tape.
pub type OpenItem<'a> = Piece<'a, OPEN, 3>;

/// A part word on a tape.
pub type PartItem<'a> = Piece<'a, PART, 5>;

/// A break on a tape.
pub type BreakItem<'a> = Piece<'a, BREAK, 1>;

/// A tag on a tape.
pub type TagItem<'a> = Piece<'a, TAG, 17>;

impl NonceItem<'_> {
    /// The six bytes of the nonce.
    pub fn nonce(&self) -> [u8; 6]
        ensures { result ≡ drop 1 self.now.bytes.now }
    {
        std::array::from_fn(|i| self.bytes[1 + i])
    }
}

impl TagItem<'_> {
    /// The eight words of the tag.
    pub fn tag(&self) -> [u16; 8]
        ensures { result ≡ words_of (drop 1 self.now.bytes.now) }
    {
        // Sixteen bytes stand behind the command byte, so this is proved not to stop.
        tag_of_bytes(self.bytes.last_chunk().unwrap())
    }
}
