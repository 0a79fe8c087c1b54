//! The commands of a tape.
ghost use Rattle.std.specs.Prelude.{◌≡◌, ◌≤◌, ◌∷◌, length};
ghost use Rattle.std.specs.List.{AllByRecursion as Every};
ghost use Rattle.sss.specs.Cipher.{Word};
ghost use Rattle.sss.specs.Bytes.{bytes_of_words};
ghost use Rattle.tape.specs.Format.{Fits, bytes_of};

use arrayvec::ArrayVec;

/// A command, as it is written.
#[derive(Clone, Copy, PartialEq, Eq, Debug)]
pub enum Command {
    /// A message begins, with this nonce.
    Nonce([u8; 6]),
    /// A wire word under the mask 0xFFFF.
    Sealed(u16),
    /// A wire word under the mask 0.
    Open(u16),
    /// A wire word under a mask of its own.
    Part { mask: u16, wire: u16 },
    /// Words were lost.
    Break,
    /// A message ends, with this tag.
    Tag([u16; 8]),
}

/// The byte of a nonce command.
pub(crate) const NONCE: u8 = 0x4E;
/// The byte of a sealed word's command.
pub(crate) const SEALED: u8 = 0x53;
/// The byte of an open word's command.
pub(crate) const OPEN: u8 = 0x4F;
/// The byte of a part word's command.
pub(crate) const PART: u8 = 0x50;
/// The byte of a break command.
pub(crate) const BREAK: u8 = 0x42;
/// The byte of a tag command.
pub(crate) const TAG: u8 = 0x54;

impl Command {
    /// The command byte and the operands, as they stand on a tape.
    pub fn bytes(&self) -> ArrayVec<u8, 17>
        ensures bytes { result.items ≡ bytes_of self.now }
        ensures fits { Fits self.now }
    {
        match self {
            Command::Nonce(nonce) => with_bytes(NONCE, nonce),
            Command::Sealed(wire) => with_words(SEALED, &[*wire]),
            Command::Open(wire) => with_words(OPEN, &[*wire]),
            Command::Part { mask, wire } => with_words(PART, &[*mask, *wire]),
            Command::Break => with_words(BREAK, &[]),
            Command::Tag(words) => with_words(TAG, words),
        }
    }
}

/// A command byte and operands that are bytes.
fn with_bytes(command: u8, operands: &[u8]) -> ArrayVec<u8, 17>
    requires { length operands.now ≤ 16 }
    ensures { result.items ≡ command ∷ operands.now }
{
    let mut bytes = ArrayVec::new();
    bytes.push(command);
    for operand in operands {
        bytes.push(*operand);
    }
    bytes
}

/// A command byte and operands that are words, the low byte of each first.
fn with_words(command: u8, operands: &[u16]) -> ArrayVec<u8, 17>
    requires { length operands.now ≤ 8 }
    ensures bytes { result.items ≡ command ∷ bytes_of_words operands.now }
    ensures words { Every Word operands.now }
{
    let mut bytes = ArrayVec::new();
    bytes.push(command);
    for operand in operands {
        let [low, high] = operand.to_le_bytes();
        bytes.push(low);
        bytes.push(high);
    }
    bytes
}
