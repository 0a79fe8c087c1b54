//! The words of a message, as bytes in a lent buffer, passed through registers of their own.
ghost use Rattle.std.specs.Prelude.{◌≡◌, ◌%◌, length};
ghost use Rattle.sss.specs.Asked.{Asked};
ghost use Rattle.sss.specs.Bytes.{Octets, bytes_of_words};
ghost use Rattle.sss.specs.Cipher.{NonceFits, begun, tag};
ghost use Rattle.message.specs.Buffers.{text_bytes, words_under};

use sss::{Coefficient, Direction, KeyedFunction, MaskedWord, Registers, bytes_of_tag};

/// Passes a message through new registers, each word under its mask, and puts what the words become in their place. Answers the bytes of its tag.
pub(crate) fn pass_message<D: Direction, K: KeyedFunction, C: Coefficient>(
    f: &mut K,
    a: &C,
    nonce: &[u8],
    masks: &[u8],
    bytes: &mut [u8],
) -> [u8; 16]
    requires nonce { NonceFits nonce.now }
    requires long { length masks.now ≡ length bytes.old }
    requires even { length bytes.old % 2 ≡ 0 }
    requires octets { Octets bytes.old }
    ensures { Asked K.KeyedFunction f.old f.new (λ g. (bytes.new ≡ text_bytes (D.words g (C.image a.now) (begun g (C.image a.now) nonce.now) (words_under masks.now bytes.old))) × (result ≡ bytes_of_words (tag g (D.last g (C.image a.now) (begun g (C.image a.now) nonce.now) (words_under masks.now bytes.old))))) }
{
    let mut registers = Registers::new();
    // A nonce that fits is never refused, so this is proved not to stop.
    registers.begin(f, a, nonce).unwrap();
    pass_bytes::<D, K, C>(&mut registers, f, a, masks, bytes);
    bytes_of_tag(registers.close(f))
}

/// Takes the words of a buffer into both registers, each under its mask, and puts what they become in their place.
fn pass_bytes<D: Direction, K: KeyedFunction, C: Coefficient>(
    registers: &mut Registers,
    f: &mut K,
    a: &C,
    masks: &[u8],
    bytes: &mut [u8],
)
    requires long { length masks.now ≡ length bytes.old }
    requires even { length bytes.old % 2 ≡ 0 }
    requires octets { Octets bytes.old }
    ensures { Asked K.KeyedFunction f.old f.new (λ g. (bytes.new ≡ text_bytes (D.words g (C.image a.now) registers.old (words_under masks.now bytes.old))) × (registers.new ≡ D.last g (C.image a.now) registers.old (words_under masks.now bytes.old))) }
{
    // By index: of pairs lent out by `as_chunks_mut` no contract tells what becomes of the buffer.
    for i in 0..masks.len() / 2 {
        let word = MaskedWord {
            mask: u16::from_le_bytes([masks[2 * i], masks[2 * i + 1]]),
            text: u16::from_le_bytes([bytes[2 * i], bytes[2 * i + 1]]),
        };
        let [low, high] = D::pass(registers, f, a, word).to_le_bytes();
        bytes[2 * i] = low;
        bytes[2 * i + 1] = high;
    }
}
