//! A tag as bytes and as words.
ghost use Rattle.std.specs.Prelude.{◌≡◌};
ghost use Rattle.sss.specs.Bytes.{bytes_of_words};
ghost use Rattle.sss.specs.Cipher.{words_of};

/// The words of a tag by its bytes, the low byte of each word first.
pub fn tag_of_bytes(bytes: &[u8; 16]) -> [u16; 8]
    ensures { result ≡ words_of bytes.now }
{
    std::array::from_fn(|i| u16::from_le_bytes([bytes[2 * i], bytes[2 * i + 1]]))
}

/// The bytes of a tag by its words, the low byte of each word first.
pub fn bytes_of_tag(words: [u16; 8]) -> [u8; 16]
    ensures { result ≡ bytes_of_words words }
{
    let pairs = words.map(u16::to_le_bytes);
    let mut bytes = [0; 16];
    bytes.copy_from_slice(pairs.as_flattened());
    bytes
}
