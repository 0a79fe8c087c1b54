//! Bytes and tags as they are printed.
ghost use Rattle.std.specs.Prelude.{Some, false, ◌/◌, ◌%◌, [], ◌∷◌};
ghost use Rattle.std.specs.Fmt.{digit_glyph};
ghost use Rattle.sss.specs.Bytes.{bytes_of_words};
ghost use Rattle.fields.specs.Texts.{hex_text};

use std::fmt;

/// Bytes to print in lower-case hex, `-` for none.
#[derive(Clone, Copy)]
pub struct Hex<'a>(pub &'a [u8]);

impl fmt::Display for Hex<'_> {
    ghost output = { λ hex. Some (hex_text hex.0.now) };

    fn fmt<W: fmt::Write>(&self, f: &mut fmt::Formatter<W>) -> fmt::Result {
        if self.0.is_empty() {
            return write!(f, "-");
        }
        for byte in self.0 {
            write!(f, "{}", HexByte(*byte))?;
        }
        Ok(())
    }
}

/// A byte to print in two digits.
#[derive(Clone, Copy)]
struct HexByte(u8);

impl fmt::Display for HexByte {
    ghost output = { λ byte. Some (digit_glyph false (byte.0 / 16) ∷ digit_glyph false (byte.0 % 16) ∷ []) };

    #[tactic(auto, using(std::proofs::lemmas::Fmt::hex_byte))]
    fn fmt<W: fmt::Write>(&self, f: &mut fmt::Formatter<W>) -> fmt::Result {
        let byte = self.0;
        write!(f, "{byte:02x}")
    }
}

/// A tag to print, each word with its low byte first.
#[derive(Clone, Copy)]
pub struct Tag(pub [u16; 8]);

impl fmt::Display for Tag {
    ghost output = { λ tag. Some (hex_text (bytes_of_words tag.0)) };

    fn fmt<W: fmt::Write>(&self, f: &mut fmt::Formatter<W>) -> fmt::Result {
        let bytes = sss::bytes_of_tag(self.0);
        let hex = Hex(&bytes);
        write!(f, "{hex}")
    }
}
