//! Words in lower-case hex.
ghost use Rattle.std.specs.Prelude.{Some};
ghost use Rattle.sss.specs.Bytes.{hex_of_word};
ghost use Rattle.weld.specs.Texts.{words_text};

use std::fmt;

/// A word to print in four digits.
#[derive(Clone, Copy)]
pub struct HexWord(pub u16);

impl fmt::Display for HexWord {
    ghost output = { λ word. Some (hex_of_word word.0) };

    #[tactic(auto, using(std::proofs::lemmas::Fmt::hex_byte))]
    fn fmt<W: fmt::Write>(&self, f: &mut fmt::Formatter<W>) -> fmt::Result {
        let [high, low] = self.0.to_be_bytes();
        write!(f, "{high:02x}{low:02x}")
    }
}

/// Words to print, a blank before each.
#[derive(Clone, Copy)]
pub struct HexWords<'a>(pub &'a [u16]);

impl fmt::Display for HexWords<'_> {
    ghost output = { λ words. Some (words_text words.0.now) };

    fn fmt<W: fmt::Write>(&self, f: &mut fmt::Formatter<W>) -> fmt::Result {
        for word in self.0 {
            write!(f, " {}", HexWord(*word))?;
        }
        Ok(())
    }
}
