//! The keyed function of the cipher, as an interface.
ghost use Rattle.std.specs.Prelude.{◌≡◌, ℕ, List};
ghost use Rattle.sss.specs.Cipher.{Lawful, keyed};
ghost use Rattle.sss.specs.Kept.{Kept};

/// A one-to-one function on words, by a table of 256 words: `S[high byte of a] ⊕ a`.
pub trait KeyedFunction {
    /// The table that the function means.
    ghost table: { Self → List ℕ };

    /// Whether the function answers by its table.
    ghost sound: { Self → Type 0 };

    /// The image of a word.
    fn apply(&mut self, a: u16) -> u16
        ensures value { sound self.old → result ≡ keyed (table self.old) a }
        ensures kept { Kept (table self.old) (sound self.old) (table self.new) (sound self.new) };

    ghost lawful: { (k : Self) → sound k → Lawful (table k) };
}
