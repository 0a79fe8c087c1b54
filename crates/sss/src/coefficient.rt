//! The coefficient of the check register, as an interface.
ghost use Rattle.std.specs.Prelude.{◌≡◌, ℕ};
ghost use Rattle.sss.specs.Cipher.{OneToOne};

/// A one-to-one map on words.
pub trait Coefficient {
    /// The image of each word.
    ghost image: { Self → ℕ → ℕ };

    /// The image of a word.
    fn multiply(&self, a: u16) -> u16
        ensures { result ≡ image self.now a };

    ghost lawful: { (a : Self) → OneToOne (image a) };
}
