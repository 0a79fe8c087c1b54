//! Seventeen words that shift by one as a word enters.
ghost use Rattle.std.specs.Prelude.{◌≡◌, ◌<◌, [], ◌∷◌, ◌++◌, drop, replicate, slice_index, slice_set};

use std::marker::{Model, PhantomData};

/// The role of the register that the keyed function steps and reads the keystream from.
#[derive(Clone, Copy)]
pub struct Cipher;

/// The role of the register that gathers, bit by bit, whichever of plaintext and ciphertext is not on the wire.
#[derive(Clone, Copy)]
pub struct Check;

/// The cipher register r[0] to r[16].
pub type CipherRegister = Register<Cipher>;

/// The check register c[0] to c[16].
pub type CheckRegister = Register<Check>;

/// Seventeen words, the oldest first, in the role `R`.
///
/// The newest is kept apart, where the next step finds it at once. The sixteen older ones are a window on a longer buffer, so that a shift moves the
/// window and not the words. At the buffer's end the window is copied to its front.
// The memory is fixed, and a library's queue would keep its words apart from one another or on the heap: so a buffer with a place beside it.
// The buffer is one word longer than the window reaches: so the compiler sees that no word is written over the fields behind it.
#[derive(Drop)]
pub struct Register<R> {
    buffer: [u16; 272],
    start: u8,
    newest: u16,
    role: PhantomData<R>,
}

impl<R> Model for Register<R> {
    ghost use Rattle.std.specs.Prelude.{ℕ, List, [], ◌∷◌, ◌++◌, take, drop};

    ghost Value = { List ℕ };

    ghost view = { λ s. take 16 (drop s.start s.buffer) ++ s.newest ∷ [] };
}

impl<R> Register<R> {
    /// A register of zeros.
    pub fn new() -> Self
        ensures { result ≡ replicate 17 0 }
    {
        Register::from_words([0; 17])
    }

    /// A register that holds these words, the oldest first.
    pub fn from_words(words: [u16; 17]) -> Self
        ensures { result ≡ words }
    {
        let mut buffer = [0; 272];
        buffer[..16].copy_from_slice(&words[..16]);
        Register {
            buffer,
            start: 0,
            newest: words[16],
            role: PhantomData,
        }
    }

    /// The words of the register, the oldest first.
    pub fn words(&self) -> [u16; 17]
        ensures { result ≡ self.now }
    {
        let start = usize::from(self.start);
        let mut words = [self.newest; 17];
        words[..16].copy_from_slice(&self.buffer[start..start + 16]);
        words
    }

    /// The word at place `i`; the oldest is at 0.
    pub(crate) fn at(&self, i: usize) -> u16
        requires { i < 17 }
        ensures { result ≡ slice_index self.now i }
    {
        if i == 16 {
            return self.newest;
        }
        self.buffer[usize::from(self.start) + i]
    }

    /// Writes the word at place `i`.
    pub(crate) fn put(&mut self, i: usize, word: u16)
        requires { i < 17 }
        ensures { self.new ≡ slice_set self.old i word }
    {
        if i == 16 {
            self.newest = word;
        } else {
            self.buffer[usize::from(self.start) + i] = word;
        }
    }

    /// The oldest word leaves, all others move down by one place, and `word` enters at 16.
    pub(crate) fn push(&mut self, word: u16)
        ensures { self.new ≡ drop 1 self.old ++ word ∷ [] }
    {
        if self.start == u8::MAX {
            self.buffer.copy_within(255..271, 0);
            self.start = 0;
        }
        self.buffer[usize::from(self.start) + 16] = self.newest;
        self.start += 1;
        self.newest = word;
    }
}
