//! The two ways in which a message passes the registers: sealing and opening.
ghost use Rattle.std.specs.Prelude.{◌≡◌, ℕ, List};
ghost use Rattle.sss.specs.Asked.{Asked};
ghost use Rattle.sss.specs.Cipher.{BothRegisters, all_taken, plain_words, wire_words};
ghost use Rattle.sss.specs.Directions.{Passes, after_opening, after_sealing, opened_text, sealed_text};
ghost use Rattle.sss.specs.Witnesses.{opening_passes, sealing_passes};
ghost use Rattle.sss.specs.declared.message.MaskedWord.{MaskedWord};

use crate::coefficient::Coefficient;
use crate::keyed::KeyedFunction;
use crate::message::MaskedWord;
use crate::registers::Registers;

/// Which way a message passes the registers.
pub trait Direction {
    /// The text that a word becomes.
    ghost text: { (ℕ → ℕ) → BothRegisters → MaskedWord → ℕ };

    /// Both registers after a word.
    ghost after: { (ℕ → ℕ) → (ℕ → ℕ) → BothRegisters → MaskedWord → BothRegisters };

    /// What the words of a message become.
    ghost words: { (ℕ → ℕ) → (ℕ → ℕ) → BothRegisters → List MaskedWord → List MaskedWord };

    /// Both registers after the words of a message.
    ghost last: { (ℕ → ℕ) → (ℕ → ℕ) → BothRegisters → List MaskedWord → BothRegisters };

    /// Takes a word into both registers, and answers the text that it becomes.
    fn pass<K: KeyedFunction, C: Coefficient>(
        registers: &mut Registers,
        f: &mut K,
        a: &C,
        word: MaskedWord,
    ) -> u16
        ensures { Asked K.KeyedFunction f.old f.new (λ g. (result ≡ text g registers.old word) × (registers.new ≡ after g (C.image a.now) registers.old word)) };

    /// A message is passed word by word.
    ghost word_by_word: { (f A : ℕ → ℕ) → Passes (text f) (after f A) (words f A) (last f A) };
}

/// From plaintext to the wire.
pub struct Sealing;

impl Direction for Sealing {
    ghost text = { sealed_text };

    ghost after = { after_sealing };

    ghost words = { wire_words };

    ghost last = { all_taken };

    ghost word_by_word = { sealing_passes };

    fn pass<K: KeyedFunction, C: Coefficient>(
        registers: &mut Registers,
        f: &mut K,
        a: &C,
        word: MaskedWord,
    ) -> u16 {
        registers.seal_word(f, a, word.mask, word.text)
    }
}

/// From the wire to plaintext.
pub struct Opening;

impl Direction for Opening {
    ghost text = { opened_text };

    ghost after = { after_opening };

    ghost words = { plain_words };

    ghost last = { λ f A g ms. all_taken f A g (plain_words f A g ms) };

    ghost word_by_word = { opening_passes };

    fn pass<K: KeyedFunction, C: Coefficient>(
        registers: &mut Registers,
        f: &mut K,
        a: &C,
        word: MaskedWord,
    ) -> u16 {
        registers.open_word(f, a, word.mask, word.text)
    }
}
