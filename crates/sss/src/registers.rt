//! A message's core: both registers, begun with a nonce, fed word by word, and closed with a tag.
ghost use Rattle.std.specs.Prelude.{◌≡◌, reverse, bit_xor, MatchResult};
ghost use Rattle.sss.specs.Asked.{Asked};
ghost use Rattle.sss.specs.Cipher.{NonceFits, begun, closed, plain_word, tag, taken, wire_word, words_of, zeroed};
ghost use Rattle.sss.specs.Cipher.{all_fed, check_step, mactext, nonce_taken, nonces_taken, open_zeros, sealed_mask, step};
ghost use Rattle.sss.specs.Laws.{MactextFromWire, WordBack};
ghost use Rattle.sss.specs.Outcomes.{TakesNonce};

use crate::coefficient::Coefficient;
use crate::fault::Fault;
use crate::keyed::KeyedFunction;
use crate::mask::{OPEN, SEALED};
use crate::register::{CheckRegister, CipherRegister, Register};
use std::marker::Model;

/// The cipher register and the check register of one message.
#[derive(Drop)]
pub struct Registers {
    cipher: CipherRegister,
    check: CheckRegister,
}

impl Model for Registers {
    ghost use Rattle.sss.specs.Cipher.{BothRegisters};

    ghost Value = { BothRegisters };

    ghost view = { λ s. record { r = s.cipher; c = s.check } };
}

/// Refuses a nonce of an odd number of bytes or of more than 32.
pub fn refuse_unfit_nonce(nonce: &[u8]) -> Result<(), Fault>
    ensures { MatchResult result (λ _. NonceFits nonce.now) (λ fault. (NonceFits nonce.now → ⊥) × (fault ≡ Fault.Nonce)) }
{
    if nonce.len() % 2 != 0 || nonce.len() > 32 {
        return Err(Fault::Nonce);
    }
    Ok(())
}

// The keyed function and the coefficient come to each call as two references. In one struct of references (tried) the proof no longer knew the
// function after the loan; in one struct of values a caller would have to give both up.
impl Registers {
    /// Both registers zero.
    #[tactic(auto, unfolding(crate::specs::Cipher::zeroed))]
    pub fn new() -> Self
        ensures { result ≡ zeroed }
    {
        Registers {
            cipher: Register::new(),
            check: Register::new(),
        }
    }

    /// Registers that hold these words, r[0] and c[0] first.
    pub fn from_words(cipher: [u16; 17], check: [u16; 17]) -> Self
        ensures { result ≡ record { r = cipher; c = check } }
    {
        Registers {
            cipher: Register::from_words(cipher),
            check: Register::from_words(check),
        }
    }

    /// Sets both registers to zero.
    pub fn reset(&mut self)
        ensures { self.new ≡ zeroed }
    {
        *self = Registers::new();
    }

    /// The words of the cipher register, r[0] first.
    pub fn cipher_words(&self) -> [u16; 17]
        ensures { result ≡ self.now.r }
    {
        self.cipher.words()
    }

    /// The words of the check register, c[0] first.
    pub fn check_words(&self) -> [u16; 17]
        ensures { result ≡ self.now.c }
    {
        self.check.words()
    }

    /// Begins a message: both registers zero, each nonce word in turn, then seventeen open zeros. A nonce of an odd number of bytes or of
    /// more than 32 is refused, and nothing is changed.
    #[tactic(auto, using(crate::proofs::Asked::asked_then), unfolding(crate::specs::Cipher::begun))]
    pub fn begin<K: KeyedFunction, C: Coefficient>(
        &mut self,
        f: &mut K,
        a: &C,
        nonce: &[u8],
    ) -> Result<(), Fault>
        ensures { TakesNonce nonce.now (λ _. Asked K.KeyedFunction f.old f.new (λ g. self.new ≡ begun g (C.image a.now) nonce.now)) ((self.new ≡ self.old) × (f.new ≡ f.old)) result }
    {
        refuse_unfit_nonce(nonce)?;
        self.reset();
        self.take_nonce(f, a, nonce);
        self.take_open_zeros(f, a);
        Ok(())
    }

    /// Takes a plaintext word under its mask into both registers, and answers its wire word.
    #[inline(always)]
    #[tactic(auto, using(crate::proofs::Asked::asked_then, crate::proofs::Words::mactext_is), unfolding(crate::specs::Cipher::taken, crate::specs::Cipher::wire_word, crate::specs::Cipher::masked, crate::specs::Cipher::ciphertext))]
    pub fn seal_word<K: KeyedFunction, C: Coefficient>(
        &mut self,
        f: &mut K,
        a: &C,
        mask: u16,
        plain: u16,
    ) -> u16
        ensures { Asked K.KeyedFunction f.old f.new (λ g. (result ≡ wire_word g self.old mask plain) × (self.new ≡ taken g (C.image a.now) self.old mask plain) × MactextFromWire g self.old mask plain result) }
    {
        let v = self.cipher.keystream(f);
        self.absorb(f, a, v, mask, plain);
        plain ^ (mask & v)
    }

    /// Takes a wire word under its mask into both registers, and answers its plaintext word.
    // No twin of the one above: the word that is absorbed is another, and so is the law. Through `Direction` the two would be longer.
    #[inline(always)]
    pub fn open_word<K: KeyedFunction, C: Coefficient>(
        &mut self,
        f: &mut K,
        a: &C,
        mask: u16,
        wire: u16,
    ) -> u16
        ensures { Asked K.KeyedFunction f.old f.new (λ g. (result ≡ plain_word g self.old mask wire) × (self.new ≡ taken g (C.image a.now) self.old mask (plain_word g self.old mask wire)) × WordBack g (C.image a.now) self.old mask wire result self.new) }
    {
        if mask == SEALED {
            self.open_sealed_word(f, a, wire)
        } else {
            self.open_masked_word(f, a, mask, wire)
        }
    }

    /// Closes the message and draws its tag: 0 is fed in, then c[16] down to c[0], then eight zeros, which are sealed to the tag.
    pub fn close<K: KeyedFunction>(&mut self, f: &mut K) -> [u16; 8]
        ensures asked { Asked K.KeyedFunction f.old f.new (λ g. (result ≡ tag g self.old) × (self.new ≡ closed g self.old)) }
        ensures check { self.new.c ≡ self.old.c }
    {
        let _ = self.cipher.feed(f, 0);
        self.feed_check(f);
        self.cipher.draw(f)
    }

    /// Opens a sealed word. The cipher register steps with it as it came, so that the steps need not wait for the keystream.
    #[inline(always)]
    fn open_sealed_word<K: KeyedFunction, C: Coefficient>(
        &mut self,
        f: &mut K,
        a: &C,
        wire: u16,
    ) -> u16
        ensures { Asked K.KeyedFunction f.old f.new (λ g. (result ≡ plain_word g self.old sealed_mask wire) × (self.new ≡ taken g (C.image a.now) self.old sealed_mask (plain_word g self.old sealed_mask wire))) }
    {
        let plain = wire ^ self.cipher.keystream(f);
        self.cipher.step(f, wire);
        self.check.step(a, plain);
        plain
    }

    /// Opens a word under any mask. Kept out of line: were it merged with the way of a sealed word, both would wait for the keystream.
    #[inline(never)]
    fn open_masked_word<K: KeyedFunction, C: Coefficient>(
        &mut self,
        f: &mut K,
        a: &C,
        mask: u16,
        wire: u16,
    ) -> u16
        ensures { Asked K.KeyedFunction f.old f.new (λ g. (result ≡ plain_word g self.old mask wire) × (self.new ≡ taken g (C.image a.now) self.old mask (plain_word g self.old mask wire))) }
    {
        let v = self.cipher.keystream(f);
        let plain = wire ^ (mask & v);
        self.absorb(f, a, v, mask, plain);
        plain
    }

    /// One plaintext word into both registers, where `v` is its keystream word.
    #[inline(always)]
    #[tactic(auto, using(crate::proofs::Asked::asked_so, crate::proofs::BothRegisters::same_registers), unfolding(crate::specs::Cipher::mactext, crate::specs::Cipher::complement))]
    fn absorb<K: KeyedFunction, C: Coefficient>(
        &mut self,
        f: &mut K,
        a: &C,
        v: u16,
        mask: u16,
        plain: u16,
    )
        ensures { Asked K.KeyedFunction f.old f.new (λ g. self.new ≡ record { r = step g self.old.r (bit_xor plain v); c = check_step (C.image a.now) self.old.c (mactext mask v plain) }) }
    {
        self.cipher.step(f, plain ^ v);
        self.check.step(a, plain ^ (!mask & v));
    }

    /// Each nonce word in turn.
    fn take_nonce<K: KeyedFunction, C: Coefficient>(&mut self, f: &mut K, a: &C, nonce: &[u8])
        ensures { Asked K.KeyedFunction f.old f.new (λ g. self.new ≡ nonces_taken g (C.image a.now) self.old (words_of nonce.now)) }
    {
        let (pairs, _) = nonce.as_chunks::<2>();
        for pair in pairs {
            self.take_nonce_word(f, a, u16::from_le_bytes(*pair));
        }
    }

    /// One nonce word, as a sealed word that was received.
    #[tactic(auto, using(crate::proofs::Asked::asked_then, crate::proofs::BothRegisters::same_registers), unfolding(crate::specs::Cipher::nonce_taken))]
    fn take_nonce_word<K: KeyedFunction, C: Coefficient>(&mut self, f: &mut K, a: &C, word: u16)
        ensures { Asked K.KeyedFunction f.old f.new (λ g. self.new ≡ nonce_taken g (C.image a.now) self.old word) }
    {
        let v = self.cipher.keystream(f);
        self.check.step(a, word ^ v);
        self.cipher.step(f, word);
    }

    /// Seventeen open words with plaintext 0.
    fn take_open_zeros<K: KeyedFunction, C: Coefficient>(&mut self, f: &mut K, a: &C)
        ensures { Asked K.KeyedFunction f.old f.new (λ g. self.new ≡ open_zeros g (C.image a.now) 17 self.old) }
    {
        for _ in 0..17u8 {
            let _ = self.seal_word(f, a, OPEN, 0);
        }
    }

    /// Feeds the check words into the cipher register, c[16] down to c[0].
    fn feed_check<K: KeyedFunction>(&mut self, f: &mut K)
        ensures asked { Asked K.KeyedFunction f.old f.new (λ g. self.new.r ≡ all_fed g self.old.r (reverse self.old.c)) }
        ensures check { self.new.c ≡ self.old.c }
    {
        let mut words = self.check.words();
        words.reverse();
        for word in &words {
            let _ = self.cipher.feed(f, *word);
        }
    }
}
