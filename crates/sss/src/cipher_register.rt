//! The steps of the cipher register, and its keystream.
ghost use Rattle.std.specs.Prelude.{◌≡◌, replicate};
ghost use Rattle.sss.specs.Asked.{Asked};
ghost use Rattle.sss.specs.Cipher.{OneToOne, all_fed, ciphertext, fed, keystream, step, stepped};

use crate::keyed::KeyedFunction;
use crate::register::CipherRegister;

impl CipherRegister {
    /// Feeds in the word `c`: the words shift, f(c >>> 8) is added to r[14], r[12] becomes its image, r[1] is rotated by 8. The function that
    /// steps it is one-to-one on words, by its law.
    #[tactic(auto, using(crate::proofs::Asked::asked_word, crate::proofs::Asked::asked_then, crate::proofs::Asked::asked_also, crate::proofs::OneToOne::keyed_one_to_one, crate::proofs::Words::rot8_is), unfolding(crate::specs::Cipher::step, crate::specs::Cipher::plus))]
    pub fn step<K: KeyedFunction>(&mut self, f: &mut K, c: u16)
        ensures { Asked K.KeyedFunction f.old f.new (λ g. (self.new ≡ step g self.old c) × OneToOne g) }
    {
        self.push(c);
        let sum = self.at(14).wrapping_add(f.apply(c.rotate_right(8)));
        self.put(14, sum);
        let image = f.apply(self.at(12));
        self.put(12, image);
        let turned = self.at(1).rotate_right(8);
        self.put(1, turned);
    }

    /// The keystream word: (f(f(r[0] + r[16]) + r[1] + r[6] + r[13]) >>> 8) ⊕ r[0].
    #[tactic(auto, using(crate::proofs::Asked::asked_word, crate::proofs::Asked::asked_then, crate::proofs::Words::rot8_is), unfolding(crate::specs::Cipher::keystream, crate::specs::Cipher::plus))]
    pub fn keystream<K: KeyedFunction>(&self, f: &mut K) -> u16
        ensures { Asked K.KeyedFunction f.old f.new (λ g. result ≡ keystream g self.now) }
    {
        let oldest = self.at(0);
        // The words that are long there are added first: the newest one is what a next word waits for.
        let older = self
            .at(1)
            .wrapping_add(self.at(6))
            .wrapping_add(self.at(13));
        let inner = f.apply(oldest.wrapping_add(self.at(16)));
        f.apply(inner.wrapping_add(older)).rotate_right(8) ^ oldest
    }

    /// Feeds in the word that `p` is sealed to, `p ⊕ v`, and answers it.
    #[tactic(auto, using(crate::proofs::Asked::asked_then), unfolding(crate::specs::Cipher::ciphertext, crate::specs::Cipher::fed))]
    pub fn feed<K: KeyedFunction>(&mut self, f: &mut K, p: u16) -> u16
        ensures { Asked K.KeyedFunction f.old f.new (λ g. (result ≡ ciphertext g self.old p) × (self.new ≡ fed g self.old p)) }
    {
        let c = p ^ self.keystream(f);
        self.step(f, c);
        c
    }

    /// Feeds in eight zeros, and answers the eight words that they are sealed to.
    pub fn draw<K: KeyedFunction>(&mut self, f: &mut K) -> [u16; 8]
        ensures { Asked K.KeyedFunction f.old f.new (λ g. (result ≡ stepped g 8 self.old) × (self.new ≡ all_fed g self.old (replicate 8 0))) }
    {
        let mut words = [0; 8];
        for word in words.iter_mut() {
            *word = self.feed(f, 0);
        }
        words
    }
}
