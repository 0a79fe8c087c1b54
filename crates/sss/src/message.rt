//! Whole messages, word by word in place.
ghost use Rattle.std.specs.Prelude.{◌≡◌};
ghost use Rattle.sss.specs.Asked.{Asked};
ghost use Rattle.sss.specs.Cipher.{all_taken, begun, message_tag, opened_message, plain_words, sealed_message, tag, wire_words};
ghost use Rattle.sss.specs.Laws.{MessageBack};
ghost use Rattle.sss.specs.Outcomes.{TakesNonce};

use crate::coefficient::Coefficient;
use crate::direction::{Direction, Opening, Sealing};
use crate::fault::Fault;
use crate::keyed::KeyedFunction;
use crate::registers::Registers;

/// A word of a message with its mask: the mask's bits say which bits are sealed.
// A call on one word takes the two as numbers: a struct there would be made at each call only to be taken apart.
#[derive(Clone, Copy, PartialEq, Eq, Debug)]
pub struct MaskedWord {
    pub mask: u16,
    /// The plaintext word or the wire word, as the call says.
    pub text: u16,
}

impl Registers {
    /// Takes the words into both registers, and puts what they become in their place.
    fn pass_words<D: Direction, K: KeyedFunction, C: Coefficient>(
        &mut self,
        f: &mut K,
        a: &C,
        words: &mut [MaskedWord],
    )
        ensures { Asked K.KeyedFunction f.old f.new (λ g. (words.new ≡ D.words g (C.image a.now) self.old words.old) × (self.new ≡ D.last g (C.image a.now) self.old words.old)) }
    {
        for word in words.iter_mut() {
            word.text = D::pass(self, f, a, *word);
        }
    }

    /// Takes plaintext words into both registers, and puts their wire words in their place.
    pub fn seal_words<K: KeyedFunction, C: Coefficient>(
        &mut self,
        f: &mut K,
        a: &C,
        words: &mut [MaskedWord],
    )
        ensures { Asked K.KeyedFunction f.old f.new (λ g. (words.new ≡ wire_words g (C.image a.now) self.old words.old) × (self.new ≡ all_taken g (C.image a.now) self.old words.old)) }
    {
        self.pass_words::<Sealing, K, C>(f, a, words);
    }

    /// Takes wire words into both registers, and puts their plaintext words in their place.
    pub fn open_words<K: KeyedFunction, C: Coefficient>(
        &mut self,
        f: &mut K,
        a: &C,
        words: &mut [MaskedWord],
    )
        ensures { Asked K.KeyedFunction f.old f.new (λ g. (words.new ≡ plain_words g (C.image a.now) self.old words.old) × (self.new ≡ all_taken g (C.image a.now) self.old (plain_words g (C.image a.now) self.old words.old))) }
    {
        self.pass_words::<Opening, K, C>(f, a, words);
    }
}

/// Passes a message in place, and answers its tag; refuses a nonce that does not fit, and leaves all as it was.
fn pass_message<D: Direction, K: KeyedFunction, C: Coefficient>(
    f: &mut K,
    a: &C,
    nonce: &[u8],
    words: &mut [MaskedWord],
) -> Result<[u16; 8], Fault>
    ensures { TakesNonce nonce.now (λ t. Asked K.KeyedFunction f.old f.new (λ g. (words.new ≡ D.words g (C.image a.now) (begun g (C.image a.now) nonce.now) words.old) × (t ≡ tag g (D.last g (C.image a.now) (begun g (C.image a.now) nonce.now) words.old)))) ((words.new ≡ words.old) × (f.new ≡ f.old)) result }
{
    let mut registers = Registers::new();
    registers.begin(f, a, nonce)?;
    registers.pass_words::<D, K, C>(f, a, words);
    Ok(registers.close(f))
}

/// Seals a message in place: plaintext words become wire words. Answers its tag; refuses a nonce that does not fit, and leaves all as it was.
#[tactic(auto, unfolding(crate::specs::Cipher::sealed_message, crate::specs::Cipher::message_tag))]
pub fn seal_message<K: KeyedFunction, C: Coefficient>(
    f: &mut K,
    a: &C,
    nonce: &[u8],
    words: &mut [MaskedWord],
) -> Result<[u16; 8], Fault>
    ensures { TakesNonce nonce.now (λ t. Asked K.KeyedFunction f.old f.new (λ g. (words.new ≡ sealed_message g (C.image a.now) nonce.now words.old) × (t ≡ message_tag g (C.image a.now) nonce.now words.old))) ((words.new ≡ words.old) × (f.new ≡ f.old)) result }
{
    pass_message::<Sealing, K, C>(f, a, nonce, words)
}

/// Opens a message in place: wire words become plaintext words. Answers the tag that they should have come with; refuses a nonce that does
/// not fit, and leaves all as it was.
pub fn open_message<K: KeyedFunction, C: Coefficient>(
    f: &mut K,
    a: &C,
    nonce: &[u8],
    words: &mut [MaskedWord],
) -> Result<[u16; 8], Fault>
    ensures { TakesNonce nonce.now (λ t. Asked K.KeyedFunction f.old f.new (λ g. (words.new ≡ opened_message g (C.image a.now) nonce.now words.old) × (t ≡ message_tag g (C.image a.now) nonce.now (opened_message g (C.image a.now) nonce.now words.old)) × MessageBack g (C.image a.now) nonce.now words.old words.new t)) ((words.new ≡ words.old) × (f.new ≡ f.old)) result }
{
    pass_message::<Opening, K, C>(f, a, nonce, words)
}
