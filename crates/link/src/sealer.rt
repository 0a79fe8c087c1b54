//! The sealer. Whether a message is open is a type: a ready sealer begins a message, and only an open message seals words.
ghost use Rattle.std.specs.Prelude.{◌≡◌};
ghost use Rattle.sss.specs.Cipher.{begun, tag, zeroed};
ghost use Rattle.link.specs.Engines.{Worked};
ghost use Rattle.link.specs.Issuing.{nonce_bytes};
ghost use Rattle.link.specs.Sealing.{Seals};

use crate::engine::Engine;
use crate::issuer::Nonce;
use sss::{Coefficient, Fault, KeyedFunction};

/// The most words that a message has.
pub const LONGEST: u32 = 65_536;

/// A sealer with no message open.
#[derive(Drop)]
pub struct ReadySealer<K, C> {
    engine: Engine<K, C>,
}

/// A sealer with a message open.
#[derive(Drop)]
pub struct OpenMessage<K, C> {
    engine: Engine<K, C>,
    words: u32,
}

impl<K: KeyedFunction, C: Coefficient> ReadySealer<K, C> {
    /// A sealer that works with this keyed function and this coefficient.
    pub fn new(function: K, coefficient: C) -> Self
        ensures function { result.engine.function ≡ function }
        ensures coefficient { result.engine.coefficient ≡ coefficient }
        ensures registers { result.engine.registers ≡ zeroed }
    {
        ReadySealer {
            engine: Engine::new(function, coefficient),
        }
    }

    /// Begins a message with a nonce, which is used up.
    pub fn begin(self, nonce: Nonce) -> OpenMessage<K, C>
        ensures worked { Worked K.KeyedFunction C.Coefficient self.engine result.engine (λ f A. result.engine.registers ≡ begun f A (nonce_bytes nonce)) }
        ensures words { result.words ≡ 0 }
    {
        let ReadySealer { mut engine } = self;
        // Six bytes are never refused, and a `Result` here would ask callers for what cannot come.
        let _ = engine.begin(&nonce.bytes());
        OpenMessage { engine, words: 0 }
    }
}

impl<K: KeyedFunction, C: Coefficient> OpenMessage<K, C> {
    /// Seals a word under its mask, and answers its wire word. A message has at most 65,536 words: one more is refused, and the message
    /// stays open and as it was.
    pub fn word(&mut self, mask: u16, plain: u16) -> Result<u16, Fault>
        ensures { Seals K.KeyedFunction C.Coefficient self.old mask plain result self.new }
    {
        if self.words >= LONGEST {
            return Err(Fault::Full);
        }
        self.words += 1;
        Ok(self.engine.seal_word(mask, plain))
    }

    /// Closes the message: the sealer is ready again, its registers zero, and the tag is drawn.
    pub fn finish(self) -> (ReadySealer<K, C>, [u16; 8])
        ensures worked { Worked K.KeyedFunction C.Coefficient self.engine result.0.engine (λ f _. result.1 ≡ tag f self.engine.registers) }
        ensures registers { result.0.engine.registers ≡ zeroed }
    {
        let OpenMessage { mut engine, .. } = self;
        let tag = engine.close();
        (ReadySealer { engine }, tag)
    }

    /// Gives the message up: the sealer is ready again, its registers zero.
    pub fn abandon(self) -> ReadySealer<K, C>
        ensures function { result.engine.function ≡ self.engine.function }
        ensures coefficient { result.engine.coefficient ≡ self.engine.coefficient }
        ensures registers { result.engine.registers ≡ zeroed }
    {
        let OpenMessage { mut engine, .. } = self;
        engine.reset();
        ReadySealer { engine }
    }
}
