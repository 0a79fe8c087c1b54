//! The receiver.
ghost use Rattle.std.specs.Prelude.{◌≡◌, ◌<◌};
ghost use Rattle.std.specs.List.{AllByRecursion as Every};
ghost use Rattle.sss.specs.Cipher.{zeroed};
ghost use Rattle.link.specs.Hearing.{Begins, Finishes, Resumes, TakesWord};

use crate::engine::Engine;
use crate::footing::Footing;
use crate::reception::{Answer, Event, Reception, Release, Verdict};
use sss::{Coefficient, Fault, KeyedFunction, Registers};

/// The receiving end: it steps with every word, and hands out a reading only while it is whole or caught.
#[derive(Drop)]
pub struct Receiver<K, C> {
    engine: Engine<K, C>,
    footing: Footing,
}

impl<K, C> Receiver<K, C> {
    /// Where the receiver stands.
    pub fn reception(&self) -> Reception
        ensures { result ≡ self.now.footing.reception }
    {
        self.footing.reception()
    }

    /// The registers of the message.
    pub fn registers(&self) -> &Registers
        ensures { result.now ≡ self.now.engine.registers }
    {
        self.engine.registers()
    }

    /// Breaks off: words were lost. The receiver is lost with row 0, and no register is touched.
    pub fn break_off(&mut self)
        ensures reception { self.new.footing.reception ≡ Reception.Lost 0 }
        ensures engine { self.new.engine ≡ self.old.engine }
    {
        let _ = self.footing.go(Event::Break);
    }
}

impl<K: Drop, C: Drop> Receiver<K, C> {
    /// A receiver that goes on where another stood, with its registers. Lost with a row above 16 none can stand.
    pub fn resumed(
        function: K,
        coefficient: C,
        registers: Registers,
        reception: Reception,
    ) -> Option<Self>
        ensures { Resumes function coefficient registers reception result }
    {
        let footing = Footing::at(reception)?;
        Some(Receiver {
            engine: Engine::resumed(function, coefficient, registers),
            footing,
        })
    }
}

impl<K: KeyedFunction, C: Coefficient> Receiver<K, C> {
    /// A receiver that works with this keyed function and this coefficient: lost, with row 0 and registers of zero.
    pub fn new(function: K, coefficient: C) -> Self
        ensures function { result.engine.function ≡ function }
        ensures coefficient { result.engine.coefficient ≡ coefficient }
        ensures registers { result.engine.registers ≡ zeroed }
        ensures reception { result.footing.reception ≡ Reception.Lost 0 }
    {
        Receiver {
            engine: Engine::new(function, coefficient),
            footing: Footing::lost(),
        }
    }

    /// Begins a message: the receiver is whole. A nonce of an odd number of bytes or of more than 32 is refused, and nothing is changed.
    pub fn begin(&mut self, nonce: &[u8]) -> Result<(), Fault>
        ensures bytes { Every (λ b. b < 256) nonce.now }
        ensures value { Begins K.KeyedFunction C.Coefficient self.old nonce.now result self.new }
    {
        self.engine.begin(nonce)?;
        let _ = self.footing.go(Event::Begin);
        Ok(())
    }

    /// Takes a word under its mask into both registers, whatever the state, and hands out its reading or withholds it.
    pub fn word(&mut self, mask: u16, wire: u16) -> Answer
        ensures { TakesWord K.KeyedFunction C.Coefficient self.old mask wire result self.new }
    {
        let plain = self.engine.open_word(mask, wire);
        match self.footing.go(Event::Word(mask)) {
            Release::HandOut => Answer::Reading(plain),
            Release::Withhold(row) => Answer::Withheld(row),
        }
    }

    /// Ends a message with the tag that was received, and answers the verdict. The receiver is then lost with row 0, its registers zero.
    pub fn finish(&mut self, received: [u16; 8]) -> Verdict
        ensures { Finishes K.KeyedFunction C.Coefficient self.old received result self.new }
    {
        let drawn = self.engine.close();
        match self.footing.go(Event::Finish) {
            Release::HandOut if received == drawn => Verdict::Agrees,
            Release::HandOut => Verdict::Differs,
            Release::Withhold(_) => Verdict::Broken,
        }
    }
}
