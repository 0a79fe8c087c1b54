//! What either end works with.
ghost use Rattle.std.specs.Prelude.{◌≡◌};
ghost use Rattle.sss.specs.Cipher.{tag, zeroed};
ghost use Rattle.link.specs.Engines.{BeginsMessage, OpensWord, SealsWord, Worked};

use sss::{Coefficient, Fault, KeyedFunction, Registers};

/// A keyed function, a coefficient, and the registers of one message.
#[derive(Drop)]
pub struct Engine<K, C> {
    function: K,
    coefficient: C,
    registers: Registers,
}

impl<K, C> Engine<K, C> {
    /// An engine with registers of zero.
    pub(crate) fn new(function: K, coefficient: C) -> Self
        ensures function { result.function ≡ function }
        ensures coefficient { result.coefficient ≡ coefficient }
        ensures registers { result.registers ≡ zeroed }
    {
        Engine {
            function,
            coefficient,
            registers: Registers::new(),
        }
    }

    /// An engine with these registers.
    pub(crate) fn resumed(function: K, coefficient: C, registers: Registers) -> Self
        ensures function { result.function ≡ function }
        ensures coefficient { result.coefficient ≡ coefficient }
        ensures registers { result.registers ≡ registers }
    {
        Engine {
            function,
            coefficient,
            registers,
        }
    }

    /// The registers of the message.
    pub(crate) fn registers(&self) -> &Registers
        ensures { result.now ≡ self.now.registers }
    {
        &self.registers
    }

    /// Sets the registers to zero.
    pub(crate) fn reset(&mut self)
        ensures function { self.new.function ≡ self.old.function }
        ensures coefficient { self.new.coefficient ≡ self.old.coefficient }
        ensures registers { self.new.registers ≡ zeroed }
    {
        self.registers.reset();
    }
}

impl<K: KeyedFunction, C: Coefficient> Engine<K, C> {
    /// Begins a message. A nonce of an odd number of bytes or of more than 32 is refused, and nothing is changed.
    pub(crate) fn begin(&mut self, nonce: &[u8]) -> Result<(), Fault>
        ensures { BeginsMessage K.KeyedFunction C.Coefficient self.old nonce.now result self.new }
    {
        self.registers
            .begin(&mut self.function, &self.coefficient, nonce)
    }

    /// Takes a plaintext word under its mask, and answers its wire word.
    pub(crate) fn seal_word(&mut self, mask: u16, plain: u16) -> u16
        ensures { SealsWord K.KeyedFunction C.Coefficient self.old mask plain result self.new }
    {
        self.registers
            .seal_word(&mut self.function, &self.coefficient, mask, plain)
    }

    /// Takes a wire word under its mask, and answers its plaintext word.
    pub(crate) fn open_word(&mut self, mask: u16, wire: u16) -> u16
        ensures { OpensWord K.KeyedFunction C.Coefficient self.old mask wire result self.new }
    {
        self.registers
            .open_word(&mut self.function, &self.coefficient, mask, wire)
    }

    /// Closes the message: its tag is drawn, and the registers are zero.
    pub(crate) fn close(&mut self) -> [u16; 8]
        ensures worked { Worked K.KeyedFunction C.Coefficient self.old self.new (λ f _. result ≡ tag f self.old.registers) }
        ensures registers { self.new.registers ≡ zeroed }
    {
        let tag = self.registers.close(&mut self.function);
        self.registers.reset();
        tag
    }
}
