//! A keyed function that works each entry out from the key.
ghost use Rattle.std.specs.Prelude.{◌≡◌, replicate};
ghost use Rattle.sss.specs.Cipher.{KeyFits, Lawful, key_table};
ghost use Rattle.functions.specs.Functions.{IsOfKey, Loads, from_key_table};

use crate::key::Key;
use crate::tables::high_byte;
use sss::{Fault, KeyedFunction};

/// Works the entry out from the key at each question: it holds the key and no table.
#[derive(Drop)]
pub struct FromKey {
    key: Key,
}

impl FromKey {
    /// The function of the table that is all zero, until a key is loaded.
    #[tactic(auto, using(crate::proofs::Keys::key_table_none))]
    pub fn new() -> Self
        ensures { from_key_table result ≡ replicate 256 0 }
    {
        FromKey { key: Key::none() }
    }

    /// The function of a key of 1 to 16 bytes. Any other is refused.
    pub fn of(key: &[u8]) -> Result<Self, Fault>
        ensures { IsOfKey from_key_table key.now result }
    {
        let mut function = FromKey::new();
        function.load(key)?;
        Ok(function)
    }

    /// Takes a key of 1 to 16 bytes. Any other is refused, and the old function stays.
    pub fn load(&mut self, key: &[u8]) -> Result<(), Fault>
        ensures { Loads from_key_table (KeyFits key.now) (key_table key.now) Fault.Key self.old result self.new }
    {
        self.key = Key::try_from(key)?;
        Ok(())
    }
}

impl KeyedFunction for FromKey {
    ghost table = { from_key_table };

    ghost sound = { λ k. Lawful (from_key_table k) };

    ghost lawful = { λ _ h. h };

    /// The image of a word, by the one entry that it needs.
    fn apply(&mut self, a: u16) -> u16 {
        self.key.entry(high_byte(a)) ^ a
    }
}
