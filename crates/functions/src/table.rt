//! Keyed functions that hold their table of 256 words: one is filled from a key, the other is given as it is.
ghost use Rattle.std.specs.Prelude.{◌≡◌, replicate};
ghost use Rattle.sss.specs.Cipher.{KeyFits, Lawful, key_table};
ghost use Rattle.functions.specs.Functions.{IsOfKey, Loads};

use crate::given::keeps_law;
use crate::key::Key;
use crate::tables::high_byte;
use sss::{Fault, KeyedFunction};
use std::marker::PhantomData;

/// The role of a table that is filled when a key is loaded.
#[derive(Clone, Copy)]
pub struct Filled;

/// The role of a table that is given as it is.
#[derive(Clone, Copy)]
pub struct Given;

/// The keyed function of a table that it holds, which keeps the law. Its role says where the table comes from.
#[derive(Drop)]
pub struct Table<R> {
    entries: [u16; 256],
    role: PhantomData<R>,
    ghost lawful: { Lawful entries },
}

/// Fills its 256 entries when the key is loaded: the fast one.
pub type FilledTable = Table<Filled>;

/// Takes a given table of 256 words, as one burned into memory.
pub type GivenTable = Table<Given>;

impl<R> Table<R> {
    /// The function of the table that is all zero, until a key or a table is loaded.
    pub fn new() -> Self
        ensures { result.entries ≡ replicate 256 0 }
    {
        Table {
            entries: [0; 256],
            role: PhantomData,
        }
    }
}

impl Table<Filled> {
    /// The function of a key of 1 to 16 bytes. Any other is refused.
    pub fn of(key: &[u8]) -> Result<Self, Fault>
        ensures { IsOfKey (λ f. f.entries) key.now result }
    {
        let mut function = FilledTable::new();
        function.load(key)?;
        Ok(function)
    }

    /// Takes a key of 1 to 16 bytes. Any other is refused, and the old function stays.
    pub fn load(&mut self, key: &[u8]) -> Result<(), Fault>
        ensures { Loads (λ f. f.entries) (KeyFits key.now) (key_table key.now) Fault.Key self.old result self.new }
    {
        self.entries = Key::try_from(key)?.entries();
        Ok(())
    }

    /// The table: what another end could be given in place of the key.
    pub fn entries(&self) -> &[u16]
        ensures { result.now ≡ self.now.entries }
    {
        &self.entries
    }
}

impl Table<Given> {
    /// Takes a table of 256 words that keeps the law. Any other is refused, and the old function stays.
    pub fn load(&mut self, table: &[u16]) -> Result<(), Fault>
        ensures { Loads (λ f. f.entries) (Lawful table.now) table.now Fault.Table self.old result self.new }
    {
        if !keeps_law(table) {
            return Err(Fault::Table);
        }
        self.entries.copy_from_slice(table);
        Ok(())
    }
}

impl<R> KeyedFunction for Table<R> {
    ghost table = { λ f. f.entries };

    ghost sound = { λ f. Lawful f.entries };

    ghost lawful = { λ _ h. h };

    /// The image of a word, by the entry of its high byte.
    fn apply(&mut self, a: u16) -> u16 {
        self.entries[usize::from(high_byte(a))] ^ a
    }
}
