//! A keyed function that remembers the entries of another.
ghost use Rattle.std.specs.Prelude.{◌≡◌, ◌/◌, replicate, Some, None, OnSome, bit_xor, slice_index_or, slice_set};
ghost use Rattle.sss.specs.Cipher.{keyed};
ghost use Rattle.functions.specs.Functions.{LazySound};
ghost use Rattle.sss.specs.Kept.{Kept};

use crate::tables::high_byte;
use sss::KeyedFunction;

// `LazySound` stays in the clauses: as a ghost field it would ask more of callers, since each holder of a lazy table would need the bound on `K`.

/// Remembers the entries already worked out by any keyed function, another lazy table too.
#[derive(Drop)]
pub struct LazyTable<K> {
    below: K,
    entries: [Option<u16>; 256],
}

impl<K: KeyedFunction> LazyTable<K> {
    /// A lazy table over a function, with no entry remembered.
    pub fn new(below: K) -> Self
        ensures below { result.below ≡ below }
        ensures empty { result.entries ≡ replicate 256 None }
        ensures sound { K.sound below → LazySound K.sound K.table result }
    {
        LazyTable {
            below,
            entries: [None; 256],
        }
    }

    /// Puts another function beneath, forgets every entry, and hands the old function back.
    pub fn load(&mut self, below: K) -> K
        ensures value { result ≡ self.old.below }
        ensures below { self.new.below ≡ below }
        ensures empty { self.new.entries ≡ replicate 256 None }
        ensures sound { K.sound below → LazySound K.sound K.table self.new }
    {
        self.entries = [None; 256];
        std::mem::replace(&mut self.below, below)
    }

    /// The entry for words with this high byte, if it is remembered.
    pub fn remembered(&self, high: u8) -> Option<u16>
        ensures { result ≡ slice_index_or self.now.entries high None }
    {
        self.entries[usize::from(high)]
    }
}

impl<K: KeyedFunction> KeyedFunction for LazyTable<K> {
    ghost table = { λ l. K.table l.below };

    ghost sound = { LazySound K.sound K.table };

    ghost lawful = { λ k h. K.lawful k.below h.0 };

    /// The image of a word; its entry is remembered from then on. Where it was remembered already, the function beneath is not asked.
    fn apply(&mut self, a: u16) -> u16
        ensures value { LazySound K.sound K.table self.old → result ≡ keyed (K.table self.old.below) a }
        ensures kept { Kept (K.table self.old.below) (LazySound K.sound K.table self.old) (K.table self.new.below) (LazySound K.sound K.table self.new) }
        ensures remembered { self.new.entries ≡ slice_set self.old.entries (a / 256) (Some (bit_xor result a)) }
        ensures spared { OnSome (slice_index_or self.old.entries (a / 256) None) (self.new.below ≡ self.old.below) }
    {
        let i = high_byte(a);
        match self.remembered(i) {
            Some(known) => known ^ a,
            None => {
                let image = self.below.apply(a);
                self.entries[usize::from(i)] = Some(image ^ a);
                image
            }
        }
    }
}
