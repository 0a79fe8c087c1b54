//! Keyed functions of each make that are sound: fresh, loaded, asked, put beneath a lazy one, and where a load was refused.
ghost use Rattle.sss.specs.Cipher.{key_table};
ghost use Rattle.examples.specs.Sound.{SoundWith, the_key, zeros};

use functions::{FilledTable, FromKey, GivenTable, LazyTable};
use sss::KeyedFunction;

/// The key of the loaded functions.
const KEY: [u8; 5] = [3, 1, 4, 1, 5];

/// Fresh, and answering from the key.
pub fn fresh_from_key() -> FromKey
    ensures { SoundWith ⟦<FromKey as KeyedFunction>⟧ zeros result }
{
    FromKey::new()
}

/// Fresh, and answering by a table to be filled.
pub fn fresh_filled() -> FilledTable
    ensures { SoundWith ⟦<FilledTable as KeyedFunction>⟧ zeros result }
{
    FilledTable::new()
}

/// Fresh, and answering by a table to be given.
pub fn fresh_given() -> GivenTable
    ensures { SoundWith ⟦<GivenTable as KeyedFunction>⟧ zeros result }
{
    GivenTable::new()
}

/// With a key.
pub fn keyed_from_key() -> FromKey
    ensures { SoundWith ⟦<FromKey as KeyedFunction>⟧ (key_table the_key) result }
{
    match FromKey::of(&KEY) {
        Ok(f) => f,
        Err(_) => unreachable!(),
    }
}

/// Filled from a key.
pub fn keyed_filled() -> FilledTable
    ensures { SoundWith ⟦<FilledTable as KeyedFunction>⟧ (key_table the_key) result }
{
    match FilledTable::of(&KEY) {
        Ok(f) => f,
        Err(_) => unreachable!(),
    }
}

/// Given the table that another was filled with.
pub fn keyed_given() -> GivenTable
    ensures { SoundWith ⟦<GivenTable as KeyedFunction>⟧ (key_table the_key) result }
{
    let filled = keyed_filled();
    let mut f = GivenTable::new();
    match f.load(filled.entries()) {
        Ok(()) => f,
        Err(_) => unreachable!(),
    }
}

/// With a key, and then refused another, of no bytes.
pub fn refused_from_key() -> FromKey
    ensures { SoundWith ⟦<FromKey as KeyedFunction>⟧ (key_table the_key) result }
{
    let mut f = keyed_from_key();
    match f.load(&[]) {
        Ok(()) => unreachable!(),
        Err(_) => f,
    }
}

/// Filled from a key, and then refused another, of no bytes.
pub fn refused_filled() -> FilledTable
    ensures { SoundWith ⟦<FilledTable as KeyedFunction>⟧ (key_table the_key) result }
{
    let mut f = keyed_filled();
    match f.load(&[]) {
        Ok(()) => unreachable!(),
        Err(_) => f,
    }
}

/// Given a table, and then refused another, of two words.
pub fn refused_given() -> GivenTable
    ensures { SoundWith ⟦<GivenTable as KeyedFunction>⟧ (key_table the_key) result }
{
    let mut f = keyed_given();
    match f.load(&[0, 0]) {
        Ok(()) => unreachable!(),
        Err(_) => f,
    }
}

/// A lazy table over a key.
pub fn lazy_from_key() -> LazyTable<FromKey>
    ensures { SoundWith ⟦<LazyTable<FromKey> as KeyedFunction>⟧ (key_table the_key) result }
{
    LazyTable::new(keyed_from_key())
}

/// A lazy table over a filled one.
pub fn lazy_filled() -> LazyTable<FilledTable>
    ensures { SoundWith ⟦<LazyTable<FilledTable> as KeyedFunction>⟧ (key_table the_key) result }
{
    LazyTable::new(keyed_filled())
}

/// A lazy table over a given one.
pub fn lazy_given() -> LazyTable<GivenTable>
    ensures { SoundWith ⟦<LazyTable<GivenTable> as KeyedFunction>⟧ (key_table the_key) result }
{
    LazyTable::new(keyed_given())
}

/// A lazy table over a lazy table.
pub fn lazy_twice() -> LazyTable<LazyTable<FromKey>>
    ensures { SoundWith ⟦<LazyTable<LazyTable<FromKey>> as KeyedFunction>⟧ (key_table the_key) result }
{
    LazyTable::new(lazy_from_key())
}

/// The same after it was asked for a word, and for the word again.
pub fn lazy_asked() -> LazyTable<LazyTable<FromKey>>
    ensures { SoundWith ⟦<LazyTable<LazyTable<FromKey>> as KeyedFunction>⟧ (key_table the_key) result }
{
    let mut f = lazy_twice();
    f.apply(0x0102);
    f.apply(0x0102);
    f
}

/// A lazy table over a fresh function, asked, and then another function put beneath it.
pub fn lazy_loaded() -> LazyTable<FilledTable>
    ensures { SoundWith ⟦<LazyTable<FilledTable> as KeyedFunction>⟧ (key_table the_key) result }
{
    let mut f = LazyTable::new(fresh_filled());
    f.apply(0x0102);
    f.load(keyed_filled());
    f
}
