//! The table of a key in the caller's memory, and the keyed functions that whole messages are sealed and opened with.
ghost use Rattle.std.specs.Prelude.{◌≡◌, MatchResult};
ghost use Rattle.sss.specs.Cipher.{KeyFits, Lawful, key_table};
ghost use Rattle.capi.specs.Calls.{WhereFits, done, number_answered};

use crate::answer::number;
use functions::{FilledTable, GivenTable};
use sss::Fault;

/// A table of 256 words.
#[repr(C)]
pub struct FutsambolyTable {
    pub words: [u16; 256],
}

/// Fills the table of a key. Refuses a key that does not fit (1), and the table is as found.
#[unsafe(no_mangle)]
pub extern "C" fn futsamboly_fill_table(key: &[u8], table: &mut FutsambolyTable) -> u32
    ensures { WhereFits (KeyFits key.now) Fault.Key table.old (done (record { words = key_table key.now })) result table.new }
{
    number(fill(key, table))
}

/// Fills a table from a key. A key that does not fit is refused, and the table stays.
fn fill(key: &[u8], table: &mut FutsambolyTable) -> Result<(), Fault>
    ensures { WhereFits (KeyFits key.now) Fault.Key table.old (done (record { words = key_table key.now })) (number_answered result) table.new }
{
    let function = FilledTable::of(key)?;
    table.words.copy_from_slice(function.entries());
    Ok(())
}

/// The keyed function of a table that keeps the law. Any other is refused.
pub(crate) fn given(table: &FutsambolyTable) -> Result<GivenTable, Fault>
    ensures { MatchResult result (λ f. Lawful table.now.words × (f.entries ≡ table.now.words) × Lawful f.entries) (λ fault. (Lawful table.now.words → ⊥) × (fault ≡ Fault.Table)) }
{
    let mut function = GivenTable::new();
    function.load(&table.words)?;
    Ok(function)
}
