//! The test of a given table for the law of a keyed function.
ghost use Rattle.std.specs.Prelude.{◌≡◌, ◌/◌, ◌<◌, MatchBool, bit_xor};
ghost use Rattle.sss.specs.Cipher.{Lawful};

use crate::tables::high_byte;

/// The byte that the law asks to differ from entry to entry.
fn law_byte(i: usize, word: u16) -> usize
    requires { i < 256 }
    ensures value { result ≡ bit_xor i (word / 256) }
    ensures bound { result < 256 }
{
    i ^ usize::from(high_byte(word))
}

/// Whether a table has 256 words and the law of a keyed function: no two of the bytes `i ⊕ (high byte of S[i])` are equal.
pub(crate) fn keeps_law(table: &[u16]) -> bool
    ensures { MatchBool result (Lawful table.now) (Lawful table.now → ⊥) }
{
    if table.len() != 256 {
        return false;
    }
    // What was seen is written as the entries are read, so a chain is no plainer.
    let mut seen = [false; 256];
    for (i, word) in table.iter().enumerate() {
        let byte = law_byte(i, *word);
        if seen[byte] {
            return false;
        }
        seen[byte] = true;
    }
    true
}
