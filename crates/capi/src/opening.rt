//! Opening whole messages.
ghost use Rattle.std.specs.Prelude.{◌≡◌};
ghost use Rattle.sss.specs.Asked.{Asked};
ghost use Rattle.sss.specs.Cipher.{KeyFits, Lawful, key_table, keyed};
ghost use Rattle.capi.specs.Calls.{ByKey, ByTable, answered, number_answered};
ghost use Rattle.capi.specs.Whole.{OpensAgain, opening_due};

use crate::answer::number;
use crate::table::{FutsambolyTable, given};
use functions::{FilledTable, PrintedTable};
use sss::{Fault, KeyedFunction};

/// Opens a message by a key. Refuses a key that does not fit (1), and what opening a message refuses (3, 6 to 9), and nothing is changed; and a tag that
/// is not the one due (10), and the output is zero over the input's length.
#[unsafe(no_mangle)]
pub extern "C" fn futsamboly_open(
    key: &[u8],
    nonce: &[u8],
    masks: &[u8],
    input: &[u8],
    output: &mut [u8],
    tag: &[u8],
) -> u32
    ensures outcome { ByKey key.now (λ f. opening_due f nonce.now masks.now input.now tag.now) output.old result output.new }
    ensures back { KeyFits key.now → OpensAgain (keyed (key_table key.now)) nonce.now masks.now input.now tag.now output.old result output.new }
{
    let answer = match FilledTable::of(key) {
        Ok(mut function) => open(&mut function, nonce, masks, input, output, tag),
        Err(fault) => Err(fault),
    };
    number(answer)
}

/// The same by a table. Where the other refuses a key, this refuses a table that does not keep the law (2).
#[unsafe(no_mangle)]
pub extern "C" fn futsamboly_open_with_table(
    table: &FutsambolyTable,
    nonce: &[u8],
    masks: &[u8],
    input: &[u8],
    output: &mut [u8],
    tag: &[u8],
) -> u32
    ensures outcome { ByTable table.now.words (λ f. opening_due f nonce.now masks.now input.now tag.now) output.old result output.new }
    ensures back { Lawful table.now.words → OpensAgain (keyed table.now.words) nonce.now masks.now input.now tag.now output.old result output.new }
{
    let answer = match given(table) {
        Ok(mut function) => open(&mut function, nonce, masks, input, output, tag),
        Err(fault) => Err(fault),
    };
    number(answer)
}

/// Opens a message.
fn open<K: KeyedFunction>(
    f: &mut K,
    nonce: &[u8],
    masks: &[u8],
    input: &[u8],
    output: &mut [u8],
    tag: &[u8],
) -> Result<(), Fault>
    ensures outcome { Asked K.KeyedFunction f.old f.new (λ g. answered result output.new ≡ opening_due g nonce.now masks.now input.now tag.now output.old) }
    ensures back { Asked K.KeyedFunction f.old f.new (λ g. OpensAgain g nonce.now masks.now input.now tag.now output.old (number_answered result) output.new) }
{
    message::open(f, &PrintedTable, nonce, masks, input, output, tag)
}
