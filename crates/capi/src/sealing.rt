//! Sealing whole messages.
ghost use Rattle.std.specs.Prelude.{◌≡◌};
ghost use Rattle.sss.specs.Asked.{Asked};
ghost use Rattle.capi.specs.Calls.{ByKey, ByTable, answered};
ghost use Rattle.capi.specs.Whole.{sealing_due, sealing_memory};

use crate::answer::number;
use crate::issuer::{FutsambolyIssuer, FutsambolyNonce, draw};
use crate::table::{FutsambolyTable, given};
use functions::{FilledTable, PrintedTable};
use sss::{Fault, KeyedFunction};

/// Seals a message by a key, with the next nonce of an issuer, which is reported. Refuses a key that does not fit (1) and an issuer that has issued all (4),
/// and nothing is changed; and what sealing a message refuses (6 to 9), and then the nonce is used up.
#[unsafe(no_mangle)]
pub extern "C" fn futsamboly_seal(
    key: &[u8],
    issuer: &mut FutsambolyIssuer,
    masks: &[u8],
    input: &[u8],
    output: &mut [u8],
    tag: &mut [u8],
    nonce: &mut FutsambolyNonce,
) -> u32
    ensures { ByKey key.now (λ f. sealing_due f masks.now input.now) (sealing_memory issuer.old output.old tag.old nonce.old) result (sealing_memory issuer.new output.new tag.new nonce.new) }
{
    let answer = match FilledTable::of(key) {
        Ok(mut function) => seal(&mut function, issuer, masks, input, output, tag, nonce),
        Err(fault) => Err(fault),
    };
    number(answer)
}

/// The same by a table. Where the other refuses a key, this refuses a table that does not keep the law (2).
#[unsafe(no_mangle)]
pub extern "C" fn futsamboly_seal_with_table(
    table: &FutsambolyTable,
    issuer: &mut FutsambolyIssuer,
    masks: &[u8],
    input: &[u8],
    output: &mut [u8],
    tag: &mut [u8],
    nonce: &mut FutsambolyNonce,
) -> u32
    ensures { ByTable table.now.words (λ f. sealing_due f masks.now input.now) (sealing_memory issuer.old output.old tag.old nonce.old) result (sealing_memory issuer.new output.new tag.new nonce.new) }
{
    let answer = match given(table) {
        Ok(mut function) => seal(&mut function, issuer, masks, input, output, tag, nonce),
        Err(fault) => Err(fault),
    };
    number(answer)
}

/// Seals a message with the next nonce of an issuer, and reports it.
fn seal<K: KeyedFunction>(
    f: &mut K,
    issuer: &mut FutsambolyIssuer,
    masks: &[u8],
    input: &[u8],
    output: &mut [u8],
    tag: &mut [u8],
    nonce: &mut FutsambolyNonce,
) -> Result<(), Fault>
    ensures { Asked K.KeyedFunction f.old f.new (λ g. answered result (sealing_memory issuer.new output.new tag.new nonce.new) ≡ sealing_due g masks.now input.now (sealing_memory issuer.old output.old tag.old nonce.old)) }
{
    let drawn = draw(issuer, nonce)?;
    message::seal(f, &PrintedTable, drawn, masks, input, output, tag)
}
