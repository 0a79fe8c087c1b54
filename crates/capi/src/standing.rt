//! Where a receiver in the caller's memory stands: taken up at the begin of a call, and put down at its end.
ghost use Rattle.std.specs.Prelude.{◌≡◌, ◌<◌, MatchResult};
ghost use Rattle.sss.specs.Cipher.{Lawful, key_table};
ghost use Rattle.functions.specs.Functions.{from_key_table};
ghost use Rattle.link.specs.Receiving.{catches_up, row_of};
ghost use Rattle.capi.specs.Receivers.{SetUp, byte_of, key_of, reception_of, put_down};
ghost use Rattle.capi.specs.Standing.{Stands};

use crate::receiver::FutsambolyReceiver;
use functions::{FromKey, PrintedTable};
use link::{Receiver, Reception};
use sss::{Fault, Registers};

/// The byte of a caught receiver. A lower one is that of a lost receiver, and its row.
const CAUGHT: u8 = 17;

/// The byte of a whole receiver.
const WHOLE: u8 = 18;

/// The receiver of the link that stands there. Where none was set up it refuses.
pub(crate) fn take_up(
    receiver: &FutsambolyReceiver,
) -> Result<Receiver<FromKey, PrintedTable>, Fault>
    ensures { MatchResult result (Stands receiver.now) (λ fault. (SetUp receiver.now → ⊥) × (fault ≡ Fault.Key)) }
{
    let function = key_function(receiver)?;
    let registers = Registers::from_words(receiver.cipher, receiver.check);
    // A lost receiver's row is below seventeen here, so one stands so, and this is proved not to stop.
    let linked = Receiver::resumed(
        function,
        PrintedTable,
        registers,
        reception(receiver.state),
    ).unwrap();
    Ok(linked)
}

/// Puts down where a receiver stands.
pub(crate) fn put_down(receiver: &mut FutsambolyReceiver, linked: &Receiver<FromKey, PrintedTable>)
    ensures { receiver.new ≡ put_down receiver.old linked.now.engine.registers linked.now.footing.reception }
{
    let registers = linked.registers();
    receiver.cipher = registers.cipher_words();
    receiver.check = registers.check_words();
    receiver.state = byte(linked.reception());
}

/// The keyed function of its key. A length of 0 or above 16 is that of no key.
fn key_function(receiver: &FutsambolyReceiver) -> Result<FromKey, Fault>
    ensures { MatchResult result (λ f. SetUp receiver.now × (from_key_table f ≡ key_table (key_of receiver.now)) × Lawful (from_key_table f)) (λ fault. (SetUp receiver.now → ⊥) × (fault ≡ Fault.Key)) }
{
    let length = usize::from(receiver.key_length);
    if length > 16 {
        return Err(Fault::Key);
    }
    FromKey::of(&receiver.key[..length])
}

/// Where a receiver stands, by its byte.
fn reception(byte: u8) -> Reception
    ensures value { result ≡ reception_of byte }
    ensures row { row_of result < catches_up }
{
    match byte {
        ..CAUGHT => Reception::Lost(byte),
        CAUGHT => Reception::Caught,
        WHOLE => Reception::Whole,
        _ => Reception::Lost(0),
    }
}

/// The byte for where a receiver stands.
fn byte(reception: Reception) -> u8
    ensures { result ≡ byte_of reception }
{
    match reception {
        Reception::Whole => WHOLE,
        Reception::Caught => CAUGHT,
        Reception::Lost(row) => row,
    }
}
