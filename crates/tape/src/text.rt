//! The listing of an input, as text.
ghost use Rattle.std.specs.Prelude.{IfOk, OnOk, string_bytes};
ghost use Rattle.tape.specs.Listing.{AppendsLines, ListingText};

use crate::line::Line;
use crate::replay::Replay;
use sss::{Coefficient, KeyedFunction};
use std::alloc::{AllocError, Global};

/// Writes the lines of a replay behind a text.
fn write_lines<K: KeyedFunction + Drop, C: Coefficient + Drop>(
    text: &mut String,
    replay: Replay<'_, K, C>,
) -> Result<(), AllocError>
    ensures { OnOk result (AppendsLines K.KeyedFunction C.Coefficient replay.entry (string_bytes text.old) (string_bytes text.new)) }
{
    for line in replay {
        writeln!(text, "{line}")?;
    }
    Ok(())
}

/// The listing of an input, a byte N, N key bytes and a tape: a line for each command that a new receiver with the key takes, and the last line,
/// each ended by 0x0A. Of an input that is too long, or whose key does not load, the refusal is the only line. An `Err` is want of memory.
pub fn listing(alloc: Global, input: &[u8]) -> Result<String, AllocError>
    ensures { IfOk result (λ text. ListingText input.now (string_bytes text)) }
{
    let mut text = String::new(alloc);
    match Replay::of_input(input) {
        Ok(replay) => write_lines(&mut text, replay)?,
        Err(fault) => writeln!(text, "{}", Line::Refused(fault))?,
    }
    Ok(text)
}
