//! Listing a tape.
ghost use Rattle.capi.specs.Listing.{Lists};

use crate::answer::number;
use sss::Fault;
use tape::list_into;

/// Puts the listing of an input into a buffer, and reports how long its text is. Refuses where it does not fit (8): then the whole buffer is zero, and
/// no length is reported.
#[unsafe(no_mangle)]
pub extern "C" fn futsamboly_list(input: &[u8], text: &mut [u8], length: &mut usize) -> u32
    ensures { Lists input.now text.old length.old result text.new length.new }
{
    let answer = match list_into(input, text) {
        Some(long) => {
            *length = long;
            Ok(())
        }
        None => Err(Fault::Output),
    };
    number(answer)
}
