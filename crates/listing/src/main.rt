//! Lists a tape: reads a key and a tape from standard input, and prints what a receiver makes of each command.
#![tactic(auto)]

ghost use Rattle.std.specs.Prelude.{OnOk, IfSome};
ghost use Rattle.listing.specs.Programs.{PrintsListing};

use std::alloc::Global;
use std::io;
use std::io::{Read, Write};
use tape::{LONGEST_INPUT, listing};

/// How much of the input is read at most: one byte more than is taken shows that it is too long.
const MOST: u64 = LONGEST_INPUT as u64 + 1;

/// Reads an input, never more of it than one byte past what is taken, and writes its listing and nothing else.
fn list<R: Read + Drop, W: Write>(heap: Global, reader: R, writer: &mut W) -> io::Result<()>
    ensures { OnOk result (IfSome (R.remaining reader) (PrintsListing (W.contents writer.old) (W.contents writer.new))) }
{
    let mut input = Vec::new(heap);
    reader.take(MOST).read_to_end(&mut input)?;
    let text = listing(heap, &input)?;
    writer.write_all(text.as_bytes())
}

fn main(rt: HostRuntime) -> io::Result<()> {
    list(rt.alloc(), rt.reader(), &mut rt.stdout())
}
