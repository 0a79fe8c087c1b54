//! Seals and opens whole messages as requests on standard input ask, and prints what each call answered and left in its buffers.
#![tactic(auto)]

ghost use Rattle.std.specs.Prelude.{MatchResult, OnOk, IfSome};
ghost use Rattle.requests.specs.Replies.{Answers, NotAnswered};
ghost use Rattle.requests.specs.Runs.{Takes, PrintsReplies};

mod call;
mod field;
mod reply;
mod request;
mod tally;

use reply::Reply;
use request::{Request, Unread};
use std::alloc::Global;
use std::io;
use std::io::{BufRead, BufReader, Read, Write};
use tally::Tally;

/// Reads a line and does what it asks for.
fn answer(heap: Global, line: &[u8]) -> Result<Reply, Unread>
    ensures { MatchResult result (Answers line.now) (NotAnswered line.now) }
{
    match Request::parse(heap, line)? {
        Request::Seal(request) => Ok(call::seal(heap, &request)?),
        Request::Open(request) => Ok(call::open(heap, &request)?),
    }
}

/// Takes one line of the input: counts it, and writes the line that says what came of it.
fn take<W: Write>(heap: Global, line: &[u8], tally: &mut Tally, writer: &mut W) -> io::Result<()>
    ensures { OnOk result (Takes line.now tally.old tally.new (W.contents writer.old) (W.contents writer.new)) }
{
    match answer(heap, line) {
        Ok(reply) => {
            tally.replied(&reply);
            writeln!(writer, "{reply}")
        }
        Err(why) => {
            tally.unread();
            let number = tally.requests;
            writeln!(writer, "line {number}: {why}")
        }
    }
}

/// Takes each line of an input, and writes at the end how many came to what.
fn take_all<R: Read + Drop, W: Write>(heap: Global, reader: R, writer: &mut W) -> io::Result<()>
    ensures { OnOk result (IfSome (R.remaining reader) (PrintsReplies (W.contents writer.old) (W.contents writer.new))) }
{
    let mut tally = Tally::new();
    for line in BufReader::new(heap, reader)?.split(heap, b'\n') {
        take(heap, line?.as_slice(), &mut tally, writer)?;
    }
    writeln!(writer, "{tally}")
}

fn main(rt: HostRuntime) -> io::Result<()> {
    take_all(rt.alloc(), rt.reader(), &mut rt.stdout())
}
