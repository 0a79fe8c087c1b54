//! Seals and opens the messages of another program, read from standard input, and reports where the two differ.
#![tactic(auto)]

ghost use Rattle.std.specs.Prelude.{◌≡◌, OnOk, IfSome};
ghost use Rattle.std.specs.Io.KnownBytes.{Appends};
ghost use Rattle.fields.specs.Texts.{numbered};
ghost use Rattle.vectors.specs.Counts.{Counted, Taken};
ghost use Rattle.vectors.specs.Reports.{Compared, Prints, Told};
ghost use Rattle.vectors.specs.Runs.{PrintsReport};
ghost use Rattle.vectors.specs.Tallies.{after_malformed};
ghost use Rattle.vectors.specs.Texts.{malformed_text};

mod compare;
mod flaw;
mod mask;
mod report;
mod vector;
mod words;

use fields::Lines;
use report::Tally;
use std::alloc::Global;
use std::io;
use std::io::{BufRead, BufReader, Read, Write};
use vector::{Malformed, Vector};

/// Of how many lines, from the first on, the messages are printed in full.
const SHOWN: usize = 5;

// A line's number, the tally and the writer are passed one by one: a struct of a number and two references would be no plainer for three short functions.
/// Reports a line that is not a message.
fn malformed<W: Write>(
    number: usize,
    why: Malformed,
    tally: &mut Tally,
    writer: &mut W,
) -> io::Result<()>
    ensures after { tally.new ≡ after_malformed tally.old }
    ensures printed { OnOk result (Appends (W.contents writer.old) (W.contents writer.new) (numbered number (malformed_text why))) }
{
    tally.malformed();
    writeln!(writer, "line {number}: {why}")
}

/// Seals and opens a message in every way, counts it, and reports what differs.
fn compared<W: Write>(
    heap: Global,
    number: usize,
    vector: &Vector,
    tally: &mut Tally,
    writer: &mut W,
) -> io::Result<()>
    ensures after { Counted vector.now tally.old tally.new }
    ensures printed { OnOk result (Prints (Compared number vector.now tally.old tally.new) (W.contents writer.old) (W.contents writer.new)) }
{
    let words = vector.wire.len();
    let shown = tally.messages < SHOWN;
    match compare::differences(heap, vector) {
        Ok(found) => {
            tally.compared(words, found.is_empty());
            report::comparison(writer, number, vector, shown, &found)
        }
        Err(why) => {
            tally.refused(words);
            writeln!(writer, "line {number}: {why}")
        }
    }
}

/// Takes one line of the input.
fn take<W: Write>(
    heap: Global,
    number: usize,
    line: &[u8],
    tally: &mut Tally,
    writer: &mut W,
) -> io::Result<()>
    ensures after { Taken line.now tally.old tally.new }
    ensures printed { OnOk result (Prints (Told number line.now tally.old tally.new) (W.contents writer.old) (W.contents writer.new)) }
{
    match Vector::parse(heap, line) {
        Ok(vector) => compared(heap, number, &vector, tally, writer),
        Err(why) => malformed(number, why, tally, writer),
    }
}

/// Takes each line of an input, and reports at the end how many messages differ.
fn take_all<R: Read + Drop, W: Write>(heap: Global, reader: R, writer: &mut W) -> io::Result<()>
    ensures { OnOk result (IfSome (R.remaining reader) (PrintsReport (W.contents writer.old) (W.contents writer.new))) }
{
    report::figures(writer, functions::self_test())?;
    let mut tally = Tally::new();
    // The number of the line taken last. Counted here and not by `enumerate`: nothing bounds how many lines come, and the number stays at the largest number
    // that there is.
    let mut number = 0usize;
    // Whether the line read last is empty, and not taken yet: it is no message where the input ends there.
    let mut held = false;
    for read in BufReader::new(heap, reader)?.split(heap, b'\n') {
        let line = read?;
        if held {
            number = number.saturating_add(1);
            take(heap, number, b"", &mut tally, writer)?;
        }
        held = line.is_empty();
        if !held {
            number = number.saturating_add(1);
            take(heap, number, line.as_slice(), &mut tally, writer)?;
        }
    }
    report::summary(writer, tally)
}

fn main(rt: HostRuntime) -> io::Result<()> {
    // With no memory to hold a line back, each piece of it is written as it comes.
    match Lines::new(rt.alloc(), rt.stdout()) {
        Ok(mut lines) => take_all(rt.alloc(), rt.reader(), &mut lines),
        Err(_) => take_all(rt.alloc(), rt.reader(), &mut rt.stdout()),
    }
}
