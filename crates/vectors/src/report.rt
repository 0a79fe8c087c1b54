//! What the program prints, and the counts that it keeps.
ghost use Rattle.std.specs.Prelude.{◌≡◌, OnOk, cond, codes};
ghost use Rattle.std.specs.Io.KnownBytes.{Appends};
ghost use Rattle.vectors.specs.Reports.{figures_text, differences_text, heading_text, comparison_text, summary_text};
ghost use Rattle.vectors.specs.Tallies.{fresh, after_malformed, after_refused, after_compared};

use crate::compare::{CoefficientName, Difference, FunctionName};
use crate::mask;
use crate::vector::Vector;
use fields::{Hex, Tag};
use sss::MaskKind;
use std::io;
use std::io::Write;

/// How many messages were seen, and what came of them.
#[derive(Clone, Copy, Default)]
pub struct Tally {
    /// The lines that should be messages, those that could not be read too.
    pub messages: usize,
    /// The words of the messages that were read.
    pub words: usize,
    /// The messages that differ, were not read or were refused.
    pub differ: usize,
    /// The messages that were sealed and opened.
    pub compared: usize,
    /// The words of those.
    pub worked: usize,
}

impl Tally {
    /// No message yet.
    pub(crate) fn new() -> Tally
        ensures value { result ≡ fresh }
    {
        Tally::default()
    }

    /// Counts a line that could not be read.
    pub(crate) fn malformed(&mut self)
        ensures after { self.new ≡ after_malformed self.old }
    {
        self.messages = self.messages.saturating_add(1);
        self.differ = self.differ.saturating_add(1);
    }

    /// Counts a message that the library refused.
    pub(crate) fn refused(&mut self, words: usize)
        ensures after { self.new ≡ after_refused words self.old }
    {
        self.malformed();
        self.words = self.words.saturating_add(words);
    }

    /// Counts a message that was sealed and opened.
    pub(crate) fn compared(&mut self, words: usize, agrees: bool)
        ensures after { self.new ≡ after_compared words agrees self.old }
    {
        self.messages = self.messages.saturating_add(1);
        self.words = self.words.saturating_add(words);
        self.compared = self.compared.saturating_add(1);
        self.worked = self.worked.saturating_add(words);
        if !agrees {
            self.differ = self.differ.saturating_add(1);
        }
    }
}

/// How many of the known figures are as published.
fn extent(hold: bool) -> &'static str
    ensures { result.now ≡ cond hold (codes "all") (codes "NOT") }
{
    if hold { "all" } else { "NOT" }
}

/// Prints whether the library works out the known figures.
pub(crate) fn figures<W: Write>(writer: &mut W, hold: bool) -> io::Result<()>
    ensures { OnOk result (Appends (W.contents writer.old) (W.contents writer.new) (figures_text hold)) }
{
    let extent = extent(hold);
    writeln!(writer, "known figures of the cipher: {extent} as published")
}

/// Prints what differs from a message.
fn differences<W: Write>(writer: &mut W, number: usize, found: &[Difference]) -> io::Result<()>
    ensures { OnOk result (Appends (W.contents writer.old) (W.contents writer.new) (differences_text number found.now)) }
{
    for difference in found {
        writeln!(writer, "line {number}: {difference}")?;
    }
    Ok(())
}

/// Whether a message agrees.
fn verdict(agrees: bool) -> &'static str
    ensures { result.now ≡ cond agrees (codes "agree") (codes "do not agree") }
{
    if agrees { "agree" } else { "do not agree" }
}

/// Prints what a message is made of, and whether it agrees.
fn heading<W: Write>(writer: &mut W, number: usize, vector: &Vector, agrees: bool) -> io::Result<()>
    ensures { OnOk result (Appends (W.contents writer.old) (W.contents writer.new) (heading_text number vector.now agrees)) }
{
    let length = vector.key.len();
    let nonce = Hex(&vector.nonce);
    let sealed = mask::count(MaskKind::Sealed, &vector.plaintext);
    let unsealed = mask::count(MaskKind::Open, &vector.plaintext);
    let part = mask::count(MaskKind::Part, &vector.plaintext);
    let tag = Tag(vector.tag);
    let verdict = verdict(agrees);
    writeln!(
        writer,
        "line {number}: key {length} bytes, nonce {nonce}, words {sealed} sealed {unsealed} open {part} part, tag {tag}; wire, plaintext and tag {verdict} in all 10 ways"
    )
}

/// Prints what comparing a message found, and where it is shown what it is made of.
pub(crate) fn comparison<W: Write>(
    writer: &mut W,
    number: usize,
    vector: &Vector,
    shown: bool,
    found: &[Difference],
) -> io::Result<()>
    ensures { OnOk result (Appends (W.contents writer.old) (W.contents writer.new) (comparison_text number vector.now shown found.now)) }
{
    if !shown {
        return differences(writer, number, found);
    }
    heading(writer, number, vector, found.is_empty())?;
    differences(writer, number, found)
}

/// Prints the end of the report.
pub(crate) fn summary<W: Write>(writer: &mut W, tally: Tally) -> io::Result<()>
    ensures { OnOk result (Appends (W.contents writer.old) (W.contents writer.new) (summary_text tally)) }
{
    let Tally {
        messages,
        words,
        differ,
        compared,
        worked,
    } = tally;
    writeln!(
        writer,
        "{compared} messages with {worked} words sealed and opened in each of 10 ways"
    )?;
    writeln!(
        writer,
        "keyed functions: {}, {}, {}, {}, {}",
        FunctionName::FromKey,
        FunctionName::FilledTable,
        FunctionName::GivenTable,
        FunctionName::LazyOverKey,
        FunctionName::LazyTwice
    )?;
    writeln!(
        writer,
        "coefficients: {}, {}",
        CoefficientName::PrintedTable,
        CoefficientName::FieldRule
    )?;
    writeln!(writer, "{differ} messages differ")?;
    writeln!(writer, "messages {messages} words {words} differ {differ}")
}
