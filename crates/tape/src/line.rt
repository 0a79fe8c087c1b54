//! The lines of a listing.
ghost use Rattle.std.specs.Prelude.{Some};
ghost use Rattle.tape.specs.Lines.{line_text};

use link::{Answer, Verdict};
use sss::{Fault, Layer};
use std::fmt;

/// A line of a listing: of a command, by its place on the tape, or the last one.
#[derive(Clone, Copy, PartialEq, Eq, Debug)]
pub enum Line {
    /// A nonce: a message began.
    Nonce { place: usize },
    /// A word, and what the receiver answered.
    Word { place: usize, answer: Answer },
    /// A break.
    Break { place: usize },
    /// A tag, and the verdict.
    Tag { place: usize, verdict: Verdict },
    /// The end of the tape, whose length this is.
    End { length: usize },
    /// A refusal: nothing is listed after it.
    Refused(Fault),
}

impl fmt::Display for Line {
    ghost output = { λ line. Some (line_text line) };

    fn fmt<W: fmt::Write>(&self, f: &mut fmt::Formatter<W>) -> fmt::Result {
        match self {
            Line::Nonce { place } => write!(f, "{place} nonce"),
            Line::Word { place, answer } => write!(f, "{place} {answer}"),
            Line::Break { place } => write!(f, "{place} break"),
            Line::Tag { place, verdict } => write!(f, "{place} {verdict}"),
            Line::End { length } => write!(f, "end {length}"),
            Line::Refused(fault) if fault.layer() == Layer::Tape => {
                write!(f, "refused {} at {}", fault.number(), fault.place())
            }
            Line::Refused(fault) => write!(f, "refused {}", fault.number()),
        }
    }
}
