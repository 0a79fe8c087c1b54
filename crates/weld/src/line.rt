//! The lines of the report.
ghost use Rattle.std.specs.Prelude.{Some, None};
ghost use Rattle.weld.specs.Lines.{CarriesOn, PlacesFit, TellsOne, told, told_of_word};
ghost use Rattle.weld.specs.Texts.{line_text, rows_text};

use crate::hex::{HexWord, HexWords};
use crate::passage::{Event, Sent};
use crate::places::Places;
use crate::span::Span;
use arrayvec::ArrayVec;
use fields::{Hex, Tag};
use link::{Answer, Verdict};
use std::fmt;

/// The most readings on a line.
const WIDTH: usize = 10;

/// A line of the report.
#[derive(Drop)]
pub enum Line {
    /// A message begins.
    Heading {
        message: usize,
        nonce: [u8; 6],
    },
    /// Readings of consecutive words, each the plaintext of its word.
    Readings {
        places: Places,
        values: ArrayVec<u16, WIDTH>,
    },
    /// A reading that is not the plaintext of its word.
    False {
        places: Places,
        reading: u16,
        plain: u16,
    },
    /// Consecutive words that are withheld, with rows that rise one by one.
    Withheld {
        places: Places,
        rows: Span<u8>,
    },
    /// Consecutive words that are lost.
    Lost(Places),
    /// A wire word that came altered.
    Altered {
        places: Places,
        wire: u16,
        came: u16,
    },
    /// The receiver is told of a loss.
    Break,
    /// A tag was received.
    Ended {
        tag: [u16; 8],
        verdict: Verdict,
    },
    /// The message was given up.
    Abandoned,
}

impl From<&Event> for Line {
    ghost from_gives = { λ event line. TellsOne (told event.now) line };

    fn from(event: &Event) -> Line {
        match *event {
            Event::Begun { message, nonce } => Line::Heading { message, nonce },
            Event::Word { sent, answer } => Line::of_word(&sent, answer),
            Event::Altered { sent, came } => Line::Altered {
                places: Places::from(&sent),
                wire: sent.wire,
                came,
            },
            Event::Break => Line::Break,
            Event::Ended { tag, verdict } => Line::Ended { tag, verdict },
            Event::Abandoned => Line::Abandoned,
        }
    }
}

impl Line {
    /// The line of a word alone.
    fn of_word(sent: &Sent, answer: Option<Answer>) -> Line
        ensures { TellsOne (told_of_word sent.now answer) result }
    {
        let places = Places::from(sent);
        let plain = sent.plain;
        match answer {
            None => Line::Lost(places),
            Some(Answer::Withheld(row)) => Line::Withheld {
                places,
                rows: Span::of(row),
            },
            Some(Answer::Reading(reading)) if reading != plain => Line::False {
                places,
                reading,
                plain,
            },
            Some(Answer::Reading(reading)) => {
                let mut values = ArrayVec::new();
                values.push(reading);
                Line::Readings { places, values }
            }
        }
    }

    /// Takes what is seen next into this line, where the line tells of consecutive words that it carries on.
    pub(crate) fn takes(&mut self, event: &Event) -> bool
        requires { PlacesFit self.old }
        ensures { CarriesOn result self.old (told event.now) self.new }
    {
        let Event::Word { sent, answer } = event else {
            return false;
        };
        match (self, answer) {
            (Line::Lost(places), None) => one_more_lost(places, sent),
            (Line::Withheld { places, rows }, Some(Answer::Withheld(row))) => {
                one_more_withheld(places, rows, sent, *row)
            }
            (Line::Readings { places, values }, Some(Answer::Reading(reading))) => {
                one_more_reading(places, values, sent, *reading)
            }
            _ => false,
        }
    }
}

/// Takes one more lost word in, if it follows under the same mask.
fn one_more_lost(places: &mut Places, sent: &Sent) -> bool
    requires { PlacesFit (Line.Lost places.old) }
    ensures { CarriesOn result (Line.Lost places.old) (told_of_word sent.now None) (Line.Lost places.new) }
{
    places.takes(sent)
}

/// Takes one more withheld word in, if it follows under the same mask and its row follows too.
fn one_more_withheld(places: &mut Places, rows: &mut Span<u8>, sent: &Sent, row: u8) -> bool
    requires { PlacesFit (Line.Withheld places.old rows.old) }
    ensures { CarriesOn result (Line.Withheld places.old rows.old) (told_of_word sent.now (Some (Answer.Withheld row))) (Line.Withheld places.new rows.new) }
{
    let goes_on = rows.leads_to(row) && places.takes(sent);
    if goes_on {
        rows.take(row);
    }
    goes_on
}

/// Takes one more reading in, if its word follows under the same mask, it is the plaintext of that word, and the line has room for it.
fn one_more_reading(
    places: &mut Places,
    values: &mut ArrayVec<u16, WIDTH>,
    sent: &Sent,
    reading: u16,
) -> bool
    requires { PlacesFit (Line.Readings places.old values.old) }
    ensures { CarriesOn result (Line.Readings places.old values.old) (told_of_word sent.now (Some (Answer.Reading reading))) (Line.Readings places.new values.new) }
{
    let goes_on = reading == sent.plain && !values.is_full() && places.takes(sent);
    if goes_on {
        values.push(reading);
    }
    goes_on
}

impl fmt::Display for Line {
    ghost output = { λ line. Some (line_text line) };

    fn fmt<W: fmt::Write>(&self, f: &mut fmt::Formatter<W>) -> fmt::Result {
        match self {
            Line::Heading { message, nonce } => {
                write!(f, "message {message}, nonce {}", Hex(nonce))
            }
            Line::Readings { places, values } => {
                write!(f, "  {places}: reading{}", HexWords(values))
            }
            Line::False {
                places,
                reading,
                plain,
            } => {
                let reading = HexWord(*reading);
                let plain = HexWord(*plain);
                write!(
                    f,
                    "  {places}: reading {reading} false, the plaintext is {plain}"
                )
            }
            Line::Withheld { places, rows } => write!(f, "  {places}: {}", WithheldRows(*rows)),
            Line::Lost(places) => write!(f, "  {places}: lost at a weld"),
            Line::Altered { places, wire, came } => {
                let wire = HexWord(*wire);
                let came = HexWord(*came);
                write!(
                    f,
                    "  {places}: altered on the way, wire {wire} came as {came}"
                )
            }
            Line::Break => write!(f, "  break: the receiver is told of the loss"),
            Line::Ended { tag, verdict } => write!(f, "  tag {}: verdict {verdict}", Tag(*tag)),
            Line::Abandoned => write!(f, "  abandoned by the sealer: no tag, no verdict"),
        }
    }
}

/// The rows of withheld words to print.
#[derive(Clone, Copy)]
struct WithheldRows(Span<u8>);

impl fmt::Display for WithheldRows {
    ghost output = { λ rows. Some (rows_text rows.0) };

    fn fmt<W: fmt::Write>(&self, f: &mut fmt::Formatter<W>) -> fmt::Result {
        let Span { first, last } = self.0;
        if first == last {
            write!(f, "withheld {first}")
        } else {
            write!(f, "withheld, rows {first} to {last}")
        }
    }
}
