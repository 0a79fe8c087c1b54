//! What a receiver hands out and what it withholds.
ghost use Rattle.std.specs.Prelude.{◌≡◌, ◌<◌, Some};
ghost use Rattle.link.specs.Receiving.{answer_text, catches_up, decided, row_of, verdict_text};

use sss::SEALED;
use std::fmt;

/// A lost receiver that has taken so many sealed words in a row hands out again.
pub(crate) const CATCHES_UP: u8 = 17;

/// The longest row of a lost receiver.
const LAST_ROW: u8 = CATCHES_UP - 1;

/// Where a receiver stands.
#[derive(Clone, Copy, PartialEq, Eq, Debug)]
pub enum Reception {
    /// It began a message, and has been told of no loss since.
    Whole,
    /// It was lost, and has since taken seventeen sealed words in a row: it hands out again.
    Caught,
    /// It is new, was told of a loss, or has ended a message: it withholds. The row is how many of the latest words it took since are sealed:
    /// 0 to 16.
    Lost(u8),
}

/// A call as far as it decides what is handed out: a word by its mask.
#[derive(Clone, Copy)]
pub enum Event {
    Begin,
    Word(u16),
    Break,
    Finish,
}

/// What becomes of a reading or a verdict.
// As an `Option` of the row, `Some` would stand for what is kept back and `None` for what is handed out.
#[derive(Clone, Copy)]
pub enum Release {
    HandOut,
    /// With the row that the receiver then has.
    Withhold(u8),
}

/// What a receiver answers to a word.
// As a `Result`, a word that is withheld would be a failure that `?` carries out of the loop; it is none, and the loop goes on.
#[derive(Clone, Copy, PartialEq, Eq, Debug)]
pub enum Answer {
    /// The plaintext word.
    Reading(u16),
    /// Nothing but the row: how many sealed words were taken in a row, this one with them. At 17 the next word is handed out.
    Withheld(u8),
}

/// What a receiver answers to a tag.
#[derive(Clone, Copy, PartialEq, Eq, Debug)]
pub enum Verdict {
    /// No loss was told since the begin, and the tag is the one that was drawn.
    Agrees,
    /// No loss was told since the begin, and the tag is another.
    Differs,
    /// A loss was told since the begin, or no message was begun.
    Broken,
}

impl fmt::Display for Answer {
    ghost output = { λ answer. Some (answer_text answer) };

    /// A reading in four lower-case hexadecimal digits, the high byte first; a row in decimal.
    #[tactic(auto, using(std::proofs::lemmas::Fmt::hex_byte))]
    fn fmt<W: fmt::Write>(&self, f: &mut fmt::Formatter<W>) -> fmt::Result {
        match self {
            Answer::Reading(plain) => {
                let [high, low] = plain.to_be_bytes();
                write!(f, "reading {high:02x}{low:02x}")
            }
            Answer::Withheld(row) => write!(f, "withheld {row}"),
        }
    }
}

impl fmt::Display for Verdict {
    ghost output = { λ verdict. Some (verdict_text verdict) };

    fn fmt<W: fmt::Write>(&self, f: &mut fmt::Formatter<W>) -> fmt::Result {
        match self {
            Verdict::Agrees => write!(f, "agrees"),
            Verdict::Differs => write!(f, "differs"),
            Verdict::Broken => write!(f, "broken"),
        }
    }
}

/// The receiver's state and the call together decide where it stands next and what it hands out. A lost receiver withholds every word,
/// open ones too; only sealed words add to its row.
#[tactic(auto, unfolding(crate::specs::Receiving::row_after, crate::specs::Receiving::with_row))]
pub(crate) fn decide(reception: Reception, event: Event) -> (Reception, Release)
    requires { row_of reception < catches_up }
    ensures value { result ≡ decided reception event }
    ensures row { row_of result.0 < catches_up }
{
    match (reception, event) {
        (_, Event::Begin) => (Reception::Whole, Release::HandOut),
        (_, Event::Break) => (Reception::Lost(0), Release::Withhold(0)),
        (Reception::Whole, Event::Finish) => (Reception::Lost(0), Release::HandOut),
        (Reception::Caught | Reception::Lost(_), Event::Finish) => {
            (Reception::Lost(0), Release::Withhold(0))
        }
        (Reception::Whole, Event::Word(_)) => (Reception::Whole, Release::HandOut),
        (Reception::Caught, Event::Word(_)) => (Reception::Caught, Release::HandOut),
        (Reception::Lost(LAST_ROW), Event::Word(SEALED)) => {
            (Reception::Caught, Release::Withhold(CATCHES_UP))
        }
        (Reception::Lost(row), Event::Word(SEALED)) => {
            (Reception::Lost(row + 1), Release::Withhold(row + 1))
        }
        (Reception::Lost(_), Event::Word(_)) => (Reception::Lost(0), Release::Withhold(0)),
    }
}
