//! The counts of a run.
ghost use Rattle.std.specs.Prelude.{◌≡◌, Some};
ghost use Rattle.weld.specs.Tallies.{after_answer, after_event, after_sent, counted};
ghost use Rattle.weld.specs.Texts.{tally_text};

use crate::passage::Event;
use link::Answer;
use std::fmt;

/// How many words were sent, and what came of them.
#[derive(Clone, Copy, Default)]
pub struct Tally {
    /// The words that the sealer took.
    pub sealed: usize,
    /// The words that the receiver took.
    pub received: usize,
    /// Those of them that it handed a reading out for.
    pub handed_out: usize,
    /// Those of them that it withheld.
    pub withheld: usize,
    /// The readings that are not the plaintext of their word.
    pub false_readings: usize,
}

impl Tally {
    /// Counts a word that was sent.
    fn sent(&mut self)
        ensures { self.new ≡ after_sent self.old }
    {
        self.sealed = self.sealed.saturating_add(1);
    }

    /// Counts the answer to a word that was given to the sealer as this plaintext.
    fn answered(&mut self, plain: u16, answer: Answer)
        ensures { self.new ≡ after_answer plain answer self.old }
    {
        self.received = self.received.saturating_add(1);
        match answer {
            Answer::Reading(reading) => {
                self.handed_out = self.handed_out.saturating_add(1);
                if reading != plain {
                    self.false_readings = self.false_readings.saturating_add(1);
                }
            }
            Answer::Withheld(_) => {
                self.withheld = self.withheld.saturating_add(1);
            }
        }
    }

    /// Counts one thing that is seen.
    fn count(&mut self, event: &Event)
        ensures { self.new ≡ after_event self.old event.now }
    {
        match event {
            Event::Word { sent, answer } => {
                self.sent();
                if let Some(answer) = answer {
                    self.answered(sent.plain, *answer);
                }
            }
            Event::Begun { .. }
            | Event::Altered { .. }
            | Event::Break
            | Event::Ended { .. }
            | Event::Abandoned => {}
        }
    }

    /// The counts of all that is seen.
    #[tactic(auto, unfolding(crate::specs::Tallies::counted))]
    pub(crate) fn of(events: &[Event]) -> Tally
        ensures { result ≡ counted events.now }
    {
        events.iter().fold(Tally::default(), |mut tally, event| {
            tally.count(event);
            tally
        })
    }
}

impl fmt::Display for Tally {
    ghost output = { λ tally. Some (tally_text tally) };

    fn fmt<W: fmt::Write>(&self, f: &mut fmt::Formatter<W>) -> fmt::Result {
        let Tally {
            sealed,
            received,
            handed_out,
            withheld,
            false_readings,
        } = self;
        write!(
            f,
            "sealed {sealed} received {received} handed-out {handed_out} withheld {withheld} false {false_readings}"
        )
    }
}
