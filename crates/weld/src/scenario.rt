//! The scenario: four messages, and what the joint of the pipe does to them.
ghost use Rattle.std.specs.Prelude.{◌≡◌};
ghost use Rattle.weld.specs.Scenario.{IsFateAt, mask_at, plain_at, thickness_at};

use crate::span::Span;
use link::SealerCall;
use sss::{OPEN, SEALED};

/// The key of both ends.
pub(crate) const KEY: [u8; 8] = [0x46, 0x75, 0x74, 0x73, 0x61, 0x6d, 0x62, 0x6f];

/// The number of the run.
pub(crate) const RUN: u32 = 1207;

/// The mask of a part word: the low twelve bits are sealed.
const PART: u16 = 0x0FFF;

/// The mileage at a message's first word, in metres.
const MILEAGE: u16 = 2000;

/// What an altered word is changed by on the way.
pub(crate) const ALTERATION: u16 = 0x0100;

/// How a message ends.
#[derive(Clone, Copy)]
pub enum Ending {
    /// With its tag.
    Finished,
    /// Given up, with no tag.
    Abandoned,
}

/// What becomes of a word on the way.
#[derive(Clone, Copy)]
pub enum Fate {
    /// It comes as it was sent.
    Comes,
    /// It comes with some bits changed.
    Altered,
    /// It is lost.
    Lost,
    /// It is the last word of a loss, which is then noticed.
    LostLast,
}

/// A message, and what becomes of its words. All words are sealed but the open and the part ones.
#[derive(Clone, Copy)]
pub struct Plan {
    /// How many words it has.
    pub words: u16,
    /// The places of its milestones, which are open words.
    pub milestones: &'static [u16],
    /// The place of its part word.
    pub part: Option<u16>,
    /// Which words are lost at a weld, each loss by its places.
    pub losses: &'static [Span<u16>],
    /// The place of the word that is altered on the way.
    pub altered: Option<u16>,
    /// How it ends.
    pub ending: Ending,
}

/// The messages of the run.
pub(crate) const PLANS: [Plan; 4] = [
    Plan {
        words: 60,
        milestones: &[5, 33, 41],
        part: None,
        losses: &[
            Span {
                first: 12,
                last: 14,
            },
            Span {
                first: 38,
                last: 40,
            },
        ],
        altered: None,
        ending: Ending::Finished,
    },
    Plan {
        words: 30,
        milestones: &[],
        part: None,
        losses: &[Span { first: 6, last: 8 }],
        altered: None,
        ending: Ending::Abandoned,
    },
    Plan {
        words: 40,
        milestones: &[],
        part: None,
        losses: &[],
        altered: Some(10),
        ending: Ending::Finished,
    },
    Plan {
        words: 20,
        milestones: &[4, 14],
        part: Some(9),
        losses: &[],
        altered: None,
        ending: Ending::Finished,
    },
];

/// The wall thickness at a place, in hundredths of a millimetre.
pub(crate) fn thickness(place: u16) -> u16
    ensures { result ≡ thickness_at place }
{
    940 + (u32::from(place) * 37 % 61) as u16
}

impl Plan {
    /// The call that seals the word at a place: the mileage at a milestone, in an open word, and else the wall thickness.
    pub(crate) fn word(&self, place: u16) -> SealerCall
        ensures { result ≡ SealerCall.Word (mask_at self.now place) (plain_at self.now place) }
    {
        if self.milestones.contains(&place) {
            let plain = MILEAGE.saturating_add(place);
            return SealerCall::Word { mask: OPEN, plain };
        }
        let mask = if self.part == Some(place) {
            PART
        } else {
            SEALED
        };
        let plain = thickness(place);
        SealerCall::Word { mask, plain }
    }

    /// What becomes of the word at a place.
    pub(crate) fn fate(&self, place: u16) -> Fate
        ensures { IsFateAt self.now place result }
    {
        if self.altered == Some(place) {
            return Fate::Altered;
        }
        match self.losses.iter().find(|loss| loss.contains(&place)) {
            Some(loss) if loss.last == place => Fate::LostLast,
            Some(_) => Fate::Lost,
            None => Fate::Comes,
        }
    }
}
