//! Where a receiver stands, and how its calls move it.
ghost use Rattle.std.specs.Prelude.{◌≡◌, ◌<◌, ◌≤◌, MatchOption};
ghost use Rattle.link.specs.Receiving.{catches_up, decided, row_of};

use crate::reception::{CATCHES_UP, Event, Reception, Release, decide};

/// A receiver's footing: a lost one's row is 16 at most.
#[derive(Clone, Copy)]
pub struct Footing {
    reception: Reception,
    ghost row: { row_of reception < catches_up },
}

impl Footing {
    /// Lost, with row 0.
    pub(crate) fn lost() -> Self
        ensures { result.reception ≡ Reception.Lost 0 }
    {
        Footing {
            reception: Reception::Lost(0),
        }
    }

    /// A footing where a receiver stood. A lost one's row above 16 is none.
    pub(crate) fn at(reception: Reception) -> Option<Self>
        ensures { MatchOption result (catches_up ≤ row_of reception) (λ footing. (row_of reception < catches_up) × (footing.reception ≡ reception)) }
    {
        match reception {
            Reception::Lost(CATCHES_UP..) => None,
            _ => Some(Footing { reception }),
        }
    }

    /// Where the receiver stands.
    pub(crate) fn reception(&self) -> Reception
        ensures { result ≡ self.now.reception }
    {
        self.reception
    }

    /// Goes where the state and the call lead together, and answers what becomes of the reading or the verdict.
    pub(crate) fn go(&mut self, event: Event) -> Release
        ensures release { result ≡ (decided self.old.reception event).1 }
        ensures reception { self.new.reception ≡ (decided self.old.reception event).0 }
    {
        let (reception, release) = decide(self.reception, event);
        self.reception = reception;
        release
    }
}
