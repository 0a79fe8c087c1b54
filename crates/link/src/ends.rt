//! Either end of a link by its calls: whatever the state and the call, one answer for the log.
ghost use Rattle.std.specs.Prelude.{◌≡◌, None, Some};
ghost use Rattle.link.specs.Ends.{Leads, ReceiverCallFits, ReceiverMakes, SealerCallFits, SealerMakes, open_count};
ghost use Rattle.link.specs.Noting.{NotesReceiver, NotesSealer, open_noted};

use crate::call::{ReceiverCall, ReceiverEntry, SealerCall, SealerEntry, Unmade};
use crate::receiver::Receiver;
use crate::sealer::{OpenMessage, ReadySealer};
use sss::{Coefficient, KeyedFunction};

/// The sealing end, with or without a message open.
#[derive(Drop)]
pub enum Sealer<K, C> {
    Ready(ReadySealer<K, C>),
    Open(OpenMessage<K, C>),
}

impl<K: KeyedFunction, C: Coefficient> ReadySealer<K, C> {
    /// Makes a call. Any but a begin is out of turn, and not made.
    fn take(self, call: SealerCall) -> (Sealer<K, C>, SealerEntry)
        ensures made { SealerMakes K.KeyedFunction C.Coefficient (Sealer.Ready self) call result.1 result.0 }
        ensures noted { NotesSealer None call result.1 }
        ensures turn { open_count result.0 ≡ open_noted None result.1 }
        ensures fits { SealerCallFits call }
    {
        let unmade = match call {
            SealerCall::Begin(nonce) => {
                let bytes = nonce.bytes();
                return (Sealer::Open(self.begin(nonce)), SealerEntry::Begun(bytes));
            }
            SealerCall::Word { mask, plain } => Unmade::Word { mask, plain },
            SealerCall::Finish => Unmade::Finish,
            SealerCall::Abandon => Unmade::Abandon,
        };
        (Sealer::Ready(self), SealerEntry::OutOfTurn(unmade))
    }
}

impl<K: KeyedFunction, C: Coefficient> OpenMessage<K, C> {
    /// Makes a call. A begin is out of turn, and not made.
    fn take(mut self, call: SealerCall) -> (Sealer<K, C>, SealerEntry)
        ensures made { SealerMakes K.KeyedFunction C.Coefficient (Sealer.Open self) call result.1 result.0 }
        ensures noted { NotesSealer (Some self.words) call result.1 }
        ensures turn { open_count result.0 ≡ open_noted (Some self.words) result.1 }
        ensures fits { SealerCallFits call }
    {
        match call {
            SealerCall::Begin(nonce) => {
                let unmade = Unmade::Begin(nonce.bytes());
                (Sealer::Open(self), SealerEntry::OutOfTurn(unmade))
            }
            SealerCall::Word { mask, plain } => {
                let entry = match self.word(mask, plain) {
                    Ok(wire) => SealerEntry::Sealed { mask, plain, wire },
                    Err(fault) => SealerEntry::Refused { mask, plain, fault },
                };
                (Sealer::Open(self), entry)
            }
            SealerCall::Finish => {
                let (ready, tag) = self.finish();
                (Sealer::Ready(ready), SealerEntry::Finished(tag))
            }
            SealerCall::Abandon => (Sealer::Ready(self.abandon()), SealerEntry::Abandoned),
        }
    }
}

impl<K: KeyedFunction, C: Coefficient> Sealer<K, C> {
    /// Makes a call. A begin while a message is open, and any other call while none is, is out of turn and not made.
    pub fn take(self, call: SealerCall) -> (Self, SealerEntry)
        ensures made { SealerMakes K.KeyedFunction C.Coefficient self call result.1 result.0 }
        ensures noted { NotesSealer (open_count self) call result.1 }
        ensures turn { open_count result.0 ≡ open_noted (open_count self) result.1 }
        ensures fits { SealerCallFits call }
    {
        match self {
            Sealer::Ready(ready) => ready.take(call),
            Sealer::Open(message) => message.take(call),
        }
    }
}

impl<K: KeyedFunction, C: Coefficient> Receiver<K, C> {
    /// Makes a call.
    pub fn take(&mut self, call: ReceiverCall) -> ReceiverEntry
        ensures made { ReceiverMakes K.KeyedFunction C.Coefficient self.old call result self.new }
        ensures noted { NotesReceiver call result }
        ensures leads { Leads self.old.footing.reception result self.new.footing.reception }
        ensures fits { ReceiverCallFits call }
    {
        match call {
            ReceiverCall::Begin(nonce) => match self.begin(&nonce) {
                Ok(()) => ReceiverEntry::Begun(nonce),
                Err(fault) => ReceiverEntry::Refused { nonce, fault },
            },
            ReceiverCall::Word { mask, wire } => {
                let answer = self.word(mask, wire);
                ReceiverEntry::Received { mask, wire, answer }
            }
            ReceiverCall::Break => {
                self.break_off();
                ReceiverEntry::BrokenOff
            }
            ReceiverCall::Finish(tag) => {
                let verdict = self.finish(tag);
                ReceiverEntry::Finished { tag, verdict }
            }
        }
    }
}
