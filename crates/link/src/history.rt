//! Histories: a list of calls on two new ends, and the law of a loss, which holds of every one.
ghost use Rattle.std.specs.Prelude.{◌<◌, ◌≤◌, IfOk, vec_len, vec_capacity, MatchResult, OnErr};
ghost use Rattle.link.specs.Ends.{CallFits};
ghost use Rattle.link.specs.Histories.{BrokenVerdicts, IsHistory, NotesCalls, ObeysLaw, OneEntry, OneLonger, OneMore, SameMeaning, StandsAsNoted, WithheldExactly, receiver_with, sealer_with};

use crate::call::{Call, Entry};
use crate::ends::Sealer;
use crate::receiver::Receiver;
use crate::sealer::ReadySealer;
use sss::{Coefficient, KeyedFunction};
use std::alloc::AllocError;

/// Both ends of a link after some calls, and the log of the calls.
#[derive(Drop)]
pub struct History<SK, SC, RK, RC> {
    pub sealer: Sealer<SK, SC>,
    pub receiver: Receiver<RK, RC>,
    pub log: Vec<Entry>,
}

impl<SK, SC, RK, RC> History<SK, SC, RK, RC>
where
    SK: KeyedFunction + Drop,
    SC: Coefficient + Drop,
    RK: KeyedFunction + Drop,
    RC: Coefficient + Drop,
{
    /// One call more. An `Err`, of want of memory, comes only where the log is full.
    fn take(self, call: Call) -> Result<Self, AllocError>
        ensures value { IfOk result (OneMore SK.KeyedFunction SC.Coefficient RK.KeyedFunction RC.Coefficient self call) }
        ensures meaning { IfOk result (SameMeaning SK.KeyedFunction SC.Coefficient RK.KeyedFunction RC.Coefficient (sealer_with self) (receiver_with self)) }
        ensures entry { IfOk result (OneEntry self call) }
        ensures fits { CallFits call }
        ensures room { MatchResult result (OneLonger self.log) (λ _. vec_capacity self.log ≤ vec_len self.log) }
    {
        let History {
            sealer,
            mut receiver,
            mut log,
        } = self;
        let (sealer, entry) = match call {
            Call::OnSealer(call) => {
                let (sealer, entry) = sealer.take(call);
                (sealer, Entry::OfSealer(entry))
            }
            Call::OnReceiver(call) => (sealer, Entry::OfReceiver(receiver.take(call))),
        };
        log.push(entry)?;
        Ok(History {
            sealer,
            receiver,
            log,
        })
    }
}

/// Makes both ends new and makes the calls of a list in order, whatever they are. A call out of turn is not made, and a refused call changes
/// nothing; the log says which. The log is kept in the `Vec` that is passed, which is emptied first. An `Err`, of want of memory, comes only
/// where that has less room than there are calls.
pub fn run<SK, SC, RK, RC>(
    sealer: (SK, SC),
    receiver: (RK, RC),
    calls: Vec<Call>,
    mut log: Vec<Entry>,
) -> Result<History<SK, SC, RK, RC>, AllocError>
where
    SK: KeyedFunction + Drop,
    SC: Coefficient + Drop,
    RK: KeyedFunction + Drop,
    RC: Coefficient + Drop,
    ensures value { IfOk result (IsHistory SK.KeyedFunction SC.Coefficient RK.KeyedFunction RC.Coefficient sealer receiver calls.items) }
    ensures law { IfOk result (ObeysLaw SK.KeyedFunction SC.Coefficient RK.KeyedFunction RC.Coefficient sealer receiver) }
    ensures noted { IfOk result (NotesCalls calls.items) }
    ensures withheld { IfOk result WithheldExactly }
    ensures broken { IfOk result BrokenVerdicts }
    ensures standing { IfOk result StandsAsNoted }
    ensures meaning { IfOk result (SameMeaning SK.KeyedFunction SC.Coefficient RK.KeyedFunction RC.Coefficient sealer receiver) }
    ensures room { OnErr result (vec_capacity log < vec_len calls) }
{
    log.clear();
    let mut history = History {
        sealer: Sealer::Ready(ReadySealer::new(sealer.0, sealer.1)),
        receiver: Receiver::new(receiver.0, receiver.1),
        log,
    };
    for call in calls {
        history = history.take(call)?;
    }
    Ok(history)
}
