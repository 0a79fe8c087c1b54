//! The joint of the pipe between the two ends: which calls on the receiver come of what the sealer sent.
ghost use Rattle.std.specs.Prelude.{◌≡◌, ◌∷◌, ◌++◌, MatchResult, OnOk};
ghost use Rattle.std.specs.List.{zip};
ghost use Rattle.std.specs.Slice.Iter.{iter_rest};
ghost use Rattle.weld.specs.Failures.{Fails, OfMemory, joint_failure, joint_log_failure};
ghost use Rattle.weld.specs.Joint.{AddsFates, AreFates, CarriesAcross, ComesOf, ComesOfWord, at_receiver, fates_after, next_fate, words_of};

use crate::failure::Failure;
use crate::scenario::{ALTERATION, Fate, Plan};
use link::{Call, Entry, ReceiverCall, SealerEntry};
use std::alloc::Global;
use std::slice::Iter;

impl Fate {
    /// The receiver's call that comes of a wire word: the word as it comes, if it comes, and a break after the last word of a loss.
    fn of_word(self, mask: u16, wire: u16) -> Option<ReceiverCall>
        ensures { ComesOfWord self mask wire result }
    {
        match self {
            Fate::Comes => Some(ReceiverCall::Word { mask, wire }),
            Fate::Altered => Some(ReceiverCall::Word {
                mask,
                wire: wire ^ ALTERATION,
            }),
            Fate::Lost => None,
            Fate::LostLast => Some(ReceiverCall::Break),
        }
    }
}

/// The receiver's call that comes of a call on the sealer, if one comes. The next of the fates is that of the next word.
fn carried(
    heap: Global,
    entry: &Entry,
    fates: &mut Iter<'_, Fate>,
) -> Result<Option<ReceiverCall>, Failure>
    ensures call { MatchResult result (ComesOf entry.now (next_fate (iter_rest fates.old))) (Fails (joint_failure entry.now)) }
    ensures fates { OnOk result (iter_rest fates.new ≡ fates_after entry.now (iter_rest fates.old)) }
{
    let Entry::OfSealer(entry) = entry else {
        return Ok(None);
    };
    match entry {
        SealerEntry::Begun(nonce) => Ok(Some(ReceiverCall::Begin(nonce.to_vec(heap)?))),
        SealerEntry::Sealed { mask, wire, .. } => {
            let fate = fates.next().unwrap_or(&Fate::Comes);
            Ok(fate.of_word(*mask, *wire))
        }
        SealerEntry::Finished(tag) => Ok(Some(ReceiverCall::Finish(*tag))),
        SealerEntry::Abandoned => Ok(None),
        SealerEntry::Refused { fault, .. } => Err(Failure::Refused(*fault)),
        SealerEntry::OutOfTurn(_) => Err(Failure::NotMade),
    }
}

/// Adds the fates of a message's words behind those of other words.
fn message_fates(plan: &Plan, fates: &mut Vec<Fate>) -> Result<(), Failure>
    ensures { MatchResult result (λ _. AddsFates plan.now fates.old.items fates.new.items) OfMemory }
{
    for place in 0..plan.words {
        fates.push(plan.fate(place))?;
    }
    Ok(())
}

/// The fates of all words, message by message.
fn fates(heap: Global, plans: &[Plan]) -> Result<Vec<Fate>, Failure>
    ensures { MatchResult result (λ v. AreFates (words_of plans.now) v.items) OfMemory }
{
    let mut fates = Vec::new(heap);
    for plan in plans {
        message_fates(plan, &mut fates)?;
    }
    Ok(fates)
}

/// Adds a call on the sealer, and behind it the receiver's call that comes of it, if one comes.
fn join(call: Call, came: Option<ReceiverCall>, calls: &mut Vec<Call>) -> Result<(), Failure>
    ensures { MatchResult result (λ _. calls.new.items ≡ calls.old.items ++ (call ∷ at_receiver came)) OfMemory }
{
    calls.push(call)?;
    if let Some(call) = came {
        calls.push(Call::OnReceiver(call))?;
    }
    Ok(())
}

/// The calls of the whole link: each call on the sealer, and behind it what comes of it at the receiver, by the log of those calls.
pub(crate) fn calls(plans: &[Plan], sealing: Vec<Call>, log: &[Entry]) -> Result<Vec<Call>, Failure>
    ensures { MatchResult result (λ v. CarriesAcross plans.now (zip sealing.items log.now) v.items) (Fails (joint_log_failure (zip sealing.items log.now))) }
{
    let heap = *sealing.allocator();
    let fates = fates(heap, plans)?;
    let mut fates = fates.iter();
    let mut calls = Vec::new(heap);
    for (call, entry) in sealing.into_iter().zip(log) {
        let came = carried(heap, entry, &mut fates)?;
        join(call, came, &mut calls)?;
    }
    Ok(calls)
}
