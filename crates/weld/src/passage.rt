//! The log of a run read as what an onlooker at the joint sees: which received word is which word of which message.
ghost use Rattle.std.specs.Prelude.{◌≡◌, MatchResult, None};
ghost use Rattle.weld.specs.Failures.{Fails, OfMemory, entry_failure, log_failure, receiver_failure, sealer_failure, unsent_failure};
ghost use Rattle.weld.specs.Passages.{ReadSoFar, message_begun, noted, receiver_noted, sealer_noted, seeing, seen_in, settled, unread, word_received, word_sent};

use crate::failure::Failure;
use link::{Answer, Entry, ReceiverEntry, SealerEntry, Verdict};
use std::alloc::Global;
use std::marker::Model;

/// A word of a message as the sealer took it.
#[derive(Clone, Copy)]
pub struct Sent {
    /// Its place in the message, from 0.
    pub place: u16,
    pub mask: u16,
    /// The plaintext that the sealer was given.
    pub plain: u16,
    pub wire: u16,
}

/// One thing that is seen.
#[derive(Clone, Copy)]
pub enum Event {
    /// A message is begun: the number of messages so far, and its nonce.
    Begun { message: usize, nonce: [u8; 6] },
    /// A word was sent, and the receiver answered this, or did not receive it.
    Word { sent: Sent, answer: Option<Answer> },
    /// The word that comes next is received with another wire word.
    Altered { sent: Sent, came: u16 },
    /// The receiver is told of a loss.
    Break,
    /// A message's tag was received.
    Ended { tag: [u16; 8], verdict: Verdict },
    /// The sealer gave the message up.
    Abandoned,
}

/// A reader of a log.
// Messages and places are counted as the log is read, and not by `enumerate`: a log is no list of either.
#[derive(Drop)]
struct Reader {
    /// How many messages were begun.
    begun: usize,
    /// The place of the next word in the latest of them.
    place: u16,
    /// The latest word that was sent, as long as nothing came after it.
    pending: Option<Sent>,
    /// What was seen.
    seen: Vec<Event>,
}

impl Model for Reader {
    ghost Value = { ReadSoFar };

    ghost view = { λ r. record { begun = r.begun; place = r.place; pending = r.pending; seen = r.seen.items } };
}

impl Reader {
    /// The word under way was not received before something else happened: it is lost.
    fn settle(&mut self) -> Result<(), Failure>
        ensures { MatchResult result (λ _. self.new ≡ settled self.old) OfMemory }
    {
        if let Some(sent) = self.pending.take() {
            self.seen.push(Event::Word { sent, answer: None })?;
        }
        Ok(())
    }

    /// Something else is seen than the word under way coming.
    fn see(&mut self, event: Event) -> Result<(), Failure>
        ensures { MatchResult result (λ _. self.new ≡ seeing event (settled self.old)) OfMemory }
    {
        self.settle()?;
        self.seen.push(event)?;
        Ok(())
    }

    /// A message is begun.
    fn begun(&mut self, nonce: [u8; 6]) -> Result<(), Failure>
        ensures { MatchResult result (λ _. self.new ≡ message_begun nonce self.old) OfMemory }
    {
        self.begun = self.begun.saturating_add(1);
        self.place = 0;
        let message = self.begun;
        self.seen.push(Event::Begun { message, nonce })?;
        Ok(())
    }

    /// A word is sent.
    fn sent(&mut self, mask: u16, plain: u16, wire: u16)
        ensures { self.new ≡ word_sent mask plain wire self.old }
    {
        let place = self.place;
        self.pending = Some(Sent {
            place,
            mask,
            plain,
            wire,
        });
        self.place = place.saturating_add(1);
    }

    /// A word is received: it is the one under way.
    fn received(&mut self, wire: u16, answer: Answer) -> Result<(), Failure>
        ensures { MatchResult result (λ _. (unsent_failure self.old.pending ≡ None) × (self.new ≡ word_received wire answer self.old)) (Fails (unsent_failure self.old.pending)) }
    {
        let Some(sent) = self.pending.take() else {
            return Err(Failure::NotSent);
        };
        if wire != sent.wire {
            self.seen.push(Event::Altered { sent, came: wire })?;
        }
        let answer = Some(answer);
        self.seen.push(Event::Word { sent, answer })?;
        Ok(())
    }

    /// Takes a call on the sealer.
    fn of_sealer(&mut self, entry: &SealerEntry) -> Result<(), Failure>
        ensures { MatchResult result (λ _. (sealer_failure entry.now ≡ None) × (self.new ≡ sealer_noted self.old entry.now)) (Fails (sealer_failure entry.now)) }
    {
        self.settle()?;
        match entry {
            SealerEntry::Begun(nonce) => self.begun(*nonce)?,
            SealerEntry::Sealed { mask, plain, wire } => self.sent(*mask, *plain, *wire),
            SealerEntry::Finished(_) => {}
            SealerEntry::Abandoned => self.seen.push(Event::Abandoned)?,
            SealerEntry::Refused { fault, .. } => return Err(Failure::Refused(*fault)),
            SealerEntry::OutOfTurn(_) => return Err(Failure::NotMade),
        }
        Ok(())
    }

    /// Takes a call on the receiver.
    fn of_receiver(&mut self, entry: &ReceiverEntry) -> Result<(), Failure>
        ensures { MatchResult result (λ _. (receiver_failure self.old.pending entry.now ≡ None) × (self.new ≡ receiver_noted self.old entry.now)) (Fails (receiver_failure self.old.pending entry.now)) }
    {
        match entry {
            ReceiverEntry::Begun(_) => Ok(()),
            ReceiverEntry::Refused { fault, .. } => Err(Failure::Refused(*fault)),
            ReceiverEntry::Received { wire, answer, .. } => self.received(*wire, *answer),
            ReceiverEntry::BrokenOff => self.see(Event::Break),
            ReceiverEntry::Finished { tag, verdict } => self.see(Event::Ended {
                tag: *tag,
                verdict: *verdict,
            }),
        }
    }

    /// Takes a call.
    fn take(&mut self, entry: &Entry) -> Result<(), Failure>
        ensures { MatchResult result (λ _. (entry_failure self.old.pending entry.now ≡ None) × (self.new ≡ noted self.old entry.now)) (Fails (entry_failure self.old.pending entry.now)) }
    {
        match entry {
            Entry::OfSealer(entry) => self.of_sealer(entry),
            Entry::OfReceiver(entry) => self.of_receiver(entry),
        }
    }
}

/// What is seen in a run, by its log.
#[tactic(auto, unfolding(crate::specs::Passages::seen_in))]
pub(crate) fn events(heap: Global, log: &[Entry]) -> Result<Vec<Event>, Failure>
    ensures { MatchResult result (λ v. (log_failure unread log.now ≡ None) × (v.items ≡ seen_in log.now)) (Fails (log_failure unread log.now)) }
{
    let mut reader = Reader {
        begun: 0,
        place: 0,
        pending: None,
        seen: Vec::new(heap),
    };
    for entry in log {
        reader.take(entry)?;
    }
    reader.settle()?;
    let Reader { seen, .. } = reader;
    Ok(seen)
}
