//! The calls of a link's two ends, and what a log notes of each.
use crate::issuer::Nonce;
use crate::reception::{Answer, Verdict};
use sss::Fault;

/// A call on the sealer, where a nonce is an `N`.
#[derive(Clone, Copy, PartialEq, Eq, Debug)]
pub enum SealerCall<N = Nonce> {
    /// Begins a message with this nonce.
    Begin(N),
    /// Seals a word.
    Word { mask: u16, plain: u16 },
    /// Closes the message with a tag.
    Finish,
    /// Gives the message up.
    Abandon,
}

/// A call on the receiver.
#[derive(Drop)]
pub enum ReceiverCall {
    /// Begins a message with these nonce bytes.
    Begin(Vec<u8>),
    /// Takes a word.
    Word { mask: u16, wire: u16 },
    /// Breaks off: words were lost.
    Break,
    /// Ends a message with the tag that was received.
    Finish([u16; 8]),
}

/// A call on either end.
#[derive(Drop)]
pub enum Call {
    OnSealer(SealerCall),
    OnReceiver(ReceiverCall),
}

/// A call on the sealer that was not made, as the log notes it: with the bytes of its nonce.
pub type Unmade = SealerCall<[u8; 6]>;

/// A call on the sealer with what came of it.
#[derive(Clone, Copy, PartialEq, Eq, Debug)]
pub enum SealerEntry {
    /// A message was begun with this nonce.
    Begun([u8; 6]),
    /// A word was taken, under any mask, and this is its wire word.
    Sealed { mask: u16, plain: u16, wire: u16 },
    /// A word was refused.
    Refused { mask: u16, plain: u16, fault: Fault },
    /// The message was closed with this tag.
    Finished([u16; 8]),
    /// The message was given up.
    Abandoned,
    /// The call was out of turn, and was not made: a begin while a message is open, or any other call while none is.
    OutOfTurn(Unmade),
}

/// A call on the receiver with what came of it.
#[derive(PartialEq, Eq, Debug, Drop)]
pub enum ReceiverEntry {
    /// A message was begun with these nonce bytes.
    Begun(Vec<u8>),
    /// These nonce bytes were refused.
    Refused {
        nonce: Vec<u8>,
        fault: Fault,
    },
    /// A word was taken.
    Received {
        mask: u16,
        wire: u16,
        answer: Answer,
    },
    /// The receiver broke off.
    BrokenOff,
    /// A message was ended with the tag that was received.
    Finished {
        tag: [u16; 8],
        verdict: Verdict,
    },
}

/// A call on either end with what came of it.
#[derive(PartialEq, Eq, Debug, Drop)]
pub enum Entry {
    OfSealer(SealerEntry),
    OfReceiver(ReceiverEntry),
}
