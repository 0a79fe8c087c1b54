//! The two ends of the link: a sealer and a receiver, histories of calls on both, and the law of a loss.
#![tactic(auto)]

mod call;
mod ends;
mod engine;
mod footing;
mod history;
mod issuer;
mod receiver;
mod reception;
mod sealer;

pub use call::{Call, Entry, ReceiverCall, ReceiverEntry, SealerCall, SealerEntry, Unmade};
pub use ends::Sealer;
pub use history::{History, run};
pub use issuer::{Issuer, Nonce};
pub use receiver::Receiver;
pub use reception::{Answer, Reception, Verdict};
pub use sealer::{LONGEST, OpenMessage, ReadySealer};
