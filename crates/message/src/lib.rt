//! Whole messages in lent buffers: one call seals a message, another opens it, each over registers of its own, with nothing allocated.
#![tactic(auto)]

mod checks;
mod opening;
mod passing;
mod sealing;
mod unconfirmed;

pub use checks::LONGEST;
pub use opening::open;
pub use sealing::seal;
