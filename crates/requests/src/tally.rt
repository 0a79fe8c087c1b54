//! The counts that the program keeps.
ghost use Rattle.std.specs.Prelude.{◌≡◌, Some};
ghost use Rattle.requests.specs.Texts.{tally_text};
ghost use Rattle.requests.specs.Tallies.{fresh, after_reply, after_unread};

use crate::reply::Reply;
use std::fmt;

/// How many lines were taken, and what came of them.
#[derive(Clone, Copy, Default)]
pub struct Tally {
    /// The lines, those that could not be read too.
    pub requests: usize,
    /// The messages that were sealed.
    pub sealed: usize,
    /// The messages that were opened.
    pub opened: usize,
    /// The requests that were refused, by the call or with their key.
    pub refused: usize,
    /// The lines that could not be read.
    pub unread: usize,
}

impl Tally {
    /// No line yet.
    pub(crate) fn new() -> Tally
        ensures { result ≡ fresh }
    {
        Tally::default()
    }

    /// Counts a line that could not be read.
    pub(crate) fn unread(&mut self)
        ensures { self.new ≡ after_unread self.old }
    {
        self.requests = self.requests.saturating_add(1);
        self.unread = self.unread.saturating_add(1);
    }

    /// Counts a request that was answered.
    pub(crate) fn replied(&mut self, reply: &Reply)
        ensures { self.new ≡ after_reply reply.now self.old }
    {
        self.requests = self.requests.saturating_add(1);
        match reply {
            Reply::Sealing { answer: Ok(()), .. } => self.sealed = self.sealed.saturating_add(1),
            Reply::Opening { answer: Ok(()), .. } => self.opened = self.opened.saturating_add(1),
            _ => self.refused = self.refused.saturating_add(1),
        }
    }
}

impl fmt::Display for Tally {
    ghost output = { λ tally. Some (tally_text tally) };

    fn fmt<W: fmt::Write>(&self, f: &mut fmt::Formatter<W>) -> fmt::Result {
        let Tally {
            requests,
            sealed,
            opened,
            refused,
            unread,
        } = self;
        write!(
            f,
            "requests {requests} sealed {sealed} opened {opened} refused {refused} unread {unread}"
        )
    }
}
