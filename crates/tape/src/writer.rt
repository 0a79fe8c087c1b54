//! The writer of a tape.
ghost use Rattle.std.specs.Prelude.{◌≡◌, ◌≤◌, length};

use crate::command::Command;
use sss::Fault;

/// Writes a tape into a lent buffer, command by command.
#[derive(Drop)]
pub struct Writer<'a> {
    tape: &'a mut [u8],
    place: usize,
    ghost within: { place ≤ length tape.now },
}

impl<'a> Writer<'a> {
    ghost use Rattle.tape.specs.Writing.{Writes, WritesTapes, written};

    /// A writer at the start of a buffer, with nothing written yet. It writes into the very buffer that it was lent: what its tape then is, the
    /// buffer is when the loan ends.
    #[tactic(auto, using(crate::proofs::Rewritten::writes_tapes))]
    pub fn new(tape: &'a mut [u8]) -> Self
        ensures same_reference { result.tape.ghost_name ≡ tape.entry.ghost_name }
        ensures tape { result.tape.now ≡ tape.old }
        ensures place { result.place ≡ 0 }
        ensures tapes { WritesTapes result }
    {
        Writer { tape, place: 0 }
    }

    /// How much of the buffer is written, which is the place of the next command.
    pub fn place(&self) -> usize
        ensures { result ≡ self.now.place }
    {
        self.place
    }

    /// The tape so far.
    pub fn written(&self) -> &[u8]
        ensures { result.now ≡ written self.now }
    {
        &self.tape[..self.place]
    }

    /// Writes a command behind what is written, and touches nothing past it. Where it does not fit it is refused, and writer and buffer are as
    /// they were.
    pub fn write(&mut self, command: Command) -> Result<(), Fault>
        ensures same_reference { self.new.tape.ghost_name ≡ self.old.tape.ghost_name }
        ensures writes { Writes self.old command result self.new }
    {
        let bytes = command.bytes();
        let end = self.place + bytes.len();
        if end > self.tape.len() {
            return Err(Fault::NoRoom(self.place));
        }
        self.tape[self.place..end].copy_from_slice(&bytes);
        self.place = end;
        Ok(())
    }
}
