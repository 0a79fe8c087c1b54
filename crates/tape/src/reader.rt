//! The reader of a tape.
ghost use Rattle.std.specs.Prelude.{◌≡◌, ◌≤◌, length};

use crate::item::{Item, item_at};
use sss::Fault;

/// Reads a tape command by command.
#[derive(Debug, Drop)]
pub struct Reader<'a> {
    tape: &'a [u8],
    place: usize,
    ghost within: { place ≤ length tape.now },
}

impl<'a> Reader<'a> {
    ghost use Rattle.tape.specs.Format.{OneReading};
    ghost use Rattle.tape.specs.Reading.{ReadsNext, ReadsTape};

    /// A reader at the start of a tape. Every tape reads in exactly one way, and that is what the reader answers.
    #[tactic(auto, using(crate::proofs::Asking::one_reading, crate::proofs::Asking::reads_tape))]
    pub fn new(tape: &'a [u8]) -> Self
        ensures tape { result.tape ≡ tape.entry }
        ensures place { result.place ≡ 0 }
        ensures one { OneReading tape.now }
        ensures reads { ReadsTape result }
    {
        Reader { tape, place: 0 }
    }

    /// The place of the next command: how much of the tape is read.
    pub fn place(&self) -> usize
        ensures { result ≡ self.now.place }
    {
        self.place
    }

    /// The next item, or `None` at the end of the tape. A byte that is no command's is refused, and so is a command whose operands are cut off:
    /// the reader then stays where it is, and asking again answers the same.
    pub fn next_item(&mut self) -> Result<Option<Item<'a>>, Fault>
        ensures { ReadsNext self.old result self.new }
    {
        let Some(item) = item_at(self.place, &self.tape[self.place..])? else {
            return Ok(None);
        };
        self.place += item.bytes().len();
        Ok(Some(item))
    }
}
