//! A tape replayed: a receiver takes each command, and each makes a line.
ghost use Rattle.std.specs.Prelude.{◌≡◌, IfOk, false};
ghost use Rattle.std.specs.Iterator.{at_most};
ghost use Rattle.tape.specs.Inputs.{OpensInput};
ghost use Rattle.tape.specs.Replaying.{GivesLines, HearsItem, TakesLine, lines_left};

use crate::item::Item;
use crate::line::Line;
use crate::reader::Reader;
use functions::{FilledTable, PrintedTable};
use link::Receiver;
use sss::{Coefficient, Fault, KeyedFunction};

/// How many bytes an input has at most.
pub const LONGEST_INPUT: usize = 65_536;

/// A tape and the receiver that takes its commands: an iterator of the lines.
#[derive(Drop)]
pub struct Replay<'a, K, C> {
    reader: Reader<'a>,
    receiver: Receiver<K, C>,
    over: bool,
}

impl<'a, K: KeyedFunction, C: Coefficient> Replay<'a, K, C> {
    /// A replay of a whole tape by this receiver.
    pub fn new(receiver: Receiver<K, C>, tape: &'a [u8]) -> Self
        ensures receiver { result.receiver ≡ receiver }
        ensures tape { result.reader.tape ≡ tape.entry }
        ensures place { result.reader.place ≡ 0 }
        ensures over { result.over ≡ false }
        ensures lines { GivesLines K.KeyedFunction C.Coefficient result }
    {
        Replay {
            reader: Reader::new(tape),
            receiver,
            over: false,
        }
    }
}

impl<'a> Replay<'a, FilledTable, PrintedTable> {
    /// A replay of an input, a byte N, N key bytes and a tape, by a new receiver with that key. Refuses an input of more than 65,536 bytes, before
    /// all else, and then a key that does not load.
    pub fn of_input(input: &'a [u8]) -> Result<Self, Fault>
        ensures opens { OpensInput input.now result }
        ensures lines { IfOk result (GivesLines ⟦<FilledTable as KeyedFunction>⟧ ⟦<PrintedTable as Coefficient>⟧) }
    {
        if input.len() > LONGEST_INPUT {
            return Err(Fault::TooLong);
        }
        let (count, rest) = input.split_first().ok_or(Fault::Key)?;
        let (key, tape) = rest
            .split_at_checked(usize::from(*count))
            .ok_or(Fault::Key)?;
        let receiver = Receiver::new(FilledTable::of(key)?, PrintedTable);
        Ok(Replay::new(receiver, tape))
    }
}

impl<K: KeyedFunction + Drop, C: Coefficient + Drop> Iterator for Replay<'_, K, C> {
    type Item = Line;

    ghost next_gives = { TakesLine K.KeyedFunction C.Coefficient };

    ghost remaining = { λ r. at_most (lines_left r) };

    /// The line of the next command, or the last line, and then no more.
    fn next(&mut self) -> Option<Line> {
        if self.over {
            return None;
        }
        let line = match self.reader.next_item() {
            Ok(Some(item)) => return Some(line_of(&mut self.receiver, &item)),
            Ok(None) => Line::End {
                length: self.reader.place(),
            },
            Err(fault) => Line::Refused(fault),
        };
        self.over = true;
        Some(line)
    }
}

/// A command that a receiver takes, and its line.
fn line_of<K: KeyedFunction, C: Coefficient>(receiver: &mut Receiver<K, C>, item: &Item<'_>) -> Line
    ensures { HearsItem K.KeyedFunction C.Coefficient receiver.old item.now result receiver.new }
{
    let place = item.place();
    match item {
        Item::Nonce(nonce) => {
            // Six bytes are never refused.
            let _ = receiver.begin(&nonce.nonce());
            Line::Nonce { place }
        }
        Item::Word(word) => Line::Word {
            place,
            answer: receiver.word(word.mask(), word.wire()),
        },
        Item::Break(_) => {
            receiver.break_off();
            Line::Break { place }
        }
        Item::Tag(tag) => Line::Tag {
            place,
            verdict: receiver.finish(tag.tag()),
        },
    }
}
