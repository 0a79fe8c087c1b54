//! Items: the commands of a tape as the parts of the tape that they were read from, each with its place, the offset of its command byte.
ghost use Rattle.std.specs.Prelude.{◌≡◌};
ghost use Rattle.tape.specs.Format.{bytes_of};
ghost use Rattle.tape.specs.Items.{FindsItem, command_of, mask_of, part_of, place_of, wire_of, word_part, word_place};

use crate::command::{BREAK, Command, NONCE, OPEN, PART, SEALED, TAG};
use crate::piece::{BreakItem, NonceItem, OpenItem, PartItem, Piece, SealedItem, TagItem};
use sss::Fault;

/// A word on a tape, by its command.
#[derive(Clone, Copy, PartialEq, Eq, Debug)]
pub enum WordItem<'a> {
    Sealed(SealedItem<'a>),
    Open(OpenItem<'a>),
    Part(PartItem<'a>),
}

/// A command on a tape.
#[derive(Clone, Copy, PartialEq, Eq, Debug)]
pub enum Item<'a> {
    Nonce(NonceItem<'a>),
    Word(WordItem<'a>),
    Break(BreakItem<'a>),
    Tag(TagItem<'a>),
}

impl<'a> WordItem<'a> {
    /// The mask: 0xFFFF of a sealed word, 0 of an open one, and what the tape says of a part word, whatever that is.
    pub fn mask(&self) -> u16
        ensures { result ≡ mask_of self.now }
    {
        match self {
            WordItem::Sealed(_) => sss::SEALED,
            WordItem::Open(_) => sss::OPEN,
            WordItem::Part(piece) => piece.word(0),
        }
    }

    /// The wire word.
    pub fn wire(&self) -> u16
        ensures { result ≡ wire_of self.now }
    {
        match self {
            WordItem::Sealed(piece) => piece.word(0),
            WordItem::Open(piece) => piece.word(0),
            WordItem::Part(piece) => piece.word(1),
        }
    }

    /// The offset of the command byte on the tape.
    pub fn place(&self) -> usize
        ensures { result ≡ word_place self.now }
    {
        match self {
            WordItem::Sealed(piece) => piece.place(),
            WordItem::Open(piece) => piece.place(),
            WordItem::Part(piece) => piece.place(),
        }
    }

    /// The command byte and the operands, as they stand on the tape.
    pub fn bytes(&self) -> &'a [u8]
        ensures { result.now ≡ word_part self.now }
    {
        match self {
            WordItem::Sealed(piece) => piece.bytes(),
            WordItem::Open(piece) => piece.bytes(),
            WordItem::Part(piece) => piece.bytes(),
        }
    }

    /// The command that it is.
    fn command(&self) -> Command
        ensures { result ≡ command_of (Item.Word self.now) }
    {
        let wire = self.wire();
        match self {
            WordItem::Sealed(_) => Command::Sealed(wire),
            WordItem::Open(_) => Command::Open(wire),
            WordItem::Part(_) => Command::Part {
                mask: self.mask(),
                wire,
            },
        }
    }
}

impl<'a> Item<'a> {
    /// The offset of the command byte on the tape.
    pub fn place(&self) -> usize
        ensures { result ≡ place_of self.now }
    {
        match self {
            Item::Nonce(piece) => piece.place(),
            Item::Word(word) => word.place(),
            Item::Break(piece) => piece.place(),
            Item::Tag(piece) => piece.place(),
        }
    }

    /// The part of the tape that it was read from, command byte and operands: the bytes of the command that it is.
    #[tactic(auto, using(crate::proofs::Spelled::spelled))]
    pub fn bytes(&self) -> &'a [u8]
        ensures part { result.now ≡ part_of self.now }
        ensures spelled { result.now ≡ bytes_of (command_of self.now) }
    {
        match self {
            Item::Nonce(piece) => piece.bytes(),
            Item::Word(word) => word.bytes(),
            Item::Break(piece) => piece.bytes(),
            Item::Tag(piece) => piece.bytes(),
        }
    }

    /// The command that it is, to be written again.
    pub fn command(&self) -> Command
        ensures { result ≡ command_of self.now }
    {
        match self {
            Item::Nonce(nonce) => Command::Nonce(nonce.nonce()),
            Item::Word(word) => word.command(),
            Item::Break(_) => Command::Break,
            Item::Tag(tag) => Command::Tag(tag.tag()),
        }
    }
}

/// The item at the front of what is left of a tape from this place on, if anything is left.
pub(crate) fn item_at<'a>(place: usize, rest: &'a [u8]) -> Result<Option<Item<'a>>, Fault>
    ensures { FindsItem place rest.now result }
{
    let Some(command) = rest.first() else {
        return Ok(None);
    };
    let item = match *command {
        NONCE => Item::Nonce(Piece::at(place, rest)?),
        SEALED => Item::Word(WordItem::Sealed(Piece::at(place, rest)?)),
        OPEN => Item::Word(WordItem::Open(Piece::at(place, rest)?)),
        PART => Item::Word(WordItem::Part(Piece::at(place, rest)?)),
        BREAK => Item::Break(Piece::at(place, rest)?),
        TAG => Item::Tag(Piece::at(place, rest)?),
        _ => return Err(Fault::UnknownCommand(place)),
    };
    Ok(Some(item))
}
