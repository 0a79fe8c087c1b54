//! The recorder's tape: its commands, a reader that lends them out as parts of the tape, a writer into a lent buffer, the replay of a tape by a
//! receiver, and its listing as text.
#![tactic(auto)]

mod command;
mod item;
mod lent;
mod line;
mod piece;
mod reader;
mod replay;
mod text;
mod writer;

pub use command::Command;
pub use item::{Item, WordItem};
pub use lent::list_into;
pub use line::Line;
pub use piece::{BreakItem, NonceItem, OpenItem, PartItem, Piece, SealedItem, TagItem};
pub use reader::Reader;
pub use replay::{LONGEST_INPUT, Replay};
pub use text::listing;
pub use writer::Writer;
