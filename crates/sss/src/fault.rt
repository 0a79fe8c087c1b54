//! What a call refuses: one enum for every refusal, with its number, its place on a tape and its layer.
ghost use Rattle.std.specs.Prelude.{◌≡◌};
ghost use Rattle.sss.specs.Faults.{number_of, place_of, layer_of};

/// A refusal. Whatever refuses leaves everything as it found it, unless its contract says otherwise.
#[derive(Clone, Copy, PartialEq, Eq, Debug)]
pub enum Fault {
    /// A key of no bytes, of more than sixteen, or cut short.
    Key,
    /// A table that has not 256 words, or whose function would not be one-to-one.
    Table,
    /// A nonce of an odd number of bytes or of more than thirty-two.
    Nonce,
    /// Every message number of the run is issued.
    Exhausted,
    /// The message has 65,536 words already.
    Full,
    /// The input of a whole message has an odd number of bytes, or more than 131,072.
    Input,
    /// The masks of a whole message are not as long as its input.
    Masks,
    /// The output of a whole message is shorter than its input, or a lent buffer than the listing that goes there.
    Output,
    /// The tag of a whole message, or the buffer for it, has not 16 bytes.
    TagLength,
    /// The tag that came with a whole message is not the one due, which is drawn from it as it came.
    TagDiffers,
    /// The byte at this place of a tape is the byte of no command.
    UnknownCommand(usize),
    /// The tape ends within the command at this place.
    CutOff(usize),
    /// A command does not fit into what is left of a tape from this place on.
    NoRoom(usize),
    /// The input to be listed has more than 65,536 bytes.
    TooLong,
}

/// Where a refusal comes from.
#[derive(Clone, Copy, PartialEq, Eq, Debug)]
pub enum Layer {
    /// Loading a key or a table.
    Key,
    /// Calls on a message.
    Message,
    /// Reading and writing a tape.
    Tape,
}

impl Fault {
    /// The number that stands for this refusal in listings and for callers in other languages.
    // Listings and callers in C have no enum.
    pub fn number(self) -> u8
        ensures { result ≡ number_of self }
    {
        match self {
            Fault::Key => 1,
            Fault::Table => 2,
            Fault::Nonce => 3,
            Fault::Exhausted => 4,
            Fault::Full => 5,
            Fault::Input => 6,
            Fault::Masks => 7,
            Fault::Output => 8,
            Fault::TagLength => 9,
            Fault::TagDiffers => 10,
            Fault::UnknownCommand(_) => 11,
            Fault::CutOff(_) => 12,
            Fault::NoRoom(_) => 13,
            Fault::TooLong => 14,
        }
    }

    /// The place on the tape, and 0 for a refusal that comes from no tape.
    // That 0, and no `Option`, for listings and for callers in C.
    pub fn place(self) -> usize
        ensures { result ≡ place_of self }
    {
        match self {
            Fault::UnknownCommand(place) | Fault::CutOff(place) | Fault::NoRoom(place) => place,
            Fault::Key
            | Fault::Table
            | Fault::Nonce
            | Fault::Exhausted
            | Fault::Full
            | Fault::Input
            | Fault::Masks
            | Fault::Output
            | Fault::TagLength
            | Fault::TagDiffers
            | Fault::TooLong => 0,
        }
    }

    /// The layer that refused.
    pub fn layer(self) -> Layer
        ensures { result ≡ layer_of self }
    {
        match self {
            Fault::Key | Fault::Table => Layer::Key,
            Fault::Nonce
            | Fault::Exhausted
            | Fault::Full
            | Fault::Input
            | Fault::Masks
            | Fault::Output
            | Fault::TagLength
            | Fault::TagDiffers
            | Fault::TooLong => Layer::Message,
            Fault::UnknownCommand(_) | Fault::CutOff(_) | Fault::NoRoom(_) => Layer::Tape,
        }
    }
}
