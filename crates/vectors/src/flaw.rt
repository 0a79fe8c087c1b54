//! What can be wrong with one field of a line.
ghost use Rattle.std.specs.Prelude.{◌≡◌, Some};
ghost use Rattle.fields.specs.declared.reading.NotBytes.TheVariants.{NoMemory};
ghost use Rattle.vectors.specs.declared.flaw.Flaw.TheVariants as flaw;
ghost use Rattle.vectors.specs.Texts.{flaw_text};

use fields::NotBytes;
use std::alloc::AllocError;
use std::fmt;

/// What is wrong with one field.
#[derive(Clone, Copy, Debug)]
pub enum Flaw {
    /// The text is not bytes in hex, or there was no memory to hold them.
    NotBytes(NotBytes),
    /// The last byte has no partner to make a word with.
    OddBytes,
    /// A tag of this many bytes, which is not sixteen.
    NotATag(usize),
}

impl fmt::Display for Flaw {
    ghost output = { λ flaw. Some (flaw_text flaw) };

    fn fmt<W: fmt::Write>(&self, f: &mut fmt::Formatter<W>) -> fmt::Result {
        match self {
            Flaw::NotBytes(why) => write!(f, "{why}"),
            Flaw::OddBytes => write!(f, "an odd number of bytes in a field of words"),
            Flaw::NotATag(length) => write!(f, "{length} bytes instead of 16"),
        }
    }
}

// The contracts name the flaw that `?` makes, and are not proved without `from_gives`, which no derive writes.
impl From<NotBytes> for Flaw {
    ghost from_gives = { λ why r. r ≡ flaw.NotBytes why };

    fn from(why: NotBytes) -> Flaw {
        Flaw::NotBytes(why)
    }
}

impl From<AllocError> for Flaw {
    ghost from_gives = { λ _ r. r ≡ flaw.NotBytes NoMemory };

    fn from(_e: AllocError) -> Flaw {
        Flaw::NotBytes(NotBytes::NoMemory)
    }
}
