//! The fields of a line, and what the text of each stands for.
ghost use Rattle.std.specs.Prelude.{Some, MatchResult};
ghost use Rattle.fields.specs.Reading.{FieldBytes};
ghost use Rattle.requests.specs.Fields.{NoBytes, NonceBytes, NoNonce, LengthOf, NoLength};
ghost use Rattle.requests.specs.Texts.{field_text, flaw_text};

use fields::NotBytes;
use hex::FromHex;
use std::alloc::Global;
use std::fmt;

/// The most bytes that a buffer may be asked to have.
const MOST: usize = 1_000_000;

/// A field of a request.
#[derive(Clone, Copy, Debug)]
pub enum Field {
    Key,
    Nonce,
    Masks,
    Plaintext,
    Wire,
    Tag,
    Room,
    TagRoom,
}

impl fmt::Display for Field {
    ghost output = { λ field. Some (field_text field) };

    fn fmt<W: fmt::Write>(&self, f: &mut fmt::Formatter<W>) -> fmt::Result {
        match self {
            Field::Key => write!(f, "key"),
            Field::Nonce => write!(f, "nonce"),
            Field::Masks => write!(f, "masks"),
            Field::Plaintext => write!(f, "plaintext"),
            Field::Wire => write!(f, "wire"),
            Field::Tag => write!(f, "tag"),
            Field::Room => write!(f, "room"),
            Field::TagRoom => write!(f, "tagroom"),
        }
    }
}

/// Why reading the text of a field failed.
#[derive(Clone, Copy, Debug)]
pub enum Flaw {
    /// The text is not bytes in hex, or there was no memory to hold them.
    NotBytes(NotBytes),
    /// The text is not a row of six bytes.
    NotSixBytes,
    /// The text is not a number, or one past what a buffer may have.
    NotALength,
}

impl fmt::Display for Flaw {
    ghost output = { λ flaw. Some (flaw_text flaw) };

    fn fmt<W: fmt::Write>(&self, f: &mut fmt::Formatter<W>) -> fmt::Result {
        match self {
            Flaw::NotBytes(why) => write!(f, "{why}"),
            Flaw::NotSixBytes => write!(f, "not six bytes in hex, two digits a byte"),
            Flaw::NotALength => write!(f, "not a number from 0 to 1000000"),
        }
    }
}

/// The bytes of a field, where `-` is none.
pub(crate) fn bytes(heap: Global, text: &str) -> Result<Vec<u8>, Flaw>
    ensures { MatchResult result (λ v. FieldBytes text.now v.items) (NoBytes text.now) }
{
    fields::bytes(heap, text).map_err(Flaw::NotBytes)
}

/// The six bytes of an issuer's nonce.
pub(crate) fn nonce(text: &str) -> Result<[u8; 6], Flaw>
    ensures { MatchResult result (NonceBytes text.now) (NoNonce text.now) }
{
    <[u8; 6]>::from_hex(text).or(Err(Flaw::NotSixBytes))
}

/// The length of a buffer.
pub(crate) fn length(text: &str) -> Result<usize, Flaw>
    ensures { MatchResult result (LengthOf text.now) (NoLength text.now) }
{
    match text.parse::<usize>() {
        Ok(length) if length <= MOST => Ok(length),
        _ => Err(Flaw::NotALength),
    }
}
