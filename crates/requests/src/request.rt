//! A line of the input as a request.
ghost use Rattle.std.specs.Prelude.{◌≡◌, Some, MatchResult};
ghost use Rattle.fields.specs.Cutting.{Cut};
ghost use Rattle.fields.specs.Placing.{placed};
ghost use Rattle.requests.specs.Lines.{texts_of, NotCut, ReadsSealing, NoSealing, ReadsOpening, NoOpening, Reads, NotRead, Parses, NotParsed};
ghost use Rattle.requests.specs.Texts.{unread_text};
ghost use Rattle.requests.specs.declared.request.Unread.TheVariants.{InField, NoMemory};

use crate::field;
use crate::field::{Field, Flaw};
use std::alloc::{AllocError, Global};
use std::fmt;

/// Why a line is not carried out.
#[derive(Clone, Copy, Debug)]
pub enum Unread {
    /// The line is not UTF-8.
    NotText,
    /// The line has this many fields, which is not seven.
    Fields(usize),
    /// The first field is another word.
    OtherCall,
    /// One field is flawed.
    InField(Field, Flaw),
    /// There was no memory to read the line, or for the buffers of its call.
    NoMemory,
}

impl fmt::Display for Unread {
    ghost output = { λ why. Some (unread_text why) };

    fn fmt<W: fmt::Write>(&self, f: &mut fmt::Formatter<W>) -> fmt::Result {
        match self {
            Unread::NotText => write!(f, "not text"),
            Unread::Fields(count) => write!(f, "7 fields are wanted, and it has {count}"),
            Unread::OtherCall => write!(f, "neither seal nor open"),
            Unread::InField(field, flaw) => write!(f, "field {field}: {flaw}"),
            Unread::NoMemory => write!(f, "no memory for it"),
        }
    }
}

impl From<AllocError> for Unread {
    ghost from_gives = { λ _ r. r ≡ NoMemory };

    fn from(_e: AllocError) -> Unread {
        Unread::NoMemory
    }
}

/// The texts of a line's seven fields, the call first.
#[derive(Clone, Copy)]
pub struct Fields<'a> {
    pub call: &'a str,
    pub key: &'a str,
    pub nonce: &'a str,
    pub masks: &'a str,
    /// The plaintext of `seal`, the wire words of `open`.
    pub input: &'a str,
    /// The room of `seal`, the tag of `open`.
    pub sixth: &'a str,
    /// The tag's room of `seal`, the room of `open`.
    pub seventh: &'a str,
}

impl<'a> Fields<'a> {
    /// Cuts a line at each blank.
    fn cut(heap: Global, line: &'a str) -> Result<Fields<'a>, Unread>
        ensures { MatchResult result (λ f. Cut line.now (texts_of f)) (NotCut line.now) }
    {
        let texts = fields::pieces(heap, line)?;
        let [call, key, nonce, masks, input, sixth, seventh] = *texts.as_slice() else {
            return Err(Unread::Fields(texts.len()));
        };
        Ok(Fields {
            call,
            key,
            nonce,
            masks,
            input,
            sixth,
            seventh,
        })
    }
}

/// A field's flaw as the line's.
fn in_field<T>(field: Field, read: Result<T, Flaw>) -> Result<T, Unread>
    ensures { result ≡ placed (InField field) read }
{
    read.map_err(|flaw| Unread::InField(field, flaw))
}

/// A message to be sealed, and the lengths of the buffers for it.
#[derive(Drop)]
pub struct SealRequest {
    pub key: Vec<u8>,
    pub nonce: [u8; 6],
    pub masks: Vec<u8>,
    pub plaintext: Vec<u8>,
    pub room: usize,
    pub tag_room: usize,
}

impl SealRequest {
    /// Reads the fields of `seal`.
    fn read(heap: Global, fields: Fields<'_>) -> Result<SealRequest, Unread>
        ensures { MatchResult result (ReadsSealing (texts_of fields.entry)) (NoSealing (texts_of fields.entry)) }
    {
        Ok(SealRequest {
            key: in_field(Field::Key, field::bytes(heap, fields.key))?,
            nonce: in_field(Field::Nonce, field::nonce(fields.nonce))?,
            masks: in_field(Field::Masks, field::bytes(heap, fields.masks))?,
            plaintext: in_field(Field::Plaintext, field::bytes(heap, fields.input))?,
            room: in_field(Field::Room, field::length(fields.sixth))?,
            tag_room: in_field(Field::TagRoom, field::length(fields.seventh))?,
        })
    }
}

/// A message to be opened, and the length of the buffer for it.
#[derive(Drop)]
pub struct OpenRequest {
    pub key: Vec<u8>,
    pub nonce: Vec<u8>,
    pub masks: Vec<u8>,
    pub wire: Vec<u8>,
    pub tag: Vec<u8>,
    pub room: usize,
}

impl OpenRequest {
    /// Reads the fields of `open`.
    fn read(heap: Global, fields: Fields<'_>) -> Result<OpenRequest, Unread>
        ensures { MatchResult result (ReadsOpening (texts_of fields.entry)) (NoOpening (texts_of fields.entry)) }
    {
        Ok(OpenRequest {
            key: in_field(Field::Key, field::bytes(heap, fields.key))?,
            nonce: in_field(Field::Nonce, field::bytes(heap, fields.nonce))?,
            masks: in_field(Field::Masks, field::bytes(heap, fields.masks))?,
            wire: in_field(Field::Wire, field::bytes(heap, fields.input))?,
            tag: in_field(Field::Tag, field::bytes(heap, fields.sixth))?,
            room: in_field(Field::Room, field::length(fields.seventh))?,
        })
    }
}

/// A call that a line asks for.
#[derive(Drop)]
pub enum Request {
    Seal(SealRequest),
    Open(OpenRequest),
}

impl Request {
    /// Reads the texts of the seven fields.
    fn read(heap: Global, fields: Fields<'_>) -> Result<Request, Unread>
        ensures { MatchResult result (Reads (texts_of fields.entry)) (NotRead (texts_of fields.entry)) }
    {
        match fields.call {
            "seal" => Ok(Request::Seal(SealRequest::read(heap, fields)?)),
            "open" => Ok(Request::Open(OpenRequest::read(heap, fields)?)),
            _ => Err(Unread::OtherCall),
        }
    }

    /// Reads a line.
    pub(crate) fn parse(heap: Global, line: &[u8]) -> Result<Request, Unread>
        ensures { MatchResult result (Parses line.now) (NotParsed line.now) }
    {
        let Ok(text) = std::str::from_utf8(line) else {
            return Err(Unread::NotText);
        };
        Request::read(heap, Fields::cut(heap, text)?)
    }
}
