//! A line of the input as a message: its six fields, read from hex.
ghost use Rattle.std.specs.Prelude.{◌≡◌, Some, map, length, IfOk, MatchResult};
ghost use Rattle.fields.specs.Cutting.{Cut};
ghost use Rattle.fields.specs.Placing.{placed};
ghost use Rattle.fields.specs.Reading.{FieldBytes};
ghost use Rattle.sss.specs.Directions.{mask_of, text_of};
ghost use Rattle.vectors.specs.Fields.{NoBytes, FieldWords, NoWords, FieldTag, NoTag, texts_of, NotCut};
ghost use Rattle.vectors.specs.Lines.{Reads, NotRead, Parses, NotParsed};
ghost use Rattle.vectors.specs.Texts.{field_text, malformed_text};
ghost use Rattle.vectors.specs.declared.vector.Malformed.TheVariants.{InField, NoMemory};

use crate::flaw::Flaw;
use crate::words;
use sss::MaskedWord;
use std::alloc::{AllocError, Global};
use std::fmt;

/// A field of a line.
#[derive(Clone, Copy, Debug)]
pub enum Field {
    Key,
    Nonce,
    Masks,
    Plaintext,
    Wire,
    Tag,
}

impl fmt::Display for Field {
    ghost output = { λ field. Some (field_text field) };

    fn fmt<W: fmt::Write>(&self, f: &mut fmt::Formatter<W>) -> fmt::Result {
        match self {
            Field::Key => write!(f, "key"),
            Field::Nonce => write!(f, "nonce"),
            Field::Masks => write!(f, "masks"),
            Field::Plaintext => write!(f, "plaintext"),
            Field::Wire => write!(f, "wire"),
            Field::Tag => write!(f, "tag"),
        }
    }
}

/// Why a line is not a message.
#[derive(Clone, Copy, Debug)]
pub enum Malformed {
    /// The line is not UTF-8.
    NotText,
    /// The line has this many fields, which is not six.
    Fields(usize),
    /// One field is flawed.
    InField(Field, Flaw),
    /// Masks, plaintext and wire have not the same number of words.
    Lengths,
    /// There was no memory to hold the line.
    NoMemory,
}

impl fmt::Display for Malformed {
    ghost output = { λ why. Some (malformed_text why) };

    fn fmt<W: fmt::Write>(&self, f: &mut fmt::Formatter<W>) -> fmt::Result {
        match self {
            Malformed::NotText => write!(f, "not text"),
            Malformed::Fields(count) => write!(f, "6 fields are wanted, and it has {count}"),
            Malformed::InField(field, flaw) => write!(f, "field {field}: {flaw}"),
            Malformed::Lengths => write!(
                f,
                "fields masks, plaintext and wire are of different lengths"
            ),
            Malformed::NoMemory => write!(f, "no memory to read it"),
        }
    }
}

// The contracts name the error that `?` makes, and are not proved without `from_gives`, which no derive writes.
impl From<AllocError> for Malformed {
    ghost from_gives = { λ _ r. r ≡ NoMemory };

    fn from(_e: AllocError) -> Malformed {
        Malformed::NoMemory
    }
}

// A struct and no array of texts: nothing walks the fields, and each keeps its name.
/// The texts of a line's six fields.
#[derive(Clone, Copy)]
pub struct Fields<'a> {
    pub key: &'a str,
    pub nonce: &'a str,
    pub masks: &'a str,
    pub plaintext: &'a str,
    pub wire: &'a str,
    pub tag: &'a str,
}

// The allocator comes to each function that makes a list, as the library's own calls take it: a struct of it and the text would be made for each field.

impl<'a> Fields<'a> {
    /// Cuts a line at each blank.
    pub(crate) fn cut(heap: Global, line: &'a str) -> Result<Fields<'a>, Malformed>
        ensures value { MatchResult result (λ f. Cut line.now (texts_of f)) (NotCut line.now) }
    {
        let texts = fields::pieces(heap, line)?;
        let [key, nonce, masks, plaintext, wire, tag] = *texts.as_slice() else {
            return Err(Malformed::Fields(texts.len()));
        };
        Ok(Fields {
            key,
            nonce,
            masks,
            plaintext,
            wire,
            tag,
        })
    }
}

/// The bytes of a field, where `-` is none.
fn field_bytes(heap: Global, text: &str) -> Result<Vec<u8>, Flaw>
    ensures value { MatchResult result (λ v. FieldBytes text.now v.items) (NoBytes text.now) }
{
    fields::bytes(heap, text).map_err(Flaw::NotBytes)
}

/// The words of a field, where `-` is none.
fn field_words(heap: Global, text: &str) -> Result<Vec<u16>, Flaw>
    ensures value { MatchResult result (λ v. FieldWords text.now v.items) (NoWords text.now) }
{
    let bytes = fields::bytes(heap, text)?;
    words::from_bytes(heap, &bytes)
}

/// The eight words of a tag's field.
fn field_tag(heap: Global, text: &str) -> Result<[u16; 8], Flaw>
    ensures value { MatchResult result (FieldTag text.now) (NoTag text.now) }
{
    let bytes = fields::bytes(heap, text)?;
    if bytes.len() != 16 {
        return Err(Flaw::NotATag(bytes.len()));
    }
    let words = words::from_bytes(heap, &bytes)?;
    Ok(<[u16; 8]>::try_from(words.as_slice()).unwrap())
}

/// Each mask with its text.
fn masked(heap: Global, masks: &[u16], texts: &[u16]) -> Result<Vec<MaskedWord>, AllocError>
    requires { length masks.now ≡ length texts.now }
    ensures masks { IfOk result (λ v. map mask_of v.items ≡ masks.now) }
    ensures texts { IfOk result (λ v. map text_of v.items ≡ texts.now) }
{
    masks
        .iter()
        .zip(texts)
        .map(|(mask, text)| MaskedWord {
            mask: *mask,
            text: *text,
        })
        .collect(heap)
}

/// A field's flaw as the line's.
fn in_field<T>(field: Field, read: Result<T, Flaw>) -> Result<T, Malformed>
    ensures value { result ≡ placed (InField field) read }
{
    read.map_err(|flaw| Malformed::InField(field, flaw))
}

/// A message as another program sealed it.
// Two lists with one set of masks: sealing and opening each take a slice of masked words, and one list would be split at every call.
#[derive(Drop)]
pub struct Vector {
    pub key: Vec<u8>,
    pub nonce: Vec<u8>,
    /// The masks with the plaintext words.
    pub plaintext: Vec<MaskedWord>,
    /// The masks with the words on the wire.
    pub wire: Vec<MaskedWord>,
    pub tag: [u16; 8],
}

impl Vector {
    /// Reads the texts of the six fields.
    fn read(heap: Global, fields: Fields<'_>) -> Result<Vector, Malformed>
        ensures value { MatchResult result (Reads (texts_of fields.entry)) (NotRead (texts_of fields.entry)) }
    {
        let key = in_field(Field::Key, field_bytes(heap, fields.key))?;
        let nonce = in_field(Field::Nonce, field_bytes(heap, fields.nonce))?;
        let masks = in_field(Field::Masks, field_words(heap, fields.masks))?;
        let plaintext = in_field(Field::Plaintext, field_words(heap, fields.plaintext))?;
        let wire = in_field(Field::Wire, field_words(heap, fields.wire))?;
        let tag = in_field(Field::Tag, field_tag(heap, fields.tag))?;
        if masks.len() != plaintext.len() || masks.len() != wire.len() {
            return Err(Malformed::Lengths);
        }
        let plaintext = masked(heap, &masks, &plaintext)?;
        let wire = masked(heap, &masks, &wire)?;
        Ok(Vector {
            key,
            nonce,
            plaintext,
            wire,
            tag,
        })
    }

    /// Reads a line.
    pub(crate) fn parse(heap: Global, line: &[u8]) -> Result<Vector, Malformed>
        ensures value { MatchResult result (Parses line.now) (NotParsed line.now) }
    {
        let Ok(text) = std::str::from_utf8(line) else {
            return Err(Malformed::NotText);
        };
        Vector::read(heap, Fields::cut(heap, text)?)
    }
}
