//! The bytes that a field stands for.
ghost use Rattle.std.specs.Prelude.{◌≡◌, Some, MatchResult};
ghost use Rattle.std.specs.List.{list_all};
ghost use Rattle.hex.specs.Hex.{is_hex_digit};
ghost use Rattle.fields.specs.Reading.{FieldBytes, NoBytes, fault_of};
ghost use Rattle.fields.specs.Texts.{not_bytes_text};

use hex::FromHexError;
use std::alloc::Global;
use std::fmt;

/// Why reading the text of a field failed.
#[derive(Clone, Copy, Debug)]
pub enum NotBytes {
    /// The text has no character at all.
    NoDigits,
    /// The last digit has no partner.
    OddDigits,
    /// A character is not one of `0` to `9`, `a` to `f` and `A` to `F`.
    NotADigit,
    /// There was no memory to hold the bytes.
    NoMemory,
}

impl fmt::Display for NotBytes {
    ghost output = { λ why. Some (not_bytes_text why) };

    fn fmt<W: fmt::Write>(&self, f: &mut fmt::Formatter<W>) -> fmt::Result {
        match self {
            NotBytes::NoDigits => write!(f, "no digits, where an empty field is written -"),
            NotBytes::OddDigits => write!(f, "an odd number of digits"),
            NotBytes::NotADigit => write!(f, "a digit that is not hex"),
            NotBytes::NoMemory => write!(f, "no memory to read it"),
        }
    }
}

impl From<FromHexError> for NotBytes {
    ghost from_gives = { λ e r. r ≡ fault_of e };

    fn from(e: FromHexError) -> NotBytes {
        match e {
            FromHexError::OddLength | FromHexError::InvalidStringLength => NotBytes::OddDigits,
            FromHexError::InvalidHexCharacter { .. } => NotBytes::NotADigit,
            FromHexError::OutOfMemory => NotBytes::NoMemory,
        }
    }
}

/// The bytes of a field: two hex digits a byte, in either case, or `-` for none.
pub fn bytes(heap: Global, text: &str) -> Result<Vec<u8>, NotBytes>
    ensures { MatchResult result (λ v. FieldBytes text.now v.items) (NoBytes text.now) }
{
    match text {
        "" => Err(NotBytes::NoDigits),
        "-" => Ok(Vec::new(heap)),
        // `decode` makes room for all the bytes before it reads a digit, so a bad one is refused here.
        digits if digits.len() % 2 == 0 && !all_hex(digits) => Err(NotBytes::NotADigit),
        digits => Ok(hex::decode(heap, digits.as_bytes())?),
    }
}

/// Whether each character is a hex digit, in either case.
fn all_hex(text: &str) -> bool
    ensures { result ≡ list_all is_hex_digit text.now }
{
    // No early way out, so that the loop tests many characters at a time: nearly every text has no bad one.
    let mut all = true;
    for byte in text.as_bytes() {
        all &= byte.is_ascii_hexdigit();
    }
    all
}
