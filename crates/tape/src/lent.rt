//! The listing of an input in a lent buffer, with nothing allocated.
ghost use Rattle.std.specs.Prelude.{◌≡◌, ◌<◌, false, [], ◌∷◌, ◌++◌};
ghost use Rattle.std.specs.Fmt.{decimal, digit_glyph};
ghost use Rattle.sss.specs.Bytes.{hex_of_word};
ghost use Rattle.link.specs.Receiving.{answer_text, verdict_text};
ghost use Rattle.tape.specs.Lent.{ListsInto, Puts, PutsLines, PutsListing};
ghost use Rattle.tape.specs.Lines.{fault_text, line_text};

use crate::line::Line;
use crate::replay::Replay;
use itoa::Buffer;
use link::{Answer, Verdict};
use sss::{Coefficient, Fault, KeyedFunction, Layer};

/// Puts a piece of text into a buffer at this place, and gives the place behind it. Where it does not fit, `None`.
fn put(text: &mut [u8], start: usize, piece: &[u8]) -> Option<usize>
    ensures { Puts text.old start piece.now result text.new }
{
    let end = start.checked_add(piece.len())?;
    if end > text.len() {
        return None;
    }
    text[start..end].copy_from_slice(piece);
    Some(end)
}

/// A number in decimal.
fn put_decimal(text: &mut [u8], start: usize, number: usize) -> Option<usize>
    ensures { Puts text.old start (decimal number) result text.new }
{
    put(text, start, Buffer::new().format(number).as_bytes())
}

/// A place in decimal, and a word behind it.
#[tactic(auto, using(crate::proofs::Placed::puts_both))]
fn put_place(text: &mut [u8], start: usize, place: usize, word: &[u8]) -> Option<usize>
    ensures { Puts text.old start (decimal place ++ word.now) result text.new }
{
    let end = put_decimal(text, start, place)?;
    put(text, end, word)
}

/// A word, and a number in decimal behind it.
#[tactic(auto, using(crate::proofs::Placed::puts_both))]
fn put_counted(text: &mut [u8], start: usize, word: &[u8], number: usize) -> Option<usize>
    ensures { Puts text.old start (word.now ++ decimal number) result text.new }
{
    let place = put(text, start, word)?;
    put_decimal(text, place, number)
}

/// A hexadecimal digit, in lower case.
fn digit(value: u8) -> u8
    requires { value < 16 }
    ensures { result ≡ digit_glyph false value }
{
    if value < 10 {
        b'0' + value
    } else {
        b'a' - 10 + value
    }
}

/// A word in four hexadecimal digits, the high byte first.
fn digits(word: u16) -> [u8; 4]
    ensures { result ≡ hex_of_word word }
{
    let [high, low] = word.to_be_bytes();
    [
        digit(high / 16),
        digit(high % 16),
        digit(low / 16),
        digit(low % 16),
    ]
}

/// An answer.
fn put_answer(text: &mut [u8], start: usize, answer: Answer) -> Option<usize>
    ensures { Puts text.old start (answer_text answer) result text.new }
{
    match answer {
        Answer::Reading(plain) => {
            let place = put(text, start, b"reading ")?;
            put(text, place, &digits(plain))
        }
        Answer::Withheld(row) => put_counted(text, start, b"withheld ", usize::from(row)),
    }
}

/// A verdict.
fn put_verdict(text: &mut [u8], start: usize, verdict: Verdict) -> Option<usize>
    ensures { Puts text.old start (verdict_text verdict) result text.new }
{
    match verdict {
        Verdict::Agrees => put(text, start, b"agrees"),
        Verdict::Differs => put(text, start, b"differs"),
        Verdict::Broken => put(text, start, b"broken"),
    }
}

/// A refusal.
fn put_fault(text: &mut [u8], start: usize, fault: Fault) -> Option<usize>
    ensures { Puts text.old start (fault_text fault) result text.new }
{
    let place = put_counted(text, start, b"refused ", usize::from(fault.number()))?;
    match fault.layer() {
        Layer::Key | Layer::Message => Some(place),
        Layer::Tape => put_counted(text, place, b" at ", fault.place()),
    }
}

/// A line, without its end.
#[tactic(auto, using(crate::proofs::Placed::puts_both))]
fn put_words(text: &mut [u8], start: usize, line: &Line) -> Option<usize>
    ensures { Puts text.old start (line_text line.now) result text.new }
{
    match *line {
        Line::Nonce { place } => put_place(text, start, place, b" nonce"),
        Line::Word { place, answer } => {
            let end = put_place(text, start, place, b" ")?;
            put_answer(text, end, answer)
        }
        Line::Break { place } => put_place(text, start, place, b" break"),
        Line::Tag { place, verdict } => {
            let end = put_place(text, start, place, b" ")?;
            put_verdict(text, end, verdict)
        }
        Line::End { length } => put_counted(text, start, b"end ", length),
        Line::Refused(fault) => put_fault(text, start, fault),
    }
}

/// A line, and its end, 0x0A.
#[tactic(auto, using(crate::proofs::Placed::puts_both))]
fn put_line(text: &mut [u8], start: usize, line: &Line) -> Option<usize>
    ensures { Puts text.old start (line_text line.now ++ 0x0A ∷ []) result text.new }
{
    let end = put_words(text, start, line)?;
    put(text, end, b"\n")
}

/// The lines of a replay, at the start of a buffer. The replay goes on to its end even where they do not fit.
fn put_lines<K: KeyedFunction + Drop, C: Coefficient + Drop>(
    text: &mut [u8],
    replay: Replay<'_, K, C>,
) -> Option<usize>
    ensures { PutsLines K.KeyedFunction C.Coefficient replay.entry text.old result text.new }
{
    let mut end = Some(0);
    for line in replay {
        end = match end {
            Some(start) => put_line(text, start, &line),
            None => None,
        };
    }
    end
}

/// The listing of an input, at the start of a buffer.
fn put_listing(text: &mut [u8], input: &[u8]) -> Option<usize>
    ensures { PutsListing input.now text.old result text.new }
{
    match Replay::of_input(input) {
        Ok(replay) => put_lines(text, replay),
        Err(fault) => put_line(text, 0, &Line::Refused(fault)),
    }
}

/// The listing of an input into a lent buffer, and how long its text is. Where the text does not fit, `None`, and the buffer is zero.
#[tactic(auto, using(crate::proofs::ListedInto::listed_into, crate::proofs::ListedInto::refused_into))]
pub fn list_into(input: &[u8], text: &mut [u8]) -> Option<usize>
    ensures { ListsInto input.now text.old result text.new }
{
    let length = put_listing(text, input);
    if length.is_none() {
        text.fill(0);
    }
    length
}
