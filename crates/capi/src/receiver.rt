//! A receiver in the caller's memory, word by word.
ghost use Rattle.std.specs.Prelude.{◌≡◌, length, MatchResult};
ghost use Rattle.sss.specs.Cipher.{KeyFits, words_of};
ghost use Rattle.capi.specs.Calls.{WhereFits, done, number_answered};
ghost use Rattle.capi.specs.Receivers.{LostWithholds, SetUp, answer_given, begin_due, break_due, finish_due, new_receiver, verdict_number, word_due, written};

use crate::answer::number;
use crate::standing::{put_down, take_up};
use functions::FromKey;
use link::{Answer, Verdict};
use sss::{Fault, tag_of_bytes};

/// The number of the verdict that a tag agrees.
const AGREES: u8 = 1;

/// The number of the verdict that it differs.
const DIFFERS: u8 = 2;

/// The number of the verdict that the message is broken.
const BROKEN: u8 = 3;

/// A receiver: its registers, its key, and where it stands.
#[derive(Drop)]
#[repr(C)]
pub struct FutsambolyReceiver {
    pub cipher: [u16; 17],
    pub check: [u16; 17],
    pub key: [u8; 16],
    pub key_length: u8,
    pub state: u8,
}

/// What a receiver says to a word.
#[derive(Clone, Copy)]
#[repr(C)]
pub struct FutsambolyAnswer {
    pub reading: u16,
    pub handed_out: u8,
    pub row: u8,
}

/// Sets a new receiver up with a key: lost with row 0, its registers zero. Refuses a key that does not fit (1), and the receiver is as found.
#[unsafe(no_mangle)]
pub extern "C" fn futsamboly_receiver_new(receiver: &mut FutsambolyReceiver, key: &[u8]) -> u32
    ensures { WhereFits (KeyFits key.now) Fault.Key receiver.old (done (new_receiver key.now)) result receiver.new }
{
    number(set_up(receiver, key))
}

/// A message begins: the receiver is whole. Refuses where no receiver was set up (1) and a nonce that does not fit (3), and nothing is changed.
#[unsafe(no_mangle)]
pub extern "C" fn futsamboly_receiver_begin(receiver: &mut FutsambolyReceiver, nonce: &[u8]) -> u32
    ensures { WhereFits (SetUp receiver.old) Fault.Key receiver.old (begin_due nonce.now receiver.old) result receiver.new }
{
    number(begin(receiver, nonce))
}

/// A word came: its reading, or that it is withheld and with which row. Refuses where no receiver was set up (1), and nothing is changed.
#[unsafe(no_mangle)]
pub extern "C" fn futsamboly_receiver_word(
    receiver: &mut FutsambolyReceiver,
    mask: u16,
    wire: u16,
    answer: &mut FutsambolyAnswer,
) -> u32
    ensures outcome { WhereFits (SetUp receiver.old) Fault.Key (written receiver.old answer.old) (word_due mask wire receiver.old) result (written receiver.new answer.new) }
    ensures withheld { LostWithholds receiver.old answer.new }
{
    number(word(receiver, mask, wire, answer))
}

/// Words were lost: the receiver is lost with row 0. Refuses where none was set up (1), and nothing is changed.
#[unsafe(no_mangle)]
pub extern "C" fn futsamboly_receiver_break(receiver: &mut FutsambolyReceiver) -> u32
    ensures { WhereFits (SetUp receiver.old) Fault.Key receiver.old (break_due receiver.old) result receiver.new }
{
    number(break_off(receiver))
}

/// A tag came: the verdict, by its number. Refuses where no receiver was set up (1) and a tag that has not 16 bytes (9), and nothing is changed.
#[unsafe(no_mangle)]
pub extern "C" fn futsamboly_receiver_finish(
    receiver: &mut FutsambolyReceiver,
    tag: &[u8],
    verdict: &mut u8,
) -> u32
    ensures { WhereFits (SetUp receiver.old) Fault.Key (written receiver.old verdict.old) (finish_due tag.now (written receiver.old verdict.old)) result (written receiver.new verdict.new) }
{
    number(finish(receiver, tag, verdict))
}

/// Sets a receiver up with a key of 1 to 16 bytes. Any other is refused, and the receiver stays.
fn set_up(receiver: &mut FutsambolyReceiver, key: &[u8]) -> Result<(), Fault>
    ensures { WhereFits (KeyFits key.now) Fault.Key receiver.old (done (new_receiver key.now)) (number_answered result) receiver.new }
{
    FromKey::of(key)?;
    let mut bytes = [0; 16];
    bytes[..key.len()].copy_from_slice(key);
    *receiver = FutsambolyReceiver {
        cipher: [0; 17],
        check: [0; 17],
        key: bytes,
        key_length: key.len() as u8,
        state: 0,
    };
    Ok(())
}

/// Takes the receiver up, begins a message with it, and puts it down.
fn begin(receiver: &mut FutsambolyReceiver, nonce: &[u8]) -> Result<(), Fault>
    ensures { WhereFits (SetUp receiver.old) Fault.Key receiver.old (begin_due nonce.now receiver.old) (number_answered result) receiver.new }
{
    let mut linked = take_up(receiver)?;
    linked.begin(nonce)?;
    put_down(receiver, &linked);
    Ok(())
}

/// Takes the receiver up, takes a word with it, and puts it down.
fn word(
    receiver: &mut FutsambolyReceiver,
    mask: u16,
    wire: u16,
    answer: &mut FutsambolyAnswer,
) -> Result<(), Fault>
    ensures { WhereFits (SetUp receiver.old) Fault.Key (written receiver.old answer.old) (word_due mask wire receiver.old) (number_answered result) (written receiver.new answer.new) }
{
    let mut linked = take_up(receiver)?;
    *answer = answer_given(linked.word(mask, wire));
    put_down(receiver, &linked);
    Ok(())
}

/// Takes the receiver up, breaks off, and puts it down.
fn break_off(receiver: &mut FutsambolyReceiver) -> Result<(), Fault>
    ensures { WhereFits (SetUp receiver.old) Fault.Key receiver.old (break_due receiver.old) (number_answered result) receiver.new }
{
    let mut linked = take_up(receiver)?;
    linked.break_off();
    put_down(receiver, &linked);
    Ok(())
}

/// Takes the receiver up, ends the message with its tag, and puts it down.
fn finish(receiver: &mut FutsambolyReceiver, tag: &[u8], verdict: &mut u8) -> Result<(), Fault>
    ensures { WhereFits (SetUp receiver.old) Fault.Key (written receiver.old verdict.old) (finish_due tag.now (written receiver.old verdict.old)) (number_answered result) (written receiver.new verdict.new) }
{
    let mut linked = take_up(receiver)?;
    let words = tag_words(tag)?;
    *verdict = verdict_number(linked.finish(words));
    put_down(receiver, &linked);
    Ok(())
}

/// An answer as C is given it.
fn answer_given(answer: Answer) -> FutsambolyAnswer
    ensures { result ≡ answer_given answer }
{
    match answer {
        Answer::Reading(reading) => FutsambolyAnswer {
            reading,
            handed_out: 1,
            row: 0,
        },
        Answer::Withheld(row) => FutsambolyAnswer {
            reading: 0,
            handed_out: 0,
            row,
        },
    }
}

/// The number of a verdict.
fn verdict_number(verdict: Verdict) -> u8
    ensures { result ≡ verdict_number verdict }
{
    match verdict {
        Verdict::Agrees => AGREES,
        Verdict::Differs => DIFFERS,
        Verdict::Broken => BROKEN,
    }
}

/// The eight words of a tag of 16 bytes. Any other is refused.
fn tag_words(tag: &[u8]) -> Result<[u16; 8], Fault>
    ensures { MatchResult result (λ words. (length tag.now ≡ 16) × (words ≡ words_of tag.now)) (λ fault. (length tag.now ≡ 16 → ⊥) × (fault ≡ Fault.TagLength)) }
{
    let bytes = tag.try_into().map_err(|_| Fault::TagLength)?;
    Ok(tag_of_bytes(bytes))
}
