//! A message of one word, sealed by hand and not by a list of calls.
ghost use Rattle.std.specs.Prelude.{MatchResult, Some};
ghost use Rattle.link.specs.Issuing.{nonce_bytes};
ghost use Rattle.weld.specs.Alone.{SealedAlone};
ghost use Rattle.weld.specs.Scenario.{the_key};
ghost use Rattle.weld.specs.Texts.{spot_text};

use crate::failure::Failure;
use crate::hex::HexWord;
use crate::scenario::KEY;
use fields::Tag;
use functions::{FilledTable, PrintedTable};
use link::{Nonce, ReadySealer};
use sss::SEALED;
use std::fmt;

/// The word, its wire word and the message's tag.
#[derive(Clone, Copy)]
pub struct SpotCheck {
    plain: u16,
    wire: u16,
    tag: [u16; 8],
}

/// Begins a message, seals one word of it and finishes it.
pub(crate) fn spot_check(nonce: Nonce, plain: u16) -> Result<SpotCheck, Failure>
    ensures { MatchResult result (SealedAlone the_key (nonce_bytes nonce) plain) (λ _. ⊥) }
{
    let ready = ReadySealer::new(FilledTable::of(&KEY)?, PrintedTable);
    let mut message = ready.begin(nonce);
    let wire = message.word(SEALED, plain)?;
    let (_, tag) = message.finish();
    Ok(SpotCheck { plain, wire, tag })
}

impl fmt::Display for SpotCheck {
    ghost output = { λ spot. Some (spot_text spot) };

    fn fmt<W: fmt::Write>(&self, f: &mut fmt::Formatter<W>) -> fmt::Result {
        let plain = HexWord(self.plain);
        let wire = HexWord(self.wire);
        let tag = Tag(self.tag);
        write!(
            f,
            "a message of one word, sealed call by call, not sent across the joint and in no count: plaintext {plain}, wire {wire}, tag {tag}"
        )
    }
}
