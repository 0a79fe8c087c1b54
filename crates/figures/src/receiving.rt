//! Known figures of a receiver: what it withholds, and when it hands out again.
ghost use Rattle.std.specs.Prelude.{◌≡◌, true, MatchResult};
ghost use Rattle.figures.specs.Figures.{after_sealed};

use functions::{FromKey, PrintedTable};
use link::{Answer, Receiver};
use sss::Fault;

/// A new receiver over the key 00 and the printed table, after so many sealed words.
fn after_sealed(words: u8) -> Result<Receiver<FromKey, PrintedTable>, Fault>
    ensures { MatchResult result (λ r. r.footing.reception ≡ after_sealed words) (λ _. ⊥) }
{
    let mut receiver = Receiver::new(FromKey::of(&[0x00])?, PrintedTable);
    for _ in 0..words {
        let _ = receiver.word(0xFFFF, 0x8218);
    }
    Ok(receiver)
}

/// A new receiver withholds the sixteenth and the seventeenth sealed word with rows 16 and 17, and hands out the eighteenth.
pub(crate) fn seventeen_sealed() -> Result<bool, Fault>
    ensures { result ≡ Ok true }
{
    let mut receiver = after_sealed(15)?;
    let sixteenth = receiver.word(0xFFFF, 0x8218);
    let seventeenth = receiver.word(0xFFFF, 0x8218);
    let eighteenth = receiver.word(0xFFFF, 0x8218);
    Ok(
        (sixteenth == Answer::Withheld(16))
            & (seventeenth == Answer::Withheld(17))
            & matches!(eighteenth, Answer::Reading(_)),
    )
}

/// An open word after ten sealed ones sets the row to 0, and is withheld.
pub(crate) fn open_after_ten() -> Result<bool, Fault>
    ensures { result ≡ Ok true }
{
    Ok(after_sealed(10)?.word(0x0000, 0x1234) == Answer::Withheld(0))
}
