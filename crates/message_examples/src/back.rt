//! A message that comes back: sealed with one function, and opened with one of another make.
ghost use Rattle.message_examples.specs.Instances.{CameBack, IsSealed};

use functions::{FieldRule, FilledTable, FromKey, LazyTable, PrintedTable};
use link::Issuer;
use message::{open, seal};

/// A sealed, an open and a part word.
const MASKS: [u8; 6] = [0xFF, 0xFF, 0x00, 0x00, 0xFF, 0x0F];

const PLAIN: [u8; 6] = [0xAC, 0x03, 0xD0, 0x07, 0xD1, 0x03];

/// A message of the three words: its nonce, its bytes on the wire, its tag.
struct Sealed {
    nonce: [u8; 6],
    wire: [u8; 6],
    tag: [u8; 16],
}

/// Seals the three words with the first nonce of run 1.
fn seal_three() -> Sealed
    ensures { IsSealed result.nonce result.wire result.tag }
{
    let Ok(nonce) = Issuer::new(1).draw() else {
        unreachable!()
    };
    let nonce_bytes = nonce.bytes();
    let mut f = FilledTable::new();
    let mut wire = [0; 6];
    let mut tag = [0; 16];
    match seal(
        &mut f,
        &PrintedTable,
        nonce,
        &MASKS,
        &PLAIN,
        &mut wire,
        &mut tag,
    ) {
        Ok(()) => Sealed {
            nonce: nonce_bytes,
            wire,
            tag,
        },
        Err(_) => unreachable!(),
    }
}

/// What the three words come back as.
pub fn came_back() -> [u8; 6]
    ensures { CameBack result }
{
    let Sealed { nonce, wire, tag } = seal_three();
    let mut f = LazyTable::new(FromKey::new());
    let mut back = [0xA5; 6];
    match open(&mut f, &FieldRule, &nonce, &MASKS, &wire, &mut back, &tag) {
        Ok(()) => back,
        Err(_) => unreachable!(),
    }
}
