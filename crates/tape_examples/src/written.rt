//! Two commands, written and read back.
ghost use Rattle.tape_examples.specs.Written.{ReadBack};

use tape::{Command, Reader, Writer};

/// The bytes of a break and a sealed word, as a writer writes them; a reader of them answers both commands.
pub fn read_back() -> [u8; 4]
    ensures { ReadBack result }
{
    let mut tape = [0; 4];
    let mut writer = Writer::new(&mut tape);
    let first = writer.write(Command::Break);
    let second = writer.write(Command::Sealed(0x1234));
    if first.is_err() || second.is_err() {
        unreachable!()
    }
    let _ = Reader::new(writer.written());
    tape
}
