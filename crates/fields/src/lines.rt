//! Lines that are written as a whole.
ghost use Rattle.std.specs.Prelude.{◌≡◌, [], true, IfOk, IfErr, OnOk};
ghost use Rattle.std.specs.Io.BufRead.{ends_with_byte};
ghost use Rattle.std.specs.Io.Buffered.{writer_buffer, writer_capacity, writer_contents};
ghost use Rattle.std.specs.Io.KnownBytes.{Appends, Keeps};
ghost use Rattle.std.specs.IoError.{error_kind};

use std::alloc::Global;
use std::io;
use std::io::{BufWriter, ErrorKind, Write};

/// A writer that holds back the pieces of a line until one ends it, and then writes the line out: in one write, if it has at most 1,024 bytes and nothing was
/// held before it. What is still held when the writer is let go is not written: a line whose writing failed is not tried again.
// The library's `LineWriter` looks at each byte of each piece for the end of a line, which takes up to half as long again where a line has many pieces.
pub struct Lines<W: Write + Drop> {
    held: BufWriter<W>,
}

impl<W: Write + Drop> Lines<W> {
    /// Lines that go to this writer.
    pub fn new(heap: Global, writer: W) -> io::Result<Self>
        ensures bytes { IfOk result (λ lines. Keeps (W.contents writer) (writer_contents W.contents lines.held)) }
        ensures empty { IfOk result (λ lines. writer_buffer lines.held ≡ []) }
        ensures room { IfOk result (λ lines. writer_capacity lines.held ≡ 1024) }
        ensures err { IfErr result (λ e. error_kind e ≡ ErrorKind.OutOfMemory) }
    {
        let held = BufWriter::with_capacity(heap, 1024, writer)?;
        Ok(Lines { held })
    }
}

impl<W: Write + Drop> Write for Lines<W> {
    ghost contents = { λ lines. writer_contents W.contents lines.held };

    /// Holds a piece back, whatever it ends with: if writing it out failed, nobody would know that it was taken.
    fn write(&mut self, bytes: &[u8]) -> io::Result<usize> {
        self.held.write(bytes)
    }

    /// Writes out what is held back.
    fn flush(&mut self) -> io::Result<()>
        ensures bytes { Keeps (writer_contents W.contents self.old.held) (writer_contents W.contents self.new.held) }
        ensures empty { OnOk result (writer_buffer self.new.held ≡ []) }
    {
        self.held.flush()
    }

    /// Holds a piece back, and writes out what is held if the piece ends a line.
    fn write_all(&mut self, bytes: &[u8]) -> io::Result<()>
        ensures bytes { OnOk result (Appends (writer_contents W.contents self.old.held) (writer_contents W.contents self.new.held) bytes.now) }
        ensures line { OnOk result (ends_with_byte 10 bytes.now ≡ true → writer_buffer self.new.held ≡ []) }
    {
        self.held.write_all(bytes)?;
        if bytes.ends_with(b"\n".as_slice()) {
            self.flush()?;
        }
        Ok(())
    }
}

impl<W: Write + Drop> Drop for Lines<W> {
    fn drop(self) {
        let Lines { held } = self;
        let _ = held.into_parts();
    }
}

#[cfg(test)]
mod tests {
    use super::*;

    /// How often it was written to, and what.
    #[derive(Drop)]
    struct Noted {
        writes: usize,
        text: Vec<u8>,
    }

    impl Write for Noted {
        fn write(&mut self, bytes: &[u8]) -> io::Result<usize> {
            self.writes = self.writes.saturating_add(1);
            self.text.extend_from_slice(bytes)?;
            Ok(bytes.len())
        }

        fn flush(&mut self) -> io::Result<()> {
            Ok(())
        }
    }

    #[test]
    fn a_line_is_one_write(rt: HostRuntime) -> io::Result<()> {
        let mut noted = Noted {
            writes: 0,
            text: Vec::new(rt.alloc()),
        };
        let mut lines = Lines::new(rt.alloc(), &mut noted)?;
        for number in 1..4u8 {
            writeln!(lines, "line {number}: {}", "no message")?;
        }
        write!(lines, "no end")?;
        lines.flush()?;
        write!(lines, "let go")?;
        drop(lines);
        assert_eq!(rt; noted.writes, 4);
        assert_eq!(rt;
            noted.text.as_slice(),
            b"line 1: no message\nline 2: no message\nline 3: no message\nno end".as_slice()
        );
        Ok(())
    }
}
