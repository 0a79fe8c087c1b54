//! The report: what is seen in a run, in lines, and the text around them.
ghost use Rattle.std.specs.Prelude.{IfOk, Some};
ghost use Rattle.weld.specs.Lines.{TellAll};
ghost use Rattle.weld.specs.Texts.{lines_text, opening_text, report_text};

use crate::Findings;
use crate::failure::Failure;
use crate::line::Line;
use crate::passage::Event;
use crate::scenario::RUN;
use std::alloc::Global;
use std::fmt;

/// The lines that tell what is seen: each thing is told in the last line, where that tells of consecutive words that it carries on, or in a
/// line of its own.
pub(crate) fn lines(heap: Global, events: &[Event]) -> Result<Vec<Line>, Failure>
    ensures { IfOk result (λ v. TellAll events.now v.items) }
{
    let mut lines: Vec<Line> = Vec::new(heap);
    for event in events {
        let told = match lines.last_mut() {
            Some(line) => line.takes(event),
            None => false,
        };
        if !told {
            lines.push(Line::from(event))?;
        }
    }
    Ok(lines)
}

/// What stands first: what the report is of, and how to read it.
#[derive(Clone, Copy)]
struct Opening;

impl fmt::Display for Opening {
    ghost output = { λ _. Some opening_text };

    fn fmt<W: fmt::Write>(&self, f: &mut fmt::Formatter<W>) -> fmt::Result {
        write!(
            f,
            "known figures of cipher and link: all as published\n\
             run {RUN}: wall thicknesses in hundredths of a millimetre, in hex, sealed at one end of the link and received at the other\n\
             words count from 0 in each message; a word is sealed unless it is open (a milestone, in metres) or part (the bits of its mask)\n\
             withheld ROW: after a loss no reading is handed out until 17 sealed words in a row have come, and ROW of them have\n\
             false: a reading that is not the plaintext which was sealed\n\
             last line: the words that the sealer took, under any mask; of these the received; of those the handed out and the withheld; and the false\n"
        )
    }
}

/// Lines to print, each with its end.
#[derive(Clone, Copy)]
struct Body<'a>(&'a [Line]);

impl fmt::Display for Body<'_> {
    ghost output = { λ body. Some (lines_text body.0.now) };

    fn fmt<W: fmt::Write>(&self, f: &mut fmt::Formatter<W>) -> fmt::Result {
        for line in self.0 {
            writeln!(f, "{line}")?;
        }
        Ok(())
    }
}

impl fmt::Display for Findings {
    ghost output = { λ findings. Some (report_text findings) };

    fn fmt<W: fmt::Write>(&self, f: &mut fmt::Formatter<W>) -> fmt::Result {
        let body = Body(&self.lines);
        let Findings { tally, spot, .. } = self;
        write!(f, "{Opening}{body}{spot}\n{tally}")
    }
}
